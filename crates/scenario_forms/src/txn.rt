//! Transaction objects.
ghost use Rattle.std.specs.Prelude.{◌≡◌, ◌≤◌, ◌<◌, ◌^◌, ℤ, List, [], codes, length, string_bytes, map, if◌then◌else◌, is_some, Option, None, Ok};
ghost use Rattle.std.specs.List.{list_all};
ghost use Rattle.std.specs.BTreeMap.{keys};
ghost use Rattle.name_table.specs.Places.{place_in};
ghost use Rattle.serde_json.specs.View.{view, items_view};
ghost use Rattle.serde_json.specs.Find.{get};
ghost use Rattle.scenario_forms.specs.declared.error.TxnMember.TheVariants as members;
ghost use Rattle.scenario_forms.specs.Reading.{◌>>=◌ as bind, Gives, GivesBy, member_at, member_or, needed, fold_at};
ghost use Rattle.scenario_forms.specs.Fields.{whole, no_others};
ghost use Rattle.scenario_forms.specs.Ops.{KnownOp, op_view};
ghost use Rattle.scenario_forms.specs.Txns.{is_number_member, is_array_member, is_txn_member, txn_name, times_at, absent, fixed_at, counted_at, eager_at, releases_at, names_at, samples_at, script_at, txn_view, txn_at, txn_step, with_txn, no_txns_yet, txns_view};

use crate::arrays::{Owner, items_named, samples, script, ticks};
use crate::error::{FormError, Place, TxnMember};
use crate::fields::{array_or, need, number, number_or, small};
use crate::item::name_at;
use crate::ops::ReadOp;
use name_table::NameTable;
use rt_base::{ItemId, List, Name, Prio};
use serde_json::{Map, Value};
use std::alloc::Global;
use step_script::Releases;

const LAST_PRIO: u32 = 1 << 31;

const LONGEST: u64 = 1 << 40;

const MOST_JOBS: u32 = 1 << 31;

/// The numbers of a transaction: its priority, its times in ticks, and its steps.
#[derive(Clone, Copy)]
pub struct Times {
    pub prio: Prio,
    pub period: u64,
    pub offset: u64,
    pub deadline: u64,
    pub steps: u64,
    pub quiet: u64,
}

/// A transaction as it was read. None stands for a name that is no item's.
#[derive(Drop)]
pub struct ReadTxn {
    pub times: Times,
    pub reads: Vec<Option<ItemId>>,
    pub writes: Vec<Option<ItemId>>,
    pub releases: Releases,
    pub samples: Vec<i64>,
    pub script: Vec<ReadOp>,
}

/// The transactions of a scenario by their names.
#[derive(Drop)]
pub struct TxnTable {
    pub names: NameTable,
    pub txns: Vec<ReadTxn>,
}

fn is_number(text: &str) -> bool
    ensures { result ≡ is_number_member text.now }
{
    match text {
        "name" | "priority" | "period" | "offset" | "deadline" | "steps" => true,
        _ => false,
    }
}

fn is_array(text: &str) -> bool
    ensures { result ≡ is_array_member text.now }
{
    match text {
        "reads" | "writes" | "releases" | "jobs" | "eager" | "samples" | "script" => true,
        _ => false,
    }
}

// Quiet is a member in version 2 alone.
fn is_member(second: bool, text: &str) -> bool
    ensures { result ≡ is_txn_member second text.now }
{
    is_number(text) || is_array(text) || second && text == "quiet"
}

fn are_members(second: bool, members: &Map<String, Value>) -> bool
    ensures { result ≡ list_all (λ k. is_txn_member second (string_bytes k)) (keys members.now) }
{
    members.keys().all(|k| is_member(second, k.as_str()))
}

fn is_txn(second: bool, value: &Value) -> bool
    ensures { result ≡ no_others (is_txn_member second) (view value.now) }
{
    match value.as_object() {
        Some(members) => are_members(second, members),
        None => false,
    }
}

fn of_txn(i: usize, member: TxnMember) -> Place
    ensures { result ≡ Place.TxnMember i member }
{
    Place::TxnMember { i, member }
}

// The last three of the times, behind the numbers that are given.
fn with_last_numbers(
    i: usize,
    prio: Prio,
    period: u64,
    offset: u64,
    value: &Value,
) -> Result<Times, FormError>
    ensures { result ≡ bind
        (member_or period (Place.TxnMember i members.Deadline) (whole 0 (2 ^ 40)) (codes "deadline") (view value.now))
        (λ deadline. bind
        (member_at (Place.TxnMember i members.Steps) (whole 0 (2 ^ 40)) (codes "steps") (view value.now))
        (λ steps. bind
        (member_or 0 (Place.TxnMember i members.Quiet) (whole 0 (2 ^ 40)) (codes "quiet") (view value.now))
        (λ quiet. Ok (record {
          prio = prio;
          period = period;
          offset = offset;
          deadline = deadline;
          steps = steps;
          quiet = quiet;
        })))) }
{
    let deadline = number_or(
        of_txn(i, TxnMember::Deadline),
        LONGEST,
        period,
        "deadline",
        value,
    )?;
    let steps = number(of_txn(i, TxnMember::Steps), 0, LONGEST, "steps", value)?;
    let quiet = number_or(of_txn(i, TxnMember::Quiet), LONGEST, 0, "quiet", value)?;
    Ok(Times {
        prio,
        period,
        offset,
        deadline,
        steps,
        quiet,
    })
}

#[tactic(auto, unfolding(crate::specs::Txns::times_at))]
fn numbers(i: usize, value: &Value) -> Result<Times, FormError>
    ensures { result ≡ times_at i (view value.now) }
{
    let prio = small(
        of_txn(i, TxnMember::Priority),
        0,
        LAST_PRIO,
        "priority",
        value,
    )?;
    let period = number(of_txn(i, TxnMember::Period), 0, LONGEST, "period", value)?;
    let offset = number_or(of_txn(i, TxnMember::Offset), LONGEST, 0, "offset", value)?;
    with_last_numbers(i, prio, period, offset, value)
}

// That there is no such member.
fn none_of(place: Place, name: &str, value: &Value) -> Result<(), FormError>
    ensures { result ≡ absent place name.now (view value.now) }
{
    need(
        place,
        if value.get(name).is_none() {
            Some(())
        } else {
            None
        },
    )
}

// That the releases are neither counted nor eager.
fn are_listed(i: usize, value: &Value) -> Result<(), FormError>
    ensures { result ≡ bind (absent (Place.TxnMember i members.Jobs) (codes "jobs") (view value.now))
        (λ none. absent (Place.TxnMember i members.Eager) (codes "eager") (view value.now)) }
{
    none_of(of_txn(i, TxnMember::Jobs), "jobs", value)?;
    none_of(of_txn(i, TxnMember::Eager), "eager", value)
}

#[tactic(auto, unfolding(crate::specs::Txns::fixed_at))]
fn fixed(alloc: Global, i: usize, value: &Value) -> Result<Releases, FormError>
    ensures { Gives result (fixed_at i (view value.now)) }
{
    let values = array_or(of_txn(i, TxnMember::Releases), "releases", value)?;
    let found = ticks(alloc, i, values)?;
    are_listed(i, value)?;
    Ok(Releases::At(List::of(found)))
}

#[tactic(auto, unfolding(crate::specs::Txns::counted_at))]
fn counted(i: usize, value: &Value) -> Result<Releases, FormError>
    ensures { result ≡ counted_at i (view value.now) }
{
    let count = small(of_txn(i, TxnMember::Jobs), 0, MOST_JOBS, "jobs", value)?;
    none_of(of_txn(i, TxnMember::Eager), "eager", value)?;
    Ok(Releases::Jobs(count))
}

#[tactic(auto, unfolding(crate::specs::Txns::eager_at))]
fn eager(i: usize, value: &Value) -> Result<Releases, FormError>
    ensures { result ≡ eager_at i (view value.now) }
{
    let count = small(of_txn(i, TxnMember::Eager), 0, MOST_JOBS, "eager", value)?;
    Ok(Releases::Eager(count))
}

// Jobs, else eager, else none.
fn unlisted(alloc: Global, i: usize, value: &Value) -> Result<Releases, FormError>
    ensures { Gives result
        (if is_some (get (codes "jobs") (view value.now)) then counted_at i (view value.now) else
        (if is_some (get (codes "eager") (view value.now)) then eager_at i (view value.now) else Ok (Releases.At []))) }
{
    if value.get("jobs").is_some() {
        counted(i, value)
    } else if value.get("eager").is_some() {
        eager(i, value)
    } else {
        Ok(Releases::At(List::of(Vec::new(alloc))))
    }
}

// Releases, else what is not a list of them.
#[tactic(auto, unfolding(crate::specs::Txns::releases_at))]
fn planned(alloc: Global, i: usize, value: &Value) -> Result<Releases, FormError>
    ensures { Gives result (releases_at i (view value.now)) }
{
    if value.get("releases").is_some() {
        fixed(alloc, i, value)
    } else {
        unlisted(alloc, i, value)
    }
}

#[tactic(auto, unfolding(crate::specs::Txns::names_at))]
fn names(
    alloc: Global,
    i: usize,
    member: TxnMember,
    name: &str,
    items: &NameTable,
    value: &Value,
) -> Result<Vec<Option<ItemId>>, FormError>
    ensures { GivesBy (λ v. v.items) result (names_at (place_in items.now) i member name.now (view value.now)) }
{
    let values = array_or(of_txn(i, member), name, value)?;
    items_named(alloc, Owner::Txn { i, member }, items, values)
}

#[tactic(auto, unfolding(crate::specs::Txns::samples_at))]
fn samples_of(alloc: Global, i: usize, value: &Value) -> Result<Vec<i64>, FormError>
    ensures { GivesBy (λ v. v.items) result (samples_at i (view value.now)) }
{
    let values = array_or(of_txn(i, TxnMember::Samples), "samples", value)?;
    samples(alloc, i, values)
}

#[tactic(auto, unfolding(crate::specs::Txns::script_at))]
fn script_of(
    alloc: Global,
    i: usize,
    items: &NameTable,
    value: &Value,
) -> Result<Vec<ReadOp>, FormError>
    ensures { GivesBy (λ v. map op_view v.items) result (script_at (place_in items.now) i (view value.now)) }
{
    let values = array_or(of_txn(i, TxnMember::Script), "script", value)?;
    script(alloc, i, items, values)
}

// The items that it reads and those that it writes.
fn accesses(
    alloc: Global,
    i: usize,
    items: &NameTable,
    value: &Value,
) -> Result<(Vec<Option<ItemId>>, Vec<Option<ItemId>>), FormError>
    ensures { GivesBy {B = List (Option ItemId) × List (Option ItemId)} (λ p. (p.0.items, p.1.items)) result
        (bind (names_at (place_in items.now) i members.Reads (codes "reads") (view value.now)) (λ reads. bind
        (names_at (place_in items.now) i members.Writes (codes "writes") (view value.now)) (λ writes.
        Ok (reads, writes)))) }
{
    let reads = names(alloc, i, TxnMember::Reads, "reads", items, value)?;
    let writes = names(alloc, i, TxnMember::Writes, "writes", items, value)?;
    Ok((reads, writes))
}

// The samples and the script.
fn inputs(
    alloc: Global,
    i: usize,
    items: &NameTable,
    value: &Value,
) -> Result<(Vec<i64>, Vec<ReadOp>), FormError>
    ensures { GivesBy {B = List ℤ × List KnownOp} (λ p. (p.0.items, map op_view p.1.items)) result
        (bind (samples_at i (view value.now)) (λ samples. bind
        (script_at (place_in items.now) i (view value.now)) (λ script. Ok (samples, script)))) }
{
    let samples = samples_of(alloc, i, value)?;
    let script = script_of(alloc, i, items, value)?;
    Ok((samples, script))
}

#[tactic(auto, unfolding(crate::specs::Txns::txn_at))]
fn txn(alloc: Global, i: usize, items: &NameTable, value: &Value) -> Result<ReadTxn, FormError>
    ensures { GivesBy txn_view result (txn_at (place_in items.now) i (view value.now)) }
{
    let times = numbers(i, value)?;
    let (reads, writes) = accesses(alloc, i, items, value)?;
    let releases = planned(alloc, i, value)?;
    let (samples, script) = inputs(alloc, i, items, value)?;
    Ok(ReadTxn {
        times,
        reads,
        writes,
        releases,
        samples,
        script,
    })
}

// The name, after the object itself.
#[tactic(auto, unfolding(crate::specs::Txns::txn_name))]
fn named(second: bool, i: usize, names: &NameTable, value: &Value) -> Result<Name, FormError>
    ensures { result ≡ txn_name second (place_in names.now) i (view value.now) }
{
    need(
        Place::Txn { i },
        if is_txn(second, value) {
            Some(())
        } else {
            None
        },
    )?;
    name_at(of_txn(i, TxnMember::Name), names, value)
}

// After Err the table may have the name alone.
fn put(alloc: Global, table: &mut TxnTable, name: &Name, txn: ReadTxn) -> Result<(), FormError>
    requires new { place_in table.old.names name.now ≡ None }
    requires room { length table.old.names < 2 ^ 32 }
    ensures { GivesBy (λ done. txns_view table.new) result
        (Ok (with_txn (txns_view table.old) name.now (txn_view txn))) }
{
    table.names.add(alloc, name)?;
    table.txns.push(txn)?;
    Ok(())
}

// One more transaction.
#[tactic(auto, unfolding(crate::specs::Txns::txn_step))]
fn add_txn(
    alloc: Global,
    second: bool,
    items: &NameTable,
    table: &mut TxnTable,
    value: &Value,
) -> Result<(), FormError>
    requires { length table.old.names < 2 ^ 32 }
    ensures { GivesBy (λ done. txns_view table.new) result
        (txn_step second (place_in items.now) (txns_view table.old) (view value.now)) }
{
    let name = named(second, table.names.len(), &table.names, value)?;
    let txn = txn(alloc, table.names.len(), items, value)?;
    put(alloc, table, &name, txn)
}

/// The transactions of an array. Of each name it takes two look-ups, and one of each item's that it names.
pub(crate) fn txns(
    alloc: Global,
    second: bool,
    items: &NameTable,
    values: &[Value],
) -> Result<TxnTable, FormError>
    requires { length values.now ≤ 2 ^ 32 }
    ensures { GivesBy txns_view result
        (fold_at (txn_step second (place_in items.now)) no_txns_yet (items_view values.now)) }
{
    let mut table = TxnTable {
        names: NameTable::new(alloc),
        txns: Vec::new(alloc),
    };
    for value in values {
        add_txn(alloc, second, items, &mut table, value)?;
    }
    Ok(table)
}
