//! The generated scenarios.
ghost use Rattle.std.specs.Prelude.{◌≡◌, ◌≤◌, ◌<◌, ◌+◌, ◌-◌, ◌*◌, ◌++◌, ◌∷◌, [], IfOk, codes, map, decimal, IsTrue, if◌then◌else◌};
ghost use Rattle.std.specs.List.{All, list_all};
ghost use Rattle.rt_base.specs.Names.{is_letter};
ghost use Rattle.step_script.specs.Scripts.{operation, program_of, IsTold, is_good};
ghost use Rattle.txn_set.specs.Set.{IsCompiled};
ghost use Rattle.step_script.specs.Shown.{shown, set_of};
ghost use Rattle.step_script.specs.Scenarios.{IsScenario};
ghost use Rattle.scenario_writer.specs.Generated.{item_id, generated_of, is_even as is_even_number, period_of, dated_name as name_of_dated, dated_item as dated_decl, state_item, txn_name, txn_decl as decl_of_txn, even_ops, odd_ops, program, releases_each, each};

use item_model::{ItemDecl, ItemKind};
use rt_base::{ItemId, List, Name, Names, OutOfMemory};
use std::alloc::Global;
use step_script::{BinOp, Expr, Releases, Scenario, Script, ScriptOp};
use txn_set::TxnDecl;

const JOBS_EACH: u32 = 256;

const STEPS: u64 = 4;

fn is_even(i: u32) -> bool
    ensures { result ≡ is_even_number i }
{
    i % 2 == 0
}

fn period(n: u32) -> u64
    requires { n ≤ 64 }
    ensures { result ≡ period_of n }
{
    8 * u64::from(n) + 8
}

// A letter and a number.
fn numbered(letter: u8, i: u32) -> Name
    requires letter { IsTrue (is_letter letter) }
    requires small { i < 64 }
    ensures { result ≡ letter ∷ decimal i }
{
    let mut buffer = itoa::Buffer::new();
    let digits = buffer.format(i).as_bytes();
    let end = 1 + digits.len();
    let mut text = [letter; 3];
    text[1..end].copy_from_slice(digits);
    match Name::new(&text[..end]) {
        Some(name) => name,
        None => unreachable!(),
    }
}

fn dated_name(i: u32) -> Name
    requires { i < 64 }
    ensures { result ≡ name_of_dated i }
{
    if is_even(i) {
        numbered(b's', i)
    } else {
        numbered(b'd', i)
    }
}

fn state_name() -> Name
    ensures { result ≡ codes "m" }
{
    match Name::new(b"m") {
        Some(name) => name,
        None => unreachable!(),
    }
}

#[tactic(auto, using(crate::proofs::Each::each_more))]
fn item_names(alloc: Global, n: u32) -> Result<Vec<Name>, OutOfMemory>
    requires { n ≤ 64 }
    ensures { IfOk result (λ names. names.items ≡ each name_of_dated n ++ codes "m" ∷ []) }
{
    let mut names = Vec::with_capacity(alloc, n as usize + 1)?;
    for i in 0..n {
        names.push(dated_name(i))?;
    }
    names.push(state_name())?;
    Ok(names)
}

#[tactic(auto, using(crate::proofs::Each::each_more))]
fn txn_names(alloc: Global, n: u32) -> Result<Vec<Name>, OutOfMemory>
    requires { n ≤ 64 }
    ensures { IfOk result (λ names. names.items ≡ each txn_name n) }
{
    let mut names = Vec::with_capacity(alloc, n as usize)?;
    for i in 0..n {
        names.push(numbered(b't', i))?;
    }
    Ok(names)
}

fn dated_item(n: u32, i: u32) -> ItemDecl
    requires { n ≤ 64 }
    ensures { result ≡ dated_decl n i }
{
    let validity = 4 * period(n);
    let kind = if is_even(i) {
        ItemKind::Sensor { validity }
    } else {
        ItemKind::Derived { validity }
    };
    ItemDecl { kind, initial: 0 }
}

fn items(alloc: Global, n: u32) -> Result<Vec<ItemDecl>, OutOfMemory>
    requires { n ≤ 64 }
    ensures { IfOk result (λ decls. decls.items ≡ each (dated_decl n) n ++ state_item ∷ []) }
{
    let mut decls = Vec::with_capacity(alloc, n as usize + 1)?;
    for i in 0..n {
        decls.push(dated_item(n, i))?;
    }
    decls.push(ItemDecl {
        kind: ItemKind::State,
        initial: 0,
    })?;
    Ok(decls)
}

fn reads(alloc: Global, i: u32) -> Result<Vec<ItemId>, OutOfMemory>
    ensures { IfOk result (λ items. items.items ≡ (if is_even_number i then [] else item_id (i - 1) ∷ [])) }
{
    let mut items = Vec::new(alloc);
    if !is_even(i) {
        items.push(ItemId(i - 1))?;
    }
    Ok(items)
}

fn writes(alloc: Global, n: u32, i: u32) -> Result<Vec<ItemId>, OutOfMemory>
    ensures { IfOk result (λ items. items.items
        ≡ (if is_even_number i then item_id i ∷ [] else item_id i ∷ item_id n ∷ [])) }
{
    let mut items = vec![in alloc; ItemId(i)]?;
    if !is_even(i) {
        items.push(ItemId(n))?;
    }
    Ok(items)
}

fn txn(alloc: Global, n: u32, i: u32) -> Result<TxnDecl, OutOfMemory>
    requires few { n ≤ 64 }
    requires in_range { i < n }
    ensures { IfOk result (λ t. t ≡ decl_of_txn n i) }
{
    Ok(TxnDecl {
        prio: n - i,
        period: period(n),
        offset: 3 * u64::from(n - 1 - i),
        deadline: period(n),
        steps: STEPS,
        quiet: 0,
        reads: List::of(reads(alloc, i)?),
        writes: List::of(writes(alloc, n, i)?),
    })
}

#[tactic(auto, using(crate::proofs::Each::each_more))]
fn txns(alloc: Global, n: u32) -> Result<Vec<TxnDecl>, OutOfMemory>
    requires { n ≤ 64 }
    ensures { IfOk result (λ txns. txns.items ≡ each (decl_of_txn n) n) }
{
    let mut txns = Vec::with_capacity(alloc, n as usize)?;
    for i in 0..n {
        txns.push(txn(alloc, n, i)?)?;
    }
    Ok(txns)
}

fn even_script(alloc: Global, i: u32) -> Result<Vec<ScriptOp>, OutOfMemory>
    ensures { IfOk result (λ ops. map operation ops.items ≡ even_ops i) }
{
    let ops = vec![in alloc;
        ScriptOp::Write(ItemId(i), Expr::Serial),
        ScriptOp::Compute(2),
        ScriptOp::Commit,
    ]?;
    Ok(ops)
}

fn odd_script(alloc: Global, n: u32, i: u32) -> Result<Vec<ScriptOp>, OutOfMemory>
    requires { 1 ≤ i }
    ensures { IfOk result (λ ops. map operation ops.items ≡ odd_ops n i) }
{
    let read = ItemId(i - 1);
    let sum = Expr::Bin(
        BinOp::Add,
        Box::new(alloc, Expr::Last(read))?,
        Box::new(alloc, Expr::Const(i64::from(i)))?,
    );
    let ops = vec![in alloc;
        ScriptOp::Read(read),
        ScriptOp::Write(ItemId(i), Expr::Last(read)),
        ScriptOp::Write(ItemId(n), sum),
        ScriptOp::Commit,
    ]?;
    Ok(ops)
}

fn script(alloc: Global, n: u32, i: u32) -> Result<Script, OutOfMemory>
    requires few { n ≤ 64 }
    requires in_range { i < n }
    ensures made { IfOk result (λ s. program_of s ≡ program n i) }
    ensures begun { IfOk result (λ s. IsTold s 0 []) }
{
    let ops = if is_even(i) {
        even_script(alloc, i)?
    } else {
        odd_script(alloc, n, i)?
    };
    Script::new(alloc, ops, Vec::new(alloc), n as usize + 1)
}

#[tactic(auto, using(crate::proofs::Each::each_more))]
fn scripts(alloc: Global, n: u32) -> Result<Vec<Script>, OutOfMemory>
    requires { n ≤ 64 }
    ensures made { IfOk result (λ scripts. map program_of scripts.items ≡ each (program n) n) }
    ensures begun { IfOk result (λ scripts. All (λ s. IsTold s 0 []) scripts.items) }
{
    let mut scripts = Vec::with_capacity(alloc, n as usize)?;
    for i in 0..n {
        scripts.push(script(alloc, n, i)?)?;
    }
    Ok(scripts)
}

#[tactic(auto, using(crate::proofs::Each::each_more))]
fn releases(alloc: Global, n: u32) -> Result<Vec<Releases>, OutOfMemory>
    ensures { IfOk result (λ releases. releases.items ≡ each releases_each n) }
{
    let mut releases = Vec::with_capacity(alloc, n as usize)?;
    for _i in 0..n {
        releases.push(Releases::Jobs(JOBS_EACH))?;
    }
    Ok(releases)
}

// More entries than the run has: for each job its plan, its steps, one refusal, and one idling before it.
fn room(n: u32) -> usize
    requires { n ≤ 64 }
    ensures { result ≡ n * (256 + 256 * (4 + 2)) + 2 }
{
    n as usize * (256 + 256 * (4 + 2)) + 2
}

fn names(alloc: Global, n: u32) -> Result<Names, OutOfMemory>
    requires { n ≤ 64 }
    ensures items { IfOk result (λ names. names.items ≡ each name_of_dated n ++ codes "m" ∷ []) }
    ensures txns { IfOk result (λ names. names.txns ≡ each txn_name n) }
{
    let items = item_names(alloc, n)?;
    let txns = txn_names(alloc, n)?;
    Ok(Names {
        items: List::of(items),
        txns: List::of(txns),
    })
}

// The items and the transactions.
fn declared(alloc: Global, n: u32) -> Result<(List<ItemDecl>, List<TxnDecl>), OutOfMemory>
    requires { n ≤ 64 }
    ensures items { IfOk result (λ lists. lists.0 ≡ each (dated_decl n) n ++ state_item ∷ []) }
    ensures txns { IfOk result (λ lists. lists.1 ≡ each (decl_of_txn n) n) }
{
    let items = items(alloc, n)?;
    let txns = txns(alloc, n)?;
    Ok((List::of(items), List::of(txns)))
}

// The scripts and the releases.
fn scripted(alloc: Global, n: u32) -> Result<(List<Script>, List<Releases>), OutOfMemory>
    requires { n ≤ 64 }
    ensures scripts { IfOk result (λ lists. map program_of lists.0 ≡ each (program n) n) }
    ensures begun { IfOk result (λ lists. All (λ s. IsTold s 0 []) lists.0) }
    ensures releases { IfOk result (λ lists. lists.1 ≡ each releases_each n) }
{
    let scripts = scripts(alloc, n)?;
    let releases = releases(alloc, n)?;
    Ok((List::of(scripts), List::of(releases)))
}

/// The generated scenario of `n` transactions, each with 256 jobs; it is linear in `n`.
pub fn generated(alloc: Global, n: u32) -> Result<Scenario, OutOfMemory>
    requires one { 1 ≤ n }
    requires few { n ≤ 64 }
    ensures made { IfOk result (λ s. shown s ≡ generated_of n) }
    ensures scenario { IfOk result (λ s. IsScenario (shown s)) }
    ensures compiles { IfOk result (λ s. IsCompiled (set_of (shown s))) }
    ensures begun { IfOk result (λ s. All (λ script. IsTold script 0 []) s.scripts) }
{
    let names = names(alloc, n)?;
    let (items, txns) = declared(alloc, n)?;
    let (scripts, releases) = scripted(alloc, n)?;
    Ok(Scenario {
        names,
        items,
        txns,
        together: List::of(Vec::new(alloc)),
        scripts,
        releases,
        room: room(n),
    })
}
