//! Transactions in a JSON text.
ghost use Rattle.std.specs.Prelude.{◌≡◌, ◌≤◌, ◌<◌, [], ◌∷◌, ◌++◌, OnOk, IsTrue, codes, map, length};
ghost use Rattle.std.specs.List.{All, list_all};
ghost use Rattle.step_script.specs.Scripts.{program_of, is_good};
ghost use Rattle.step_script.specs.Bodies.{steps_of};
ghost use Rattle.step_script.specs.Shown.{shown};
ghost use Rattle.step_script.specs.Scenarios.{IsScenario};
ghost use Rattle.scenario_writer.specs.Canonical.{whole as whole_data, integer as integer_data, array_of, ticks_data, jobs_data, eager_data, quiet_data, script_data, txn_data, written, txns_in};
ghost use Rattle.scenario_writer.specs.Integers.{IsI64, OpHasConstants, ProgramHasIntegers};
ghost use Rattle.scenario_writer.specs.Writable.{AreWritable};
ghost use Rattle.scenario_writer.specs.Sent.{Sends, SendsFields, field, optional_field, head_fields, number_fields, list_fields};

use crate::items::put_items;
use crate::object::{
    begin_array, begin_object, end_array, end_object, integer, key, put_name, put_whole, whole,
};
use crate::script::script;
use json::Writer;
use rt_base::{Name, OutOfMemory};
use step_script::{Releases, Scenario, Script};
use txn_set::TxnDecl;

fn samples(out: &mut Writer, samples: &[i64]) -> Result<(), OutOfMemory>
    ensures data { OnOk result (Sends (array_of (map integer_data samples.now)) out.old out.new) }
    ensures fits { OnOk result (All IsI64 samples.now) }
{
    begin_array(out)?;
    for sample in samples {
        integer(out, *sample)?;
    }
    end_array(out)
}

fn ticks(out: &mut Writer, ticks: &[u64]) -> Result<(), OutOfMemory>
    ensures { OnOk result (Sends (array_of (map whole_data ticks.now)) out.old out.new) }
{
    begin_array(out)?;
    for tick in ticks {
        whole(out, *tick)?;
    }
    end_array(out)
}

// How many jobs there are, where the releases say only that.
fn put_count(out: &mut Writer, releases: &Releases) -> Result<(), OutOfMemory>
    ensures { OnOk result (SendsFields (optional_field (codes "eager") (eager_data releases.now)
        ++ optional_field (codes "jobs") (jobs_data releases.now)) out.old out.new) }
{
    match releases {
        Releases::At(_) => Ok(()),
        Releases::Jobs(n) => put_whole(out, "jobs", u64::from(*n)),
        Releases::Eager(n) => put_whole(out, "eager", u64::from(*n)),
    }
}

// The ticks, where the releases say them.
fn put_ticks(out: &mut Writer, releases: &Releases) -> Result<(), OutOfMemory>
    ensures { OnOk result (SendsFields (optional_field (codes "releases") (ticks_data releases.now))
        out.old out.new) }
{
    match releases {
        Releases::At(at) => {
            key(out, "releases")?;
            ticks(out, at.as_slice())
        }
        _ => Ok(()),
    }
}

fn put_quiet(out: &mut Writer, second: bool, quiet: u64) -> Result<(), OutOfMemory>
    ensures { OnOk result (SendsFields (optional_field (codes "quiet") (quiet_data second quiet)) out.old out.new) }
{
    if second {
        put_whole(out, "quiet", quiet)
    } else {
        Ok(())
    }
}

fn put_samples(out: &mut Writer, body: &Script) -> Result<(), OutOfMemory>
    ensures data { OnOk result (SendsFields (field (codes "samples")
        (array_of (map integer_data (program_of body.now).samples)) ∷ []) out.old out.new) }
    ensures fits { OnOk result (All IsI64 (program_of body.now).samples) }
{
    key(out, "samples")?;
    samples(out, body.samples())
}

fn put_script(out: &mut Writer, names: &[Name], body: &Script) -> Result<(), OutOfMemory>
    requires good { IsTrue (list_all (is_good (length names.now)) (program_of body.now).ops) }
    requires short { steps_of (program_of body.now).ops ≤ 10000 }
    ensures data { OnOk result (SendsFields (field (codes "script")
        (script_data names.now (program_of body.now).ops) ∷ []) out.old out.new) }
    ensures fits { OnOk result (All OpHasConstants (program_of body.now).ops) }
{
    key(out, "script")?;
    script(out, names, body.ops())
}

// The members up to the name.
fn put_head(
    out: &mut Writer,
    name: &Name,
    decl: &TxnDecl,
    releases: &Releases,
) -> Result<(), OutOfMemory>
    ensures { OnOk result (SendsFields (head_fields name.now decl.now releases.now) out.old out.new) }
{
    put_whole(out, "deadline", decl.deadline)?;
    put_count(out, releases)?;
    put_name(out, "name", name)
}

// The numbers after the name.
fn put_numbers(out: &mut Writer, second: bool, decl: &TxnDecl) -> Result<(), OutOfMemory>
    ensures { OnOk result (SendsFields (number_fields second decl.now) out.old out.new) }
{
    put_whole(out, "offset", decl.offset)?;
    put_whole(out, "period", decl.period)?;
    put_whole(out, "priority", u64::from(decl.prio))?;
    put_quiet(out, second, decl.quiet)
}

// The members from the items that are read.
fn put_lists(
    out: &mut Writer,
    names: &[Name],
    decl: &TxnDecl,
    body: &Script,
    releases: &Releases,
) -> Result<(), OutOfMemory>
    requires reads { All (λ i. i.0 < length names.now) decl.now.reads }
    requires writes { All (λ i. i.0 < length names.now) decl.now.writes }
    requires good { IsTrue (list_all (is_good (length names.now)) (program_of body.now).ops) }
    requires short { steps_of (program_of body.now).ops ≤ 10000 }
    ensures data { OnOk result (SendsFields (list_fields names.now decl.now (program_of body.now) releases.now)
        out.old out.new) }
    ensures fits { OnOk result (ProgramHasIntegers (program_of body.now)) }
{
    put_items(out, "reads", names, decl.reads.as_slice())?;
    put_ticks(out, releases)?;
    put_samples(out, body)?;
    put_script(out, names, body)?;
    put_whole(out, "steps", decl.steps)?;
    put_items(out, "writes", names, decl.writes.as_slice())
}

// A transaction of a scenario.
#[derive(Clone, Copy)]
struct ScenarioTxn<'a> {
    name: &'a Name,
    decl: &'a TxnDecl,
    script: &'a Script,
    releases: &'a Releases,
}

// A transaction; `second` says that the text is version 2's.
fn txn(out: &mut Writer, second: bool, names: &[Name], one: ScenarioTxn) -> Result<(), OutOfMemory>
    requires reads { All (λ i. i.0 < length names.now) one.decl.now.reads }
    requires writes { All (λ i. i.0 < length names.now) one.decl.now.writes }
    requires good { IsTrue (list_all (is_good (length names.now)) (program_of one.script.now).ops) }
    requires short { steps_of (program_of one.script.now).ops ≤ 10000 }
    ensures data { OnOk result (Sends (txn_data second names.now (record {
      name = one.entry.name.now;
      decl = one.entry.decl.now;
      program = program_of one.entry.script.now;
      releases = one.entry.releases.now;
    })) out.old out.new) }
    ensures fits { OnOk result (ProgramHasIntegers (program_of one.entry.script.now)) }
{
    begin_object(out)?;
    put_head(out, one.name, one.decl, one.releases)?;
    put_numbers(out, second, one.decl)?;
    put_lists(out, names, one.decl, one.script, one.releases)?;
    end_object(out)
}

// The transactions of a scenario, in lists of one order.
#[derive(Clone, Copy)]
struct ScenarioTxns<'a> {
    names: &'a [Name],
    decls: &'a [TxnDecl],
    scripts: &'a [Script],
    releases: &'a [Releases],
}

// Transactions over items with these names.
fn txn_list(
    out: &mut Writer,
    second: bool,
    names: &[Name],
    txns: ScenarioTxns,
) -> Result<(), OutOfMemory>
    requires { AreWritable names.now txns.names.now txns.decls.now (map program_of txns.scripts.now) txns.releases.now }
    ensures data { OnOk result (Sends (array_of (map (txn_data second names.now)
        (written txns.entry.names.now txns.entry.decls.now (map program_of txns.entry.scripts.now) txns.entry.releases.now))) out.old out.new) }
    ensures fits { OnOk result (All (λ s. ProgramHasIntegers (program_of s)) txns.entry.scripts.now) }
{
    let ScenarioTxns {
        names: txn_names,
        decls,
        scripts,
        releases,
    } = txns;
    begin_array(out)?;
    for i in 0..decls.len() {
        let one = ScenarioTxn {
            name: &txn_names[i],
            decl: &decls[i],
            script: &scripts[i],
            releases: &releases[i],
        };
        txn(out, second, names, one)?;
    }
    end_array(out)
}

/// The transactions of a scenario; `second` says that the text is version 2's.
pub(crate) fn txns(out: &mut Writer, second: bool, scenario: &Scenario) -> Result<(), OutOfMemory>
    requires { IsScenario (shown scenario.now) }
    ensures data { OnOk result (Sends (array_of (txns_in second (shown scenario.now))) out.old out.new) }
    ensures fits { OnOk result (All (λ s. ProgramHasIntegers (program_of s)) scenario.now.scripts) }
{
    let names = scenario.names.items.as_slice();
    let txns = ScenarioTxns {
        names: scenario.names.txns.as_slice(),
        decls: scenario.txns.as_slice(),
        scripts: scenario.scripts.as_slice(),
        releases: scenario.releases.as_slice(),
    };
    txn_list(out, second, names, txns)
}
