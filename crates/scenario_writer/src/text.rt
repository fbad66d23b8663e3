//! Canonical texts.
ghost use Rattle.std.specs.Prelude.{◌≡◌, nat_lt, [], ◌∷◌, if◌then◌else◌, Some, IfOk, OnOk, codes, IsUtf8};
ghost use Rattle.std.specs.List.{All, list_any};
ghost use Rattle.step_script.specs.Scripts.{program_of};
ghost use Rattle.serde_json.specs.Read.{read};
ghost use Rattle.serde_json.specs.Written.{compact_text};
ghost use Rattle.step_script.specs.Shown.{shown};
ghost use Rattle.step_script.specs.Scenarios.{IsScenario};
ghost use Rattle.scenario_writer.specs.Canonical.{array_of, items_data, is_second as is_second_text, txns_in, sets_data, canonical};
ghost use Rattle.scenario_writer.specs.Integers.{IsI64, ProgramHasIntegers, HasIntegers};
ghost use Rattle.scenario_writer.specs.Sent.{Sends, SendsFields, field, optional_field};

use crate::items::{items, sets};
use crate::object::{begin_object, end_object, key, put_whole};
use crate::txns::txns;
use json::Writer;
use rt_base::OutOfMemory;
use std::alloc::Global;
use step_script::Scenario;
use txn_set::TxnDecl;

// The room that a text begins with, for each transaction.
const ROOM: usize = 320;

fn has_quiet(txns: &[TxnDecl]) -> bool
    ensures { result ≡ list_any (λ t. nat_lt 0 t.quiet) txns.now }
{
    txns.iter().any(|t| t.quiet > 0)
}

// Whether the text is version 2's.
fn is_second(scenario: &Scenario) -> bool
    ensures { result ≡ is_second_text (shown scenario.now) }
{
    has_quiet(scenario.txns.as_slice()) || scenario.together.as_slice().len() > 0
}

fn put_items(out: &mut Writer, scenario: &Scenario) -> Result<(), OutOfMemory>
    requires { IsScenario (shown scenario.now) }
    ensures data { OnOk result (SendsFields (field (codes "items")
        (array_of (items_data scenario.now.names.items scenario.now.items)) ∷ []) out.old out.new) }
    ensures fits { OnOk result (All (λ d. IsI64 d.initial) scenario.now.items) }
{
    key(out, "items")?;
    items(
        out,
        scenario.names.items.as_slice(),
        scenario.items.as_slice(),
    )
}

// The relative sets of a text of version 2.
fn put_sets(out: &mut Writer, second: bool, scenario: &Scenario) -> Result<(), OutOfMemory>
    requires { IsScenario (shown scenario.now) }
    ensures { OnOk result (SendsFields (optional_field (codes "together")
        (sets_data second scenario.now.names.items scenario.now.together)) out.old out.new) }
{
    if second {
        key(out, "together")?;
        sets(
            out,
            scenario.names.items.as_slice(),
            scenario.together.as_slice(),
        )
    } else {
        Ok(())
    }
}

fn put_txns(out: &mut Writer, second: bool, scenario: &Scenario) -> Result<(), OutOfMemory>
    requires { IsScenario (shown scenario.now) }
    ensures data { OnOk result (SendsFields (field (codes "transactions")
        (array_of (txns_in second (shown scenario.now))) ∷ []) out.old out.new) }
    ensures fits { OnOk result (All (λ s. ProgramHasIntegers (program_of s)) scenario.now.scripts) }
{
    key(out, "transactions")?;
    txns(out, second, scenario)
}

fn version(second: bool) -> u64
    ensures { result ≡ (if second then 2 else 1) }
{
    if second { 2 } else { 1 }
}

fn root(out: &mut Writer, scenario: &Scenario) -> Result<(), OutOfMemory>
    requires { IsScenario (shown scenario.now) }
    ensures data { OnOk result (Sends (canonical (shown scenario.now)) out.old out.new) }
    ensures fits { OnOk result (HasIntegers (shown scenario.now)) }
{
    let second = is_second(scenario);
    begin_object(out)?;
    put_items(out, scenario)?;
    put_sets(out, second, scenario)?;
    put_txns(out, second, scenario)?;
    put_whole(out, "version", version(second))?;
    end_object(out)
}

/// The canonical text of a scenario: compact JSON, with the members of each object in byte order and each longest run
/// of computes as one. It is version 2's exactly where some transaction has quiet steps or there is a relative set. It
/// is linear in the text.
pub fn write_scenario(alloc: Global, scenario: &Scenario) -> Result<Vec<u8>, OutOfMemory>
    requires { IsScenario (shown scenario.now) }
    ensures text { IfOk result (λ b. b.items ≡ compact_text (canonical (shown scenario.now))) }
    ensures fits { IfOk result (λ b. HasIntegers (shown scenario.now)) }
    ensures utf8 { IfOk result (λ b. IsUtf8 b.items) }
    ensures reads_back { IfOk result (λ b. read b.items ≡ Some (canonical (shown scenario.now))) }
{
    let room = ROOM.saturating_mul(scenario.txns.as_slice().len());
    let mut out = Writer::new(Vec::with_capacity(alloc, room)?);
    root(&mut out, scenario)?;
    Ok(out.into_inner())
}
