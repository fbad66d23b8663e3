//! The rates of a scenario's updaters, and the margin of its set.
ghost use Rattle.std.specs.Prelude.{◌≡◌, IfOk, IfErr, None, Some};
ghost use Rattle.txn_compiler.specs.Kept.{AreLists};
ghost use Rattle.step_script.specs.Shown.{shown};
ghost use Rattle.step_script.specs.Scenarios.{IsScenario};
ghost use Rattle.update_rates.specs.RatedSet.{rated_set};
ghost use Rattle.update_rates.specs.Refusal.{rate_refusal};
ghost use Rattle.refusal_lines.specs.Lines.{margin_of};
ghost use Rattle.command_replies.specs.Analysis.{MarginReply, RatesReply, margin_at};

use crate::accepted::compiled_scenario;
use crate::reply::{Reply, refused_rates, written};
use item_model::ItemDecl;
use refusal_lines::{margin_text, rates_text};
use rt_base::{List, Names, OutOfMemory, Steps, TogetherDecl};
use scale_margin::margin;
use set_admission::AdmittedSet;
use std::alloc::Global;
use std::marker::Brand;
use std::sync::ledger::{Blank, Ledger};
use step_script::Scenario;
use txn_compiler::{CompiledSet, TxnDecl, kept_as_declared};
use update_rates::{RateError, plan_rates};

// The admitted set of declarations with the rates of their updaters, or the first cause why there is none.
fn rated(
    alloc: Global,
    items: List<ItemDecl>,
    txns: List<TxnDecl>,
    together: List<TogetherDecl>,
) -> Result<Result<AdmittedSet, RateError>, OutOfMemory>
    requires { AreLists (record { items = items; txns = txns; together = together }) }
    ensures set { IfOk result (λ r. IfOk r (λ a. a ≡ rated_set (record { items = items; txns = txns; together = together }))) }
    ensures passed { IfOk result (λ r. IfOk r (λ a. rate_refusal (record { items = items; txns = txns; together = together }) ≡ None)) }
    ensures refused { IfOk result (λ r. IfErr r (λ e. rate_refusal (record { items = items; txns = txns; together = together }) ≡ Some e)) }
{
    kept_as_declared();
    match plan_rates(
        alloc,
        items.into_vec(),
        txns.into_vec(),
        together.into_vec(),
    ) {
        Ok(set) => Ok(Ok(set)),
        Err(error) => match error {
            RateError::OutOfMemory => Err(OutOfMemory),
            _ => Ok(Err(error)),
        },
    }
}

/// The reply of `rates` to a scenario.
pub fn rates(alloc: Global, scenario: Scenario) -> Result<Reply, OutOfMemory>
    requires { IsScenario (shown scenario) }
    ensures { IfOk result (λ r. RatesReply (shown scenario) r.status r.text.items) }
{
    let Scenario {
        names,
        items,
        txns,
        together,
        scripts,
        releases,
        room: _,
    } = scenario;
    drop(scripts);
    drop(releases);
    match rated(alloc, items, txns, together) {
        Ok(Ok(set)) => {
            let text = rates_text(alloc, &names, &set);
            drop(set);
            drop(names);
            Ok(written(text?))
        }
        Ok(Err(error)) => {
            let reply = refused_rates(alloc, &names, error);
            drop(names);
            reply
        }
        Err(OutOfMemory) => {
            drop(names);
            Err(OutOfMemory)
        }
    }
}

// The text of the margin of a set. The looks of the search are counted by a counter of its own.
fn margin_lines<L: Ledger>(
    alloc: Global,
    names: &Names,
    set: &CompiledSet,
    blank: Blank,
) -> Result<Vec<u8>, OutOfMemory>
    requires name { blank.name ≡ L.name }
    requires parts { blank.parts ≡ L.parts }
    requires one_part { blank.parts ≡ 1 }
    ensures { IfOk result (λ text. text.items ≡ margin_of names.now (margin_at set.now)) }
{
    let mut steps = Steps::<L>::start(blank);
    let margin = margin(alloc, set, &mut steps)?;
    margin_text(alloc, names, margin)
}

/// The reply of `margin` to a scenario.
pub fn margins(alloc: Global, scenario: Scenario) -> Result<Reply, OutOfMemory>
    requires { IsScenario (shown scenario) }
    ensures { IfOk result (λ r. MarginReply (shown scenario) r.status r.text.items) }
{
    match compiled_scenario(alloc, scenario)? {
        Ok(accepted) => {
            let text = margin_lines::<Brand>(alloc, &accepted.names, &accepted.set, Blank::new(1));
            drop(accepted);
            Ok(written(text?))
        }
        Err(reply) => Ok(reply),
    }
}
