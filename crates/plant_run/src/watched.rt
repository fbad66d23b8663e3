//! Bodies that a gate watches.
ghost use Rattle.std.specs.Prelude.{◌≡◌, ◌<◌, ◌^◌, length, map, IfOk};

use rt_base::{Op, OutOfMemory, Outcome, TxId};
use std::alloc::Global;
use step_script::Body;
use txn_threads::Gate;

// The body of a transaction, and the gate that is told of each question to it.
#[derive(Drop)]
pub(crate) struct Watched<'g, Y, G> {
    body: Y,
    tx: TxId,
    gate: &'g G,
}

impl<Y: Body, G: Gate> Body for Watched<'_, Y, G> {
    ghost gives = { λ w. Y.gives w.body };

    ghost stands = { λ w. Y.stands w.body };

    fn begin(&mut self, serial: u32) {
        self.body.begin(serial);
    }

    fn next(&self) -> Op {
        self.gate.asked(self.tx);
        let op = self.body.next();
        self.gate.answered(self.tx);
        op
    }

    fn told(&mut self, outcome: Outcome) {
        self.body.told(outcome);
    }
}

// The bodies of all transactions, each with the gate.
pub(crate) fn watch<'g, Y: Body + Drop, G: Gate>(
    alloc: Global,
    bodies: Vec<Y>,
    gate: &'g G,
) -> Result<Vec<Watched<'g, Y, G>>, OutOfMemory>
    requires few { length bodies.items < 2 ^ 32 }
    ensures { IfOk result (λ v. map (λ w. Y.gives w.body) v.items ≡ map Y.gives bodies.items) }
{
    let mut bodies = bodies;
    let mut watched = Vec::with_capacity(alloc, bodies.len())?;
    for _ in 0..bodies.len() {
        let body = bodies.pop().unwrap();
        let tx = TxId(bodies.len() as u32);
        watched.push_reserved(Watched { body, tx, gate });
    }
    watched.reverse();
    Ok(watched)
}
