//! Scripts as bodies.
ghost use Rattle.std.specs.Prelude.{◌≡◌, slice_get};
ghost use Rattle.std.specs.Option.{option_map};
ghost use Rattle.step_script.specs.Rows.{AreReadItems, row_items};

use crate::body::Body;
use crate::expr::{Expr, value_of};
use crate::lasts::{LastRead, clear, note, rows_of};
use rt_base::{ItemId, Op, OutOfMemory, Outcome, Value};
use std::alloc::Global;

/// An operation of a script.
#[derive(Drop)]
pub enum ScriptOp {
    Read(ItemId),
    Write(ItemId, Expr),
    /// Stands for so many Compute operations.
    Compute(u32),
    Commit,
    Quit,
}

/// The operations of a transaction's jobs, as a body. After its last operation it asks for Compute for ever. Before
/// the first `begin` it stands as after `begin(0)`.
#[derive(Drop)]
pub struct Script {
    ops: Vec<ScriptOp>,
    samples: Vec<Value>,
    // over so many items
    items: usize,
    // the values last read, a row for each item that is read
    lasts: Vec<LastRead>,
    serial: u32,
    // the operation to be asked for next, and how many times it was done
    place: usize,
    done: u32,
    ghost rows: { AreReadItems ops.items (row_items lasts.items) },
}

impl ScriptOp {
    ghost use Rattle.std.specs.Prelude.{◌≡◌, ◌+◌, ◌<◌, ◌^◌, IsTrue, nat_lt};
    ghost use Rattle.step_script.specs.Scripts.{operation, width};

    // Whether the operation is to be done again after this many times and one.
    fn goes_on(&self, done: u32) -> bool
        ensures is { result ≡ nat_lt (done + 1) (width (operation self.now)) }
        ensures fits { IsTrue result → done + 1 < 2 ^ 32 }
    {
        match self {
            ScriptOp::Compute(n) => done < n.saturating_sub(1),
            _ => false,
        }
    }
}

// The operation at a place.
fn op_in(ops: &[ScriptOp], place: usize) -> Option<&ScriptOp>
    ensures { option_map (λ o. o.now) result ≡ slice_get ops.now place }
{
    ops.get(place)
}

impl Script {
    ghost use Rattle.std.specs.Prelude.{◌≡◌, IfOk, IsTrue, [], map};
    ghost use Rattle.std.specs.List.{list_all};
    ghost use Rattle.step_script.specs.Scripts.{program_of, operation, is_good, IsTold, sample_of};

    /// The script of these operations and samples, over so many items. It costs a sort of the items that the
    /// operations read, and takes a place for each of these and for no other item. Its calls as a body take no memory:
    /// `begin` costs a step for each item that is read, `told` a look-up of the item that was read, and `next` a step
    /// for each part of the expression that it computes and a look-up for each item that this names.
    pub fn new(
        alloc: Global,
        ops: Vec<ScriptOp>,
        samples: Vec<Value>,
        items: usize,
    ) -> Result<Script, OutOfMemory>
        requires { IsTrue (list_all (is_good items) (map operation ops.items)) }
        ensures made { IfOk result (λ s. program_of s ≡
            record { ops = map operation ops.items; samples = samples.items; items = items }) }
        ensures begun { IfOk result (λ s. IsTold s 0 []) }
    {
        let lasts = rows_of(alloc, &ops)?;
        Ok(Script {
            ops,
            samples,
            items,
            lasts,
            serial: 0,
            place: 0,
            done: 0,
        })
    }

    /// The operations that it was made of.
    pub fn ops(&self) -> &[ScriptOp]
        ensures { map operation result.now ≡ (program_of self.now).ops }
    {
        &self.ops
    }

    /// The samples that it was made of.
    pub fn samples(&self) -> &[Value]
        ensures { result.now ≡ (program_of self.now).samples }
    {
        &self.samples
    }

    // The sample of the job in hand.
    fn sample(&self) -> Value
        ensures { result ≡ sample_of self.now.samples.items self.now.serial }
    {
        match self.samples.get(self.serial as usize) {
            Some(value) => *value,
            None => match self.samples.last() {
                Some(value) => *value,
                None => 0,
            },
        }
    }
}

/// No call changes what the script was made of.
impl Body for Script {
    ghost use Rattle.std.specs.Prelude.{◌≡◌, ℕ, List, [], ◌∷◌, ◌++◌};
    ghost use Rattle.rt_base.specs.declared.operation.Outcome.{Outcome as Said};
    ghost use Rattle.step_script.specs.Scripts.{program_of, next_of, IsTold};

    ghost gives = { λ s. next_of (program_of s) };

    ghost stands = { IsTold };

    fn begin(&mut self, serial: u32)
        ensures begun { IsTold self.new serial [] }
        ensures same { next_of (program_of self.new) ≡ next_of (program_of self.old) }
        ensures made { program_of self.new ≡ program_of self.old }
    {
        clear(&mut self.lasts);
        self.serial = serial;
        self.place = 0;
        self.done = 0;
    }

    fn next(&self) -> Op {
        let Some(op) = op_in(&self.ops, self.place) else {
            return Op::Compute;
        };
        match op {
            ScriptOp::Read(item) => Op::Read(*item),
            ScriptOp::Write(item, value) => {
                let serial = i64::from(self.serial);
                Op::Write(*item, value_of(value, self.sample(), serial, &self.lasts))
            }
            ScriptOp::Compute(_) => Op::Compute,
            ScriptOp::Commit => Op::Commit,
            ScriptOp::Quit => Op::Quit,
        }
    }

    fn told(&mut self, outcome: Outcome)
        ensures more { (serial : ℕ) (outcomes : List Said) → IsTold self.old serial outcomes →
            IsTold self.new serial (outcomes ++ outcome ∷ []) }
        ensures same { next_of (program_of self.new) ≡ next_of (program_of self.old) }
        ensures made { program_of self.new ≡ program_of self.old }
    {
        let Some(op) = op_in(&self.ops, self.place) else {
            return;
        };
        note(op, outcome, &mut self.lasts);
        if op.goes_on(self.done) {
            self.done += 1;
        } else {
            self.place += 1;
            self.done = 0;
        }
    }
}
