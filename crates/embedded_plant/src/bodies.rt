//! What the jobs do, written in code: a body is a function from what a job has done to its next operation.
use crate::tank::{LEVEL, SAMPLER, VALVE};
use rt_base::{End, Op, Outcome, TxId, Value};

/// What a transaction's present job has done: its serial, how many operations it was granted, the level that it read,
/// and whether it was refused an operation for good.
#[derive(Clone, Copy)]
pub struct Progress {
    pub serial: u32,
    granted: u32,
    level: Value,
    is_faulty: bool,
}

impl Progress {
    /// A job that has done nothing.
    pub fn of(serial: u32) -> Progress {
        Progress {
            serial,
            granted: 0,
            level: 0,
            is_faulty: false,
        }
    }

    /// After a granted operation. Where the job is over the transaction's next one begins.
    pub fn after(self, outcome: Outcome, over: Option<End>) -> Progress {
        if over.is_some() {
            return Progress::of(self.serial.saturating_add(1));
        }
        let level = match outcome {
            Outcome::Got { value, stamp: _ } => value,
            _ => self.level,
        };
        Progress {
            granted: self.granted.saturating_add(1),
            level,
            ..self
        }
    }

    /// After a refusal that no waiting mends: the body is wrong, and the job is to quit.
    pub fn at_fault(self) -> Progress {
        Progress {
            is_faulty: true,
            ..self
        }
    }

    /// The next operation of a job of this transaction.
    pub fn next(self, tx: TxId) -> Op {
        if self.is_faulty {
            Op::Quit
        } else if tx == SAMPLER {
            self.sample()
        } else {
            self.control()
        }
    }

    // Writes what the sensor says, and commits.
    fn sample(self) -> Op {
        match self.granted {
            0 => Op::Write(LEVEL, sensed(self.serial)),
            _ => Op::Commit,
        }
    }

    // Reads the level, computes for a tick, opens the valve by what the level is above 50, and commits.
    fn control(self) -> Op {
        match self.granted {
            0 => Op::Read(LEVEL),
            1 => Op::Compute,
            2 => Op::Write(VALVE, self.level.saturating_sub(50).max(0)),
            _ => Op::Commit,
        }
    }
}

// Stands for the reading of a sensor.
fn sensed(serial: u32) -> Value {
    Value::from(serial).saturating_mul(4).saturating_add(52)
}
