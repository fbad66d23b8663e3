//! What a caller of a transaction asks, one operation after another: by the scripts of the set, or by none that it allows.
use rt_base::{End, ItemId, Op, Outcome, TxId, Value};

const TEMP: ItemId = ItemId(0);

const VALVE: ItemId = ItemId(1);

/// How far a caller is: the job, its next operation, the value that it read last, and how many operations of all its jobs were
/// refused for good. A hostile one asks for what it did not declare, writes and never commits, quits, and computes for ever.
#[derive(Clone, Copy)]
pub struct Progress {
    pub serial: u32,
    at: u32,
    read: Value,
    pub refused: u32,
    is_hostile: bool,
}

impl Progress {
    /// Before the first operation of the first job.
    pub fn new(is_hostile: bool) -> Progress {
        Progress {
            serial: 0,
            at: 0,
            read: 0,
            refused: 0,
            is_hostile,
        }
    }

    /// With the first operation of the transaction's job of this number.
    pub fn of(self, serial: u32) -> Progress {
        Progress {
            serial,
            at: 0,
            ..self
        }
    }

    fn next(self) -> Progress {
        Progress {
            at: self.at.saturating_add(1),
            ..self
        }
    }

    /// After an operation that was made.
    pub fn after(self, outcome: Outcome, over: Option<End>) -> Progress {
        let mut same = self;
        if let Outcome::Got { value, stamp: _ } = outcome {
            same.read = value;
        }
        if over.is_some() {
            same.of(same.serial.saturating_add(1))
        } else {
            same.next()
        }
    }

    /// After a refusal that no waiting mends the job goes on with what it does next.
    pub fn after_refusal(self) -> Progress {
        Progress {
            refused: self.refused.saturating_add(1),
            ..self.next()
        }
    }

    // The scripts of the set.
    fn declared(self, tx: TxId) -> Op {
        match (tx.0, self.at) {
            (0, 0) => {
                let sampled = Value::from(self.serial).saturating_mul(2).saturating_add(5);
                Op::Write(TEMP, sampled)
            }
            (1, 0) | (2, 0) => Op::Read(TEMP),
            (2, 1) => Op::Read(VALVE),
            (1, 2) => Op::Write(VALVE, self.read.saturating_add(100)),
            (1, 1) | (2, 2..=4) => Op::Compute,
            _ => Op::Commit,
        }
    }

    // A hostile sampler's jobs: one writes and never commits, one asks for the valve first, one writes and quits, and one
    // computes for ever.
    fn sample(self) -> Op {
        match (self.serial, self.at) {
            (0, 0) => Op::Write(TEMP, 5),
            (1, 0) => Op::Write(VALVE, 1),
            (1, 1) => Op::Write(TEMP, 7),
            (1, _) => Op::Commit,
            (2, 0) => Op::Write(TEMP, 9),
            (2, _) => Op::Quit,
            _ => Op::Compute,
        }
    }

    // A hostile controller's jobs: one asks to write what it may only read, and quits in the end; one commits.
    fn control(self) -> Op {
        match (self.serial, self.at) {
            (0, 0) => Op::Write(TEMP, 1),
            (0, 1) | (1, 0) => Op::Read(TEMP),
            (0, 4) => Op::Quit,
            (1, 2) => Op::Write(VALVE, self.read.saturating_add(100)),
            (1, 3) => Op::Commit,
            _ => Op::Compute,
        }
    }

    // A hostile logger's job reads both items, and then computes for ever.
    fn log(self) -> Op {
        match self.at {
            0 => Op::Read(TEMP),
            1 => Op::Read(VALVE),
            _ => Op::Compute,
        }
    }

    /// The next operation of a transaction's job.
    pub fn op(self, tx: TxId) -> Op {
        match (self.is_hostile, tx.0) {
            (false, _) => self.declared(tx),
            (true, 0) => self.sample(),
            (true, 1) => self.control(),
            (true, _) => self.log(),
        }
    }
}
