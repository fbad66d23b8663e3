//! Members and workers.
ghost use Rattle.std.specs.Prelude.{◌≡◌, None};
ghost use Rattle.txn_threads.specs.Runs.{Cleared};

use crate::places::Places;
use crate::task::{Heard, Task};
use crate::tries::TryOutcome;
use board::{Board, StepReply};
use rt_base::{JobId, PlanRefused, TxId};
use shared_plant::Seat;
use step_script::Body;

// Why a worker makes no further try.
#[derive(Clone, Copy)]
pub(crate) enum Halt {
    Refused { job: JobId, reply: StepReply },
    NoPlan { tx: TxId, cause: PlanRefused },
}

/// Why a run came to a stop.
#[derive(Clone, Copy, PartialEq, Eq, Debug)]
pub enum RunStop {
    /// The operation of this job's body was answered Undeclared, TooEarly or Unwritten.
    Refused { job: JobId, reply: StepReply },
    /// The next job of this eager transaction was refused as TooFar, CalendarFull or NoSerial.
    NoPlan { tx: TxId, cause: PlanRefused },
    /// The out stopped.
    Stopped,
}

/// A transaction that a worker runs: its seat, the body of its jobs, how many of them there are to be, and whether they
/// are planned one by one, each when those before it have ended.
#[derive(Drop)]
pub struct Member<B: Board, Y: Body> {
    pub(crate) seat: Seat<B>,
    pub(crate) task: Task<Y>,
    pub(crate) jobs: u32,
    pub(crate) eager: bool,
    // how many jobs it planned, and how many jobs of the transaction are known to have ended
    pub(crate) planned: u32,
    pub(crate) ended: u32,
}

impl<B: Board, Y: Body> Member<B, Y> {
    /// A member of this seat. It takes no memory.
    pub fn new(seat: Seat<B>, body: Y, jobs: u32, eager: bool) -> Member<B, Y>
        ensures parts { (result.seat ≡ seat) × (result.task.body ≡ body) × (result.jobs ≡ jobs) × (result.eager ≡ eager) }
    {
        let task = Task {
            body,
            serial: 0,
            op: None,
            heard: Heard::Nothing,
        };
        Member {
            seat,
            task,
            jobs,
            eager,
            planned: 0,
            ended: 0,
        }
    }

    /// The seat and the body. It takes no memory.
    pub fn into_parts(self) -> (Seat<B>, Y)
        ensures parts { (result.0 ≡ self.seat) × (result.1 ≡ self.task.body) }
    {
        let Member {
            seat,
            task,
            jobs: _,
            eager: _,
            planned: _,
            ended: _,
        } = self;
        let Task {
            body,
            serial: _,
            op: _,
            heard: _,
        } = task;
        (seat, body)
    }

    // As it is when a run begins.
    pub(crate) fn clear(&mut self)
        ensures { Cleared Y.gives Y.stands self.old self.new }
    {
        self.task.clear();
        self.planned = 0;
        self.ended = 0;
    }
}

/// What one thread runs: members, whose steps it tries in turn.
#[derive(Drop)]
pub struct Worker<B: Board, Y: Body> {
    pub(crate) members: Vec<Member<B, Y>>,
    pub(crate) halt: Option<Halt>,
    // where its members stand
    pub(crate) places: Places,
    // the place of the member that it tries first
    pub(crate) first: usize,
    // what came of its last part of a round
    pub(crate) outcome: TryOutcome,
}

impl<B: Board, Y: Body> Worker<B, Y> {
    /// A worker of these members. It takes no memory.
    pub fn new(members: Vec<Member<B, Y>>) -> Worker<B, Y>
        ensures parts { (result.members ≡ members) × (result.halt ≡ None) }
    {
        Worker {
            members,
            halt: None,
            places: Places::none(),
            first: 0,
            outcome: TryOutcome::NoJob,
        }
    }

    /// The members. It takes no memory.
    pub fn into_members(self) -> Vec<Member<B, Y>>
        ensures parts { result ≡ self.members }
    {
        let Worker {
            members,
            halt: _,
            places: _,
            first: _,
            outcome: _,
        } = self;
        members
    }
}
