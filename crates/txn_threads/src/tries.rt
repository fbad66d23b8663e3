//! The tries of a member.
ghost use Rattle.std.specs.Prelude.{◌≡◌, ◌+◌, ◌<◌, ◌^◌, IfErr};
ghost use Rattle.txn_threads.specs.Rounds.{Sits, Ran, HasTried, IsCause, IsHaltOf, IsHeardHalt, IsPlanHalt, ended_by, known_after, planned_after};
ghost use Rattle.shared_plant.specs.Seats.{PlantFacts as Plants};
ghost use Rattle.txn_threads.specs.declared.member.Halt.TheVariants as stop;

use crate::gate::Gate;
use crate::member::{Halt, Member};
use crate::task::Heard;
use board::{Board, IdleReply, StepReply};
use rt_base::{JobId, PlanRefused, Tick, TxId};
use shared_plant::{Plant, Tried};
use step_script::Body;

// What came of a try that met no stop.
#[derive(Clone, Copy)]
pub(crate) enum TryOutcome {
    // The member's present job is not pending, or nothing was.
    NoJob,
    // The running job is one of this transaction.
    NotYet(TxId),
    // The member's job waits for a lock, and the running job is one of this transaction.
    Waits(TxId),
    // It took a step, or found the turn taken.
    Went,
    // It took the last step of its job.
    Ended,
    // The time went on.
    Idled,
    // The journal is full.
    Full,
}

impl<B: Board, Y: Body> Member<B, Y> {
    // One step try.
    fn step<G: Gate>(&mut self, plant: &Plant<B>, gate: &G) -> Result<TryOutcome, Halt>
        requires { Sits Y.gives Y.stands plant.now self.old }
        ensures { HasTried Y.gives Y.stands plant.now self.old result self.new }
    {
        let Some(tx) = self.seat.tx() else {
            unreachable!()
        };
        let op = self.task.operation(gate, tx);
        let serial = self.task.serial;
        match plant.try_step(&mut self.seat, serial, op) {
            Tried::Busy => Ok(TryOutcome::Went),
            Tried::Said(reply) => {
                self.task.answered(&reply);
                self.ended = ended_after(self.ended, &reply);
                outcome_of(JobId { tx, serial }, &reply)
            }
        }
    }

    // Plans an eager member's next job where its earlier ones have ended.
    fn plan(&mut self, plant: &Plant<B>) -> Result<TryOutcome, Halt>
        requires { Sits Y.gives Y.stands plant.now self.old }
        ensures { HasTried Y.gives Y.stands plant.now self.old result self.new }
    {
        if !self.eager || self.planned >= self.jobs || self.ended < self.planned {
            return Ok(TryOutcome::NoJob);
        }
        let Some(tx) = self.seat.tx() else {
            unreachable!()
        };
        match plant.try_plan_next(&mut self.seat, tx) {
            Tried::Busy => Ok(TryOutcome::Went),
            Tried::Said(reply) => {
                self.planned = planned_after(self.planned, &reply);
                outcome_of_plan(tx, reply)
            }
        }
    }

    // One step try, and where the job is not pending one plan try of an eager member.
    pub(crate) fn turn<G: Gate>(&mut self, plant: &Plant<B>, gate: &G) -> Result<TryOutcome, Halt>
        requires { Sits Y.gives Y.stands plant.now self.old }
        ensures { HasTried Y.gives Y.stands plant.now self.old result self.new }
    {
        match self.step(plant, gate)? {
            TryOutcome::NoJob => self.plan(plant),
            other => Ok(other),
        }
    }

    // Whether it has jobs to plan.
    pub(crate) fn has_plans(&self) -> bool {
        self.eager && self.planned < self.jobs
    }

    // The turn of a member that has jobs to plan.
    pub(crate) fn eager_turn<G: Gate>(
        &mut self,
        plant: &Plant<B>,
        gate: &G,
    ) -> Result<TryOutcome, Halt>
        requires { Sits Y.gives Y.stands plant.now self.old }
        ensures { HasTried Y.gives Y.stands plant.now self.old result self.new }
    {
        if self.has_plans() {
            self.turn(plant, gate)
        } else {
            Ok(TryOutcome::NoJob)
        }
    }

    // One try to idle.
    pub(crate) fn idle(&mut self, plant: &Plant<B>) -> TryOutcome
        requires { Sits Y.gives Y.stands plant.now self.old }
        ensures { Ran Y.gives Y.stands plant.now self.old self.new }
    {
        match plant.try_idle(&mut self.seat) {
            Tried::Busy => TryOutcome::Went,
            Tried::Said(reply) => outcome_of_idle(&reply),
        }
    }

    // The steps of the member's job in one turn.
    #[inline(always)]
    fn steps<G: Gate>(&mut self, plant: &Plant<B>, gate: &G) -> Result<TryOutcome, Halt>
        requires { Sits Y.gives Y.stands plant.now self.old }
        ensures { HasTried Y.gives Y.stands plant.now self.old result self.new }
    {
        let Some(tx) = self.seat.tx() else {
            unreachable!()
        };
        let serial = self.task.serial;
        self.task.heard = Heard::Nothing;
        match plant.try_steps(&mut self.seat, serial, &mut self.task, gate) {
            Tried::Busy => Ok(TryOutcome::Went),
            Tried::Said(running) => {
                let heard = self.task.heard;
                if let Heard::Nothing = heard {
                    return Ok(outcome_of_running(running));
                }
                self.ended = ended_by(self.ended, heard);
                outcome_of_steps(JobId { tx, serial }, heard, running)
            }
        }
    }

    // The steps of the member's job in one turn, and where nothing runs after them a try to idle.
    #[inline(always)]
    pub(crate) fn go<G: Gate>(&mut self, plant: &Plant<B>, gate: &G) -> Result<TryOutcome, Halt>
        requires { Sits Y.gives Y.stands plant.now self.old }
        ensures { HasTried Y.gives Y.stands plant.now self.old result self.new }
    {
        match self.steps(plant, gate)? {
            TryOutcome::NoJob => Ok(self.idle(plant)),
            other => Ok(other),
        }
    }

    // Asks the body for its present operation, so that bodies of several workers are asked at once. It takes no turn.
    fn ask_ahead<G: Gate>(&mut self, gate: &G)
        requires { (p : Plants) × Sits Y.gives Y.stands p self.old }
        ensures { (p : Plants) → Sits Y.gives Y.stands p self.old → Ran Y.gives Y.stands p self.old self.new }
    {
        let Some(tx) = self.seat.tx() else {
            unreachable!()
        };
        let _op = self.task.operation(gate, tx);
    }

    // The tries of `go`, before which the body is asked.
    pub(crate) fn go_asked<G: Gate>(
        &mut self,
        plant: &Plant<B>,
        gate: &G,
    ) -> Result<TryOutcome, Halt>
        requires { Sits Y.gives Y.stands plant.now self.old }
        ensures { HasTried Y.gives Y.stands plant.now self.old result self.new }
    {
        self.ask_ahead(gate);
        self.go(plant, gate)
    }
}

// How many jobs of the transaction are known to have ended.
fn ended_after(ended: u32, reply: &StepReply) -> u32
    ensures { result ≡ known_after ended reply.now }
{
    match reply {
        StepReply::NoJob {
            ended: now,
            last: _,
        } => *now,
        _ => ended,
    }
}

// How many jobs of the transaction are known to have ended, by what its task heard.
fn ended_by(ended: u32, heard: Heard) -> u32
    ensures { result ≡ ended_by ended heard }
{
    match heard {
        Heard::Over(now) => now,
        _ => ended,
    }
}

fn outcome_of(job: JobId, reply: &StepReply) -> Result<TryOutcome, Halt>
    ensures { IfErr result (λ h. IsHaltOf h job reply.now) }
{
    match reply {
        StepReply::NoJob { ended: _, last: _ } => Ok(TryOutcome::NoJob),
        StepReply::NotYet { running } => Ok(TryOutcome::NotYet(running.tx)),
        StepReply::Full { room: _ } => Ok(TryOutcome::Full),
        StepReply::Undeclared { item: _ }
        | StepReply::TooEarly { left: _ }
        | StepReply::Unwritten { item: _ } => Err(Halt::Refused { job, reply: *reply }),
        StepReply::Blocked { by, ceiling: _ } => Ok(TryOutcome::Waits(by.tx)),
        StepReply::Done {
            outcome: _,
            over: None,
        } => Ok(TryOutcome::Went),
        StepReply::Done {
            outcome: _,
            over: Some(_),
        } => Ok(TryOutcome::Ended),
    }
}

fn planned_after(planned: u32, reply: &Result<(JobId, Tick), PlanRefused>) -> u32
    requires { planned + 1 < 2 ^ 32 }
    ensures { result ≡ planned_after planned reply.now }
{
    match reply {
        Ok(_) => planned + 1,
        Err(_) => planned,
    }
}

fn outcome_of_plan(tx: TxId, reply: Result<(JobId, Tick), PlanRefused>) -> Result<TryOutcome, Halt>
    ensures { IfErr result (λ h. IsPlanHalt h tx reply) }
{
    match reply {
        Ok(_) => Ok(TryOutcome::NoJob),
        Err(cause) => outcome_of_cause(tx, cause),
    }
}

fn outcome_of_cause(tx: TxId, cause: PlanRefused) -> Result<TryOutcome, Halt>
    ensures { IfErr result (λ h. (h ≡ stop.NoPlan tx cause) × IsCause cause) }
{
    match cause {
        PlanRefused::TooFar { limit: _ }
        | PlanRefused::CalendarFull { room: _ }
        | PlanRefused::NoSerial { planned: _ } => Err(Halt::NoPlan { tx, cause }),
        _ => Ok(TryOutcome::Full),
    }
}

fn outcome_of_idle(reply: &IdleReply) -> TryOutcome {
    match reply {
        IdleReply::NotIdle { running } => TryOutcome::NotYet(running.tx),
        IdleReply::Full { room: _ } => TryOutcome::Full,
        IdleReply::Nothing => TryOutcome::NoJob,
        IdleReply::Advanced { to: _ } => TryOutcome::Idled,
    }
}

// What came of a turn of the member's steps: the stop that it met, or which job runs then. NoJob where none does.
fn outcome_of_steps(job: JobId, heard: Heard, running: Option<JobId>) -> Result<TryOutcome, Halt>
    ensures { IfErr result (λ h. IsHeardHalt h job heard) }
{
    let reply = match heard {
        Heard::Nothing | Heard::Over(_) => return Ok(outcome_of_running(running)),
        Heard::Full => return Ok(TryOutcome::Full),
        Heard::Undeclared(item) => StepReply::Undeclared { item },
        Heard::TooEarly(left) => StepReply::TooEarly { left },
        Heard::Unwritten(item) => StepReply::Unwritten { item },
    };
    Err(Halt::Refused { job, reply })
}

fn outcome_of_running(running: Option<JobId>) -> TryOutcome {
    match running {
        Some(job) => TryOutcome::NotYet(job.tx),
        None => TryOutcome::NoJob,
    }
}
