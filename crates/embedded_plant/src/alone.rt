//! The run on one thread: a core of its own, whose running job asks for the next operation of its body.
ghost use Rattle.std.specs.Prelude.{◌≡◌, ◌<◌, List, length};
ghost use Rattle.step_journal.specs.declared.entry.Entry.{Entry as Noted};
ghost use Rattle.set_admission.specs.Laws.{KeepsBounds};
ghost use Rattle.lock_core.specs.Stands.{Stands};

use crate::bodies::Progress;
use crate::faults::Fault;
use crate::out::Counts;
use crate::tank::{CONTROLLER, SAMPLER, VALVE, core_of};
use admitted_core::AdmittedCore;
use board::{Board, IdleReply, StepReply};
use rt_base::{JobId, Tick, TxId};
use std::alloc::Global;
use step_journal::Entry;

// The journal keeps so many entries between two drains.
const ROOM: usize = 16;

// More turns than a run can have: each makes an entry or drains some.
const TURNS: u32 = 1000;

/// A core, what each transaction's present job has done, and where the entries go.
#[derive(Drop)]
struct Station {
    core: AdmittedCore,
    jobs: [Progress; 2],
    spare: Vec<Entry>,
    out: Counts,
    ghost two: { (length core.board.set.items ≡ 2) × (length core.board.set.txns ≡ 2) },
}

// All memory is taken here.
fn new(alloc: Global) -> Result<Station, Fault> {
    let spare = Vec::with_capacity(alloc, ROOM)?;
    match core_of(alloc, ROOM) {
        Ok(core) => Ok(Station {
            core,
            jobs: [Progress::of(0), Progress::of(0)],
            spare,
            out: Counts::new(),
        }),
        Err(fault) => {
            drop(spare);
            Err(fault)
        }
    }
}

impl Station {
    // Plans a first job for a tick, and each further one a period after the one before.
    fn plan(&mut self, tx: TxId, first: Tick, jobs: u32) -> Result<(), Fault>
        requires { tx.0 < 2 }
    {
        if let Err(refusal) = self.core.plan(tx, first) {
            return Err(Fault::NotPlanned(refusal));
        }
        for _ in 1..jobs {
            if let Err(refusal) = self.core.plan_next(tx) {
                return Err(Fault::NotPlanned(refusal));
            }
        }
        Ok(())
    }

    // Hands the kept entries to the out, and answers how many there were. Of all that happened so far, no job was late.
    fn hand_on(&mut self) -> usize
        ensures { (history : List Noted) → Stands self.new.core.board history → KeepsBounds self.new.core.admitted history }
    {
        let count = self.core.drain(ROOM, &mut self.spare);
        self.core.keeps_bounds();
        self.out.take(self.spare.as_slice());
        self.spare.clear();
        count
    }

    // The journal is full: the call is to be made again when it has room.
    fn make_room(&mut self) -> Result<(), Fault> {
        if self.hand_on() == 0 {
            return Err(Fault::NoRoom);
        }
        Ok(())
    }

    // The job asks for the next operation of its body.
    fn ask(&mut self, job: JobId) -> Result<(), Fault> {
        let at = job.tx.0 as usize;
        if at >= self.jobs.len() {
            return Ok(());
        }
        if self.jobs[at].serial != job.serial {
            self.jobs[at] = Progress::of(job.serial);
        }
        match self.core.step(job, self.jobs[at].next(job.tx)) {
            StepReply::Done { outcome, over } => self.jobs[at] = self.jobs[at].after(outcome, over),
            // It waits for the holder of a lock, which runs now. When it runs again it asks again.
            StepReply::Blocked { .. } => (),
            // The body asks for what its transaction did not declare.
            StepReply::Undeclared { .. }
            | StepReply::TooEarly { .. }
            | StepReply::Unwritten { .. } => {
                self.jobs[at] = self.jobs[at].at_fault();
            }
            StepReply::Full { .. } => return self.make_room(),
            // Not for the running job.
            StepReply::NoJob { .. } | StepReply::NotYet { .. } => (),
        }
        Ok(())
    }

    // One event. False where all jobs have ended.
    fn turn(&mut self) -> Result<bool, Fault> {
        match self.core.running() {
            Some(job) => self.ask(job)?,
            None => match self.core.idle() {
                IdleReply::Advanced { .. } => (),
                IdleReply::Full { .. } => self.make_room()?,
                IdleReply::NotIdle { .. } => (),
                IdleReply::Nothing => return Ok(false),
            },
        }
        Ok(true)
    }

    fn go(&mut self) -> Result<(), Fault> {
        for _ in 0..TURNS {
            if !self.turn()? {
                return Ok(());
            }
        }
        Ok(())
    }

    // Plans all jobs, and runs them until all have ended.
    fn go_whole(&mut self) -> Result<Counts, Fault> {
        self.plan(SAMPLER, 0, 4)?;
        self.plan(CONTROLLER, 8, 2)?;
        self.go()?;
        self.hand_on();
        let (valve, stamp) = self.core.peek(VALVE);
        Ok(Counts {
            valve,
            stamp,
            ..self.out
        })
    }
}

/// Plans four jobs of the sampler and two of the controller, and runs them until all have ended.
pub fn run(alloc: Global) -> Result<Counts, Fault> {
    let mut station = new(alloc)?;
    let run = station.go_whole();
    drop(station);
    run
}
