//! A worker's part of a round.
ghost use Rattle.std.specs.Prelude.{◌≡◌, ◌<◌, length};
ghost use Rattle.txn_threads.specs.Rounds.{MembersSit, HaveTried, WorkerSits, WorkerRan};

use crate::gate::Gate;
use crate::member::{Halt, Worker};
use crate::tries::TryOutcome;
use board::Board;
use shared_plant::Plant;
use step_script::Body;

// How often a worker goes through its members in its part of a round, or how many goes it has for each, at most. This keeps
// the number of rounds small.
const TIMES_THROUGH: u32 = 16;

impl<B: Board, Y: Body> Worker<B, Y> {
    // Whether an eager member has jobs to plan.
    pub(crate) fn has_plans(&self) -> bool {
        self.members.iter().any(|member| member.has_plans())
    }

    // The place of the member that it tries next.
    fn next_place(&self) -> usize
        requires { 0 < length self.now.members.items }
        ensures { result < length self.now.members.items }
    {
        if self.first < self.members.len() {
            self.first
        } else {
            0
        }
    }

    // A try to idle on the first member's seat.
    fn idle_first(&mut self, plant: &Plant<B>) -> Result<TryOutcome, Halt>
        requires { MembersSit Y.gives Y.stands plant.now self.old }
        ensures { HaveTried Y.gives Y.stands plant.now self.old result self.new }
    {
        if self.members.is_empty() {
            return Ok(TryOutcome::NoJob);
        }
        let member = &mut self.members[0];
        Ok(member.idle(plant))
    }

    // A turn of each eager member that has jobs to plan.
    fn eager_turns<G: Gate>(&mut self, plant: &Plant<B>, gate: &G) -> Result<TryOutcome, Halt>
        requires { MembersSit Y.gives Y.stands plant.now self.old }
        ensures { HaveTried Y.gives Y.stands plant.now self.old result self.new }
    {
        for i in 0..self.members.len() {
            let member = &mut self.members[i];
            if let TryOutcome::Full = member.eager_turn(plant, gate)? {
                return Ok(TryOutcome::Full);
            }
        }
        Ok(TryOutcome::Went)
    }

    // Turns to the member whose job runs, as far as an answer tells. Went where it is one of this worker.
    fn turn_to(&mut self, outcome: TryOutcome) -> TryOutcome
        ensures { (self.new.members ≡ self.old.members) × (self.new.halt ≡ self.old.halt) }
    {
        match outcome {
            TryOutcome::NotYet(tx) => match self.places.of(tx) {
                Some(place) => {
                    self.first = place;
                    TryOutcome::Went
                }
                None => TryOutcome::NotYet(tx),
            },
            TryOutcome::Full => TryOutcome::Full,
            _ => TryOutcome::Went,
        }
    }

    // Turns of the members from the one at `first` on, up to one whose job is pending. NoJob where none is, and NotYet where
    // the job of another worker's member runs. `first` becomes the place of the member whose job runs, as far as the answers
    // tell.
    fn sweep<G: Gate>(&mut self, plant: &Plant<B>, gate: &G) -> Result<TryOutcome, Halt>
        requires { MembersSit Y.gives Y.stands plant.now self.old }
        ensures { HaveTried Y.gives Y.stands plant.now self.old result self.new }
    {
        for _ in 0..self.members.len() {
            let place = self.next_place();
            let member = &mut self.members[place];
            match member.turn(plant, gate)? {
                TryOutcome::NoJob => self.first = place + 1,
                other => return Ok(self.turn_to(other)),
            }
        }
        Ok(TryOutcome::NoJob)
    }

    // One time through the members: their turns, and where all answer NoJob a try to idle on the first one's seat.
    fn pass<G: Gate>(&mut self, plant: &Plant<B>, gate: &G) -> Result<TryOutcome, Halt>
        requires { MembersSit Y.gives Y.stands plant.now self.old }
        ensures { HaveTried Y.gives Y.stands plant.now self.old result self.new }
    {
        match self.sweep(plant, gate)? {
            TryOutcome::NoJob => self.idle_first(plant),
            other => Ok(other),
        }
    }

    // Times through the members, for as long as one of their jobs runs: up to a full journal or a stop, up to an answer that
    // the job of another worker's member runs, and up to a try to idle. The first time only eager members have a turn, so that
    // their jobs are planned while other jobs run.
    fn passes<G: Gate>(&mut self, plant: &Plant<B>, gate: &G) -> Result<TryOutcome, Halt>
        requires { MembersSit Y.gives Y.stands plant.now self.old }
        ensures { HaveTried Y.gives Y.stands plant.now self.old result self.new }
    {
        if let TryOutcome::Full = self.eager_turns(plant, gate)? {
            return Ok(TryOutcome::Full);
        }
        for _ in 1..TIMES_THROUGH {
            match self.pass(plant, gate)? {
                TryOutcome::Went => {}
                other => return Ok(other),
            }
        }
        Ok(TryOutcome::Went)
    }

    // The place of the member that can go on after a try of the one at a place, as far as the answer tells. None where it is no
    // member of this worker, or no try could go on.
    fn heading(&self, outcome: TryOutcome, place: usize) -> Option<usize> {
        match outcome {
            TryOutcome::Went | TryOutcome::Ended | TryOutcome::Idled => Some(place),
            TryOutcome::NotYet(tx) | TryOutcome::Waits(tx) => self.places.of(tx),
            TryOutcome::NoJob | TryOutcome::Full => None,
        }
    }

    // As many goes as there are members, each of the member whose job runs, as far as the answers tell: up to a full journal or
    // a stop, up to an answer that the job of another worker's member runs, and up to one that nothing is pending or planned.
    fn follow<G: Gate>(&mut self, plant: &Plant<B>, gate: &G) -> Result<TryOutcome, Halt>
        requires { MembersSit Y.gives Y.stands plant.now self.old }
        ensures { HaveTried Y.gives Y.stands plant.now self.old result self.new }
    {
        for _ in 0..self.members.len() {
            let place = self.next_place();
            let member = &mut self.members[place];
            let outcome = member.go_asked(plant, gate)?;
            match self.heading(outcome, place) {
                Some(next) => self.first = next,
                None => return Ok(outcome),
            }
        }
        Ok(TryOutcome::Went)
    }

    // Goes of a worker none of whose members has jobs to plan, at most sixteen for each member. Where nothing is pending or planned
    // each member has a step try, and so hears that its jobs have ended.
    fn follows<G: Gate>(&mut self, plant: &Plant<B>, gate: &G) -> Result<TryOutcome, Halt>
        requires { MembersSit Y.gives Y.stands plant.now self.old }
        ensures { HaveTried Y.gives Y.stands plant.now self.old result self.new }
    {
        for _ in 0..TIMES_THROUGH {
            match self.follow(plant, gate)? {
                TryOutcome::Went => {}
                TryOutcome::NoJob => return self.sweep(plant, gate),
                other => return Ok(other),
            }
        }
        Ok(TryOutcome::Went)
    }

    // The tries of a worker in a round.
    fn part<G: Gate>(&mut self, plant: &Plant<B>, gate: &G) -> Result<TryOutcome, Halt>
        requires { MembersSit Y.gives Y.stands plant.now self.old }
        ensures { HaveTried Y.gives Y.stands plant.now self.old result self.new }
    {
        if self.has_plans() {
            self.passes(plant, gate)
        } else {
            self.follows(plant, gate)
        }
    }

    // A worker's part of a round.
    pub(crate) fn round<G: Gate>(&mut self, plant: &Plant<B>, gate: &G)
        requires { WorkerSits Y.gives Y.stands plant.now self.old }
        ensures { WorkerRan Y.gives Y.stands plant.now self.old self.new }
    {
        if self.halt.is_none() {
            match self.part(plant, gate) {
                Ok(outcome) => self.outcome = outcome,
                Err(halt) => self.halt = Some(halt),
            }
        }
    }

    // A go of the member at a place, unless the worker has met a stop.
    #[inline(always)]
    pub(crate) fn go_on<G: Gate>(&mut self, plant: &Plant<B>, gate: &G, place: usize) -> TryOutcome
        requires { WorkerSits Y.gives Y.stands plant.now self.old }
        ensures { WorkerRan Y.gives Y.stands plant.now self.old self.new }
    {
        if self.halt.is_some() || place >= self.members.len() {
            return TryOutcome::NoJob;
        }
        let member = &mut self.members[place];
        match member.go(plant, gate) {
            Ok(outcome) => outcome,
            Err(halt) => {
                self.halt = Some(halt);
                TryOutcome::NoJob
            }
        }
    }
}
