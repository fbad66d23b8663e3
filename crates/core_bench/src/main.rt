//! Runs the generated set of n transactions on a board, without any text, and prints how many entries its history has.
//!
//! Words: the board, `core` or `plain`; n; the number of jobs of each transaction; and `ahead` where all releases are
//! planned before the first step, or `eager` where each job is planned when the one before it ended.
#![tactic(auto)]

ghost use Rattle.std.specs.Prelude.{◌≤◌, ◌^◌};

mod drive;
mod script;

use crate::drive::{Counts, Plan, drive};
use lock_core::Core;
use plain_core::PlainCore;
use rt_base::OutOfMemory;
use std::alloc::Global;
use std::env;
use std::env::Env;
use std::process::ExitCode;
use test_sets::generated;
use txn_set::CompiledSet;

/// What the words ask for.
#[derive(Clone, Copy)]
struct Task {
    is_plain: bool,
    n: u32,
    plan: Plan,
}

fn number(word: Option<String>) -> Option<u32> {
    word?.as_str().parse::<u32>().ok()
}

// None where the words are not of the form.
fn task_of<R: Env + Alloc<A = Global>>(rt: &R) -> Option<Task> {
    let mut words = env::args(rt).ok()?.skip(1);
    let is_plain = words.next()?.as_str() == "plain";
    let n = number(words.next())?;
    let jobs = number(words.next())?;
    let is_eager = words.next()?.as_str() == "eager";
    Some(Task {
        is_plain,
        n,
        plan: Plan { n, jobs, is_eager },
    })
}

// Why there is no run.
enum NoRun {
    Words,
    OutOfMemory,
}

impl From<OutOfMemory> for NoRun {
    fn from(_e: OutOfMemory) -> NoRun {
        NoRun::OutOfMemory
    }
}

// Of one board the counts of its run.
fn plain_counts(
    alloc: Global,
    set: CompiledSet,
    room: usize,
    plan: Plan,
) -> Result<Counts, OutOfMemory>
    requires { room ≤ 2 ^ 20 }
{
    match PlainCore::new(alloc, set, room) {
        Ok(mut board) => drive(alloc, &mut board, plan),
        Err((_, e)) => Err(e),
    }
}

fn core_counts(
    alloc: Global,
    set: CompiledSet,
    room: usize,
    plan: Plan,
) -> Result<Counts, OutOfMemory>
    requires { room ≤ 2 ^ 20 }
{
    match Core::new(alloc, set, room) {
        Ok(mut board) => drive(alloc, &mut board, plan),
        Err((_, e)) => Err(e),
    }
}

// A job has at most one plan, four steps and one refusal, and each idling releases a job.
const MOST_ENTRIES: usize = 7;

const MOST_JOBS: usize = 0x1_0000;

fn run(alloc: Global, task: Task) -> Result<Counts, NoRun> {
    let jobs = (task.n as usize).saturating_mul(task.plan.jobs as usize);
    if jobs > MOST_JOBS {
        return Err(NoRun::Words);
    }
    let Some(set) = generated(alloc, task.n)? else {
        return Err(NoRun::Words);
    };
    let room = MOST_ENTRIES * jobs;
    if task.is_plain {
        Ok(plain_counts(alloc, set, room, task.plan)?)
    } else {
        Ok(core_counts(alloc, set, room, task.plan)?)
    }
}

fn main(rt: HostRuntime) -> ExitCode {
    let Some(task) = task_of(&rt) else {
        return ExitCode::from(2);
    };
    match run(rt.alloc(), task) {
        Ok(counts) => match println!(rt;
            "entries {} turns {} now {}",
            counts.entries, counts.turns, counts.now
        ) {
            Ok(()) => ExitCode::from(0),
            Err(_) => ExitCode::from(4),
        },
        Err(NoRun::Words) => ExitCode::from(2),
        Err(NoRun::OutOfMemory) => ExitCode::from(5),
    }
}
