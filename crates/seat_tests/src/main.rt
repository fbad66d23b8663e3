//! Drives plants over the core of an admitted set as standard input says, and prints what was told: at all four seats by one
//! thread, to two threads that plan, to a thread for each seat, also where the callers are hostile, and by runs of workers. A line
//! `growths` makes each call that takes memory on a scenario. Empty lines and lines that begin with `#` are passed over.
#![tactic(auto)]

mod calls;
mod ends;
mod growths;
mod held;
mod house;
mod pairs;
mod progress;
mod told;
mod turns;
mod workers;

use admitted_core::AdmittedCore;
use board::Board;
use calls::Ask;
use ends::{ends_of, waits};
use growths::try_growths;
use held::told_while_held;
use house::{House, Opens, closed, new_house};
use pairs::planned_by_two;
use rt_base::{End, TxId};
use std::alloc::Global;
use std::io;
use std::sync::Wait;
use std::thread::Threads;
use step_journal::Entry;
use test_sets::{Told, declared, entry_of};
use told::{has_told, is_legal};
use turns::{Kept, take_turns};
use txn_set::CompiledSet;
use workers::{case_of, counts, ran};

// The set, the plant of the last line that made one, the entries that were drained of it, and those of the last run.
#[derive(Drop)]
struct Scene<B: Board> {
    head: String,
    told: Option<Told>,
    house: Option<House<B>>,
    drained: Vec<Entry>,
    entries: Vec<Entry>,
}

// Takes a line of a declaration; the mode line is the last of them.
fn declare<B: Board>(alloc: Global, scene: &mut Scene<B>, line: &str) -> Option<()> {
    scene.head.push_str(line).ok()?;
    scene.head.push_str("\n").ok()?;
    if line.starts_with("mode") {
        let told = declared(alloc, scene.head.as_str())?;
        drop(scene.told.replace(told));
    }
    Some(())
}

// What is asked at a seat by an entry's line, by `peek` or by `front`; `wait` and a line tries a step until it is answered.
fn ask_of(told: &Told, words: &str) -> Option<Ask> {
    let (waits, line) = match words.strip_prefix("wait ") {
        Some(line) => (true, line),
        None => (false, words),
    };
    match words {
        "peek" => Some(Ask::Peek),
        "front" => Some(Ask::Front),
        _ => match entry_of(&told.names, line)? {
            Entry::Planned { tx, tick } => Some(Ask::Plan(tx, tick)),
            Entry::Step { job, op, .. } if waits => Some(Ask::Wait(job.serial, op)),
            Entry::Step { job, op, .. } => Some(Ask::Step(job.serial, op)),
            _ => None,
        },
    }
}

// Writes what is told at a seat.
fn ask_at<R: Wait, B: Board>(
    rt: &R,
    scene: &mut Scene<B>,
    seat: &str,
    words: &str,
    said: &mut String,
) -> Option<()> {
    let ask = ask_of(scene.told.as_ref()?, words)?;
    scene.house.as_mut()?.ask(rt, seat, ask, said)
}

// Drains so many entries at most, behind those that were drained before, and writes all of them.
fn drain<B: Board>(scene: &mut Scene<B>, most: &str, said: &mut String) -> Option<()> {
    let most = most.parse::<usize>().ok()?;
    let count = scene.house.as_mut()?.drain(most, &mut scene.drained);
    write!(said, "{count:?} {:?}", scene.drained.as_slice()).ok()
}

// Closes the plant, and writes what is answered and left.
fn close<B: Board + Drop>(alloc: Global, scene: &mut Scene<B>, said: &mut String) -> Option<()> {
    let (have, need, board) = closed(alloc, scene.house.take()?)?;
    let (first, left) = (board.first(), board.entries().len());
    drop(board);
    write!(
        said,
        "{have} seats where {need} are needed; then {first} entries gone, {left} left"
    )
    .ok()
}

// Whether in the history stands once what each seat was told that it had appended, and nothing else but the seven plans.
fn told_once(alloc: Global, history: &[Entry], kept: &Kept) -> Option<[bool; 4]> {
    let (sampled, controlled) = (kept.sample.as_slice(), kept.control.as_slice());
    let logged = kept.logger.as_slice();
    let sample = has_told(alloc, history, 0, sampled)?;
    let control = has_told(alloc, history, 1, controlled)?;
    let logger = has_told(alloc, history, 2, logged)?;
    let calls = sampled.len().saturating_add(controlled.len());
    let all = calls.saturating_add(logged.len()).saturating_add(7) == history.len();
    Some([sample, control, logger, all])
}

// How many jobs of each transaction committed, as each seat was told.
fn committed(kept: &Kept) -> [usize; 3] {
    let (samples, _) = counts(kept.sample.as_slice(), 0, End::Committed);
    let (controls, _) = counts(kept.control.as_slice(), 1, End::Committed);
    let (logs, _) = counts(kept.logger.as_slice(), 2, End::Committed);
    [samples, controls, logs]
}

// Writes whether a history that was drained whole is legal and has what each seat was told, how many jobs committed, and how
// many operations were refused for good.
fn judge(
    alloc: Global,
    set: &CompiledSet,
    history: &[Entry],
    kept: &Kept,
    said: &mut String,
) -> Option<()> {
    let legal = is_legal(alloc, set, history)?;
    let once = told_once(alloc, history, kept)?;
    let (committed, refused) = (committed(kept), kept.refused);
    write!(
        said,
        "legal {legal}, told once {once:?}, committed {committed:?}, refused for good {refused:?}"
    )
    .ok()
}

// Lets each seat of a new plant take its turns on a thread of its own, and writes whether what was drained and what was left
// is one legal history, whatever the schedule was; it is kept.
fn run_turns<R: Threads + Wait + Sync, B: Opens + Send + Drop>(
    rt: &R,
    alloc: Global,
    scene: &mut Scene<B>,
    is_hostile: bool,
    said: &mut String,
) -> Option<()> {
    let set = &scene.told.as_ref()?.set;
    let (board, mut kept) = take_turns(rt, alloc, new_house::<B>(alloc, set)?, is_hostile)?;
    let all_drained = board.first() == kept.drained.len() as u64;
    let whole = kept.drained.extend_from_slice(board.entries());
    drop(board);
    whole.ok()?;
    write!(said, "drained {all_drained}, ").ok()?;
    let judged = judge(alloc, set, kept.drained.as_slice(), &kept, said);
    scene.entries = kept.drained;
    judged
}

// A run of workers on a new plant, whose answer is written; the entries that its out took are kept.
fn run<R: Threads + Wait + Sync, B: Opens + Send + Drop>(
    rt: &R,
    alloc: Global,
    scene: &mut Scene<B>,
    words: &str,
    said: &mut String,
) -> Option<()> {
    let (number, rest) = words.split_once(' ')?;
    let (most, name) = rest.split_once(' ')?;
    let number = number.parse::<u32>().ok()?;
    let most = most.parse::<usize>().ok()?;
    let case = case_of(alloc, name, most).ok()?;
    let Some(house) = new_house::<B>(alloc, &scene.told.as_ref()?.set) else {
        drop(case);
        return None;
    };
    let (answer, entries) = ran(rt, alloc, house, number, case).ok()?;
    scene.entries = entries;
    write!(said, "{answer:?}").ok()
}

// Writes how the jobs of a transaction ended in the last run.
fn write_ends<B: Board>(
    alloc: Global,
    scene: &Scene<B>,
    tx: &str,
    said: &mut String,
) -> Option<()> {
    let tx = TxId(tx.parse::<u32>().ok()?);
    let set = &scene.told.as_ref()?.set;
    ends_of(alloc, set, scene.entries.as_slice(), tx)?.write(said)
}

// Writes what the entries of the last run are: how many, the one at a place, what became of a transaction's jobs, or how many
// refused locks were granted in the end.
fn write_seen(entries: &[Entry], word: &str, rest: &str, said: &mut String) -> Option<()> {
    match word {
        "locks" => {
            let (refused, granted) = waits(entries);
            write!(
                said,
                "{granted} of {refused} granted after the holder's end"
            )
            .ok()
        }
        "count" => write!(said, "{}", entries.len()).ok(),
        "entry" => {
            let entry = entries.get(rest.parse::<usize>().ok()?);
            write!(said, "{entry:?}").ok()
        }
        "committed" => write_jobs(entries, rest, End::Committed, said),
        "quit" => write_jobs(entries, rest, End::Quit, said),
        _ => None,
    }
}

fn write_jobs(entries: &[Entry], tx: &str, end: End, said: &mut String) -> Option<()> {
    let (ends, plans) = counts(entries, tx.parse::<u32>().ok()?, end);
    write!(said, "{ends} of {plans}").ok()
}

// Lets two threads plan on a new plant, or try while another has the turn, and writes what they were told.
fn with_threads<R: Threads + Wait + Sync, B: Opens + Send + Drop>(
    rt: &R,
    alloc: Global,
    told: &Told,
    word: &str,
    said: &mut String,
) -> Option<()> {
    match word {
        "pair" => {
            let answers = planned_by_two(rt, alloc, new_house::<B>(alloc, &told.set)?)?;
            write!(said, "{answers:?}").ok()
        }
        _ => {
            let answers = told_while_held::<R, B>(rt, alloc, &told.set)?;
            write!(said, "{answers:?}").ok()
        }
    }
}

// Makes a new plant.
fn open<B: Opens + Drop>(alloc: Global, scene: &mut Scene<B>) -> Option<()> {
    let house = new_house::<B>(alloc, &scene.told.as_ref()?.set)?;
    drop(scene.house.replace(house));
    scene.drained = Vec::with_capacity(alloc, 16).ok()?;
    Some(())
}

// Does what a line says, and writes what was told, if anything.
fn follow<R: Threads + Wait + Sync, B: Opens + Send + Drop>(
    rt: &R,
    alloc: Global,
    scene: &mut Scene<B>,
    line: &str,
    said: &mut String,
) -> Option<()> {
    let (word, rest) = line.split_once(' ').unwrap_or((line, ""));
    match word {
        "rtdb" | "item" | "txn" | "mode" => declare(alloc, scene, line),
        "plant" => open(alloc, scene),
        "drain" => drain(scene, rest, said),
        "close" => close(alloc, scene, said),
        "operator" | "sample" | "control" | "logger" => ask_at(rt, scene, word, rest, said),
        "pair" | "held" => with_threads::<R, B>(rt, alloc, scene.told.as_ref()?, word, said),
        "turns" => run_turns(rt, alloc, scene, false, said),
        "hostile" => run_turns(rt, alloc, scene, true, said),
        "run" => run(rt, alloc, scene, rest, said),
        "ends" => write_ends(alloc, scene, rest, said),
        _ => write_seen(scene.entries.as_slice(), word, rest, said),
    }
}

// Does what a line says, unless it is empty or a remark, and prints it with what was told, if anything.
fn play_line<R: Threads + Wait + Sync + Print, B: Opens + Send + Drop>(
    rt: &R,
    alloc: Global,
    scene: &mut Scene<B>,
    line: &str,
    said: &mut String,
) -> io::Result<()> {
    if line.is_empty() || line.starts_with('#') {
        return Ok(());
    }
    if let Some(text) = line.strip_prefix("growths ") {
        return try_growths(rt, alloc, text.as_bytes());
    }
    said.clear();
    let followed = follow(rt, alloc, scene, line, said);
    let said = said.as_str();
    if followed.is_none() {
        println!(rt; "{line}: not read")
    } else if said.is_empty() {
        Ok(())
    } else {
        println!(rt; "{line}: {said}")
    }
}

fn play_lines<R: Threads + Wait + Sync + Print, B: Opens + Send + Drop>(
    rt: &R,
    alloc: Global,
    scene: &mut Scene<B>,
    input: &str,
    said: &mut String,
) -> io::Result<()> {
    for line in input.lines() {
        play_line(rt, alloc, scene, line, said)?;
    }
    Ok(())
}

// Does what each line says, and prints it with what was told.
fn play<R: Threads + Wait + Sync + Print, B: Opens + Send + Drop>(
    rt: &R,
    alloc: Global,
    input: &str,
) -> io::Result<()> {
    let mut said = String::new(alloc);
    let mut scene: Scene<B> = Scene {
        head: String::new(alloc),
        told: None,
        house: None,
        drained: Vec::new(alloc),
        entries: Vec::new(alloc),
    };
    let played = play_lines(rt, alloc, &mut scene, input, &mut said);
    drop(scene);
    drop(said);
    played
}

fn main(rt: HostRuntime) -> io::Result<()> {
    let alloc = rt.alloc();
    let Ok(input) = io::read_to_string(alloc, rt.reader()) else {
        return println!(rt; "program: refused");
    };
    let played = play::<HostRuntime, AdmittedCore>(&rt, alloc, input.as_str());
    drop(input);
    played
}
