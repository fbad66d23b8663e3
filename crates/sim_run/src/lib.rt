//! The run of a workload on one board and one thread; where a run's entries go, as they come, why it has no whole report, and
//! how many workers run it.
#![tactic(auto)]

ghost use Rattle.std.specs.Prelude.{◌≡◌, ◌≢◌, ℕ, ◌+◌, ◌<◌, ◌≤◌, [], ◌∷◌, ◌++◌, false, IsTrue, None, Some, map, length, slice_get, IfOk, OnErr};
ghost use Rattle.std.specs.Prelude.{List as Many};
ghost use Rattle.io_edge.specs.Causes.{HasCause};
ghost use Rattle.step_journal.specs.declared.entry.Entry.{Entry as Noted};
ghost use Rattle.step_journal.specs.declared.entry.Entry.TheVariants.{Planned, Step};
ghost use Rattle.step_journal.specs.Step.{ask as asking};
ghost use Rattle.step_journal.specs.History.{IsLegal, state_of};
ghost use Rattle.board.specs.Answers.{IsAsking};
ghost use Rattle.board.specs.Histories.{now_of};
ghost use Rattle.step_journal.specs.Serial.{outcomes_of};
ghost use Rattle.law_histories.specs.Sim.{IsSim, plans_from};
ghost use Rattle.sim_run.specs.Workloads.{workload, AreAccepted, IsObedient};
ghost use Rattle.sim_run.specs.Calls.{CanAsk, HasAsked, CanCall, HasCalled};
ghost use Rattle.sim_run.specs.Outs.{StaysGood, LosesNone};
ghost use Rattle.sim_run.specs.Boards.{IsFixed};
ghost use Rattle.sim_run.specs.Handed.{CanAppend, CanTake, IsHanded, IsCut, IsReady};
ghost use Rattle.sim_run.specs.Runs.{IsWhole, IsStopped, RunsExist, HistoriesGoOn};

mod fault;
mod kept;
mod out;
mod workers;

use board::{Board, IdleReply};
pub use fault::RunFault;
pub use kept::{KeptEntries, append};
pub use out::{EntryOut, Stopped};
use rt_base::{JobId, List, Op, Outcome, Tick, TxId};
use step_script::Body;
pub use workers::Workers;

/// How many entries are handed on at a time.
pub const PIECE: usize = 1024;

/// The laws that a workload has a run: each that is accepted and obedient, of a compiled set, has one, and each legal
/// history that is under way is the beginning of one.
pub fn runs_exist()
    ensures runs { RunsExist }
    ensures goes_on { HistoriesGoOn }
{}

/// Hands on all entries that the board keeps, as one piece, from where they stand; the board lets go of them. Err comes only
/// where the out stopped in this call: it got none of them then, and lost them all. It takes no memory.
pub fn hand_on<B: Board, O: EntryOut>(board: &mut B, out: &mut O) -> Result<(), Stopped>
    requires nothing_lost { O.lost out.old [] }
    requires good { CanAppend (O.got out.old) (O.good out.old) (B.kept board.old) }
    ensures passed { IfOk result (λ _. IsHanded (O.got out.old) (O.got out.new) (B.kept board.old) []) }
    ensures none_lost { LosesNone O.lost out.new result }
    ensures stopped { OnErr result (IsCut (O.got out.old) (O.got out.new) (O.lost out.new) (B.kept board.old)) }
    ensures cause { HasCause (O.stops out.old) (O.stops out.new) result }
    ensures good { StaysGood O.good out.old out.new }
    ensures left { B.kept board.new ≡ [] }
    ensures stands { (history : Many Noted) → B.stands board.old history → B.stands board.new history }
    ensures fixed { IsFixed B.set B.room board.old board.new }
{
    let handed = out.put(board.entries());
    board.discard();
    handed
}

// Hands on the entries that the board keeps once they are a piece.
fn hand_piece<B: Board, O: EntryOut>(board: &mut B, out: &mut O) -> Result<(), Stopped>
    requires nothing_lost { O.lost out.old [] }
    requires good { CanAppend (O.got out.old) (O.good out.old) (B.kept board.old) }
    ensures passed { IfOk result (λ _. IsHanded (O.got out.old) (O.got out.new) (B.kept board.old) (B.kept board.new)) }
    ensures none_lost { LosesNone O.lost out.new result }
    ensures stopped { OnErr result (IsCut (O.got out.old) (O.got out.new) (O.lost out.new) (B.kept board.old)) }
    ensures cause { HasCause (O.stops out.old) (O.stops out.new) result }
    ensures good { StaysGood O.good out.old out.new }
    ensures few { length (B.kept board.new) < 1024 }
    ensures stands { (history : Many Noted) → B.stands board.old history → B.stands board.new history }
    ensures fixed { IsFixed B.set B.room board.old board.new }
{
    if board.entries().len() < PIECE {
        return Ok(());
    }
    hand_on(board, out)
}

// Lets the body begin the job with this serial, unless it has.
fn begin_new<Y: Body>(body: &mut Y, serial: &mut u32, next: u32)
    ensures serial { serial.new ≡ next }
    ensures kept { serial.old ≡ next → body.new ≡ body.old }
    ensures begun { serial.old ≢ next → Y.stands body.new next [] }
    ensures same { Y.gives body.new ≡ Y.gives body.old }
{
    if *serial != next {
        body.begin(next);
        *serial = next;
    }
}

// Lets the job compute, where it asks for that and the board knows that nothing else happens by it: whether it did.
#[inline(always)]
fn computes<B: Board>(board: &mut B, job: JobId, op: Op) -> bool
    requires { job.tx.0 < length (B.set board.old).txns }
    ensures done { IsTrue result → (op ≡ Op.Compute) × ((history : Many Noted) → B.stands board.old history →
        B.stands board.new (history ++ Step job Op.Compute Outcome.Computed None (now_of (B.set board.old) history) ∷ [])) }
    ensures unchanged { result ≡ false → board.new ≡ board.old }
    ensures fixed { (B.set board.new ≡ B.set board.old) × (B.room board.new ≡ B.room board.old) ×
        (B.first board.new ≡ B.first board.old) }
{
    match op {
        Op::Compute => board.compute(job),
        Op::Read(_) => false,
        Op::Write(_, _) => false,
        Op::Commit => false,
        Op::Quit => false,
    }
}

// Lets the running job ask for its body's operation, and tells the body the outcome.
#[inline(always)]
fn ask<B: Board, Y: Body>(board: &mut B, body: &mut Y, serial: &mut u32, job: JobId)
    requires ready { (history : Many Noted) ×
        CanAsk (B.stands board.old) (Y.stands body.old) (Y.gives body.old) (B.set board.old) job serial.old history }
    requires room { length (B.kept board.old) < B.room board.old }
    ensures asked { (history : Many Noted) →
        CanAsk (B.stands board.old) (Y.stands body.old) (Y.gives body.old) (B.set board.old) job serial.old history →
        let op = Y.gives body.old job.serial (outcomes_of history job) in
        HasAsked (B.stands board.new) (Y.stands body.new) (B.set board.old) (asking job op) job.tx.0 serial.new history }
    ensures fixed { (B.set board.new ≡ B.set board.old) × (B.room board.new ≡ B.room board.old) ×
        (B.first board.new ≡ B.first board.old) }
    ensures same { Y.gives body.new ≡ Y.gives body.old }
{
    begin_new(body, serial, job.serial);
    let op = body.next();
    if computes(board, job, op) {
        body.told(Outcome::Computed);
        return;
    }
    match board.ask(job, op) {
        Some(outcome) => body.told(outcome),
        None => {}
    }
}

// The event that the state fixes: the step of the running job, or idling. False where nothing is pending and nothing
// planned.
#[inline(always)]
fn next_call<B: Board, Y: Body>(board: &mut B, bodies: &mut [Y], serials: &mut [u32]) -> bool
    requires ready { let w = workload (B.set board.old) (map Y.gives bodies.old) [] in
        (history : Many Noted) × CanCall (B.stands board.old) Y.stands w bodies.old serials.old history }
    requires each { (length bodies.old ≡ length (B.set board.old).txns) ×
        (length serials.old ≡ length (B.set board.old).txns) }
    requires room { length (B.kept board.old) < B.room board.old }
    ensures called { let w = workload (B.set board.old) (map Y.gives bodies.old) [] in
        (history : Many Noted) → CanCall (B.stands board.old) Y.stands w bodies.old serials.old history →
        HasCalled (B.stands board.new) Y.stands w bodies.new serials.new history result }
    ensures fixed { (B.set board.new ≡ B.set board.old) × (B.room board.new ≡ B.room board.old) ×
        (B.first board.new ≡ B.first board.old) }
    ensures same { map Y.gives bodies.new ≡ map Y.gives bodies.old }
{
    match board.running() {
        Some(job) => {
            let tx = job.tx.0 as usize;
            ask(board, &mut bodies[tx], &mut serials[tx], job);
            true
        }
        None => match board.idle() {
            IdleReply::Advanced { .. } => true,
            IdleReply::Nothing => false,
            _ => unreachable!(),
        },
    }
}

// Plans the releases of one transaction, and hands on each piece.
fn plan_each<B: Board, O: EntryOut>(
    board: &mut B,
    tx: TxId,
    ticks: &[Tick],
    out: &mut O,
) -> Result<(), Stopped>
    requires legal { (history : Many Noted) × B.stands board.old history ×
        IsLegal (B.set board.old) (history ++ map (Planned tx) ticks.now) }
    requires in_set { tx.0 < length (B.set board.old).txns }
    requires ready { IsReady (length (B.kept board.old)) (B.room board.old) }
    requires nothing_lost { O.lost out.old [] }
    requires good { CanTake (O.got out.old) (O.good out.old) (B.kept board.old ++ map (Planned tx) ticks.now) }
    ensures passed { IfOk result (λ _. IsHanded (O.got out.old) (O.got out.new) (B.kept board.old ++ map (Planned tx) ticks.now) (B.kept board.new)) }
    ensures none_lost { LosesNone O.lost out.new result }
    ensures few { IfOk result (λ _. length (B.kept board.new) < 1024) }
    ensures stands { IfOk result (λ _. (history : Many Noted) → B.stands board.old history →
        B.stands board.new (history ++ map (Planned tx) ticks.now)) }
    ensures stopped { OnErr result (IsCut (O.got out.old) (O.got out.new) (O.lost out.new) (B.kept board.old ++ map (Planned tx) ticks.now)) }
    ensures cause { HasCause (O.stops out.old) (O.stops out.new) result }
    ensures good { StaysGood O.good out.old out.new }
    ensures fixed { IsFixed B.set B.room board.old board.new }
{
    for tick in ticks {
        let Ok(_) = board.plan(tx, *tick) else {
            unreachable!()
        };
        hand_piece(board, out)?;
    }
    Ok(())
}

/// Plans all releases, by transaction and then by index, and hands on a piece of `PIECE` at a time; the board keeps what
/// is left. Releases are in ticks, with a place for each transaction of the board's set; the history with their plans
/// has to be legal, so each plan is granted. Err comes only where the out stopped in this call: it got the first of the
/// entries then, and lost the piece that came next. It takes no memory.
pub fn plan_all<B: Board, O: EntryOut>(
    board: &mut B,
    releases: &[List<Tick>],
    out: &mut O,
) -> Result<(), Stopped>
    requires legal { (history : Many Noted) × B.stands board.old history ×
        IsLegal (B.set board.old) (history ++ plans_from 0 releases.now) }
    requires each { length releases.now ≡ length (B.set board.old).txns }
    requires ready { IsReady (length (B.kept board.old)) (B.room board.old) }
    requires nothing_lost { O.lost out.old [] }
    requires good { CanTake (O.got out.old) (O.good out.old) (B.kept board.old ++ plans_from 0 releases.now) }
    ensures passed { IfOk result (λ _. IsHanded (O.got out.old) (O.got out.new) (B.kept board.old ++ plans_from 0 releases.now) (B.kept board.new)) }
    ensures none_lost { LosesNone O.lost out.new result }
    ensures few { IfOk result (λ _. length (B.kept board.new) < 1024) }
    ensures stands { IfOk result (λ _. (history : Many Noted) → B.stands board.old history →
        B.stands board.new (history ++ plans_from 0 releases.now)) }
    ensures stopped { OnErr result (IsCut (O.got out.old) (O.got out.new) (O.lost out.new) (B.kept board.old ++ plans_from 0 releases.now)) }
    ensures cause { HasCause (O.stops out.old) (O.stops out.new) result }
    ensures good { StaysGood O.good out.old out.new }
    ensures fixed { IsFixed B.set B.room board.old board.new }
{
    for (tx, ticks) in releases.iter().enumerate() {
        plan_each(board, TxId(tx as u32), ticks.as_slice(), out)?;
    }
    Ok(())
}

// Lets each body begin with the serial 0.
fn begin_all<Y: Body>(bodies: &mut [Y], serials: &mut [u32])
    requires { length serials.old ≡ length bodies.old }
    ensures begun { (tx : ℕ) (body : _) (serial : ℕ) →
        slice_get bodies.new tx ≡ Some body → slice_get serials.new tx ≡ Some serial →
        (serial ≡ 0) × Y.stands body 0 [] }
    ensures same { map Y.gives bodies.new ≡ map Y.gives bodies.old }
{
    for tx in 0..bodies.len() {
        bodies[tx].begin(0);
        serials[tx] = 0;
    }
}

/// Runs a workload on a board that has no history yet: plans every release, by transaction and then by index; then lets
/// the running job ask for its body's operation, and idles where nothing is pending, until nothing is pending and
/// nothing is planned. The out gets the entries of the workload's run in their order, a piece of `PIECE` at a time and
/// what is left at the end, and the board keeps none then. Err comes only where the out stopped in this call. The run
/// stops at once: what the out got, and after it what it lost, are how the workload's run begins; what the board then
/// keeps is not said. Releases are in ticks. `bodies`, `serials` and `releases` have a place for each transaction of the
/// board's set. What stands in `serials` and in the bodies before does not matter, since each body begins anew. It takes no
/// memory. It makes at most three calls of the board for each entry, two more for each piece, and four at the end. Each
/// entry is handed on once, from where the board keeps it.
pub fn run<B: Board, Y: Body, O: EntryOut>(
    board: &mut B,
    bodies: &mut [Y],
    serials: &mut [u32],
    releases: &[List<Tick>],
    out: &mut O,
) -> Result<(), Stopped>
    requires opened { B.stands board.old [] }
    requires each { (length bodies.old ≡ length (B.set board.old).txns) ×
        (length serials.old ≡ length (B.set board.old).txns) }
    requires accepted { AreAccepted (B.set board.old) releases.now }
    requires obedient { IsObedient (workload (B.set board.old) (map Y.gives bodies.old) releases.now) }
    requires room { 1024 < B.room board.old }
    requires nothing_lost { O.lost out.old [] }
    requires good { let w = workload (B.set board.old) (map Y.gives bodies.old) releases.now in
        (history : Many Noted) → IsSim w history → CanTake (O.got out.old) (O.good out.old) history }
    ensures whole { let w = workload (B.set board.old) (map Y.gives bodies.old) releases.now in
        IfOk result (λ _. IsWhole w (B.stands board.new) (O.got out.old) (O.got out.new)) }
    ensures left { IfOk result (λ _. B.kept board.new ≡ []) }
    ensures none_lost { LosesNone O.lost out.new result }
    ensures stopped { let w = workload (B.set board.old) (map Y.gives bodies.old) releases.now in
        OnErr result (IsStopped w (O.got out.old) (O.got out.new) (O.lost out.new)) }
    ensures cause { HasCause (O.stops out.old) (O.stops out.new) result }
    ensures good { StaysGood O.good out.old out.new }
    ensures fixed { IsFixed B.set B.room board.old board.new }
    ensures same { map Y.gives bodies.new ≡ map Y.gives bodies.old }
{
    plan_all(board, releases, out)?;
    begin_all(bodies, serials);
    while next_call(board, bodies, serials) {
        hand_piece(board, out)?;
    }
    hand_on(board, out)
}
