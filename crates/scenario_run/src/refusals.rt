//! The lines of an eager transaction and of a bad record.
ghost use Rattle.std.specs.Prelude.{◌≡◌, ◌<◌, ◌^◌, length, option_map, IfOk, IfSome};
ghost use Rattle.std.specs.List.{position};
ghost use Rattle.step_script.specs.Releases.{is_eager as is_eager_one};
ghost use Rattle.command_replies.specs.Replies.{Refused};
ghost use Rattle.scenario_run.specs.JournalReplies.{eager_cause, bad_line};

use command_replies::{Reply, refused};
use io_edge::Status;
use itoa::Buffer;
use refusal_lines::put_txn;
use rt_base::{Names, OutOfMemory, TxId};
use std::alloc::Global;
use step_script::Releases;

fn place_of_eager(releases: &[Releases]) -> Option<usize>
    ensures place { result ≡ position is_eager_one releases.now }
    ensures within { IfSome result (λ at. at < length releases.now) }
{
    releases.iter().position(|r| r.is_eager())
}

/// The first eager transaction.
pub(crate) fn first_eager(releases: &[Releases]) -> Option<TxId>
    requires { length releases.now < 2 ^ 32 }
    ensures { option_map (λ tx. tx.0) result ≡ position is_eager_one releases.now }
{
    match place_of_eager(releases) {
        Some(at) => Some(TxId(at as u32)),
        None => None,
    }
}

/// The refusal of a scenario with an eager transaction.
pub(crate) fn refused_eager(alloc: Global, names: &Names, tx: TxId) -> Result<Reply, OutOfMemory>
    ensures { IfOk result (λ r. Refused (eager_cause names.now tx.0) r.status r.text.items) }
{
    let mut cause = Vec::from_slice(alloc, b"EagerJournal")?;
    put_txn(&mut cause, names, tx)?;
    refused(alloc, Status::Refused, &cause)
}

/// The reply that names a bad record.
pub(crate) fn bad_record(alloc: Global, number: u64) -> Result<Reply, OutOfMemory>
    ensures { IfOk result (λ r. (r.status ≡ Status.BadJournal) × (r.text.items ≡ bad_line number)) }
{
    let mut text = Vec::from_slice(alloc, b"bad journal record ")?;
    text.extend_from_slice(Buffer::new().format(number).as_bytes())?;
    text.extend_from_slice(b"\n")?;
    Ok(Reply {
        status: Status::BadJournal,
        text,
    })
}
