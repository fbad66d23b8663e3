//! Records of 255 bytes on a disk, each of which is there whole or not at all, whatever moment a crash comes at.
ghost use Rattle.durable_disk.specs.Laws.{ClosedAsRead, FoundAsRead, WholeIsWide};

/// A file has records exactly where each is found in its place, and a closed gate behind them; a record has
/// 255 bytes behind its gate.
pub fn found_as_read()
    ensures found { FoundAsRead }
    ensures wide { WholeIsWide }
    ensures closed { ClosedAsRead }
{}
