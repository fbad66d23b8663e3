//! Why a command has no reply.
ghost use Rattle.std.specs.Prelude.{◌≡◌};
ghost use Rattle.command_replies.specs.declared.unanswered.Unanswered.TheVariants.{Memory};

use rt_base::OutOfMemory;

/// Why a command that reads a source has no reply.
#[derive(Clone, Copy, Debug, PartialEq, Eq)]
pub enum Unanswered {
    /// The source failed.
    Reading,
    /// A growth was refused.
    Memory,
}

impl From<OutOfMemory> for Unanswered {
    ghost from_gives = { λ _ e. e ≡ Memory };

    fn from(_e: OutOfMemory) -> Unanswered {
        Unanswered::Memory
    }
}
