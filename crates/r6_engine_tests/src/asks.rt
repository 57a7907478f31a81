//! What the events of a test ask of the shard that takes them.

ghost use Rattle.std.specs.Prelude.{◌≡◌};
ghost use Rattle.r6_engine.specs.lists.Events.{is_passing};
ghost use Rattle.r6_engine_tests.specs.Asks.{event_of};

/// What an event asks.
#[derive(Clone, Copy)]
pub(crate) enum Ask {
    /// To write this byte throughout a block.
    Write(u64, u8),
    /// To read a block.
    Read(u64),
    /// The same, into a buffer of this length.
    ReadInto(u64, usize),
    /// To take up a device of zeros, which the slot has under this generation.
    Attach(usize, u32),
    Check,
    Repair,
    Wait,
}

impl Ask {
    /// Whether what comes behind waits for all that came before.
    pub(crate) fn is_passing(self) -> bool
        ensures { result ≡ is_passing (event_of self) }
    {
        match self {
            Ask::Check | Ask::Repair | Ask::Wait => true,
            Ask::Write(_, _) | Ask::Read(_) | Ask::ReadInto(_, _) | Ask::Attach(_, _) => false,
        }
    }
}
