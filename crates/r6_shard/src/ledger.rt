//! What a shard keeps of its requests.

ghost use Rattle.std.specs.Prelude.{◌≡◌};
ghost use Rattle.r6_world.specs.Values.{op_of};
ghost use Rattle.r6_shard.specs.Replying.{is_write};

use r6_core::{Op, OpId, Reply};

/// A request, and the number of its event.
#[derive(Drop)]
pub struct Asking {
    pub event: u64,
    pub op: Op,
}

/// A request that the shard accepted. The first has the number 0, the next 1.
#[derive(Clone, Copy, PartialEq, Eq, Debug)]
pub struct Asked {
    /// The number of its event.
    pub event: u64,
    pub block: u64,
    /// Whether it writes the block, or reads it.
    pub writes: bool,
    /// Replies that were taken before it was handed in.
    pub answered: usize,
}

/// A request that was answered.
#[derive(Drop)]
pub struct Entry {
    /// The number of its event.
    pub event: u64,
    pub id: OpId,
    pub block: u64,
    pub reply: Reply,
}

// Whether a request writes its block.
pub(crate) fn is_write(op: &Op) -> bool
    ensures { result ≡ is_write (op_of op.now) }
{
    match op {
        Op::Read(..) => false,
        Op::Write(..) => true,
    }
}
