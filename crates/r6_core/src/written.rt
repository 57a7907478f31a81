//! How waiting writes are found by their blocks.

ghost use Rattle.std.specs.Prelude.{◌≡◌};
ghost use Rattle.r6_core.specs.Inside.{block_written};

use crate::queued::Queued;
use r6_waiters::KeyOf;
use r6_world::Op;

/// A write that waits has the number of its block as key, and a read none.
#[derive(Drop)]
pub(crate) struct Written;

impl KeyOf<Queued> for Written {
    ghost key_of = { λ queued. block_written queued.op };

    fn key(queued: &Queued) -> Option<u64> {
        match &queued.op {
            Op::Read(..) => None,
            Op::Write(block, _) => Some(*block),
        }
    }
}
