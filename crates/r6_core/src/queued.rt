//! A request that waits.

ghost use Rattle.std.specs.Prelude.{◌≡◌, ◌<◌, ◌++◌, ◌∷◌, [], length};
ghost use Rattle.r6_waiters.specs.Line.{capacity_of, causes_of, entries_of, with_entries};

use crate::written::Written;
use r6_waiters::Waiters;
use r6_world::Op;

/// A request that was accepted and waits, with its number.
#[derive(Drop)]
pub struct Queued {
    pub id: u64,
    pub op: Op,
    /// Its direct read met a read error, so it waits to be held.
    pub erred: bool,
}

// The request waits for the cause, behind all others.
pub(crate) fn wait(line: &mut Waiters<Queued, Written>, cause: usize, queued: Queued)
    requires cause { cause < causes_of line.old }
    requires room { length (entries_of line.old) < capacity_of line.old }
    ensures { line.new ≡ with_entries line.old (entries_of line.old ++ (cause, queued) ∷ []) }
{
    let Ok(()) = line.push(cause, queued) else {
        unreachable!()
    };
}
