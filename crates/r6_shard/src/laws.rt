//! What follows for a shard whose calls a thread makes one by one.

ghost use Rattle.r6_shard.specs.Behind.{BehindLaw};
ghost use Rattle.r6_shard.specs.Laws.{HandedLaw, LedgerLaw};
ghost use Rattle.r6_shard.specs.Sound.{MemoryLaw};

use crate::performs::Performs;
use r6_dev::BlockDevice;

/// Where from every lawful start whose devices hold what the parts told when they were taken up a course leads to a
/// shard, one does so with one part more once it is handed in: of two for one slot and generation the later counts.
pub fn handed_law<P: Performs, D: BlockDevice>()
    ensures { HandedLaw P.Performs D.told D.promised }
{}

/// Such a shard has a ledger from each of these starts.
pub fn ledger_law<P: Performs>()
    ensures { LedgerLaw P.Performs }
{}

/// A request that was handed in once all before it were answered, and each one after it, stands in the order of such a
/// ledger after all that were handed in before it.
pub fn behind_law<P: Performs>()
    ensures { BehindLaw P.Performs }
{}

/// A device in memory that has all rows of a shard, in blocks of the array's length, promises to fail none of the
/// shard's commands.
pub fn memory_law()
    ensures { MemoryLaw }
{}
