//! What a crash leaves of an array, and what a start has to do before it serves again: laws alone, no code runs.
#![tactic(auto)]

ghost use Rattle.r6_crash.specs.Caches.{CacheLaw};
ghost use Rattle.r6_crash.specs.Cores.{CoreLaw, CoresJournalLaw};
ghost use Rattle.r6_crash.specs.Crashes.{BitmapLaw, CrashLaw};
ghost use Rattle.r6_crash.specs.Holes.{HoleLaw};
ghost use Rattle.r6_crash.specs.Journals.{JournalLaw};
ghost use Rattle.r6_crash.specs.Replays.{RowReplayLaw, WholeBatchLaw};
ghost use Rattle.r6_crash.specs.Volatile.{VolatileLaw};
ghost use Rattle.r6_crash.specs.Witness.{JournalWitness};

/// Where no slot is lost, P and Q of each row made anew from its data are enough: what the devices held when the run
/// ended, whichever commands were out, is then a lawful start of the plain array of that very moment.
pub fn crash_law()
    ensures { CrashLaw }
{}

/// It is enough to do so in the rows that a write holds when the run ends.
pub fn bitmap_law()
    ensures { BitmapLaw }
{}

/// The same where each device may have lost any of the writes that it performed since it was last synced: each block of
/// the start's list is what the plain array had at the sync, or that of a write that was open since.
pub fn cache_law()
    ensures { CacheLaw }
{}

/// The write hole. There is a run of the smallest array, with no slot lost at its end, in which block 0 is being
/// written and block 1 by nobody: if the slot of block 1 is lost by the next start, that start isn't lawful of any list
/// that has block 1 as it was, unless block 0 is written as it was.
pub fn hole_law()
    ensures { HoleLaw }
{}

/// All writes of a write's hold are put out in one call of its core: whenever nothing comes next, as after each call of
/// a live shard, none of its new blocks is computed, or each of its writes is put out.
pub fn whole_batch_law()
    ensures { WholeBatchLaw }
{}

/// One row, at any moment of any run of its holds, whichever positions are out: while no write of the hold was
/// performed the devices in sync have the row before it; and once all its writes are put out, performing them, again
/// where they were performed before, leads to the row after it.
pub fn row_replay_law()
    ensures { RowReplayLaw }
{}

/// With at most two slots lost: wherever the run ends, a replay of the journal leaves a lawful start with the same
/// slots lost, of a list of which each block is that of the plain array or of a write that was accepted and not
/// answered.
pub fn journal_law()
    ensures { JournalLaw }
{}

/// What the journal's law asks of cores holds of the code's own state: between the calls of a live core, what a hold
/// has sent and isn't confirmed is out; and of a write's hold of which nothing comes next all writes are put out, or no
/// new block was computed.
pub fn core_law()
    ensures { CoreLaw }
{}

/// So the journal's law holds of runs of cores.
pub fn cores_journal_law()
    ensures { CoresJournalLaw }
{}

/// What the journal's law asks can be met with a batch that is performed in part, and a slot lost.
pub fn journal_witness()
    ensures { JournalWitness }
{}

/// A replay in order leaves the same whatever a device's cache has lost, if a batch leaves the journal only after a
/// sync: what would stand there if nothing had been lost, and all that is out had been performed.
pub fn volatile_law()
    ensures { VolatileLaw }
{}
