//! What follows for the history of a worker.

ghost use Rattle.r6_exchange.specs.Histories.{HonestyLaw, SoundLaw, OnceLaw};
ghost use Rattle.r6_exchange.specs.Joins.{JoinLaw};
ghost use Rattle.r6_exchange.specs.Next.{NextLaw, AllReceivedLaw, RenewsNone};

use r6_dev::BlockDevice;

/// Completions that answer tasks are an honest history for each part that was taken up; they have no fault where a part
/// that is served to the end promises none; and each is that of a command of its own, in the order of the commands.
pub fn history_law<D: BlockDevice>()
    ensures honest { HonestyLaw D.told D.promised }
    ensures sound { SoundLaw D.told D.promised }
    ensures once { OnceLaw D.told D.promised }
{
    r6_dev::history_law();
}

/// One completion more is that of the command that has been unanswered longest, as its part may answer by what is known
/// of the parts so far. Where no command is unanswered none is to come. And that no part is sent while a command to its
/// device is unanswered stays so.
pub fn next_law<D: BlockDevice>()
    ensures next { NextLaw D.told D.promised }
    ensures all_received { AllReceivedLaw D.told D.promised }
    ensures renewed { RenewsNone D.row.Denot }
{}

/// At the join of a shard, every command of which is answered, and a worker whose run is over: the worker took all that
/// the shard sent, the shard received all that the worker gave, and the worker's parts tell what follows of it.
pub fn join_law<D: BlockDevice>()
    ensures { JoinLaw D.told D.promised }
{}
