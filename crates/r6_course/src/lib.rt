//! The course of one shard with a register that others change: what the thread that owns a core and its parts of the
//! devices knows of all that happened, how it goes on, and what follows for the requests that it answered.
#![tactic(auto)]

ghost use Rattle.r6_course.specs.Ends.{CommandLaw, ErrorLaw, FailureLaw, IdleLaw, LossLaw};
ghost use Rattle.r6_course.specs.Ledgers.{MergeLaw, OrderLaw};
ghost use Rattle.r6_course.specs.Steps.{CoursesBegin, CallsGoOn, OthersGoOn};
ghost use Rattle.r6_course.specs.Steps.{TellingGoesOn, HandingGoesOn, LettingGoesOn};
ghost use Rattle.r6_course.specs.Steps.{TakingGoesOn, AnsweringGoesOn, LosingGoesOn, ErringGoesOn, SeenLaw};
ghost use Rattle.r6_course.specs.Witness.{WitnessLaw};

/// Parts that tell what the devices have are where a course begins. It goes on by each call of the core; by a look at
/// the register, which others may have changed; by the shard's own call there; by a part that is handed in of a device
/// which the core hasn't looked at yet; and by parts that are let go.
pub fn courses_go_on()
    ensures begins { CoursesBegin }
    ensures calls { CallsGoOn }

    // what comes to the shard
    ensures others { OthersGoOn }

    // parts
    ensures telling { TellingGoesOn }
    ensures handing { HandingGoesOn }
    ensures letting { LettingGoesOn }
{}

/// A course goes on by a command that is taken, and by its completion, good or not, whenever it comes: from the error of
/// a command on its part may tell anything, but a read error of a read leaves it as it was. Commands go only to devices
/// whose attach the core has looked at.
pub fn commands_go_on()
    ensures taking { TakingGoesOn }
    ensures answering { AnsweringGoesOn }
    ensures losing { LosingGoesOn }
    ensures erring { ErringGoesOn }
    ensures seen { SeenLaw }
{}

/// Wherever a course has led, the requests that the shard answered are, in an order that keeps to the time, what
/// one plain array answers, each to the request that was handed in under its number; the parts in sync tell what
/// the layout keeps of that array, P and Q; blocks of other shards are as they were; and each request handed in is
/// open yet or was answered.
pub fn order_law()
    ensures { OrderLaw }
{}

/// The arrays in which the ledgers of all shards end make one, of which each block is that of its shard's: the parts
/// of each shard hold it.
pub fn merge_law()
    ensures { MergeLaw }
{}

/// Wherever a course has led: a request was answered that the array has failed only if the shard saw so, and it saw
/// so only if the register has it; a live shard of which nothing is out but abandoned commands has idle rows alone;
/// a command that isn't abandoned goes to a device that a live shard uses; holds have read errors to fix only on slots
/// where a read error was delivered of a command that wasn't abandoned; and an error that is delivered makes the shard
/// declare the loss of that device at most, and only if the command wasn't abandoned. Where two positions of a row that a
/// hold holds were out already, or had a read error to fix, it may declare more: of slots on which a hold has a read error
/// to fix the losses of all devices where the shard stops by it, and else that of the first of two, without which the
/// slot goes on.
pub fn ends_law()
    ensures failure { FailureLaw }
    ensures idle { IdleLaw }
    ensures commands { CommandLaw }

    // errors
    ensures errors { ErrorLaw }
    ensures losses { LossLaw }
{}

/// There are courses to which the laws apply: every lawful start is the beginning of one, with a row that is in
/// sync on a part; one leads to where a slot that is replaced while it is in service has two devices, each in sync for
/// a row and with a part; and on the smallest array, whatever its blocks are, the course of `r6_world` is one, in which a
/// read is answered by what a write wrote, though the device had failed, was replaced and is rebuilt.
pub fn witness_law()
    ensures { WitnessLaw }
{}
