//! What every run of cores keeps.

ghost use Rattle.r6_world.specs.Counting.{CountsLaw};
ghost use Rattle.r6_core.specs.Runs.{RunsOfCores, RunsOfOneCore, ArrayOfCores, CountsOfCores, CountsOfOneCore, QuietOfCores, SequentialOfCores, ShardOfCores};

/// The laws of an array whose shards are cores.
///
/// A run of cores is a list of calls of [`Core`](crate::Core), each as its contract says, with devices that perform
/// the commands that were taken, calls at the register that a core has to make, and calls there from outside. What it
/// asks of those who drive the cores:
///
/// - A good completion is only of a command that its device performed, and that of a read brings the block that the
///   device gave. An error may come at any time. After a part of a device (the rows of one shard on it) has answered
///   an error, no completion of a command that it performed later is delivered before that error.
/// - A command is performed at most once, after it was taken and before its completion is delivered, and only by the
///   device of its slot and generation. So nothing on the way repeats a write that has its completion, and none that
///   is late gets to a disk that was attached anew since.
/// - A call that is taken is made at the register and told with no event of that core between.
/// - A look sees the register as it is at that moment.
///
/// `cores`: from cores as [`Core::new`](crate::Core::new) makes them, every such run is a run of the world, whose
/// shards are the cores at each moment. So of every run of the cores of all shards holds (`array_of_cores`): each
/// request that is answered `Data` or `Done` acted between its hand-over and its answer as on one plain array (a write
/// when the device of its block performed its command, if not abandoned by then; otherwise at its hold's end, as a
/// read does), each such reply is that array's, one answered `ArrayFailed` acted so or not at all, and every idle
/// row's slots in sync hold that array's blocks, P and Q, in each shard with at most two slots out that has not seen
/// the failure; a slot whose rebuild completed is in sync with that generation in each such shard in which no command
/// to it has failed since its last row there was built; once a third slot is out in the register, every answer that a
/// look gives is `ArrayFailed`; and (`quiet_of_cores`): when a core has no command out and its last event, takings
/// aside, was a look at the register as it is, each request that it accepted has its reply ready, or it was taken. With
/// one shard, one request at a time and at most two slots out, the replies are the plain array's in the order of the
/// requests (`sequential_of_cores`).
///
/// `one_core`, `shard_of_cores`: the run of one core alone, with a register that anyone calls, is a run of the world
/// too, and its answers and rows are so as well: the thread of a core need know nothing of the other shards.
///
/// That there are such runs, `read_through_a_loss` of `r6_core_runs` shows of one core, `read_beside_a_loss` of the
/// cores of two shards, and `rebuild_in_two_shards` of two that rebuild.
pub fn array_law()
    ensures cores { RunsOfCores }
    ensures array_of_cores { ArrayOfCores }
    ensures quiet_of_cores { QuietOfCores }
    ensures sequential_of_cores { SequentialOfCores }

    ensures one_core { RunsOfOneCore }
    ensures shard_of_cores { ShardOfCores }
{
    r6_world::world_law();
    r6_world::quiet_law();
    r6_world::sequential_law();
    r6_world::shard_law();
    r6_world::layout_law();
}

/// What the counts of a core say, in every run of cores, at each moment (`counts_of_cores`).
///
/// Every row that the checks and repairs of a core have passed is counted once: by its class, that of its blocks as
/// they were read, or as skipped, since a position was out or was lost while it was read; or it is held yet, or was
/// dropped when the core saw that the array failed. The repaired rows are those that repairs found in another class
/// than `Consistent`. It is the law of the world's counts (`counts`), of which every run of cores is a run.
pub fn counts_law()
    ensures counts { CountsLaw }
    ensures counts_of_cores { CountsOfCores }
{
    r6_world::layout_law();
    r6_world::counts_law();
}

/// What the counts of one core say, with a register that anyone calls, at each moment.
///
/// The turns of its checks and repairs that were answered `Started` or `Skipped` are as many as the rows that it
/// counts, by class or as skipped, those that they hold yet, and those that it dropped when it saw that the array
/// failed. So of a core that has seen no failure, has at most two slots out and no command out, they are the sum of
/// the five classes and the skipped ones.
pub fn counts_of_one_core()
    ensures { CountsOfOneCore }
{
    r6_world::layout_law();
    r6_world::shard_counts_law();
}
