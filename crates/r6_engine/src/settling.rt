//! What the shards took is settled.

ghost use Rattle.std.specs.Prelude.{◌≡◌, ◌≤◌, [], All, Some, length, map, slice_get, true, vec_capacity};
ghost use Rattle.r6_engine.specs.lists.Events.{numbers_of, tasks_of};
ghost use Rattle.r6_engine.specs.Serves.{AreNumbered};

use crate::lists::Events;
use crate::runner::{Runner, Taking};
use r6_dev::BlockDevice;
use r6_shard::Performs;

// Settles what the shards took, from the first on: all of their tasks, each once, in the order of the events.
pub(crate) fn settle<L: Events, P: Performs + Drop, D: BlockDevice + Drop>(
    takings: Vec<Taking<L, P, D>>,
    runners: &mut Vec<Runner<P, D>>,
)
    // one of each shard, in their order, each at the end of its queue
    requires shards { length takings.items ≡ L.shape.shards }
    requires numbered { AreNumbered (λ taking. taking.consumer.shard) takings.items }
    requires finished { All (λ taking. taking.consumer.finished ≡ true) takings.items }

    // room for each
    requires room { (runners.old.items ≡ []) × (L.shape.shards ≤ vec_capacity runners.old) }

    ensures runners { runners.new.items ≡ map (λ taking. taking.runner) takings.items }

    // each task was taken, once
    ensures taken { (shard : _) (taking : _) → slice_get takings.items shard ≡ Some taking
        → taking.consumer.numbers.items ≡ numbers_of (tasks_of L.shape shard L.events) }
{
    for taking in takings {
        runners.push_reserved(taking.runner);
    }
}
