//! What stands in a list.

ghost use Rattle.std.specs.Prelude.{◌≡◌, Some};
ghost use Rattle.r6_engine.specs.lists.Events.{task, task_at};
ghost use Rattle.r6_engine.specs.lists.Lists.{duty_in, IsAsPromised};

use crate::lists::events::Events;
use crate::lists::work::EventPart;
use r6_dev::BlockDevice;
use std::marker::PhantomData;

/// A shard's part of an event.
#[derive(Drop)]
pub struct Item<L: Events, D: BlockDevice> {
    pub shard: usize,
    /// The event's number.
    pub number: u64,
    /// How many waits stand before the event: waits, checks and repairs.
    pub waits: u64,
    pub work: EventPart<D>,
    events: PhantomData<L>,
    pub ghost of_event: { task_at L.shape shard L.events number ≡ Some (task number waits (duty_in D.told work)) },
    pub ghost promised: { IsAsPromised D.promised L.shape L.sound shard work },
}

impl<L: Events, D: BlockDevice> Item<L, D> {
    /// The shard's part of the event with this number.
    pub fn new(shard: usize, number: u64, waits: u64, work: EventPart<D>) -> Item<L, D>
        requires task { task_at L.shape shard L.events number ≡ Some (task number waits (duty_in D.told work)) }
        requires promised { IsAsPromised D.promised L.shape L.sound shard work }
        ensures place { (result.shard ≡ shard) × (result.number ≡ number) × (result.waits ≡ waits) }
        ensures work { result.work ≡ work }
    {
        Item {
            shard,
            number,
            waits,
            work,
            events: PhantomData,
        }
    }
}
