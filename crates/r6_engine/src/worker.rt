//! What the thread of a shard does.

ghost use Rattle.r6_health.specs.Passes.{IsPassOf};
ghost use Rattle.r6_engine.specs.lists.Queues.{IsConsumerIn};
ghost use Rattle.r6_engine.specs.runner.Sound.{KeepsPromised};
ghost use Rattle.r6_engine.specs.Serves.{HasRun};

use crate::feed::Shards;
use crate::lists::Events;
use crate::runner::Taking;
use r6_dev::BlockDevice;
use r6_shard::{Performs, TakesParts};
use r6_threads::Work;
use std::sync::Wait;

/// Where the shards' threads work.
#[derive(Drop)]
pub(crate) struct Station<'a, L: Events, D: BlockDevice> {
    pub(crate) shards: Shards<'a, L, D>,
}

// The shard takes from its queue until its end, and does all that it took.
fn run_on<L: Events, P: Performs + Drop, D: BlockDevice + Drop, R: Wait>(
    taking: &mut Taking<L, P, D>,
    rt: &R,
    shards: &Shards<L, D>,
)
where
    P: TakesParts<D>,
    requires { IsPassOf shards.now.register.now taking.old.runner.shard.pass
        × IsConsumerIn shards.now.queues.now taking.old.consumer }
    ensures pass { IsPassOf shards.now.register.now taking.new.runner.shard.pass }
    ensures run { HasRun L.shape L.events taking.old.consumer.shard taking.old.consumer.numbers.items
        taking.old.runner taking.new.consumer.shard taking.new.consumer.numbers.items taking.new.consumer.finished
        taking.new.runner }
    ensures sound { KeepsPromised L.shape L.sound taking.old.consumer.shard
        taking.old.runner taking.new.runner }
{
    let shard = taking.consumer.shard;
    let queue = &shards.queues[shard];
    taking.run(rt, shards.register, queue, shards.rests);
}

impl<'a, L: Events, P: Performs + Drop, D: BlockDevice + Drop> Work<Station<'a, L, D>>
    for Taking<L, P, D>
where
    P: TakesParts<D>,
{
    ghost ready = { λ station taking. IsPassOf station.shards.register.now taking.runner.shard.pass
        × IsConsumerIn station.shards.queues.now taking.consumer };

    ghost done = { λ station old new. IsPassOf station.shards.register.now new.runner.shard.pass
        × HasRun L.shape L.events old.consumer.shard old.consumer.numbers.items old.runner new.consumer.shard
        new.consumer.numbers.items new.consumer.finished new.runner
        × KeepsPromised L.shape L.sound old.consumer.shard old.runner new.runner };

    fn run<R: Wait>(&mut self, rt: &R, station: &Station<'a, L, D>)
        requires { IsPassOf station.now.shards.register.now self.old.runner.shard.pass
            × IsConsumerIn station.now.shards.queues.now self.old.consumer }
        ensures { IsPassOf station.now.shards.register.now self.new.runner.shard.pass
            × HasRun L.shape L.events self.old.consumer.shard self.old.consumer.numbers.items self.old.runner
            self.new.consumer.shard self.new.consumer.numbers.items self.new.consumer.finished self.new.runner
            × KeepsPromised L.shape L.sound self.old.consumer.shard self.old.runner self.new.runner }
    {
        run_on(self, rt, &station.shards)
    }
}
