//! All that the threads begin with.

ghost use Rattle.std.specs.Prelude.{◌≡◌, ◌≤◌, ◌<◌, ◌^◌, [], IfOk, OnOk, count_ones, length, map, vec_capacity};
ghost use Rattle.std.specs.List.{AllZip};
ghost use Rattle.r6_layout.specs.Shape.{IsShape};
ghost use Rattle.r6_engine.specs.feed.Events.{events_of};
ghost use Rattle.r6_engine.specs.Begun.{HasBegun};
ghost use Rattle.r6_engine.specs.Crews.{HasRoomOf, HaveRoomyCrews, MeetsAt, StandsAt, exchanges_at};
ghost use Rattle.r6_engine.specs.Stops.{AreSteady};

use crate::crew::Crew;
use crate::feed::{Event, Feed};
use crate::lines::Lines;
use crate::lists::{Events, Queue, Rest};
use crate::making::{Opening, rests_of, takings_of};
use crate::posting::Posting;
use crate::remote::Remote;
use crate::runner::{Runner, Taking};
use crate::serving::Config;
use r6_dev::BlockDevice;
use r6_health::{Register, Snapshot};
use r6_idle::Idle;
use r6_shard::Performs;
use r6_threads::NotBegun;
use std::alloc::{AllocError, Global};
use std::sync::Wait;

/// Where the shards and the calling thread meet, and room for what the shards' threads hand back.
#[derive(Drop)]
pub(crate) struct Rooms<L: Events, P: Performs, D: BlockDevice> {
    pub(crate) runners: Vec<Runner<P, D>>,
    /// The queue of each shard, from the first on.
    pub(crate) queues: Vec<Queue<L, D>>,
    /// Where each shard is asked for its rest, from the first on.
    pub(crate) rests: Vec<Rest>,
}

/// All that the threads begin with.
#[derive(Drop)]
pub(crate) struct Begun<L: Events, P: Performs, D: BlockDevice> {
    pub(crate) register: Register,
    pub(crate) rooms: Rooms<L, P, D>,
    /// The shards as their threads begin, from the first on.
    pub(crate) takings: Vec<Taking<L, P, D>>,
    /// What the calling thread hands out.
    pub(crate) feed: Feed<L, D>,
}

/// What is made before any shard: room for the shards and their queues, and how the calling thread sleeps.
#[derive(Drop)]
struct Prepared<L: Events, P: Performs, D: BlockDevice> {
    runners: Vec<Runner<P, D>>,
    rests: Vec<Rest>,
    lines: Lines<L, D>,
    idle: Idle,
}

fn prepare<L: Events, P: Performs + Drop, D: BlockDevice + Drop>(
    alloc: Global,
    shards: usize,
    crews: &[Crew<D>],
) -> Result<Prepared<L, P, D>, AllocError>
    ensures runners { IfOk result (λ made. (made.runners.items ≡ []) × (shards ≤ vec_capacity made.runners)) }
    ensures rests { IfOk result (λ made. length made.rests.items ≡ length crews.now) }
    ensures queues { IfOk result (λ made. (made.lines.queues.items ≡ [])
        × (shards ≤ vec_capacity made.lines.queues)) }
    ensures producers { IfOk result (λ made. (made.lines.producers.items ≡ [])
        × (shards ≤ vec_capacity made.lines.producers)) }
{
    let idle = Idle::new(alloc)?;
    let rests = rests_of(alloc, crews, idle.waker())?;
    Ok(Prepared {
        runners: Vec::with_capacity(alloc, shards)?,
        rests,
        lines: Lines::with_capacity(alloc, shards)?,
        idle,
    })
}

// All that the threads begin with is made.
pub(crate) fn begin<'a, L, D, R>(
    rt: &R,
    alloc: Global,
    config: &Config,
    crews: Vec<Crew<D>>,
    events: &[Event<D>],
    posting: &mut Posting<'a, D>,
) -> Result<Begun<L, Remote<'a, D>, D>, NotBegun>
where
    L: Events,
    D: BlockDevice + Drop,
    R: Wait,
    requires shape { config.now.geometry ≡ L.shape }
    requires events { events_of D.told events.now ≡ L.events }

    // the array and its parts
    requires limits { IsShape L.shape }
    requires window { (1 ≤ config.now.window) × (config.now.window ≤ 8) }
    requires slots { config.now.lost < 2 ^ L.shape.slots }
    requires few { count_ones config.now.lost ≤ 2 }

    // the workers, none of which is posted yet
    requires crews { HaveRoomyCrews D.told D.promised L.shape L.events posting.old crews.items }

    ensures begun { (steady : _) → AreSteady steady crews.items
        → IfOk result (λ begun. HasBegun D.told D.promised steady L.shape L.events config.now.lost config.now.window
        (map (λ crew. crew.parts) crews.items) begun) }

    // its workers are posted where each meets them
    ensures posts { OnOk result (AllZip (StandsAt D.told D.promised) (exchanges_at posting.new.sites.now)
        posting.new.posts.items) }
    ensures meets { IfOk result (λ begun. AllZip (λ site taking. MeetsAt site taking.runner)
        posting.new.sites.now begun.takings.items) }
    ensures roomy { IfOk result (λ begun. AllZip (λ crew taking. HasRoomOf crew taking.runner)
        crews.items begun.takings.items) }
    ensures sites { posting.new.sites.now ≡ posting.old.sites.now }
{
    let Config {
        geometry,
        window,
        lost,
        ..
    } = *config;
    let Ok((register, mut first)) = Register::new(rt, alloc, &geometry, lost) else {
        return Err(NotBegun::NoMemory);
    };
    let mut made = prepare(alloc, geometry.shards(), &crews)?;
    let start = Snapshot::start(&geometry, lost);
    let opening = Opening {
        geometry: &geometry,
        window,
        register: &register,
        start: &start,
        events,
    };
    let lines = &mut made.lines;
    let takings = takings_of(rt, alloc, &opening, &mut first, crews, lines, posting)?;
    let Prepared {
        runners,
        rests,
        lines: Lines { queues, producers },
        idle,
    } = made;
    let feed = Feed::new(alloc, events, producers, first, idle)?;
    Ok(Begun {
        register,
        rooms: Rooms {
            runners,
            queues,
            rests,
        },
        takings,
        feed,
    })
}
