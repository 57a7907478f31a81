//! What the threads begin with is made, before any of them is there.

ghost use Rattle.std.specs.Prelude.{◌≡◌, ◌+◌, ◌%◌, ◌<◌, ◌≤◌, ℕ, [], All, None, Some, count_by, length, slice_get, IfOk, OnOk, false, true};
ghost use Rattle.r6_layout.specs.Shape.{IsShape};
ghost use Rattle.std.specs.List.{AllZip};
ghost use Rattle.r6_health.specs.Passes.{IsPassOf, view_of};
ghost use Rattle.r6_health.specs.Views.{giver};
ghost use Rattle.r6_shard.specs.Beginnings.{IsFirstPass};
ghost use Rattle.r6_engine.specs.lists.Events.{tasks_of};
ghost use Rattle.r6_engine.specs.lists.Queues.{IsConsumerIn};
ghost use Rattle.r6_engine.specs.feed.Events.{events_of, brings_device};
ghost use Rattle.r6_engine.specs.runner.Parts.{all_parts};
ghost use Rattle.r6_shard.specs.declared.parts.Parts.{Parts};
ghost use Rattle.r6_engine.specs.remote.Remotes.{goes_on};
ghost use Rattle.r6_engine.specs.Crews.{HasRoom, HasRoomOf, HasTakenUp, HavePosts, HaveRoomyCrews, IsCrew, MeetsAt, StandsAt, exchanges_at};
ghost use Rattle.r6_engine.specs.NewQueues.{AreMade, IsLonger};
ghost use Rattle.r6_engine.specs.Openings.{HasNamed, IsOpening};
ghost use Rattle.r6_shard.specs.Sound.{StartsSound};
ghost use Rattle.r6_engine.specs.Named.{BeginsSound};
ghost use Rattle.r6_engine.specs.Stops.{AreSteady};
ghost use Rattle.r6_engine.specs.runner.Sound.{IsSoundIn};
ghost use Rattle.r6_engine.specs.Serves.{AreNumbered, Begins};

use crate::crew::Crew;
use crate::feed::{Event, count_devices, count_tasks};
use crate::lines::Lines;
use crate::lists::{Consumer, Events, Rest};
use crate::posting::Posting;
use crate::remote::Remote;
use crate::runner::{Runner, Taking};
use r6_dev::BlockDevice;
use r6_health::{Pass, Register, Snapshot};
use r6_idle::{Idle, Waker};
use r6_layout::Geometry;
use r6_shard::{Performs, ShardConfig, TakesParts};
use std::alloc::{AllocError, Global};
use std::sync::Wait;

// Where each shard is asked for its rest, by the thread that this waker wakes.
pub(crate) fn rests_of<D: BlockDevice + Drop>(
    alloc: Global,
    crews: &[Crew<D>],
    caller: &Waker,
) -> Result<Vec<Rest>, AllocError>
    ensures { IfOk result (λ rests. length rests.items ≡ length crews.now) }
{
    let mut rests = Vec::with_capacity(alloc, crews.len())?;
    for crew in crews {
        let shard = crew.idle.waker().clone()?;
        rests.push_reserved(Rest::new(shard, caller.clone()?));
    }
    Ok(rests)
}

/// As many tasks as a shard may take, and as many parts of new devices as may come among them.
#[derive(Clone, Copy)]
pub(crate) struct Room {
    tasks: usize,
    attaches: usize,
}

// Room for what a shard is handed of the events.
fn room_for<D: BlockDevice>(geometry: &Geometry, events: &[Event<D>], shard: usize) -> Room
    ensures tasks { result.tasks ≡ length (tasks_of geometry.now shard (events_of D.told events.now)) }
    ensures attaches { result.attaches ≡ count_by brings_device (events_of D.told events.now) }
{
    Room {
        tasks: count_tasks(geometry, events, shard) as usize,
        attaches: count_devices(events) as usize,
    }
}

// A shard as its thread begins, of which nothing is out.
pub(crate) fn taking_of<L: Events, P: Performs + Drop, D: BlockDevice + Drop>(
    alloc: Global,
    place: ShardConfig,
    start: &Snapshot,
    pass: Pass,
    performer: P,
    room: Room,
    consumer: Consumer<L, D>,
    idle: Idle,
) -> Result<Taking<L, P, D>, AllocError>
where
    P: TakesParts<D>,
    requires shape { place.geometry ≡ L.shape }
    requires room { (length (tasks_of L.shape place.number L.events) ≤ room.tasks)
        × (length (all_parts L.shape L.events place.number) ≤ room.attaches) }
    requires parts_room { length (P.performer performer).labels + room.attaches ≤ (P.performer performer).part_room }
    requires consumer { (consumer.shard ≡ place.number) × (consumer.numbers.items ≡ []) }
    requires limits { IsShape place.geometry }
    requires number { place.number < place.geometry.shards }
    requires window { (1 ≤ place.window) × (place.window ≤ 8) }
    requires no_attach { start.now.attaches ≡ 0 }
    requires unfailed { start.now.failed ≡ false }
    requires pass { IsFirstPass place.geometry place.number start.now (view_of pass) }

    // nothing is out
    requires holds { P.holds performer }
    requires idle { (token : ℕ) → (P.performer performer).out token ≡ None }

    // the shard has nothing behind it, and is sound where its parts are, whichever it took up
    ensures begins { IfOk result (λ taking. (parts : Parts D.row.Denot)
        → HasTakenUp D.told D.promised parts.parts.items (P.performer performer)
        → Begins D.told L.shape L.events start.now place.window parts taking.consumer.shard
        taking.consumer.numbers.items taking.runner) }
    ensures sound { IfOk result (λ taking. (parts : Parts D.row.Denot)
        → HasTakenUp D.told D.promised parts.parts.items (P.performer performer)
        → (slot : _) → (P.performer performer).steady slot ≡ true
        → StartsSound D.promised L.shape taking.consumer.shard start.now slot parts.parts.items
        → IsSoundIn L.shape taking.consumer.shard slot taking.runner) }

    // it has what was handed in
    ensures made { IfOk result (λ taking. (taking.consumer ≡ consumer) × (taking.runner.shard.pass ≡ pass)
        × (taking.runner.shard.parts ≡ performer)) }
{
    let Room { tasks, attaches } = room;
    let runner = Runner::new(alloc, place, start, pass, performer, tasks, attaches)?;
    Ok(Taking::new(runner, consumer, idle))
}

/// An array, as its shards' threads begin.
#[derive(Drop)]
pub(crate) struct Opening<'a, D: BlockDevice> {
    pub(crate) geometry: &'a Geometry,
    pub(crate) window: usize,
    pub(crate) register: &'a Register,
    pub(crate) start: &'a Snapshot,
    pub(crate) events: &'a [Event<D>],
}

// The next shard as its thread begins, with a pass that has the shard's number as its name, once its workers are posted.
fn taking_for<'a, L: Events, D: BlockDevice + Drop, R: Wait>(
    rt: &R,
    alloc: Global,
    opening: &Opening<'_, D>,
    first: &mut Pass,
    number: usize,
    crew: Crew<D>,
    lines: &mut Lines<L, D>,
    posting: &mut Posting<'a, D>,
) -> Result<Taking<L, Remote<'a, D>, D>, AllocError>
    requires opening { IsOpening D.told L.shape L.events opening.now }
    requires pass { IsPassOf opening.now.register.now first.old }
    requires first { HasNamed L.shape opening.now.start.now number (view_of first.old) }
    requires number { number < L.shape.shards }
    requires lines { AreMade L.shape L.events number lines.old }
    requires posts { HavePosts D.told D.promised number posting.old }
    requires crew { (site : _) × (workers : ℕ) × (slice_get posting.old.sites.now number ≡ Some site)
        × IsCrew D.told D.promised workers site crew }
    requires room { HasRoom L.events crew }

    ensures pass { IsPassOf opening.now.register.now first.new }
    ensures gave { view_of first.new ≡ giver (view_of first.old) }
    ensures begins { IfOk result (λ taking. Begins D.told L.shape L.events opening.now.start.now opening.now.window
        crew.parts taking.consumer.shard taking.consumer.numbers.items taking.runner) }
    ensures sound { IfOk result (λ taking. (slot : ℕ) → goes_on crew.stop (slot % length crew.ends.items) ≡ true
        → StartsSound D.promised L.shape taking.consumer.shard opening.now.start.now slot crew.parts.parts.items
        → IsSoundIn L.shape taking.consumer.shard slot taking.runner) }
    ensures own { IfOk result (λ taking. (taking.consumer.shard ≡ number)
        × IsPassOf opening.now.register.now taking.runner.shard.pass) }

    // it takes from the queue of its shard, and meets its workers where they are posted
    ensures lines { OnOk result (AreMade L.shape L.events (number + 1) lines.new
        × IsLonger lines.new.queues.items lines.old.queues.items) }
    ensures consumer { IfOk result (λ taking. IsConsumerIn lines.new.queues.items taking.consumer) }
    ensures posts { OnOk result (HavePosts D.told D.promised (number + 1) posting.new) }
    ensures meets { IfOk result (λ taking. (site : _) → slice_get posting.old.sites.now number ≡ Some site
        → MeetsAt site taking.runner) }
    ensures roomy { IfOk result (λ taking. HasRoomOf crew taking.runner) }
    ensures sites { posting.new.sites.now ≡ posting.old.sites.now }
{
    let place = ShardConfig {
        geometry: *opening.geometry,
        number,
        window: opening.window,
    };
    let pass = opening.register.split(first);
    let room = room_for(opening.geometry, opening.events, number);
    let consumer = lines.add(alloc, number, room.tasks)?;
    let (remote, idle) = posting.post(rt, alloc, number, crew)?;
    taking_of(
        alloc,
        place,
        opening.start,
        pass,
        remote,
        room,
        consumer,
        idle,
    )
}

// The shards as their threads begin, from the first on, each with a pass of that number's name, once its workers are posted.
pub(crate) fn takings_of<'a, L: Events, D: BlockDevice + Drop, R: Wait>(
    rt: &R,
    alloc: Global,
    opening: &Opening<'_, D>,
    first: &mut Pass,
    crews: Vec<Crew<D>>,
    lines: &mut Lines<L, D>,
    posting: &mut Posting<'a, D>,
) -> Result<Vec<Taking<L, Remote<'a, D>, D>>, AllocError>
    requires opening { IsOpening D.told L.shape L.events opening.now }
    requires lines { AreMade L.shape L.events 0 lines.old }

    // the workers, none of which is posted yet
    requires crews { HaveRoomyCrews D.told D.promised L.shape L.events posting.old crews.items }

    // the calling thread's pass, which names that of each shard
    requires pass { IsPassOf opening.now.register.now first.old }
    requires first { HasNamed L.shape opening.now.start.now 0 (view_of first.old) }

    ensures pass { IsPassOf opening.now.register.now first.new }
    ensures named { OnOk result (HasNamed L.shape opening.now.start.now L.shape.shards (view_of first.new)) }

    // one shard for each crew, in their order, as it begins
    ensures begins { IfOk result (λ takings. AllZip (λ crew taking. Begins D.told L.shape L.events
        opening.now.start.now opening.now.window crew.parts taking.consumer.shard taking.consumer.numbers.items
        taking.runner) crews.items takings.items) }
    ensures sound { (steady : _) → AreSteady steady crews.items
        → IfOk result (λ takings. AllZip (λ crew taking. BeginsSound D.promised steady L.shape
        opening.now.start.now crew.parts taking.consumer.shard taking.runner) crews.items takings.items) }
    ensures numbered { IfOk result (λ takings. AreNumbered (λ taking. taking.consumer.shard) takings.items) }
    ensures passes { IfOk result (λ takings.
        All (λ taking. IsPassOf opening.now.register.now taking.runner.shard.pass) takings.items) }

    // each takes from the queue of its shard
    ensures lines { OnOk result (AreMade L.shape L.events L.shape.shards lines.new) }
    ensures consumers { IfOk result (λ takings.
        All (λ taking. IsConsumerIn lines.new.queues.items taking.consumer) takings.items) }

    // and its workers are posted where it meets them
    ensures posts { OnOk result (AllZip (StandsAt D.told D.promised) (exchanges_at posting.new.sites.now)
        posting.new.posts.items) }
    ensures meets { IfOk result (λ takings. AllZip (λ site taking. MeetsAt site taking.runner)
        posting.new.sites.now takings.items) }
    ensures roomy { IfOk result (λ takings. AllZip (λ crew taking. HasRoomOf crew taking.runner)
        crews.items takings.items) }
    ensures sites { posting.new.sites.now ≡ posting.old.sites.now }
{
    let mut takings = Vec::with_capacity(alloc, crews.len())?;
    for crew in crews {
        let number = takings.len();
        let taking = taking_for(rt, alloc, opening, first, number, crew, lines, posting)?;
        takings.push_reserved(taking);
    }
    Ok(takings)
}
