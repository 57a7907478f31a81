//! The shards of an array run, each in a thread of its own.

ghost use Rattle.std.specs.Prelude.{◌≡◌, ◌≤◌, ◌<◌, ◌^◌, All, IfOk, count_ones, length, map};
ghost use Rattle.std.specs.List.{AllZip};
ghost use Rattle.r6_layout.specs.Shape.{IsShape};
ghost use Rattle.r6_health.specs.Passes.{view_of};
ghost use Rattle.r6_health.specs.Histories.{start_losing};
ghost use Rattle.r6_health.specs.Registers.{starting};
ghost use Rattle.r6_engine.specs.Openings.{caller_of};
ghost use Rattle.r6_exchange.specs.Workers.{IsWorker};
ghost use Rattle.r6_engine.specs.feed.Events.{events_of, AreWhole};
ghost use Rattle.r6_engine.specs.Begun.{HasBegun};
ghost use Rattle.r6_engine.specs.Crews.{HasRoomOf, HaveRoomyCrews, MeetsAt, StandsAt, StaysAt, exchanges_at};
ghost use Rattle.r6_engine.specs.Named.{AreSoundHere};
ghost use Rattle.r6_engine.specs.RanArrays.{HasRunArray};
ghost use Rattle.r6_engine.specs.Stops.{AreSteady};

use crate::beginning::{Begun, Rooms, begin};
use crate::crew::Crew;
use crate::ending::end_all;
use crate::feed::{Event, EventAnswer, Shards};
use crate::lists::Events;
use crate::post::Closing;
use crate::posting::Posting;
use crate::remote::Remote;
use crate::runner::Runner;
use crate::running::run_all;
use crate::settling::settle;
use crate::worker::Station;
use r6_dev::BlockDevice;
use r6_health::{Pass, Snapshot};
use r6_idle::Idle;
use r6_layout::Geometry;
use r6_shard::{Performs, TakesParts};
use r6_threads::NotBegun;
use std::alloc::Global;
use std::marker::Brand;
use std::sync::Wait;
use std::thread::Threads;

/// How an array is served.
#[derive(Clone, Copy, PartialEq, Eq, Debug)]
pub struct Config {
    pub geometry: Geometry,
    /// Rows of a slot that may be rebuilt at one time, 1 to 8.
    pub window: usize,
    /// Io workers of a shard, 1 to 8: slot d is served by worker d modulo their number.
    pub workers: usize,
    /// The slots that are lost at the start, a bit each.
    pub lost: u32,
    /// The worker that stops, if one is to.
    pub stop: Option<Stop>,
}

/// A worker of a shard that stops: it performs so many commands, and answers each later one by
/// [`Gone`](r6_dev::Fault::Gone).
#[derive(Clone, Copy, PartialEq, Eq, Debug)]
pub struct Stop {
    pub shard: usize,
    pub worker: usize,
    pub commands: u64,
}

/// What the shards of an array did.
#[derive(Drop)]
pub(crate) struct Ran<P: Performs, D> {
    /// The shards, from the first on, each with what it did of the events.
    pub(crate) runners: Vec<Runner<P, D>>,
    /// What those events were answered that no shard answers, in the order of the events.
    pub(crate) answers: Vec<EventAnswer>,
    /// What the calling thread saw and did at the register.
    pub(crate) pass: Pass,
    /// What the register held once all threads had ended.
    pub(crate) snapshot: Snapshot,
}

// The shards take the events from the first to the last, each in a thread of its own, while this thread hands them out
// and fails, attaches and replaces slots. Then they go on in this thread, until nothing is left to do.
fn serve_all<L, P, D, R>(
    rt: &R,
    alloc: Global,
    geometry: &Geometry,
    begun: Begun<L, P, D>,
    events: Vec<Event<D>>,
    closing: &Closing,
    mut idle: Idle,
) -> Result<Ran<P, D>, NotBegun>
where
    L: Events + Send + Sync,
    P: Performs + Drop + Send,
    P: TakesParts<D>,
    D: BlockDevice + Drop + Send,
    R: Threads + Wait + Sync,
    requires limits { IsShape L.shape }
    requires shape { geometry.now ≡ L.shape }
    requires events { events_of D.told events.items ≡ L.events }
    requires whole { AreWhole L.shape.shards events.items }
    requires sound { AreSoundHere D.promised L.shape L.sound events.items }
    requires begun { (lost : _) × (window : _) × (parts : _)
        × (steady : _) × HasBegun D.told D.promised steady L.shape L.events lost window parts begun }
    ensures run { (lost : _) (window : _) (parts : _) (steady : _)
        → HasBegun D.told D.promised steady L.shape L.events lost window parts begun
        → IfOk result (λ ran. HasRunArray D.told D.promised steady L.shape events.items (starting lost) window
        (caller_of (start_losing L.shape.slots L.shape.shards lost)) parts ran.runners.items ran.answers.items
        (view_of ran.pass) ran.snapshot) }
    ensures stays { IfOk result (λ ran.
        AllZip (λ taking runner. StaysAt taking.runner runner) begun.takings.items ran.runners.items) }
{
    let Begun {
        register,
        rooms,
        takings,
        feed,
    } = begun;
    let Rooms {
        mut runners,
        queues,
        rests,
    } = rooms;
    let station = Station {
        shards: Shards {
            geometry,
            register: &register,
            queues: &queues,
            rests: &rests,
        },
    };
    let ((mut pass, answers), ended) = run_all(rt, alloc, &station, takings, feed, events)?;
    closing.take_over();
    settle(ended, &mut runners);
    let slots = geometry.slots();
    let snapshot = end_all(rt, &register, &mut pass, &mut runners, slots, &mut idle);
    Ok(Ran {
        runners,
        answers,
        pass,
        snapshot,
    })
}

// The shards are served in this thread, while each of their workers is at its post in a thread of its own.
fn run_posted<'a, L, D, R>(
    rt: &R,
    alloc: Global,
    geometry: &Geometry,
    posting: Posting<'a, D>,
    begun: Begun<L, Remote<'a, D>, D>,
    events: Vec<Event<D>>,
    closing: &Closing,
    idle: Idle,
) -> Result<(Ran<Remote<'a, D>, D>, Posting<'a, D>), NotBegun>
where
    L: Events + Send + Sync,
    D: BlockDevice + Drop + Send,
    R: Threads + Wait + Sync,
    requires ready { All (λ post. IsWorker D.told D.promised post.exchange.now post.worker) posting.posts.items }
    requires limits { IsShape L.shape }
    requires shape { geometry.now ≡ L.shape }
    requires events { events_of D.told events.items ≡ L.events }
    requires whole { AreWhole L.shape.shards events.items }
    requires sound { AreSoundHere D.promised L.shape L.sound events.items }
    requires begun { (lost : _) × (window : _) × (parts : _)
        × (steady : _) × HasBegun D.told D.promised steady L.shape L.events lost window parts begun }
    ensures run { (lost : _) (window : _) (parts : _) (steady : _)
        → HasBegun D.told D.promised steady L.shape L.events lost window parts begun.entry
        → IfOk result (λ r. HasRunArray D.told D.promised steady L.shape events.items (starting lost) window
        (caller_of (start_losing L.shape.slots L.shape.shards lost)) parts r.0.runners.items r.0.answers.items
        (view_of r.0.pass) r.0.snapshot) }
    ensures stays { IfOk result (λ r.
        AllZip (λ taking runner. StaysAt taking.runner runner) begun.entry.takings.items r.0.runners.items) }
    ensures posts { IfOk result (λ r. AllZip (λ old new. (new.exchange.now ≡ old.exchange.now)
        × IsWorker D.told D.promised new.exchange.now new.worker) posting.entry.posts.items r.1.posts.items
        × (r.1.sites.now ≡ posting.entry.sites.now)) }
{
    let Posting { sites, posts } = posting;
    let serving = move || -> Result<Ran<Remote<'_, D>, D>, NotBegun>
        requires limits { IsShape L.shape }
        requires shape { geometry.now ≡ L.shape }
        requires events { events_of D.told events.items ≡ L.events }
        requires whole { AreWhole L.shape.shards events.items }
        requires sound { AreSoundHere D.promised L.shape L.sound events.items }
        requires begun { (lost : _) × (window : _) × (parts : _)
            × (steady : _) × HasBegun D.told D.promised steady L.shape L.events lost window parts begun }
        ensures run { (lost : _) (window : _) (parts : _) (steady : _)
            → HasBegun D.told D.promised steady L.shape L.events lost window parts begun.entry
            → IfOk result (λ ran. HasRunArray D.told D.promised steady L.shape events.items (starting lost) window
            (caller_of (start_losing L.shape.slots L.shape.shards lost)) parts ran.runners.items ran.answers.items
            (view_of ran.pass) ran.snapshot) }
        ensures stays { IfOk result (λ ran.
            AllZip (λ taking runner. StaysAt taking.runner runner) begun.entry.takings.items ran.runners.items) }
    {
        let ran = serve_all(rt, alloc, geometry, begun, events, closing, idle);
        closing.close(sites);
        ran
    };
    let (ran, posts) = r6_threads::run_all(rt, alloc, closing, posts, serving)?;
    Ok((ran?, Posting { sites, posts }))
}

fn run_as<'a, L, D, R>(
    rt: &R,
    alloc: Global,
    config: &Config,
    posting: Posting<'a, D>,
    crews: Vec<Crew<D>>,
    events: Vec<Event<D>>,
) -> Result<(Ran<Remote<'a, D>, D>, Posting<'a, D>), NotBegun>
where
    L: Events + Send + Sync,
    D: BlockDevice + Drop + Send,
    R: Threads + Wait + Sync,
    requires shape { config.now.geometry ≡ L.shape }
    requires events { events_of D.told events.items ≡ L.events }

    // the array
    requires limits { IsShape L.shape }
    requires window { (1 ≤ config.now.window) × (config.now.window ≤ 8) }
    requires slots { config.now.lost < 2 ^ L.shape.slots }
    requires few { count_ones config.now.lost ≤ 2 }
    requires whole { AreWhole L.shape.shards events.items }
    requires sound { AreSoundHere D.promised L.shape L.sound events.items }

    // the workers, none of which is posted yet
    requires crews { HaveRoomyCrews D.told D.promised L.shape L.events posting crews.items }

    ensures run { (steady : _) → AreSteady steady crews.items
        → IfOk result (λ r. HasRunArray D.told D.promised steady L.shape events.items (starting config.now.lost)
        config.now.window (caller_of (start_losing L.shape.slots L.shape.shards config.now.lost))
        (map (λ crew. crew.parts) crews.items) r.0.runners.items r.0.answers.items (view_of r.0.pass) r.0.snapshot) }
    ensures posts { IfOk result (λ r. AllZip (StandsAt D.told D.promised) (exchanges_at posting.entry.sites.now)
        r.1.posts.items × (r.1.sites.now ≡ posting.entry.sites.now)) }
    ensures meets { IfOk result (λ r. AllZip MeetsAt posting.entry.sites.now r.0.runners.items) }
    ensures roomy { IfOk result (λ r. AllZip HasRoomOf crews.items r.0.runners.items) }
{
    let mut posting = posting;
    let idle = Idle::new(alloc)?;
    let closing = Closing::new(idle.waker().clone()?);
    let begun = begin::<L, D, R>(rt, alloc, config, crews, &events, &mut posting)?;
    run_posted(
        rt,
        alloc,
        &config.geometry,
        posting,
        begun,
        events,
        &closing,
        idle,
    )
}

// The shards of an array run, each in a thread of its own, and so does each of their workers, which perform the shards'
// commands: they take the events from the first to the last, while this thread hands them out and fails, attaches and
// replaces slots.
pub(crate) fn run_array<'a, D, R>(
    rt: &R,
    alloc: Global,
    config: &Config,
    posting: Posting<'a, D>,
    crews: Vec<Crew<D>>,
    events: Vec<Event<D>>,
) -> Result<(Ran<Remote<'a, D>, D>, Posting<'a, D>), NotBegun>
where
    D: BlockDevice + Drop + Send,
    R: Threads + Wait + Sync,
    requires limits { IsShape config.now.geometry }
    requires window { (1 ≤ config.now.window) × (config.now.window ≤ 8) }
    requires slots { config.now.lost < 2 ^ config.now.geometry.slots }
    requires few { count_ones config.now.lost ≤ 2 }
    requires whole { AreWhole config.now.geometry.shards events.items }
    requires crews { HaveRoomyCrews D.told D.promised config.now.geometry (events_of D.told events.items) posting
        crews.items }

    ensures run { (steady : _) → AreSteady steady crews.items
        → IfOk result (λ r. HasRunArray D.told D.promised steady config.now.geometry events.items
        (starting config.now.lost) config.now.window
        (caller_of (start_losing config.now.geometry.slots config.now.geometry.shards config.now.lost))
        (map (λ crew. crew.parts) crews.items) r.0.runners.items r.0.answers.items (view_of r.0.pass) r.0.snapshot) }
    ensures posts { IfOk result (λ r. AllZip (StandsAt D.told D.promised) (exchanges_at posting.entry.sites.now)
        r.1.posts.items × (r.1.sites.now ≡ posting.entry.sites.now)) }
    ensures meets { IfOk result (λ r. AllZip MeetsAt posting.entry.sites.now r.0.runners.items) }
    ensures roomy { IfOk result (λ r. AllZip HasRoomOf crews.items r.0.runners.items) }
{
    run_as::<Brand, D, R>(rt, alloc, config, posting, crews, events)
}
