//! A shard's io workers, as they are made.

ghost use Rattle.std.specs.Prelude.{◌≡◌, ◌≤◌, IfOk, [], length, map};
ghost use Rattle.std.specs.List.{AllZip};
ghost use Rattle.r6_exchange.specs.Exchanges.{IsShardPass, limit_of, received_by, sent_by};
ghost use Rattle.r6_exchange.specs.Workers.{IsWorker};
ghost use Rattle.r6_engine.specs.feed.Events.{events_of};
ghost use Rattle.r6_engine.specs.remote.Remotes.{AreFresh, AreShardPasses};
ghost use Rattle.r6_engine.specs.Crews.{HaveCrews, IsCrew};
ghost use Rattle.r6_engine.specs.Stops.{AreSteady, is_steady, stopping_in};

use crate::feed::{Event, count_devices};
use crate::serving::{Config, Stop};
use r6_dev::BlockDevice;
use r6_exchange::{Exchange, ShardPass, Wakers, Worker};
use r6_idle::Idle;
use r6_shard::Parts;
use r6_threads::NotBegun;
use std::alloc::{AllocError, Global};

/// Where a shard and its io workers meet.
#[derive(Drop)]
pub(crate) struct Site<D: BlockDevice> {
    /// One for each worker, from the first on.
    pub(crate) exchanges: Vec<Exchange<D>>,
}

/// A shard's parts of the devices, its ends of the exchanges, and its io workers, as they are made.
#[derive(Drop)]
pub(crate) struct Crew<D> {
    pub(crate) parts: Parts<D>,
    pub(crate) ends: Vec<ShardPass<D>>,
    pub(crate) workers: Vec<Worker<D>>,
    /// How the shard's thread sleeps.
    pub(crate) idle: Idle,
    /// As many parts may be taken up.
    pub(crate) room: usize,
    /// The worker that may stop, if one may.
    pub(crate) stop: Option<usize>,
}

// The worker of a shard that stops, if one does.
fn stopping_in(stop: Option<Stop>, shard: usize) -> Option<usize>
    ensures { result ≡ stopping_in stop shard }
{
    match stop {
        Some(stop) if stop.shard == shard => Some(stop.worker),
        _ => None,
    }
}

// After how many commands a worker of a shard stops, if it does.
fn commands_of(stop: Option<Stop>, shard: usize, worker: usize) -> Option<u64> {
    match stop {
        Some(stop) if (stop.shard, stop.worker) == (shard, worker) => Some(stop.commands),
        _ => None,
    }
}

// The next worker of a shard, with room for so many parts, the exchange at which they meet, and the shard's end of it.
fn worker_of<D: BlockDevice + Drop>(
    alloc: Global,
    config: &Config,
    shard: usize,
    number: usize,
    room: usize,
    idle: &Idle,
) -> Result<(Exchange<D>, ShardPass<D>, Worker<D>), AllocError>
    ensures pass { IfOk result (λ made. IsShardPass D.told D.promised made.0 made.1) }
    ensures fresh { IfOk result (λ made. (sent_by made.1 ≡ []) × (received_by made.1 ≡ [])
        × (room ≤ limit_of made.1)) }
    ensures worker { IfOk result (λ made. IsWorker D.told D.promised made.0 made.2) }
{
    let worker_idle = Idle::new(alloc)?;
    let wakers = Wakers::of(idle, &worker_idle)?;
    let (exchange, end, pass) = Exchange::new(alloc, &config.geometry, room, wakers)?;
    let commands = commands_of(config.stop, shard, number);
    let worker = Worker::new(alloc, pass, room, commands, worker_idle)?;
    Ok((exchange, end, worker))
}

/// A shard's io workers, where they meet the shard, and its ends of these exchanges.
#[derive(Drop)]
struct Hands<D: BlockDevice> {
    exchanges: Vec<Exchange<D>>,
    ends: Vec<ShardPass<D>>,
    workers: Vec<Worker<D>>,
}

// The workers of a shard that sleeps so, each with room for so many parts.
fn hands_of<D: BlockDevice + Drop>(
    alloc: Global,
    config: &Config,
    shard: usize,
    room: usize,
    idle: &Idle,
) -> Result<Hands<D>, AllocError>
    ensures as_many { IfOk result (λ hands. length hands.exchanges.items ≡ config.now.workers) }
    ensures ends { IfOk result (λ hands. AreShardPasses D.told D.promised hands.exchanges.items hands.ends.items) }
    ensures fresh { IfOk result (λ hands. AreFresh room hands.ends.items) }
    ensures workers { IfOk result (λ hands.
        AllZip (IsWorker D.told D.promised) hands.exchanges.items hands.workers.items) }
{
    let mut exchanges = Vec::with_capacity(alloc, config.workers)?;
    let mut ends = Vec::with_capacity(alloc, config.workers)?;
    let mut workers = Vec::with_capacity(alloc, config.workers)?;
    for number in 0..config.workers {
        let (exchange, end, worker) = worker_of(alloc, config, shard, number, room, idle)?;
        exchanges.push_reserved(exchange);
        ends.push_reserved(end);
        workers.push_reserved(worker);
    }
    Ok(Hands {
        exchanges,
        ends,
        workers,
    })
}

// The workers of a shard with these parts, each with room for so many parts.
fn crew_of<D: BlockDevice + Drop>(
    alloc: Global,
    config: &Config,
    shard: usize,
    parts: Parts<D>,
    room: usize,
) -> Result<(Site<D>, Crew<D>), AllocError>
    requires { 1 ≤ config.now.workers }
    ensures crew { IfOk result (λ made. IsCrew D.told D.promised config.now.workers made.0 made.1) }
    ensures parts { IfOk result (λ made. (made.1.parts ≡ parts) × (made.1.room ≡ room)) }
    ensures stop { IfOk result (λ made. made.1.stop ≡ stopping_in config.now.stop shard) }
{
    let idle = Idle::new(alloc)?;
    let Hands {
        exchanges,
        ends,
        workers,
    } = hands_of(alloc, config, shard, room, &idle)?;
    let crew = Crew {
        parts,
        ends,
        workers,
        idle,
        room,
        stop: stopping_in(config.stop, shard),
    };
    Ok((Site { exchanges }, crew))
}

/// The shards' workers, and where they meet their shards.
#[derive(Drop)]
pub(crate) struct Crews<D: BlockDevice> {
    pub(crate) sites: Vec<Site<D>>,
    pub(crate) crews: Vec<Crew<D>>,
}

// The workers of each shard, which may be handed all parts of the events.
pub(crate) fn crews_of<D: BlockDevice + Drop>(
    alloc: Global,
    config: &Config,
    parts: Vec<Parts<D>>,
    events: &[Event<D>],
) -> Result<Crews<D>, NotBegun>
    requires { 1 ≤ config.now.workers }
    ensures crews { IfOk result (λ made. HaveCrews D.told D.promised config.now.workers (events_of D.told events.now)
        made.sites.items made.crews.items) }
    ensures steady { IfOk result (λ made. AreSteady (is_steady config.now.stop config.now.workers) made.crews.items) }
    ensures parts { IfOk result (λ made. map (λ crew. crew.parts) made.crews.items ≡ parts.items) }
{
    let mut sites = Vec::with_capacity(alloc, parts.len())?;
    let mut crews = Vec::with_capacity(alloc, parts.len())?;
    let attaches = count_devices(events) as usize;
    for parts in parts {
        let Some(room) = parts.parts.len().checked_add(attaches) else {
            return Err(NotBegun::NoMemory);
        };
        let (site, crew) = crew_of(alloc, config, crews.len(), parts, room)?;
        sites.push_reserved(site);
        crews.push_reserved(crew);
    }
    Ok(Crews { sites, crews })
}
