//! The workers of the shards are posted, once they have taken the parts of the start up.

ghost use Rattle.std.specs.Prelude.{◌≡◌, ◌%◌, ◌+◌, ◌<◌, ◌≤◌, ℕ, [], IfOk, IfSome, OnOk, Some, length, slice_get, vec_capacity};
ghost use Rattle.std.specs.List.{AllZip};
ghost use Rattle.r6_exchange.specs.Workers.{IsWorker};
ghost use Rattle.r6_engine.specs.remote.Remotes.{IsRemote, fresh_performer, goes_on, performer_of};
ghost use Rattle.r6_engine.specs.Crews.{HasTakenUp, HavePosts, IsCrew, exchanges_at};

use crate::crew::{Crew, Site};
use crate::post::{Post, post_all};
use crate::remote::Remote;
use r6_dev::BlockDevice;
use r6_exchange::{Exchange, Part, Worker};
use r6_idle::Idle;
use r6_threads::NotBegun;
use std::alloc::{AllocError, Global};
use std::sync::Wait;

// The worker of this number does its next task.
fn step_at<D: BlockDevice + Drop, R: Wait>(
    rt: &R,
    exchanges: &[Exchange<D>],
    workers: &mut Vec<Worker<D>>,
    at: usize,
)
    requires within { at < length exchanges.now }
    requires workers { AllZip (IsWorker D.told D.promised) exchanges.now workers.old.items }
    ensures workers { AllZip (IsWorker D.told D.promised) exchanges.now workers.new.items }
{
    workers[at].step(rt, &exchanges[at]);
}

// Takes the parts of the start up, from the last to the first, so that of two for one slot and generation the first
// counts. Each worker takes its part at once, so no queue fills.
fn take_up<D: BlockDevice + Drop, R: Wait>(
    rt: &R,
    remote: &mut Remote<'_, D>,
    workers: &mut Vec<Worker<D>>,
    mut parts: Vec<Part<D>>,
)
    requires remote { IsRemote D.told D.promised remote.old }
    requires fresh { (room : ℕ) × (steady : _) × (performer_of D.told D.promised remote.old ≡ fresh_performer room steady)
        × (length parts.items ≤ room) }
    requires workers { AllZip (IsWorker D.told D.promised) remote.old.exchanges.now workers.old.items }
    ensures remote { IsRemote D.told D.promised remote.new }
    ensures taken { HasTakenUp D.told D.promised parts.items (performer_of D.told D.promised remote.new) }
    ensures room { (performer_of D.told D.promised remote.new).part_room
        ≡ (performer_of D.told D.promised remote.old).part_room }
    ensures steady { (performer_of D.told D.promised remote.new).steady
        ≡ (performer_of D.told D.promised remote.old).steady }
    ensures site { remote.new.exchanges.now ≡ remote.old.exchanges.now }
    ensures workers { AllZip (IsWorker D.told D.promised) remote.new.exchanges.now workers.new.items }
{
    while let Some(part) = parts.pop() {
        let count = workers.len();
        let at = part.slot % count;
        remote.take_up(rt, part);
        step_at(rt, remote.exchanges, workers, at);
    }
}

// The shard's ends, its workers, which have taken its parts up, and how its thread sleeps.
fn remote_of<'a, D: BlockDevice + Drop, R: Wait>(
    rt: &R,
    alloc: Global,
    site: &'a Site<D>,
    crew: Crew<D>,
) -> Result<(Remote<'a, D>, Vec<Worker<D>>, Idle), AllocError>
    requires crew { (workers : ℕ) × IsCrew D.told D.promised workers site.now crew }
    requires room { length crew.parts.parts.items ≤ crew.room }
    ensures remote { IfOk result (λ made. IsRemote D.told D.promised made.0) }
    ensures taken { IfOk result (λ made. HasTakenUp D.told D.promised crew.parts.parts.items
        (performer_of D.told D.promised made.0)) }
    ensures room { IfOk result (λ made. (performer_of D.told D.promised made.0).part_room ≡ crew.room) }
    ensures steady { IfOk result (λ made. (slot : ℕ) → (performer_of D.told D.promised made.0).steady slot
        ≡ goes_on crew.stop (slot % length crew.ends.items)) }
    ensures site { IfOk result (λ made. made.0.exchanges.now ≡ site.now.exchanges.items) }
    ensures workers { IfOk result (λ made. AllZip (IsWorker D.told D.promised) site.now.exchanges.items made.1.items) }
{
    let Crew {
        parts,
        ends,
        mut workers,
        idle,
        room,
        stop,
    } = crew;
    let mut remote = Remote::new(alloc, &site.exchanges, ends, room, stop)?;
    take_up(rt, &mut remote, &mut workers, parts.parts);
    Ok((remote, workers, idle))
}

/// Where the shards and their workers meet, and the workers of the first shards at their posts.
#[derive(Drop)]
pub(crate) struct Posting<'a, D: BlockDevice> {
    pub(crate) sites: &'a [Site<D>],
    pub(crate) posts: Vec<Post<'a, D>>,
}

// How many workers there are at these sites, if a `usize` can say it.
fn count_workers<D: BlockDevice + Drop>(sites: &[Site<D>]) -> Option<usize>
    ensures { IfSome result (λ count. count ≡ length (exchanges_at sites.now)) }
{
    let mut count = 0_usize;
    for site in sites {
        let Some(more) = count.checked_add(site.exchanges.len()) else {
            return None;
        };
        count = more;
    }
    Some(count)
}

impl<'a, D: BlockDevice + Drop> Posting<'a, D> {
    // No worker is posted, and there is room for all.
    pub(crate) fn new(alloc: Global, sites: &'a [Site<D>]) -> Result<Posting<'a, D>, NotBegun>
        ensures sites { IfOk result (λ posting. posting.sites.now ≡ sites.now) }
        ensures none { IfOk result (λ posting. posting.posts.items ≡ []) }
        ensures room { IfOk result (λ posting. length (exchanges_at sites.now) ≤ vec_capacity posting.posts) }
    {
        let Some(count) = count_workers(sites) else {
            return Err(NotBegun::NoMemory);
        };
        let posts = Vec::with_capacity(alloc, count)?;
        Ok(Posting { sites, posts })
    }

    // Posts the workers of the next shard; its ends, and how its thread sleeps.
    pub(crate) fn post<R: Wait>(
        &mut self,
        rt: &R,
        alloc: Global,
        shard: usize,
        crew: Crew<D>,
    ) -> Result<(Remote<'a, D>, Idle), AllocError>
        requires crew { (site : _) × (workers : ℕ) × (slice_get self.old.sites.now shard ≡ Some site)
            × IsCrew D.told D.promised workers site crew }
        requires room { length crew.parts.parts.items ≤ crew.room }
        requires posts { HavePosts D.told D.promised shard self.old }
        ensures remote { IfOk result (λ made. IsRemote D.told D.promised made.0) }
        ensures taken { IfOk result (λ made. HasTakenUp D.told D.promised crew.parts.parts.items
            (performer_of D.told D.promised made.0)) }
        ensures room { IfOk result (λ made. (performer_of D.told D.promised made.0).part_room ≡ crew.room) }
        ensures steady { IfOk result (λ made. (slot : ℕ) → (performer_of D.told D.promised made.0).steady slot
            ≡ goes_on crew.stop (slot % length crew.ends.items)) }
        ensures site { IfOk result (λ made. (site : _) → slice_get self.old.sites.now shard ≡ Some site
            → made.0.exchanges.now ≡ site.exchanges.items) }
        ensures posts { OnOk result (HavePosts D.told D.promised (shard + 1) self.new) }
        ensures sites { self.new.sites.now ≡ self.old.sites.now }
    {
        let sites = self.sites;
        let site = &sites[shard];
        let (remote, workers, idle) = remote_of(rt, alloc, site, crew)?;
        post_all(site, workers, &mut self.posts);
        Ok((remote, idle))
    }
}
