//! What is handed back once the threads have ended.

ghost use Rattle.std.specs.Prelude.{◌≡◌, ◌≤◌, ◌+◌, ◌++◌, ℕ, [], All, IsPermutation, None, length, reverse, vec_capacity, IfOk};
ghost use Rattle.std.specs.List.{AllZip};
ghost use Rattle.r6_shard.specs.Parts.{labels_of};
ghost use Rattle.r6_engine.specs.runner.Runners.{IsOver};
ghost use Rattle.r6_engine.specs.remote.Remotes.{IsRemote, performer_of};
ghost use Rattle.r6_engine.specs.joining.Crews.{AreTakenBack};
ghost use Rattle.r6_engine.specs.Crews.{MeetsAt, StandsAt, exchanges_at};
ghost use Rattle.r6_engine.specs.Ledgers.{AreBack, FitsPage, IsLedgerOf, IsPage, IsEmpty, in_sync_in};
ghost use Rattle.r6_engine.specs.Replies.{said_by, said_by_all, with_all};

use crate::crew::Site;
use crate::joining::{Back, take_back};
use crate::ledger::{Ledger, LedgerEntry};
use crate::part::ShardParts;
use crate::post::{Post, next_workers};
use crate::posting::Posting;
use crate::remote::Remote;
use crate::replies::Replies;
use crate::runner::Runner;
use r6_core::Core;
use r6_dev::BlockDevice;
use r6_exchange::{Part, Worker};
use r6_shard::Shard;
use std::alloc::{AllocError, Global};
use std::sync::Wait;

/// Room for the ledger of a shard, for its workers and for the parts that they hand back.
#[derive(Drop)]
pub(crate) struct Page<D> {
    pub(crate) entries: Vec<LedgerEntry>,
    pub(crate) in_sync: Vec<(usize, u32)>,
    pub(crate) workers: Vec<Worker<D>>,
    pub(crate) back: Back<D>,
}

/// As much as a shard needs at most.
#[derive(Clone, Copy)]
pub(crate) struct PageRoom {
    pub(crate) entries: usize,
    pub(crate) slots: usize,
    pub(crate) workers: usize,
    pub(crate) parts: usize,
}

impl<D: BlockDevice + Drop> Page<D> {
    // An empty page.
    fn new(alloc: Global, room: PageRoom) -> Result<Page<D>, AllocError>
        ensures { IfOk result (IsPage room) }
    {
        Ok(Page {
            entries: Vec::with_capacity(alloc, room.entries)?,
            in_sync: Vec::with_capacity(alloc, room.slots)?,
            workers: Vec::with_capacity(alloc, room.workers)?,
            back: Back::with_capacity(alloc, room.parts)?,
        })
    }
}

// Pages for so many shards.
pub(crate) fn pages_of<D: BlockDevice + Drop>(
    alloc: Global,
    shards: usize,
    room: PageRoom,
) -> Result<Vec<Page<D>>, AllocError>
    ensures pages { IfOk result (λ pages. All (IsPage room) pages.items) }
    ensures count { IfOk result (λ pages. length pages.items ≡ shards) }
{
    let mut pages = Vec::with_capacity(alloc, shards)?;
    for _ in 0..shards {
        pages.push_reserved(Page::new(alloc, room)?);
    }
    Ok(pages)
}

// The slots that a core has in sync.
fn add_in_sync(core: &Core, slots: usize, in_sync: &mut Vec<(usize, u32)>)
    requires slots { slots ≡ core.now.shape.slots }
    requires room { (slots ≤ vec_capacity in_sync.old) × (in_sync.old.items ≡ []) }
    ensures { in_sync.new.items ≡ in_sync_in core.now }
{
    for slot in 0..slots {
        if let Some(generation) = core.in_sync(slot) {
            in_sync.push_reserved((slot, generation));
        }
    }
}

// The workers of a shard at rest are told that nothing more comes, and hand its parts back.
fn take_parts<'a, D: BlockDevice + Drop, R: Wait>(
    rt: &R,
    mut remote: Remote<'a, D>,
    site: &Site<D>,
    posts: &mut Vec<Post<'a, D>>,
    workers: Vec<Worker<D>>,
    back: Back<D>,
) -> Back<D>
    requires remote { IsRemote D.told D.promised remote }
    requires idle { (token : ℕ) → (performer_of D.told D.promised remote).out token ≡ None }
    requires meets { remote.exchanges.now ≡ site.now.exchanges.items }
    requires posts { (others : _) × AllZip (StandsAt D.told D.promised) (site.now.exchanges.items ++ others)
        (reverse posts.old.items) }
    requires workers_room { (workers.items ≡ []) × (length site.now.exchanges.items ≤ vec_capacity workers) }
    requires room { IsEmpty (performer_of D.told D.promised remote).part_room back }
    ensures back { AreTakenBack D.told (performer_of D.told D.promised remote.entry) result.parts.items }
    ensures labels { IsPermutation (performer_of D.told D.promised remote.entry).labels
        (labels_of result.parts.items ++ labels_of result.others.items) }
    ensures capacity { vec_capacity result.others ≡ vec_capacity back.others }
    ensures posts { (others : _) → AllZip (StandsAt D.told D.promised) (site.now.exchanges.items ++ others)
        (reverse posts.old.items) → AllZip (StandsAt D.told D.promised) others (reverse posts.new.items) }
{
    crate::joining::end(rt, &mut remote);
    let workers = next_workers(rt, site, posts, workers);
    take_back(remote, workers, back)
}

// With those that the shard wasn't to use, or no longer.
fn with_others<D: Drop>(mut back: Back<D>, others: Vec<Part<D>>) -> ShardParts<D>
    requires { length back.others.items + length others.items ≤ vec_capacity back.others }
    ensures parts { result.parts.items ≡ back.parts.items }
    ensures others { result.others.items ≡ back.others.items ++ others.items }
{
    for part in others {
        back.others.push_reserved(part);
    }
    let Back { parts, others } = back;
    ShardParts { parts, others }
}

// What a shard did is told: its answers stand among the replies, and what else it did in its ledger.
fn turn_in<'a, D: BlockDevice + Drop, R: Wait>(
    rt: &R,
    runner: Runner<Remote<'a, D>, D>,
    page: Page<D>,
    site: &Site<D>,
    posts: &mut Vec<Post<'a, D>>,
    room: PageRoom,
    replies: &mut Replies,
) -> (Ledger, ShardParts<D>)
    requires over { IsOver runner }
    requires fits { IsPage room page × FitsPage room runner × (length site.now.exchanges.items ≡ room.workers) }
    requires meets { MeetsAt site.now runner }
    requires posts { (others : _) × AllZip (StandsAt D.told D.promised) (site.now.exchanges.items ++ others)
        (reverse posts.old.items) }
    ensures said { replies.new.replies.items ≡ with_all replies.old.replies.items (said_by runner.entry) }
    ensures ledger { IsLedgerOf runner.entry result.0 }
    ensures back { AreBack D.told runner.entry result.1 }
    ensures posts { (others : _) → AllZip (StandsAt D.told D.promised) (site.now.exchanges.items ++ others)
        (reverse posts.old.items) → AllZip (StandsAt D.told D.promised) others (reverse posts.new.items) }
{
    let Page {
        entries: mut told,
        mut in_sync,
        workers,
        back,
    } = page;
    let Runner {
        shard,
        refused,
        scrubs_done,
        others,
        ..
    } = runner;
    let Shard {
        core,
        parts: remote,
        asked,
        entries,
        named,
        last,
        saw_out,
        ..
    } = shard;
    replies.add_refused(refused.as_slice());
    replies.add_scrubs(scrubs_done.as_slice());
    replies.add_entries(entries, &mut told);
    add_in_sync(&core, room.slots, &mut in_sync);
    let ledger = Ledger {
        requests: asked,
        entries: told,
        in_sync,
        named,
        saw_failed: core.saw_failed(),
        saw_out,
        tokens: core.tokens(),
        last_look: last,
    };
    let back = take_parts(rt, remote, site, posts, workers, back);
    (ledger, with_others(back, others))
}

/// What the shards did, from the first on.
#[derive(Drop)]
pub(crate) struct HandedBack<D> {
    pub(crate) ledgers: Vec<Ledger>,
    pub(crate) devices: Vec<ShardParts<D>>,
}

impl<D: Drop> HandedBack<D> {
    // Nothing yet, with room for so many shards.
    pub(crate) fn with_capacity(alloc: Global, shards: usize) -> Result<HandedBack<D>, AllocError>
        ensures empty { IfOk result (λ back. (back.ledgers.items ≡ []) × (back.devices.items ≡ [])) }
        ensures room { IfOk result (λ back. (shards ≤ vec_capacity back.ledgers)
            × (shards ≤ vec_capacity back.devices)) }
    {
        Ok(HandedBack {
            ledgers: Vec::with_capacity(alloc, shards)?,
            devices: Vec::with_capacity(alloc, shards)?,
        })
    }
}

// What the shards did is told, from the first on, and their workers hand the parts back.
pub(crate) fn hand_back<'a, D: BlockDevice + Drop, R: Wait>(
    rt: &R,
    runners: Vec<Runner<Remote<'a, D>, D>>,
    posting: Posting<'a, D>,
    mut pages: Vec<Page<D>>,
    room: PageRoom,
    replies: &mut Replies,
    mut back: HandedBack<D>,
) -> HandedBack<D>
    requires over { All IsOver runners.items }
    requires fits { All (IsPage room) pages.items × All (FitsPage room) runners.items
        × All (λ site. length site.exchanges.items ≡ room.workers) posting.sites.now }
    requires as_many { length pages.items ≡ length runners.items }
    requires meets { AllZip MeetsAt posting.sites.now runners.items }
    requires posts { AllZip (StandsAt D.told D.promised) (exchanges_at posting.sites.now) posting.posts.items }
    requires empty { (back.ledgers.items ≡ []) × (back.devices.items ≡ []) }
    requires room { (length runners.items ≤ vec_capacity back.ledgers)
        × (length runners.items ≤ vec_capacity back.devices) }
    ensures said { replies.new.replies.items ≡ with_all replies.old.replies.items (said_by_all runners.entry.items) }
    ensures ledgers { AllZip IsLedgerOf runners.entry.items result.ledgers.items }
    ensures devices { AllZip (AreBack D.told) runners.entry.items result.devices.items }
{
    let Posting { sites, mut posts } = posting;
    posts.reverse();
    for runner in runners {
        let Some(page) = pages.pop() else {
            unreachable!()
        };
        let shard = back.ledgers.len();
        let site = &sites[shard];
        let (ledger, devices) = turn_in(rt, runner, page, site, &mut posts, room, replies);
        back.ledgers.push_reserved(ledger);
        back.devices.push_reserved(devices);
    }
    back
}
