//! An array is served.

ghost use Rattle.std.specs.Prelude.{◌≡◌, ◌*◌, ◌≤◌, ◌<◌, ◌^◌, [], All, IfErr, IfOk, count_ones, length, map, replicate, vec_capacity};
ghost use Rattle.r6_layout.specs.Shape.{IsShape};
ghost use Rattle.r6_health.specs.Histories.{start_losing};
ghost use Rattle.r6_health.specs.Registers.{starting};
ghost use Rattle.r6_engine.specs.Openings.{caller_of};
ghost use Rattle.r6_engine.specs.feed.Events.{events_of, AreWhole};
ghost use Rattle.r6_offline.specs.Errors.{IsRefusal};
ghost use Rattle.r6_engine.specs.Answered.{AreReplies};
ghost use Rattle.r6_engine.specs.declared.reply.EventReply.TheVariants.{Waited};
ghost use Rattle.r6_engine.specs.Crews.{HaveCrews};
ghost use Rattle.r6_engine.specs.Ledgers.{IsPage};
ghost use Rattle.r6_engine.specs.ServedArrays.{HasNoMore, HasServedArray};
ghost use Rattle.r6_engine.specs.Stops.{AreSteady, is_steady};

use crate::crew::{Crew, Crews, Site, crews_of};
use crate::feed::{Event, count_tasks};
use crate::generations::await_agreement;
use crate::handback::{HandedBack, Page, PageRoom, hand_back, pages_of};
use crate::ledger::Ledger;
use crate::part::ShardParts;
use crate::posting::Posting;
use crate::replies::Replies;
use crate::reply::EventReply;
use crate::serving::{Config, Ran, run_array};
use r6_dev::BlockDevice;
use r6_health::Snapshot;
use r6_layout::Geometry;
use r6_offline::EngineError;
use r6_shard::Parts;
use r6_threads::NotBegun;
use std::alloc::{AllocError, Global};
use std::sync::Wait;
use std::thread::Threads;

/// What became of an array that was served.
#[derive(Drop)]
pub struct Served<D> {
    /// What each event was answered, by its number.
    pub replies: Vec<EventReply>,
    /// What each shard did, from the first on.
    pub ledgers: Vec<Ledger>,
    /// The parts of each shard, from the first on: all that were handed in.
    pub devices: Vec<ShardParts<D>>,
    /// What the register held once all was over.
    pub snapshot: Snapshot,
}

// The most tasks that a shard has of these events.
fn most_tasks<D: BlockDevice>(geometry: &Geometry, events: &[Event<D>]) -> usize
    ensures { HasNoMore geometry.now (events_of D.told events.now) result }
{
    let mut most = 0;
    for shard in 0..geometry.shards() {
        most = most.max(count_tasks(geometry, events, shard) as usize);
    }
    most
}

// The most room for parts that a shard has.
fn most_parts<D: BlockDevice>(crews: &[Crew<D>]) -> usize
    ensures { All (λ crew. crew.room ≤ result) crews.now }
{
    let mut most = 0;
    for crew in crews {
        most = most.max(crew.room);
    }
    most
}

/// Room for all that is told of what the shards did.
#[derive(Drop)]
struct Papers<D> {
    replies: Replies,
    pages: Vec<Page<D>>,
    back: HandedBack<D>,
}

fn papers_of<D: BlockDevice + Drop>(
    alloc: Global,
    shards: usize,
    events: usize,
    room: PageRoom,
) -> Result<Papers<D>, AllocError>
    ensures replies { IfOk result (λ papers. papers.replies.replies.items ≡ replicate events Waited) }
    ensures pages { IfOk result (λ papers. All (IsPage room) papers.pages.items
        × (length papers.pages.items ≡ shards)) }
    ensures empty { IfOk result (λ papers. (papers.back.ledgers.items ≡ []) × (papers.back.devices.items ≡ [])) }
    ensures room { IfOk result (λ papers. (shards ≤ vec_capacity papers.back.ledgers)
        × (shards ≤ vec_capacity papers.back.devices)) }
{
    Ok(Papers {
        replies: Replies::new(alloc, events)?,
        pages: pages_of(alloc, shards, room)?,
        back: HandedBack::with_capacity(alloc, shards)?,
    })
}

// Serves an array with these workers, of whom none is at his post yet.
fn serve_at<D, R>(
    rt: &R,
    alloc: Global,
    config: &Config,
    sites: &[Site<D>],
    crews: Vec<Crew<D>>,
    events: Vec<Event<D>>,
) -> Result<Served<D>, NotBegun>
where
    D: BlockDevice + Drop + Send,
    R: Threads + Wait + Sync,
    requires limits { IsShape config.now.geometry }
    requires window { (1 ≤ config.now.window) × (config.now.window ≤ 8) }
    requires slots { config.now.lost < 2 ^ config.now.geometry.slots }
    requires few { count_ones config.now.lost ≤ 2 }
    requires crews { HaveCrews D.told D.promised config.now.workers (events_of D.told events.items) sites.now
        crews.items }
    requires steady { AreSteady (is_steady config.now.stop config.now.workers) crews.items }
    requires as_many { length crews.items ≡ config.now.geometry.shards }
    requires whole { AreWhole config.now.geometry.shards events.items }
    ensures served { IfOk result (HasServedArray D.told D.promised (is_steady config.now.stop config.now.workers)
        config.now.geometry events.items
        (starting config.now.lost)
        (caller_of (start_losing config.now.geometry.slots config.now.geometry.shards config.now.lost))
        (map (λ crew. crew.parts) crews.items)) }
    ensures replies { IfOk result (λ served. AreReplies config.now.geometry (events_of D.told events.items)
        served.ledgers.items served.replies.items) }
{
    let geometry = config.geometry;
    let room = PageRoom {
        entries: most_tasks(&geometry, &events),
        slots: geometry.slots(),
        workers: config.workers,
        parts: most_parts(&crews),
    };
    let papers = papers_of(alloc, geometry.shards(), events.len(), room)?;
    let posting = Posting::new(alloc, sites)?;
    let (ran, posting) = run_array(rt, alloc, config, posting, crews, events)?;
    let Ran {
        runners,
        answers,
        pass: _,
        snapshot,
    } = ran;
    let Papers {
        mut replies,
        pages,
        back,
    } = papers;
    await_agreement(rt, answers.as_slice(), runners.as_slice());
    let back = hand_back(rt, runners, posting, pages, room, &mut replies, back);
    replies.add_answers(answers.as_slice());
    Ok(Served {
        replies: replies.replies,
        ledgers: back.ledgers,
        devices: back.devices,
        snapshot,
    })
}

/// Serves an array: its shards, each in a thread of its own, take the events from the first to the last, while this
/// thread hands them out and fails, attaches and replaces slots. The io workers of a shard, each in a thread of its own
/// too, perform its commands: slot d, with its parts of the devices, is served by worker d modulo their number. It
/// returns once all is done, as after a wait.
///
/// Each shard must have its parts, and each new device a part for every shard. All memory is taken, and all threads
/// are there, before the first command.
///
/// # Errors
/// `NoMemory` or `ThreadRefused`, and never `Device`: no device was written, and the parts and events are dropped.
pub fn serve<D, R>(
    rt: &R,
    alloc: Global,
    config: Config,
    parts: Vec<Parts<D>>,
    events: Vec<Event<D>>,
) -> Result<Served<D>, EngineError>
where
    D: BlockDevice + Drop + Send,
    R: Threads + Wait + Sync,
    requires limits { IsShape config.geometry }
    requires window { (1 ≤ config.window) × (config.window ≤ 8) }
    requires workers { (1 ≤ config.workers) × (config.workers ≤ 8) }
    requires slots { config.lost < 2 ^ config.geometry.slots }
    requires few { count_ones config.lost ≤ 2 }
    requires parts { length parts.items ≡ config.geometry.shards }
    requires whole { AreWhole config.geometry.shards events.items }

    // what was done and answered
    ensures served { IfOk result (HasServedArray D.told D.promised (is_steady config.stop config.workers)
        config.geometry events.items
        (starting config.lost)
        (caller_of (start_losing config.geometry.slots config.geometry.shards config.lost)) parts.items) }
    ensures replies { IfOk result (λ served. AreReplies config.geometry (events_of D.told events.items)
        served.ledgers.items served.replies.items) }
    ensures refused { IfErr result IsRefusal }
{
    let made = crews_of(alloc, &config, parts, &events)?;
    let Crews { sites, crews } = made;
    let served = serve_at(rt, alloc, &config, &sites, crews, events)?;
    Ok(served)
}
