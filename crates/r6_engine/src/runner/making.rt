//! How a shard begins that takes from a list.

ghost use Rattle.std.specs.Prelude.{◌≡◌, ℕ, ◌+◌, ◌<◌, ◌≤◌, [], None, false, length, vec_capacity, IfOk};
ghost use Rattle.std.specs.VecDeque.{deque_capacity};
ghost use Rattle.r6_layout.specs.Shape.{IsShape};
ghost use Rattle.r6_health.specs.Passes.{view_of};
ghost use Rattle.r6_shard.specs.Beginnings.{IsFirstPass};
ghost use Rattle.r6_shard.specs.Sound.{BeginsSound};
ghost use Rattle.r6_engine.specs.runner.Counted.{HasCounted, rows_of_shard};
ghost use Rattle.r6_engine.specs.runner.Parts.{BeginsOwn};
ghost use Rattle.r6_engine.specs.runner.Runners.{HasDone, taken_by};
ghost use Rattle.r6_engine.specs.runner.Sound.{IsSoundIn};
ghost use Rattle.r6_engine.specs.runner.Waits.{HasAwaited};

use crate::runner::due::Due;
use crate::runner::gathered::Gathered;
use crate::runner::runner::{Handed, Runner};
use crate::runner::scrub::ScrubDone;
use r6_core::Refusal;
use r6_dev::BlockDevice;
use r6_health::{Pass, Snapshot};
use r6_shard::{Part, Performs, Shard, ShardConfig, TakesParts};
use std::alloc::{AllocError, Global};
use std::collections::VecDeque;

// Room for so many tasks, and among them for so many parts of new devices.
#[derive(Drop)]
struct Rooms<D> {
    due: VecDeque<Due>,
    gathered: Gathered,
    refused: Vec<(u64, Refusal)>,
    scrubs_done: Vec<ScrubDone>,
    handed: Vec<Handed>,
    others: Vec<Part<D>>,
}

fn rooms_of<D: Drop>(alloc: Global, room: usize, attaches: usize) -> Result<Rooms<D>, AllocError>
    ensures { IfOk result (λ rooms. (rooms.due.items ≡ []) × (room ≤ deque_capacity rooms.due)
        × (rooms.refused.items ≡ []) × (room ≤ vec_capacity rooms.refused)
        × (rooms.scrubs_done.items ≡ []) × (room ≤ vec_capacity rooms.scrubs_done)
        × (rooms.handed.items ≡ []) × (attaches ≤ vec_capacity rooms.handed)
        × (rooms.others.items ≡ []) × (attaches ≤ vec_capacity rooms.others)
        × (rooms.gathered.ops.items ≡ [])) }
{
    Ok(Rooms {
        due: VecDeque::with_capacity(alloc, room)?,
        gathered: Gathered::new(alloc)?,
        refused: Vec::with_capacity(alloc, room)?,
        scrubs_done: Vec::with_capacity(alloc, room)?,
        handed: Vec::with_capacity(alloc, attaches)?,
        others: Vec::with_capacity(alloc, attaches)?,
    })
}

impl<P: Performs + Drop, D: BlockDevice + Drop> Runner<P, D>
where
    P: TakesParts<D>,
{
    /// A shard of the array as it begins, with room for so many tasks. So many of them may bring a new device, so there
    /// must be room for as many parts more.
    ///
    /// # Errors
    /// `AllocError` where there is no memory for all room.
    pub fn new(
        alloc: Global,
        place: ShardConfig,
        snapshot: &Snapshot,
        pass: Pass,
        parts: P,
        room: usize,
        attaches: usize,
    ) -> Result<Runner<P, D>, AllocError>
        requires limits { IsShape place.geometry }
        requires number { place.number < place.geometry.shards }
        requires window { (1 ≤ place.window) × (place.window ≤ 8) }
        requires parts_room { length (P.performer parts).labels + attaches ≤ (P.performer parts).part_room }

        // the register as it began
        requires no_attach { snapshot.now.attaches ≡ 0 }
        requires unfailed { snapshot.now.failed ≡ false }
        requires pass { IsFirstPass place.geometry place.number snapshot.now (view_of pass) }

        // nothing is out
        requires holds { P.holds parts }
        requires idle { (token : ℕ) → (P.performer parts).out token ≡ None }

        // what it is to do begins
        ensures begins { IfOk result (λ runner. (shape : _) (events : _)
            → HasDone shape events place.geometry place.number snapshot.now (P.performer parts).tells [] runner) }
        ensures counted { IfOk result (λ runner. HasCounted (rows_of_shard place.geometry place.number) runner) }
        ensures sound { IfOk result (λ runner. (slot : _)
            → BeginsSound (P.performer parts) place.geometry place.number snapshot.now slot
            → IsSoundIn place.geometry place.number slot runner) }
        ensures awaited { IfOk result (λ runner. (events : _) → HasAwaited events runner) }
        ensures own { IfOk result
            (BeginsOwn (P.performer parts).labels place.geometry.slots snapshot.now place.window) }

        // what it was made of
        ensures pass { IfOk result (λ runner. runner.shard.pass ≡ pass) }
        ensures performer { IfOk result (λ runner. runner.shard.parts ≡ parts) }
        ensures place { IfOk result (λ runner. runner.shard.core.shard ≡ place.number) }
        ensures room { IfOk result (λ runner. (runner.room ≡ room) × (runner.attaches ≡ attaches)
            × (taken_by runner ≡ 0)) }
    {
        let rows = place.geometry.shard_rows(place.number);
        let rooms = rooms_of(alloc, room, attaches)?;
        let shard = Shard::new(alloc, place, snapshot, pass, parts, room)?;
        let Rooms {
            due,
            gathered,
            refused,
            scrubs_done,
            handed,
            others,
        } = rooms;
        Ok(Runner {
            shard,
            due,
            gathered,
            refused,
            scrub: None,
            scrubs_done,
            handed,
            others,
            waits: 0,
            rows: rows.end - rows.start,
            room,
            attaches,
        })
    }
}
