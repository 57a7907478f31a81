//! Holds begin.

ghost use Rattle.std.specs.Prelude.{◌≡◌, ◌<◌, ◌≤◌, ◌+◌, ◌&&◌, ◌||◌, if◌then◌else◌, ℕ, true, Option, Some, IfSome, is_some};
ghost use Rattle.r6_layout.specs.Layout as layout;
ghost use Rattle.r6_stripe.specs.Masks.{flags_of, has};
ghost use Rattle.r6_stripe.specs.Sound.{IsTask};
ghost use Rattle.r6_stripe.specs.Views.{kind_of_task};
ghost use Rattle.r6_frames.specs.Views.{AreLive, is_synced_at};
ghost use Rattle.r6_frames.specs.Calls.{IsFreeFrame, NotHeldBy, Holds};
ghost use Rattle.r6_frames.specs.Owed.{owed, most_owed, IsUnmet, OwesCommands};
ghost use Rattle.r6_frames.specs.Sound.{IsSound, MayHold};
ghost use Rattle.r6_frames.specs.Slots.{AreSynced, is_second_synced, second_of};
ghost use Rattle.r6_frames.specs.Views.{rebuilds};
ghost use Rattle.r6_frames.specs.Uses.{HasSecondAt, IsSecondIn, begun_hold, begun_row, successor_at, successor_of};

use crate::frames::{FrameUse, Frames, HeldRow, Job, put};
use crate::rebuilt::Target;
use crate::slots::Device;
use crate::successor::Successor;
use crate::turns::right_of;
use r6_layout::MOST_SLOTS;
use r6_stripe::{Frame, Hold, Mask, RowTask};

impl Frames {
    /// Holds a row of the shard, which isn't held, in a free frame, for a job, which asks for this task. Its commands are
    /// put out by [`Frames::drive`].
    pub fn begin(&mut self, frame: usize, row: u64, job: Job, task: RowTask)
        requires live { AreLive self.old }

        // The row may be held in the frame.
        requires free { IsFreeFrame self.old frame }
        requires may { MayHold self.old row job task }
        requires unheld { NotHeldBy self.old row }

        // The row is held, and nothing else changes.
        ensures sound { IsSound self.new }
        ensures holds { (second : Option ℕ) × IsSecondIn self.old row job second
            × Holds self.old frame (begun_row self.old row job task second) self.new }

        // The hold owes no more than any may, and at least one command. Nothing was read.
        ensures owed { owed self.new ≤ owed self.old + most_owed self.old.geometry.slots }
        ensures owes { OwesCommands self.new frame }
        ensures unmet { IsUnmet self.new frame }
    {
        let first = self.geometry.slot_at(row, 0);
        let (in_sync, beside) = self.in_sync(row, first, &job);
        let successor = self.successor(first, beside);
        let Some(spare) = self.spare.pop() else {
            unreachable!()
        };
        let hold = start(spare, task, in_sync, beside);
        let has_target = job.is_rebuild();
        let held = HeldRow {
            row,
            first_slot: first,
            job,
            hold,
            successor,
            has_target,
        };
        put(
            &mut self.uses,
            &mut self.free_frames,
            frame,
            FrameUse::Held(held),
        );
        self.holders.add(row, frame);
    }

    // Which positions are in sync of the row, whose first one stands on this slot, and which one has a second device for
    // the job. Mostly each slot has one device, in sync.
    fn in_sync(&self, row: u64, first: usize, job: &Job) -> (Mask, Option<usize>)
        requires first { first ≡ layout.slot_at self.now.geometry row 0 }
        ensures in_sync { (position : ℕ) → position < self.now.geometry.slots
            → has result.0 position ≡ is_synced_at self.now row position }
        ensures second { IsSecondIn self.now row job.now result.1 }
    {
        let slots = self.geometry.slots();
        if self.are_all_synced() {
            return (every_position(), None);
        }
        let mut in_sync = Mask::none();
        let mut beside = None;
        for position in 0..slots {
            let slot = right_of(first, position, slots);
            let device = &self.slots[slot].device;
            if let Device::Synced(_) = device {
                in_sync = in_sync.put(position, true);
                continue;
            }
            in_sync = in_sync.put(position, device.is_in_sync(row));
            beside = if_there(has_second(device, row, job, slot), position, beside);
        }
        (in_sync, beside)
    }

    // Whether each slot has one device, in sync.
    fn are_all_synced(&self) -> bool
        ensures { result ≡ true → AreSynced self.now.geometry.slots self.now.slots }
    {
        for slot in 0..self.geometry.slots() {
            let Device::Synced(_) = &self.slots[slot].device else {
                return false;
            };
        }
        true
    }

    // The second device of the position that has one, of a row whose first position stands on this slot.
    fn successor(&self, first: usize, beside: Option<usize>) -> Successor
        requires first { first < self.now.geometry.slots }
        requires beside { IfSome beside (HasSecondAt self.now first) }
        ensures { result ≡ successor_of self.now first beside }
    {
        match beside {
            None => Successor::None,
            Some(position) => self.second_at(first, position),
        }
    }

    // The second device of the position, of a row whose first one stands on this slot.
    fn second_at(&self, first: usize, position: usize) -> Successor
        requires first { first < self.now.geometry.slots }
        requires there { HasSecondAt self.now first position }
        ensures { result ≡ successor_at self.now first position }
    {
        let slot = right_of(first, position, self.geometry.slots());
        let generation = self.slots[slot].device.known_second();
        Successor::Beside(Target { slot, generation })
    }
}

// Every position that a row may have. It is a constant.
fn every_position() -> Mask
    ensures { (position : ℕ) → position < 32 → has result position ≡ true }
{
    let mut every = Mask::none();
    for position in 0..MOST_SLOTS {
        every = every.put(position, true);
    }
    every
}

// The hold of the task, in whose row the position has a second device, if one has.
fn start(spare: Frame, task: RowTask, in_sync: Mask, beside: Option<usize>) -> Hold
    requires task { IsTask spare.count spare.size (Some task) }
    requires beside { IfSome beside (λ position. (position < spare.count) × (has in_sync position ≡ true)) }
    ensures { result ≡ begun_hold spare.size (flags_of spare.count in_sync) (kind_of_task task) beside }
{
    match beside {
        None => Hold::begin(spare, task, in_sync),
        Some(position) => Hold::begin_beside(spare, task, in_sync, position),
    }
}

// Whether the slot has a second device for a hold of the row that does this.
fn has_second(device: &Device, row: u64, job: &Job, slot: usize) -> bool
    ensures { result ≡ (is_some (second_of device.now) && (is_second_synced device.now row || rebuilds job.now slot)) }
{
    device.second().is_some() && (device.is_second_in_sync(row) || job.rebuilds(slot))
}

// The position if it is there, and else the other one.
fn if_there(is_there: bool, position: usize, other: Option<usize>) -> Option<usize>
    ensures { result ≡ (if is_there then Some position else other) }
{
    if is_there { Some(position) } else { other }
}
