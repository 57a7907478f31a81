//! Read errors: the first one of a position loses nothing.

ghost use Rattle.std.specs.Prelude.{◌≡◌, ◌+◌, ◌<◌, ◌≤◌, ◌++◌, ◌↔◌, ℕ, true, length, map, IsTrue, Some, MatchOption};
ghost use Rattle.r6_stripe.specs.Holds.{cell_at};
ghost use Rattle.r6_stripe.specs.Masks.{has};
ghost use Rattle.r6_stripe.specs.Plans.{is_in_error};
ghost use Rattle.r6_world.specs.ShardStates.{devices_of};
ghost use Rattle.r6_frames.specs.declared.frames.HeldRow.{HeldRow};
ghost use Rattle.r6_frames.specs.Views.{held_requests, hold_at, AreLive};
ghost use Rattle.r6_frames.specs.Calls.{Fails, GivesOver, IsAbandoned, IsAwaited, IsFirstRead, IsHeldFrame, KeepsDirects, KeepsHolds, KeepsOthers, KeepsRows, KeepsSlots, LosesSlot, MovesOver, OwesNoMore};
ghost use Rattle.r6_frames.specs.Owed.{LosesUnreadable, MovesUnreadable, MovesUnreadableAt};
ghost use Rattle.r6_frames.specs.Reads.{FreesDirect, IsOfRead, KeepsReaders, SetsBack};
ghost use Rattle.r6_frames.specs.Slots.{states_of};
ghost use Rattle.r6_frames.specs.Sound.{IsSound};

use crate::command::remove;
use crate::frames::{FRAMES, FrameUse, Frames};
use crate::slots::Device;
use crate::turns::left_of;
use arrayvec::ArrayVec;
use r6_bits::take_lowest;
use r6_kernels::Buffer;
use r6_stripe::Mask;
use r6_world::Request;

/// As many devices as are lost at one time, two of each slot.
pub const MOST_LOSSES: usize = 64;

/// Devices that are lost at one time, each by its slot and its generation, in row order, the first of two first.
pub type Losses = ArrayVec<(usize, u32), MOST_LOSSES>;

impl Frames {
    /// Whether the command, which a hold put out, is the first read of its position.
    pub fn is_first_read(&self, token: u64) -> bool
        requires awaited { IsAwaited self.now token }
        requires wanted { IsAbandoned self.now token → ⊥ }
        requires hold { IsOfRead self.now token → ⊥ }
        ensures { IsTrue result ↔ IsFirstRead self.now token }
    {
        let command = self.command(token);
        let held = self.held_row(command.frame);
        let position = left_of(command.slot, held.first_slot, self.geometry.slots());
        command.action.is_read() && held.hold.is_first_read(position)
    }

    /// The first read of a position met an error, and its buffer comes home. The hold goes on with the other blocks,
    /// writes the position's anew, and reads it again. Answers its frame's number.
    pub fn fail(&mut self, token: u64, buffer: Buffer) -> usize
        requires awaited { IsAwaited self.old token }
        requires wanted { IsAbandoned self.old token → ⊥ }
        requires hold { IsOfRead self.old token → ⊥ }
        requires first { IsFirstRead self.old token }
        requires size { length buffer ≡ self.old.geometry.block }

        // The read error is taken.
        ensures sound { IsSound self.new }
        ensures live { AreLive self.new }
        ensures fails { Fails self.old token self.new }

        // Its frame holds the row still, and all else is as it was.
        ensures held { IsHeldFrame self.new result }
        ensures rows { KeepsRows self.old self.new }
        ensures others { KeepsOthers self.old result self.new }
        ensures directs { KeepsDirects self.old self.new }
        ensures owed { OwesNoMore self.old self.new }
        ensures requests { held_requests self.new ≡ held_requests self.old }
    {
        let command = remove(&mut self.commands, token);
        match &mut self.uses[command.frame] {
            FrameUse::Held(held) => {
                let position = left_of(command.slot, held.first_slot, self.geometry.slots());
                held.hold.failed(position, buffer);
            }
            _ => unreachable!(),
        }
        command.frame
    }

    /// A direct read met an error, and its command's buffer comes home. Answers the request, with the caller's buffer:
    /// it waits again, to be held.
    pub fn set_back(&mut self, token: u64, buffer: Buffer) -> Request
        requires awaited { IsAwaited self.old token }
        requires wanted { IsAbandoned self.old token → ⊥ }
        requires read { IsOfRead self.old token }
        requires size { length buffer ≡ self.old.geometry.block }

        // The read error is taken.
        ensures sound { IsSound self.new }
        ensures live { AreLive self.new }
        ensures sets_back { SetsBack self.old token result self.new }

        // All else is as it was.
        ensures holds { KeepsHolds self.old self.new }
        ensures frees { (number : ℕ) × FreesDirect self.old number self.new }
        ensures same { KeepsSlots self.old self.new }
        ensures next { self.new.commands.next ≡ self.old.commands.next }
    {
        let command = remove(&mut self.commands, token);
        let number = command.frame - FRAMES;
        let read = self.directs.take_read(number);
        self.directs.bring_back(number, buffer);
        read.request()
    }

    /// A frame whose hold loses the positions of its read errors next: too few of its blocks can still become known.
    pub fn any_losing(&self) -> Option<usize>
        ensures { MatchOption result ((frame : ℕ) → LosesUnreadable self.now frame → ⊥) (LosesUnreadable self.now) }
    {
        let mut used = self.used_frames();
        while let Some(frame) = take_lowest(&mut used) {
            if self.loses_unreadable(frame) {
                return Some(frame);
            }
        }
        None
    }

    // Whether the frame's hold loses the positions of its read errors next.
    fn loses_unreadable(&self, frame: usize) -> bool
        requires { frame < length self.now.uses }
        ensures { IsTrue result ↔ LosesUnreadable self.now frame }
    {
        match &self.uses[frame] {
            FrameUse::Held(held) => held.hold.loses_unreadable(),
            FrameUse::Free | FrameUse::Returning(..) => false,
        }
    }

    /// A frame whose hold has the first device of a position taken out next, whose read met an error: too few of its
    /// blocks can still become known, and the second device has this one.
    pub fn any_moving(&self) -> Option<usize>
        ensures { MatchOption result ((frame : ℕ) → MovesUnreadable self.now frame → ⊥) (MovesUnreadable self.now) }
    {
        let mut used = self.used_frames();
        while let Some(frame) = take_lowest(&mut used) {
            if self.moves_unreadable(frame).is_some() {
                return Some(frame);
            }
        }
        None
    }

    // The position of the frame's hold whose first device is to be taken out next.
    fn moves_unreadable(&self, frame: usize) -> Option<usize>
        requires { frame < length self.now.uses }
        ensures { MatchOption result (MovesUnreadable self.now frame → ⊥)
            (λ position. MovesUnreadableAt self.now frame position) }
    {
        match &self.uses[frame] {
            FrameUse::Held(held) => held.hold.moves_unreadable(),
            FrameUse::Free | FrameUse::Returning(..) => None,
        }
    }

    /// The first device of a position of the frame's hold goes out alone, whose read met an error. The second one has
    /// its place. Answers the slot and the generation of the device.
    pub fn move_over(&mut self, frame: usize) -> (usize, u32)
        requires live { AreLive self.old }
        requires moves { MovesUnreadable self.old frame }

        // The device is out.
        ensures sound { IsSound self.new }
        ensures moves { MovesOver self.old frame result.0 result.1 self.new }

        // No hold has another position to move.
        ensures last { (other : ℕ) → MovesUnreadable self.new other → ⊥ }

        // All else is as it was.
        ensures rows { KeepsRows self.old self.new }
        ensures owed { OwesNoMore self.old self.new }
        ensures readers { KeepsReaders self.old self.new }
        ensures requests { held_requests self.new ≡ held_requests self.old }
    {
        let Some(position) = self.moves_unreadable(frame) else {
            unreachable!()
        };
        let slot = self.geometry.slot_at(self.held_row(frame).row, position);
        let generation = self.slots[slot].device.known_first();
        let device = self.slots[slot].device.without(generation);
        self.take_out(slot, device);
        (slot, generation)
    }

    /// The frame's hold loses the positions of its read errors: their slots go out, in row order, with all devices, and
    /// the shard stops. Answers these.
    pub fn give_over(&mut self, frame: usize) -> Losses
        requires live { AreLive self.old }
        requires loses { LosesUnreadable self.old frame }

        // The slots are out.
        ensures sound { IsSound self.new }
        ensures gives { GivesOver self.old frame result.items self.new }
        ensures stopped { AreLive self.new → ⊥ }

        // All else is as it was.
        ensures rows { KeepsRows self.old self.new }
        ensures owed { OwesNoMore self.old self.new }
        ensures readers { KeepsReaders self.old self.new }
        ensures requests { held_requests self.new ≡ held_requests self.old }
    {
        let (row, unreadable) = self.unreadable(frame);
        let mut losses = ArrayVec::new();
        for position in 0..self.geometry.slots() {
            if unreadable.contains(position) {
                let slot = self.geometry.slot_at(row, position);
                self.lose_slot(slot, &mut losses);
            }
        }
        losses
    }

    // The row that the frame holds, and its positions whose reads met an error.
    fn unreadable(&self, frame: usize) -> (u64, Mask)
        requires { IsHeldFrame self.now frame }
        ensures { (h : HeldRow) → hold_at self.now.uses frame ≡ Some h
            → (result.0 ≡ h.row)
            × ((i : ℕ) → has result.1 i ≡ is_in_error (cell_at h.hold.planned.hold.cells i)) }
    {
        let held = self.held_row(frame);
        (held.row, held.hold.unreadable())
    }

    // The slot goes out, which no command's error has taken, and its devices are among the losses.
    fn lose_slot(&mut self, slot: usize, losses: &mut Losses)
        requires few { self.old.geometry.slots ≤ 32 }
        requires slot { slot < self.old.geometry.slots }
        requires room { length losses.old.items + 2 ≤ 64 }
        ensures sound { IsSound self.new }
        ensures loses { LosesSlot self.old slot self.new }
        ensures losses { losses.new.items
            ≡ losses.old.items ++ map (λ generation. (slot, generation)) (devices_of (states_of self.old.slots slot)) }
        ensures rows { KeepsRows self.old self.new }
        ensures owed { OwesNoMore self.old self.new }
        ensures readers { KeepsReaders self.old self.new }
        ensures requests { held_requests self.new ≡ held_requests self.old }
    {
        let device = self.slots[slot].device;
        if let Some(first) = device.first() {
            losses.push((slot, first));
        }
        if let Some(second) = device.second() {
            losses.push((slot, second));
        }
        self.take_out(slot, Device::Missing);
    }
}
