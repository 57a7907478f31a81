//! What a hold goes on with once a position's device is another.

ghost use Rattle.std.specs.Prelude.{◌≡◌, ◌≢◌, ◌<◌, true, false, [], length, slice_index_or};
ghost use Rattle.r6_stripe.specs.Places.{no_place, reading_of, writing_of};
ghost use Rattle.r6_stripe.specs.Seconds.{anew, handed};
ghost use Rattle.r6_stripe.specs.Sound.{IsSound};
ghost use Rattle.r6_stripe.specs.Steps.{asked};
ghost use Rattle.r6_stripe.specs.Views.{held_of};
ghost use Rattle.r6_stripe.specs.declared.place.ReadState.TheVariants as read;
ghost use Rattle.r6_stripe.specs.declared.place.Standing.TheVariants as state;
ghost use Rattle.r6_stripe.specs.declared.place.WriteState.TheVariants as write;

use crate::place::{PositionState, ReadState, WriteState};
use crate::state::HoldState;
use r6_kernels::Buffer;
use std::mem;

impl HoldState {
    /// Another device has the place of the position's, with the same write. The position's buffer is at home.
    pub(crate) fn stay_over(&mut self, position: usize)
        requires sound { IsSound self.old }
        requires place { position < length self.old.places }
        requires in_sync { (slice_index_or self.old.places position no_place).state ≡ state.InSync }
        requires home { (slice_index_or self.old.places position no_place).away ≡ false }
        ensures held { let place = slice_index_or self.old.places position no_place in
            let block = slice_index_or self.old.blocks.items position [] in
            held_of self.new ≡ handed (held_of self.old) position (reading_of (anew place.read) block)
            (writing_of place.write block) false }
        ensures places { let place = slice_index_or self.old.places position no_place in
            slice_index_or self.new.places position no_place ≡ record place { read = anew place.read } }
        ensures sound { IsSound self.new }
        ensures prepared { self.new.prepared ≡ false }
    {
        self.prepared = false;
        let place = self.places.get(position);
        self.places.put_read(position, place.read.anew(), false);
    }

    /// Another device has the place of the position's, with a write and a buffer of its own, which is away or not. The
    /// position's own stands in their place.
    pub(crate) fn swap_over(
        &mut self,
        position: usize,
        owed: WriteState,
        spare: &mut Buffer,
        away: bool,
    )
        requires sound { IsSound self.old }
        requires place { position < length self.old.places }
        requires in_sync { (slice_index_or self.old.places position no_place).state ≡ state.InSync }

        // the write is that of the other device
        requires unknown { (slice_index_or self.old.places position no_place).read ≢ read.Known }
        requires unwritten { (slice_index_or self.old.places position no_place).write ≡ write.Unwritten
            → owed ≡ write.Unwritten }
        requires written { owed ≡ write.Unwritten
            → (slice_index_or self.old.places position no_place).write ≡ write.Unwritten }
        requires left { away ≡ true → owed ≡ write.Sent }
        requires size { away ≡ false → length spare.old ≡ self.old.len }

        ensures held { held_of self.new ≡ handed (held_of self.old) position
            (reading_of (anew (slice_index_or self.old.places position no_place).read) [])
            (writing_of owed spare.old) away }
        ensures places { let place = slice_index_or self.old.places position no_place in
            slice_index_or self.new.places position no_place
            ≡ record { state = place.state; read = anew place.read; write = owed; away = away } }
        ensures spare { spare.new ≡ slice_index_or self.old.blocks.items position [] }
        ensures sound { IsSound self.new }
        ensures prepared { self.new.prepared ≡ false }
    {
        self.prepared = false;
        let place = self.places.get(position);
        let other = PositionState {
            read: place.read.anew(),
            write: owed,
            away,
            ..place
        };
        self.places.set(position, other);
        mem::swap(&mut self.blocks[position], spare);
    }

    /// Puts out the read of the position again, which was asked of a device that is gone.
    pub(crate) fn ask_anew(&mut self, position: usize) -> Buffer
        requires sound { IsSound self.old }
        requires place { position < length self.old.places }
        requires in_sync { (slice_index_or self.old.places position no_place).state ≡ state.InSync }
        requires asked { (slice_index_or self.old.places position no_place).read ≡ read.Asked }
        requires home { (slice_index_or self.old.places position no_place).away ≡ false }
        ensures held { held_of self.new ≡ asked (held_of self.old) position }
        ensures places { let place = slice_index_or self.old.places position no_place in
            slice_index_or self.new.places position no_place ≡ record place { away = true } }
        ensures size { length result ≡ self.old.len }
        ensures sound { IsSound self.new }
        ensures prepared { self.new.prepared ≡ self.old.prepared }
    {
        self.places.put_read(position, ReadState::Asked, true);
        mem::replace(&mut self.blocks[position], Buffer::empty(self.alloc))
    }
}
