//! A hold that has no task: it reads the block of a position for another device.

ghost use Rattle.std.specs.Prelude.{◌≡◌, ◌≢◌, ◌<◌, ℕ, List, [], length, slice_index_or, option_map, true, false, None};
ghost use Rattle.r6_stripe.specs.Holds.{Kind, cell_at, is_known, no_cell};
ghost use Rattle.r6_stripe.specs.Holds.Reading.{Replaced};
ghost use Rattle.r6_stripe.specs.Holds.Standing.{Target};
ghost use Rattle.r6_stripe.specs.Masks.{flags_of};
ghost use Rattle.r6_stripe.specs.Plans as plans;
ghost use Rattle.r6_stripe.specs.Replacements.{AreUnlent, IsSource, rebuilding, recovering, source_held, turned, with_block};
ghost use Rattle.r6_stripe.specs.Sound.{AreAllHome, IsSound};
ghost use Rattle.r6_stripe.specs.Steps.{asked, is_away, IsInSync, IsKnownAs, IsUnread};
ghost use Rattle.r6_stripe.specs.Views.{hold_of, held_of};

use crate::command::RowTask;
use crate::mask::Mask;
use crate::place::{PositionState, ReadState, Standing, WriteState};
use crate::plan::Plan;
use crate::positions::Positions;
use crate::state::HoldState;
use r6_kernels::Buffer;
use std::mem;

impl HoldState {
    /// Begins to read a block of a row, of whose positions these are in sync; the others are out.
    pub(crate) fn begin_source(&mut self, in_sync: Mask)
        requires home { AreAllHome self.old }
        ensures held { held_of self.new ≡ source_held self.old.len (flags_of (length self.old.places) in_sync) }
        ensures sound { IsSound self.new }
        ensures prepared { self.new.prepared ≡ false }
    {
        self.places = Positions::begun(self.places.len(), in_sync, &RowTask::Check);
        self.task = None;
        self.prepared = false;
        self.cut_short = false;
        self.met_error = false;
        self.class = None;
        self.plan = Plan::One;
    }

    /// Puts out a read of the position, whose buffer leaves with it.
    pub(crate) fn ask_source(&mut self, position: usize) -> Buffer
        requires sound { IsSound self.old }
        requires place { position < length self.old.places }
        requires untasked { self.old.task ≡ None }

        // the rules of a read
        requires in_sync { IsInSync (cell_at (hold_of self.old).cells position) }
        requires unread { IsUnread (cell_at (hold_of self.old).cells position) }
        requires before_writes { plans.has_computed (hold_of self.old) ≡ false }
        requires unlent { AreUnlent (held_of self.old) }

        ensures held { held_of self.new ≡ asked (held_of self.old) position }
        ensures size { length result ≡ self.old.len }
        ensures sound { IsSound self.new }
        ensures prepared { self.new.prepared ≡ self.old.prepared }
    {
        self.places.ask(position);
        mem::replace(&mut self.blocks[position], Buffer::empty(self.alloc))
    }

    /// The position whose second read is put out next, whatever the task.
    pub(crate) fn first_again(&self) -> Option<usize>
        ensures { (kind : Kind) → plans.is_idle kind ≡ false
            → option_map plans.Next.ReadAgainAt result ≡ plans.next_again (record (hold_of self.now) { kind = kind }) }
    {
        if self.has_computed() {
            return None;
        }
        if !self.places.fix_out().is_empty() {
            return None;
        }
        self.places.rereadable().lowest()
    }

    /// The known block of the position gives way to these bytes.
    pub(crate) fn give_block(&mut self, position: usize, other: &mut Buffer)
        requires sound { IsSound self.old }
        requires place { position < length self.old.places }
        requires known { is_known (cell_at (hold_of self.old).cells position).reading ≡ true }
        requires there { (cell_at (hold_of self.old).cells position).reading ≢ Replaced }
        requires home { is_away (held_of self.old) position ≡ false }
        requires size { length other.old ≡ self.old.len }
        ensures held { held_of self.new ≡ with_block (held_of self.old) position other.old }
        ensures block { IsKnownAs (cell_at (hold_of self.old).cells position) other.new }
        ensures long { length other.new ≡ self.old.len }
        ensures sound { IsSound self.new }
        ensures prepared { self.new.prepared ≡ self.old.prepared }
    {
        mem::swap(&mut self.blocks[position], other);
    }

    /// The position's device is lost unread: the plan is to recover.
    pub(crate) fn recover_source(&mut self)
        requires sound { IsSound self.old }
        requires untasked { self.old.task ≡ None }
        ensures held { held_of self.new ≡ recovering (held_of self.old) }
        ensures sound { IsSound self.new }
        ensures prepared { self.new.prepared ≡ self.old.prepared }
    {
        self.plan = Plan::Recover;
    }

    /// The position's device is a target, and its buffer is one that is at home.
    pub(crate) fn turn(&mut self, position: usize, other: &mut Buffer)
        requires sound { IsSound self.old }
        requires place { position < length self.old.places }
        requires untasked { self.old.task ≡ None }
        requires unlent { AreUnlent (held_of self.old) }
        requires size { length other.old ≡ self.old.len }
        ensures held { held_of self.new ≡ turned (held_of self.old) position }
        ensures other { other.new ≡ slice_index_or self.old.blocks.items position [] }
        ensures sound { IsSound self.new }
        ensures prepared { self.new.prepared ≡ self.old.prepared }
    {
        self.places.set(
            position,
            PositionState {
                state: Standing::Target,
                read: ReadState::Unread,
                write: WriteState::Unwritten,
                away: false,
            },
        );
        mem::swap(&mut self.blocks[position], other);
    }

    /// Takes up the rebuild of the position, which is its target.
    pub(crate) fn take_up(&mut self, position: usize)
        requires sound { IsSound self.old }
        requires place { position < length self.old.places }
        requires untasked { self.old.task ≡ None }
        requires unlent { AreUnlent (held_of self.old) }
        requires sources { (other : ℕ) → other ≢ position → IsSource (cell_at (hold_of self.old).cells other) }
        requires target { cell_at (hold_of self.old).cells position ≡ record no_cell { standing = Target } }
        requires uncut { self.old.cut_short ≡ false }
        ensures held { held_of self.new ≡ rebuilding (held_of self.old) position }
        ensures sound { IsSound self.new }
        ensures prepared { self.new.prepared ≡ self.old.prepared }
    {
        self.task = Some(RowTask::Rebuild(position));
        self.plan = Plan::Recover;
    }
}
