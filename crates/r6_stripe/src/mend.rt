//! Read errors fixed in place: the blocks that couldn't be read are written anew from the others, and read again.

ghost use Rattle.std.specs.Prelude.{◌≡◌, ◌<◌, ◌≤◌, ◌-◌, ℕ, List, Some, true, false, is_some, length, option_map};
ghost use Rattle.r6_recover.specs.Known.{IsMissing};
ghost use Rattle.r6_recover.specs.Rows.{block_at};
ghost use Rattle.r6_stripe.specs.Checks.{IsClassed};
ghost use Rattle.r6_stripe.specs.Holds.{IsOfFirst, cell_at};
ghost use Rattle.r6_stripe.specs.Masks.{has};
ghost use Rattle.r6_stripe.specs.Mending.{first_known_of};
ghost use Rattle.r6_stripe.specs.Places.{is_read_out};
ghost use Rattle.r6_stripe.specs.Plans as plans;
ghost use Rattle.r6_stripe.specs.Sound.{IsSound};
ghost use Rattle.r6_stripe.specs.Preparing.{PutsOne};
ghost use Rattle.r6_stripe.specs.Steps.{fixing, is_loss, loses_unreadable};
ghost use Rattle.r6_stripe.specs.Views.{held_of, hold_of, plan_of, planned_of};

use crate::command::RowCommand;
use crate::mask::Mask;
use crate::place::ReadState;
use crate::plan::Plan;
use crate::rebuild::restore_at;
use crate::state::HoldState;
use r6_kernels::Buffer;
use r6_recover::{Known, Missing, missing_among};
use std::mem;

impl HoldState {
    /// Whether a read error isn't done with: a fix or a second read is put out, or is to be.
    pub(crate) fn is_mending(&self) -> bool
        ensures { result ≡ plans.is_mending (hold_of self.now) }
    {
        !self.places.met().is_empty()
    }

    /// Whether the first read of the position is put out, and is neither answered nor abandoned.
    pub(crate) fn is_first_read(&self, position: usize) -> bool
        requires within { position < length self.now.places }
        requires few { length self.now.places ≤ 32 }
        ensures { result ≡ is_read_out (cell_at (hold_of self.now).cells position) }
    {
        self.places.read_out().contains(position)
    }

    /// The positions in sync whose reads met an error, and that aren't fixed.
    pub(crate) fn unreadable(&self) -> Mask
        ensures { (i : ℕ) → has result i ≡ plans.is_in_error (cell_at (hold_of self.now).cells i) }
    {
        self.places.in_error()
    }

    /// Whether they are to be lost, since too few blocks are known or can still become known.
    pub(crate) fn loses_unreadable(&self) -> bool
        requires sound { IsSound self.now }
        ensures { result ≡ loses_unreadable (planned_of self.now) }
    {
        self.has_too_few() && !self.gives_up()
    }

    /// The same of a hold that goes on.
    pub(crate) fn has_too_few(&self) -> bool
        requires sound { IsSound self.now }
        ensures { result ≡ is_loss (plans.next_loss (hold_of self.now)) }
    {
        if self.places.in_error().is_empty() {
            return false;
        }
        self.places.knowable().count() < self.places.len() - 2
    }

    /// The plan after a read error: it becomes recover, but that of a check or repair.
    pub(crate) fn plan_after_error(&self) -> Plan
        ensures { plan_of result ≡ plans.after_error (plan_of self.now.plan) }
    {
        match self.plan {
            Plan::All => Plan::All,
            Plan::One | Plan::Reconstruct | Plan::Modify | Plan::Overwrite | Plan::Recover =>
                Plan::Recover,
        }
    }

    /// Puts out what comes next where a read error isn't done with: the reads that are left; once they are answered
    /// the fixes; and once these are, the second reads.
    pub(crate) fn mend(&mut self) -> Option<RowCommand>
        requires sound { IsSound self.old }
        requires classed { IsClassed (hold_of self.old) self.old.class }
        requires goes_on { plans.gives_up (hold_of self.old) ≡ false }
        requires mending { plans.is_mending (hold_of self.old) ≡ true }
        ensures puts_out { PutsOne (held_of self.old) result (held_of self.new) }
        ensures sound { IsSound self.new }
        ensures classed { IsClassed (hold_of self.new) self.new.class }
        ensures prepared { self.new.prepared ≡ self.old.prepared }
    {
        if self.has_too_few() {
            return None;
        }
        if let Some(position) = self.next_read() {
            let buffer = self.ask(position);
            return Some(RowCommand::Read(position, buffer));
        }
        if self.has_asked() {
            return None;
        }
        if let Some(position) = self.next_fix() {
            let buffer = self.fix(position);
            return Some(RowCommand::Write(position, buffer));
        }
        self.read_again()
    }

    /// Puts out the second read that comes next, if one does.
    pub(crate) fn read_again(&mut self) -> Option<RowCommand>
        requires sound { IsSound self.old }
        requires classed { IsClassed (hold_of self.old) self.old.class }
        requires next { plans.next (planned_of self.old) ≡ plans.next_again (hold_of self.old) }
        ensures puts_out { PutsOne (held_of self.old) result (held_of self.new) }
        ensures sound { IsSound self.new }
        ensures classed { IsClassed (hold_of self.new) self.new.class }
        ensures prepared { self.new.prepared ≡ self.old.prepared }
    {
        if let Some(position) = self.next_again() {
            let buffer = self.ask_again(position);
            return Some(RowCommand::Read(position, buffer));
        }
        None
    }

    /// The position whose fix is put out next.
    pub(crate) fn next_fix(&self) -> Option<usize>
        requires { 2 ≤ length self.now.places }
        ensures { option_map plans.Next.FixAt result ≡ plans.next_fix (hold_of self.now) }
    {
        if self.has_computed() {
            return None;
        }
        if self.known_count() < self.places.len() - 2 {
            return None;
        }
        self.places.in_error().lowest()
    }

    /// The position whose second read is put out next.
    pub(crate) fn next_again(&self) -> Option<usize>
        ensures { option_map plans.Next.ReadAgainAt result ≡ plans.next_again (hold_of self.now) }
    {
        if self.task.is_none() {
            return None;
        }
        if self.has_computed() {
            return None;
        }
        if !self.places.fix_out().is_empty() {
            return None;
        }
        self.places.rereadable().lowest()
    }

    /// Puts out a fix of the position, whose buffer leaves with its block of the full row of the first known blocks.
    pub(crate) fn fix(&mut self, position: usize) -> Buffer
        requires sound { IsSound self.old }
        requires next { plans.next_fix (hold_of self.old) ≡ Some (plans.Next.FixAt position) }
        ensures held { held_of self.new ≡ fixing (held_of self.old) position result }
        ensures block { (row : List (List ℕ)) → IsOfFirst (hold_of self.old) row → block_at row position ≡ result }
        ensures size { length result ≡ self.old.len }
        ensures sound { IsSound self.new }
        ensures prepared { self.new.prepared ≡ self.old.prepared }
    {
        let missing = self.missing_of_first();
        restore_at(
            &mut self.blocks,
            missing,
            position,
            &mut self.sum,
            &mut self.weighted,
        );
        self.places.put_read(position, ReadState::Fixing, true);
        mem::replace(&mut self.blocks[position], Buffer::empty(self.alloc))
    }

    /// The positions but the first that are known, as many as there are data.
    fn missing_of_first(&self) -> Missing
        requires two { 2 ≤ length self.now.places }
        requires few { length self.now.places ≤ 32 }
        ensures { let count = length self.now.places in
            IsMissing (first_known_of (count - 2) self.now.places) count result }
    {
        let mut known = Known::none();
        let mut left = self.places.len() - 2;
        for position in 0..self.places.len() {
            if 0 < left && self.places.get(position).is_known() {
                known.insert(position);
                left -= 1;
            }
        }
        missing_among(known, self.places.len())
    }
}
