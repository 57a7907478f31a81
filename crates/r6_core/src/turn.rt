//! Turns, and those of checks and repairs.

ghost use Rattle.std.specs.Prelude.{◌≡◌, ◌<◌, ◌^◌, true, false, MatchOption, IfOk, IfErr};
ghost use Rattle.r6_world.specs.Changes.{Start, Skip_turn, Allowed, after, next_check, next_repair, row_behind};
ghost use Rattle.r6_world.specs.Steps.{Scans, Through};
ghost use Rattle.r6_world.specs.Layouts.{IsRowOf};
ghost use Rattle.r6_frames.specs.Calls.{AreAllInSync};
ghost use Rattle.r6_frames.specs.Views.{scrub_task};
ghost use Rattle.r6_frames.specs.Sound as held;
ghost use Rattle.r6_core.specs.Shards.{Step, core_of, layout_in, state_of};
ghost use Rattle.r6_world.specs.ShardStates.{limit};
ghost use Rattle.r6_core.specs.Refusals.{HasTurnFault, IsFirstFault, HasNone, turn_faults};
ghost use Rattle.r6_core.specs.Effects.{KeepsRequests, turn_event};
ghost use Rattle.r6_core.specs.Inside.{AreOwnRows, HasSlotOut, IsCore, IsPassedOver, IsSound, IsTakenUp, SameFrames, Seen, next_row};

use crate::refusal::Refusal;
use crate::state::{LIMIT, State};
use r6_frames::{Job, Scrub};

/// What a turn is for.
#[derive(Clone, Copy, PartialEq, Eq, Debug)]
pub enum Task {
    /// A row of a new device is rebuilt.
    Rebuild,
    /// A row is read, and its class found.
    Check,
    /// A row is read, its class found, and wrong parities are written anew.
    Repair,
}

/// How a turn was taken.
#[derive(Clone, Copy, PartialEq, Eq, Debug)]
pub enum Turn {
    /// The next row is held.
    Started,
    /// It was passed over, since a slot isn't in sync for it.
    Skipped,
}

impl State {
    /// The next row is held for a check or repair, or passed over.
    pub(crate) fn turn(&mut self, scrub: Scrub) -> Result<Turn, Refusal>
        requires { IsCore self.old }
        ensures core { IsCore self.new }
        ensures step { IfOk result (λ turn. Step (core_of self.old)
            (turn_event turn scrub (next_row scrub self.old)) (core_of self.new)) }
        ensures right { IfOk result (λ _. HasNone (HasTurnFault (core_of self.old) scrub) turn_faults) }
        ensures refused { IfErr result (λ refusal.
            (self.new ≡ self.old) × IsFirstFault (HasTurnFault (core_of self.old) scrub) turn_faults refusal) }
        ensures kept { Seen KeepsRequests self.old self.new }
        ensures unanswered { self.new.unanswered ≡ self.old.unanswered }
    {
        match self.frame_for_turn(scrub)? {
            Some(frame) => {
                self.begin_turn(frame, scrub);
                Ok(Turn::Started)
            }
            None => {
                self.skip_turn(scrub);
                Ok(Turn::Skipped)
            }
        }
    }

    // The frame in which the next row is to be held, none if it is to be passed over, or why the turn is refused.
    fn frame_for_turn(&self, scrub: Scrub) -> Result<Option<usize>, Refusal>
        requires { IsCore self.now }
        ensures right { IfOk result (λ _. HasNone (HasTurnFault (core_of self.now) scrub) turn_faults) }
        ensures refused { IfErr result (IsFirstFault (HasTurnFault (core_of self.now) scrub) turn_faults) }
        ensures frame { IfOk result (λ o. MatchOption o (IsPassedOver self.now scrub) (IsTakenUp self.now scrub)) }
    {
        if self.frames.saw_failed() {
            return Err(Refusal::ArrayFailed);
        }
        if self.frames.tokens() >= LIMIT || self.counts.skipped >= LIMIT {
            return Err(Refusal::Exhausted);
        }
        if !self.frames.is_live() {
            return Err(Refusal::NothingToDo);
        }
        let row = self.next_row(scrub);
        if !self.is_whole(row) {
            return Ok(None);
        }
        if self.frames.is_held(row) {
            return Err(Refusal::NothingToDo);
        }
        match self.frames.free_frame() {
            Some(frame) => Ok(Some(frame)),
            None => Err(Refusal::NoFrame),
        }
    }

    // The next row is held for the check or repair, whose reads are put out.
    fn begin_turn(&mut self, frame: usize, scrub: Scrub)
        requires core { IsCore self.old }
        requires taken_up { IsTakenUp self.old scrub frame }
        requires tokens { self.old.frames.commands.next < limit }
        requires skipped { self.old.counts.skipped < limit }

        // the row is held, and what its hold puts out is out
        ensures core { IsCore self.new }
        ensures allowed { Allowed (layout_in self.old) self.old.frames.shard (state_of self.old)
            (Start frame (next_row scrub self.old) (scrub_task scrub)) }
        ensures leads { Through (layout_in self.old) self.old.frames.shard Scans
            (after (layout_in self.old) (state_of self.old) (Start frame (next_row scrub self.old) (scrub_task scrub)))
            (state_of self.new) }

        // the shard stays the shard that it is, and requests stay
        ensures same { SameFrames self.old self.new }
        ensures kept { Seen KeepsRequests self.old self.new }
        ensures unanswered { self.new.unanswered ≡ self.old.unanswered }
    {
        let row = self.next_row(scrub);
        self.pass(scrub);
        self.frames
            .begin(frame, row, Job::Scrub(scrub), scrub.task());
        self.frames.drive(frame);
    }

    // The next row is passed over, since a slot isn't in sync for it.
    fn skip_turn(&mut self, scrub: Scrub)
        requires core { IsCore self.old }
        requires passed_over { IsPassedOver self.old scrub }
        requires skipped { self.old.counts.skipped < limit }

        // the row is passed over
        ensures core { IsCore self.new }
        ensures allowed { Allowed (layout_in self.old) self.old.frames.shard (state_of self.old)
            (Skip_turn (scrub_task scrub) (next_row scrub self.old)) }
        ensures skips { state_of self.new
            ≡ after (layout_in self.old) (state_of self.old) (Skip_turn (scrub_task scrub) (next_row scrub self.old)) }

        // the shard stays the shard that it is, and requests stay
        ensures same { SameFrames self.old self.new }
        ensures kept { Seen KeepsRequests self.old self.new }
        ensures unanswered { self.new.unanswered ≡ self.old.unanswered }
    {
        self.pass(scrub);
        self.counts.skipped += 1;
    }

    // Whether every slot is in sync for the row.
    fn is_whole(&self, row: u64) -> bool
        requires { held.IsSound self.now.frames }
        ensures whole { result ≡ true → AreAllInSync self.now.frames row }
        ensures out { result ≡ false → HasSlotOut self.now.frames row }
    {
        for slot in 0..self.frames.geometry().slots() {
            if !self.frames.device(slot).is_in_sync(row) {
                return false;
            }
        }
        true
    }

    // The row of the next check or repair.
    fn next_row(&self, scrub: Scrub) -> u64
        ensures { result ≡ next_row scrub self.now }
    {
        match scrub {
            Scrub::Check => self.check_row,
            Scrub::Repair => self.repair_row,
        }
    }

    // The next check or repair is of the row behind, or of the shard's first behind its last.
    fn pass(&mut self, scrub: Scrub)
        requires { IsSound self.old }
        ensures check { self.new.check_row ≡ next_check (layout_in self.old) (scrub_task scrub)
            (next_row scrub self.old) self.old.check_row }
        ensures repair { self.new.repair_row ≡ next_repair (layout_in self.old) (scrub_task scrub)
            (next_row scrub self.old) self.old.repair_row }
        ensures own { AreOwnRows self.old.frames self.new.check_row self.new.repair_row }
        ensures same { self.new ≡ record self.old {
          check_row = self.new.check_row;
          repair_row = self.new.repair_row;
        } }
    {
        let row = self.row_behind(self.next_row(scrub));
        match scrub {
            Scrub::Check => self.check_row = row,
            Scrub::Repair => self.repair_row = row,
        }
    }

    // The row behind a row of the shard; behind its last, its first.
    fn row_behind(&self, row: u64) -> u64
        requires sound { held.IsSound self.now.frames }
        requires row { IsRowOf (layout_in self.now) self.now.frames.shard row }
        ensures behind { result ≡ row_behind (layout_in self.now) row }
        ensures own { IsRowOf (layout_in self.now) self.now.frames.shard result }
    {
        let rows = self.frames.geometry().shard_rows(self.frames.shard());
        if row + 1 == rows.end {
            rows.start
        } else {
            row + 1
        }
    }
}
