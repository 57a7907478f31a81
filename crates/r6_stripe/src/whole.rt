//! A hold of a row, one position of which may have a second device: in sync, or as the target of a rebuild.

ghost use Rattle.std.specs.Prelude.{◌≡◌, ◌<◌, ◌||◌, ◌&&◌, ℕ, not, true, false, length, option_map, Some, None, MatchOption, IfSome};
ghost use Rattle.std.specs.List.{list_any};
ghost use Rattle.r6_stripe.specs.Checks.{IsClassAfter, IsEnd};
ghost use Rattle.r6_stripe.specs.Holds.{cell_at, is_known, MayEnd};
ghost use Rattle.r6_stripe.specs.Holds.Kind.{Rebuild};
ghost use Rattle.r6_stripe.specs.Masks.{flags_of, has};
ghost use Rattle.r6_stripe.specs.Places.{is_read_out};
ghost use Rattle.r6_stripe.specs.Plans as plans;
ghost use Rattle.r6_stripe.specs.Plans.{after_loss, has_read_out, has_target, has_write_out, is_in_error, is_out, is_sent, outcome_of};
ghost use Rattle.r6_stripe.specs.Replacements.{confirmed_if, is_left, replacing, target_outcome, with_plan, written_as};
ghost use Rattle.r6_stripe.specs.RowViews.{IsRowHome, IsRowSound, row_of_state};
ghost use Rattle.r6_stripe.specs.PassedOn.{PassesOn};
ghost use Rattle.r6_stripe.specs.Seconds.{is_passed};
ghost use Rattle.r6_stripe.specs.Sound.{IsTask};
ghost use Rattle.r6_stripe.specs.Steps.{begun_beside, begun_held, PutsOut, answered, failed, lost, closed, settled, taken_over, dropped, has_outcome, loses_unreadable, moves_unreadable, IsKnownAs, IsUnknown, is_away};
ghost use Rattle.r6_stripe.specs.Views.{hold_of, kind_of, kind_of_task};
ghost use Rattle.r6_stripe.specs.WholeViews.{IsWholeSound, whole_of_state};

use crate::command::{Outcome, RowCommand, RowTask};
use crate::mask::Mask;
use crate::plan::Plan;
use crate::replacement::{Replacement, Stage, Written};
use crate::row::RowState;
use r6_kernels::Buffer;
use std::mem;

/// A hold, and the rebuild of a position in sync.
#[derive(Drop)]
pub(crate) struct WholeState {
    /// The hold with a second device in sync, if a position has one. In the rebuild of a position in sync it has no
    /// task, and reads the position's block, and its buffer apart goes to the target with that block.
    pub(crate) row: RowState,
    pub(crate) replacement: Option<Replacement>,
}

impl WholeState {
    /// Begins a hold of a row, of whose positions these are in sync, with one device each; the others are out.
    pub(crate) fn begin(&mut self, task: RowTask, in_sync: Mask)
        requires home { IsRowHome self.old.row }
        requires task { IsTask (length self.old.row.hold.places) self.old.row.hold.len (Some task) }
        ensures held { whole_of_state self.new ≡ begun_held self.old.row.hold.len
            (flags_of (length self.old.row.hold.places) in_sync) (kind_of_task task) }
        ensures sound { IsWholeSound self.new }
    {
        self.row.begin(task, in_sync);
        self.replacement = None;
    }

    /// The same where the position has a second device: in sync, or if the task rebuilds the position, its target.
    #[cold]
    pub(crate) fn begin_beside(&mut self, task: RowTask, in_sync: Mask, position: usize)
        requires home { IsRowHome self.old.row }
        requires task { IsTask (length self.old.row.hold.places) self.old.row.hold.len (Some task) }
        requires place { position < length self.old.row.hold.places }
        requires in_sync { has in_sync position ≡ true }
        ensures held { whole_of_state self.new ≡ begun_beside self.old.row.hold.len
            (flags_of (length self.old.row.hold.places) in_sync) (kind_of_task task) position }
        ensures sound { IsWholeSound self.new }
    {
        match task {
            RowTask::Rebuild(target) if target == position => self.begin_replacement(
                in_sync, position,
            ),
            _ => {
                self.row.begin_beside(task, in_sync, position);
                self.replacement = None;
            }
        }
    }

    /// Begins the rebuild of a position in sync.
    fn begin_replacement(&mut self, in_sync: Mask, position: usize)
        requires home { IsRowHome self.old.row }
        requires place { position < length self.old.row.hold.places }
        requires in_sync { has in_sync position ≡ true }
        ensures held { whole_of_state self.new ≡ begun_beside self.old.row.hold.len
            (flags_of (length self.old.row.hold.places) in_sync) (Rebuild position) position }
        ensures sound { IsWholeSound self.new }
    {
        self.row.hold.begin_source(in_sync);
        self.row.second = None;
        self.replacement = Some(Replacement {
            position,
            stage: Stage::Beside,
            written: Written::Unwritten,
            closed: false,
        });
    }

    /// Puts out the command that comes next.
    pub(crate) fn next_command(&mut self) -> Option<RowCommand>
        requires { IsWholeSound self.old }
        ensures puts_out { PutsOut (whole_of_state self.old) result (whole_of_state self.new) }
        ensures sound { IsWholeSound self.new }
    {
        match self.replacement {
            None => self.row.next_command(),
            Some(replacement) => self.next_of_replacement(replacement),
        }
    }

    #[inline(always)]
    fn next_of_replacement(&mut self, replacement: Replacement) -> Option<RowCommand>
        requires sound { IsWholeSound self.old }
        requires replacement { self.old.replacement ≡ Some replacement }
        ensures puts_out { PutsOut (whole_of_state self.old) result (whole_of_state self.new) }
        ensures sound { IsWholeSound self.new }
    {
        if replacement.closed {
            return None;
        }
        if !self.has_target(replacement) {
            return self.read_again(replacement);
        }
        if replacement.is_left() {
            return None;
        }
        self.next_to_target(replacement)
    }

    /// Whether the target is there.
    fn has_target(&self, replacement: Replacement) -> bool
        requires sound { IsWholeSound self.now }
        requires replacement { self.now.replacement ≡ Some replacement }
        ensures { let cells = (whole_of_state self.now).planned.hold.cells in
            result ≡ has_target (cell_at cells replacement.position) }
    {
        !replacement.is_dropped() && !self.row.hold.places.get(replacement.position).is_out()
    }

    /// Puts out the second read that comes next, where the target is lost.
    #[inline(always)]
    fn read_again(&mut self, replacement: Replacement) -> Option<RowCommand>
        requires sound { IsWholeSound self.old }
        requires replacement { self.old.replacement ≡ Some replacement }
        requires going { replacement.closed ≡ false }
        requires next { plans.next (whole_of_state self.old).planned
            ≡ plans.next_again (whole_of_state self.old).planned.hold }
        ensures puts_out { PutsOut (whole_of_state self.old) result (whole_of_state self.new) }
        ensures sound { IsWholeSound self.new }
    {
        match self.first_again(replacement) {
            None => None,
            Some(position) => {
                let buffer = self.row.hold.ask_again(position);
                Some(RowCommand::Read(position, buffer))
            }
        }
    }

    /// The position whose second read is put out next.
    fn first_again(&self, replacement: Replacement) -> Option<usize>
        requires sound { IsWholeSound self.now }
        requires replacement { self.now.replacement ≡ Some replacement }
        requires going { replacement.closed ≡ false }
        ensures { option_map plans.Next.ReadAgainAt result ≡ plans.next_again (whole_of_state self.now).planned.hold }
    {
        if replacement.is_left() {
            return None;
        }
        self.row.hold.first_again()
    }

    /// What comes next where the target is there, and the block wasn't put out.
    #[inline(always)]
    fn next_to_target(&mut self, replacement: Replacement) -> Option<RowCommand>
        requires sound { IsWholeSound self.old }
        requires replacement { self.old.replacement ≡ Some replacement }
        requires going { replacement.closed ≡ false }
        requires there { has_target (cell_at (whole_of_state self.old).planned.hold.cells replacement.position) ≡ true }
        requires here { is_left replacement.written ≡ false }
        ensures puts_out { PutsOut (whole_of_state self.old) result (whole_of_state self.new) }
        ensures sound { IsWholeSound self.new }
    {
        if self.row.hold.has_too_few() {
            return None;
        }
        if let Some(position) = self.next_read(replacement) {
            let buffer = self.row.hold.ask_source(position);
            return Some(RowCommand::Read(position, buffer));
        }
        if self.row.hold.has_asked() {
            return None;
        }
        if let Some(position) = self.row.hold.next_fix() {
            let buffer = self.row.hold.fix(position);
            return Some(RowCommand::Write(position, buffer));
        }
        if let Some(position) = self.row.hold.first_again() {
            let buffer = self.row.hold.ask_again(position);
            return Some(RowCommand::Read(position, buffer));
        }
        if self.has_read(replacement) {
            Some(self.put_block_out(replacement))
        } else {
            None
        }
    }

    /// The position that is read next: the one that is rebuilt, or once that met an error what a recovery reads.
    fn next_read(&self, replacement: Replacement) -> Option<usize>
        requires sound { IsWholeSound self.now }
        requires replacement { self.now.replacement ≡ Some replacement }
        requires going { replacement.closed ≡ false }
        requires here { is_left replacement.written ≡ false }
        ensures { let planned = (whole_of_state self.now).planned in
            option_map plans.Next.ReadAt result ≡ plans.next_read planned.plan planned.hold }
    {
        match self.row.hold.plan {
            Plan::One => {
                if self.row.hold.places.get(replacement.position).is_readable() {
                    Some(replacement.position)
                } else {
                    None
                }
            }
            _ => self.row.hold.next_read(),
        }
    }

    /// Whether enough is known, and each read error is done with.
    fn has_read(&self, replacement: Replacement) -> bool
        requires sound { IsWholeSound self.now }
        requires replacement { self.now.replacement ≡ Some replacement }
        requires going { replacement.closed ≡ false }
        ensures { let planned = (whole_of_state self.now).planned in
            result ≡ plans.has_enough planned.plan planned.hold }
    {
        if self.row.hold.is_mending() {
            return false;
        }
        match self.row.hold.plan {
            Plan::One => self.row.hold.places.get(replacement.position).is_known(),
            _ => self.row.hold.is_enough(),
        }
    }

    /// The block that was read leaves, to the target.
    #[inline(always)]
    fn put_block_out(&mut self, replacement: Replacement) -> RowCommand
        requires sound { IsWholeSound self.old }
        requires replacement { self.old.replacement ≡ Some replacement }
        requires next { plans.next (whole_of_state self.old).planned ≡ Some plans.Next.ComputeNew }
        requires known { is_known (cell_at (hold_of self.old.row.hold).cells replacement.position).reading ≡ true }
        requires going { replacement.closed ≡ false }
        requires there { has_target (cell_at (whole_of_state self.old).planned.hold.cells replacement.position) ≡ true }
        requires here { is_left replacement.written ≡ false }
        ensures puts_out { PutsOut (whole_of_state self.old) (Some result) (whole_of_state self.new) }
        ensures sound { IsWholeSound self.new }
    {
        let position = replacement.position;
        let mut buffer = mem::replace(&mut self.row.spare, Buffer::empty(self.row.hold.alloc));
        self.row.hold.give_block(position, &mut buffer);
        self.row.spare_away = true;
        self.replacement = Some(Replacement {
            written: Written::Sent,
            ..replacement
        });
        match replacement.stage {
            Stage::Moved => RowCommand::Write(position, buffer),
            Stage::Beside | Stage::Dropped => RowCommand::Copy(position, buffer),
        }
    }

    /// Takes the buffer of a command to a position's first device home.
    pub(crate) fn done(&mut self, position: usize, buffer: Buffer)
        requires sound { IsWholeSound self.old }
        requires away { is_away (whole_of_state self.old) position ≡ true }
        requires size { length buffer ≡ self.old.row.hold.len }
        ensures answered { whole_of_state self.new
            ≡ record (answered (whole_of_state self.old) position buffer) { class = (whole_of_state self.new).class } }
        ensures class { let new = whole_of_state self.new in
            IsClassAfter new.planned.hold (whole_of_state self.old).class new.class }
        ensures late { is_out (cell_at (whole_of_state self.old).planned.hold.cells position).standing ≡ true
            → (whole_of_state self.new).class ≡ (whole_of_state self.old).class }
        ensures sound { IsWholeSound self.new }
    {
        match self.replacement {
            None => self.row.done(position, buffer),
            Some(replacement) => self.done_of_replacement(replacement, position, buffer),
        }
    }

    #[cold]
    fn done_of_replacement(&mut self, replacement: Replacement, position: usize, buffer: Buffer)
        requires sound { IsWholeSound self.old }
        requires replacement { self.old.replacement ≡ Some replacement }
        requires away { is_away (whole_of_state self.old) position ≡ true }
        requires size { length buffer ≡ self.old.row.hold.len }
        ensures answered { whole_of_state self.new ≡ answered (whole_of_state self.old) position buffer }
        ensures sound { IsWholeSound self.new }
    {
        if replacement.has_moved(position) {
            self.confirm(replacement, buffer);
            return;
        }
        self.row.done(position, buffer);
    }

    /// Takes the buffer of any other command home: with the answer to a write to a second device, or late.
    pub(crate) fn settle(&mut self, position: usize, buffer: Buffer)
        requires sound { IsWholeSound self.old }
        requires away { (whole_of_state self.old).second_away ≡ true }
        requires size { length buffer ≡ self.old.row.hold.len }
        ensures held { whole_of_state self.new ≡ settled (whole_of_state self.old) position }
        ensures sound { IsWholeSound self.new }
    {
        match self.replacement {
            None => self.row.settle(position, buffer),
            Some(replacement) => self.settle_of_replacement(replacement, position, buffer),
        }
    }

    #[cold]
    fn settle_of_replacement(&mut self, replacement: Replacement, position: usize, buffer: Buffer)
        requires sound { IsWholeSound self.old }
        requires replacement { self.old.replacement ≡ Some replacement }
        requires away { (whole_of_state self.old).second_away ≡ true }
        requires size { length buffer ≡ self.old.row.hold.len }
        ensures held { whole_of_state self.new ≡ settled (whole_of_state self.old) position }
        ensures sound { IsWholeSound self.new }
    {
        if replacement.position == position {
            self.confirm(replacement, buffer);
            return;
        }
        self.row.settle(position, buffer);
    }

    /// Takes the buffer of the write to the target home.
    fn confirm(&mut self, replacement: Replacement, buffer: Buffer)
        requires sound { IsWholeSound self.old }
        requires replacement { self.old.replacement ≡ Some replacement }
        requires away { self.old.row.spare_away ≡ true }
        requires size { length buffer ≡ self.old.row.hold.len }
        ensures row { row_of_state self.new.row ≡ record (row_of_state self.old.row) { second_away = false } }
        ensures replacement { let cell = cell_at (row_of_state self.old.row).planned.hold.cells replacement.position in
            let there = has_target (replacing replacement.stage replacement.written cell) in
            self.new.replacement ≡ Some (confirmed_if (is_sent (written_as replacement.written) && there) replacement) }
        ensures sound { IsWholeSound self.new }
    {
        let is_awaited = replacement.is_sent() && self.has_target(replacement);
        self.row.settle(replacement.position, buffer);
        self.replacement = Some(replacement.confirmed_if(is_awaited));
    }

    /// The first read of the position met an error that loses nothing, and its buffer comes home.
    pub(crate) fn fail(&mut self, position: usize, buffer: Buffer)
        requires sound { IsWholeSound self.old }
        requires away { is_away (whole_of_state self.old) position ≡ true }
        requires asked { is_read_out (cell_at (whole_of_state self.old).planned.hold.cells position) ≡ true }
        requires size { length buffer ≡ self.old.row.hold.len }
        ensures held { whole_of_state self.new ≡ failed (whole_of_state self.old) position }
        ensures sound { IsWholeSound self.new }
    {
        self.row.fail(position, buffer);
    }

    /// Loses the position, with its second device if it has one.
    pub(crate) fn lose(&mut self, position: usize)
        requires sound { IsWholeSound self.old }
        requires place { position < length self.old.row.hold.places }
        ensures held { whole_of_state self.new ≡ lost (whole_of_state self.old) position }
        ensures sound { IsWholeSound self.new }
    {
        match self.replacement {
            None => self.row.lose(position),
            Some(replacement) => self.lose_of_replacement(replacement, position),
        }
    }

    #[cold]
    fn lose_of_replacement(&mut self, replacement: Replacement, position: usize)
        requires sound { IsWholeSound self.old }
        requires replacement { self.old.replacement ≡ Some replacement }
        requires place { position < length self.old.row.hold.places }
        ensures held { whole_of_state self.new ≡ lost (whole_of_state self.old) position }
        ensures sound { IsWholeSound self.new }
    {
        self.plan_for_loss(replacement, position);
        self.row.lose(position);
    }

    /// Makes the plan that of a hold without the position: to recover, if its block was to be read.
    fn plan_for_loss(&mut self, replacement: Replacement, position: usize)
        requires sound { IsWholeSound self.old }
        requires replacement { self.old.replacement ≡ Some replacement }
        requires place { position < length self.old.row.hold.places }
        ensures row { let old = (whole_of_state self.old).planned in
            row_of_state self.new.row ≡ with_plan (after_loss old.plan old.hold position) (row_of_state self.old.row) }
        ensures second { self.new.row.second ≡ self.old.row.second }
        ensures replacement { self.new.replacement ≡ self.old.replacement }
        ensures sound { IsRowSound self.new.row }
    {
        if replacement.position != position {
            return;
        }
        if replacement.closed {
            return;
        }
        if self.row.hold.places.get(position).is_known() {
            return;
        }
        self.row.hold.recover_source();
    }

    /// The first of two devices of the position is taken out, and the second has its place.
    pub(crate) fn take_over(&mut self, position: usize)
        requires sound { IsWholeSound self.old }
        requires second { is_out (cell_at (whole_of_state self.old).planned.hold.cells position).second ≡ false }
        ensures held { whole_of_state self.new ≡ taken_over (whole_of_state self.old) position }
        ensures sound { IsWholeSound self.new }
    {
        match self.replacement {
            None => self.row.take_over(position),
            Some(replacement) => self.move_to_target(replacement),
        }
    }

    /// The target has the place of the position's own device.
    #[cold]
    fn move_to_target(&mut self, replacement: Replacement)
        requires sound { IsWholeSound self.old }
        requires replacement { self.old.replacement ≡ Some replacement }
        requires second { let cell = cell_at (whole_of_state self.old).planned.hold.cells replacement.position in
            is_out cell.second ≡ false }
        ensures held { whole_of_state self.new ≡ taken_over (whole_of_state self.old) replacement.position }
        ensures sound { IsWholeSound self.new }
    {
        let position = replacement.position;
        let place = self.row.hold.places.get(position);
        if place.is_known() {
            self.replacement = Some(Replacement {
                stage: Stage::Moved,
                ..replacement
            });
            return;
        }
        self.row.hold.turn(position, &mut self.row.spare);
        self.row.spare_away = place.away;
        self.replacement = None;
        if replacement.closed {
            return;
        }
        self.row.hold.take_up(position);
    }

    /// The second device of the position is taken out.
    pub(crate) fn drop_second(&mut self, position: usize)
        requires sound { IsWholeSound self.old }
        requires second { is_out (cell_at (whole_of_state self.old).planned.hold.cells position).second ≡ false }
        ensures held { whole_of_state self.new ≡ dropped (whole_of_state self.old) position }
        ensures sound { IsWholeSound self.new }
    {
        match self.replacement {
            None => self.row.drop_second(position),
            Some(replacement) => {
                self.replacement = Some(Replacement {
                    stage: Stage::Dropped,
                    ..replacement
                });
            }
        }
    }

    /// Whether the positions whose reads met an error are to be lost.
    pub(crate) fn loses_unreadable(&self) -> bool
        requires { IsWholeSound self.now }
        ensures { result ≡ loses_unreadable (whole_of_state self.now).planned }
    {
        match self.replacement {
            None => self.row.loses_unreadable(),
            Some(replacement) => self.has_too_few(replacement),
        }
    }

    #[cold]
    fn has_too_few(&self, replacement: Replacement) -> bool
        requires sound { IsWholeSound self.now }
        requires replacement { self.now.replacement ≡ Some replacement }
        ensures { result ≡ loses_unreadable (whole_of_state self.now).planned }
    {
        if replacement.closed {
            return false;
        }
        if !self.has_target(replacement) {
            return false;
        }
        self.row.hold.has_too_few()
    }

    /// The position with a second device in sync, if its read met an error and it is to be read from that one.
    pub(crate) fn moves_unreadable(&self) -> Option<usize>
        requires { IsWholeSound self.now }
        ensures { result ≡ moves_unreadable (whole_of_state self.now).planned }
    {
        match self.replacement {
            None => self.row.moves_unreadable(),
            Some(_) => None,
        }
    }

    /// How the hold ends, if it is over.
    pub(crate) fn outcome(&self) -> Option<Outcome>
        requires { IsWholeSound self.now }
        ensures over { let held = whole_of_state self.now in MatchOption result
            (has_outcome held.planned ≡ false)
            (λ end. (has_outcome held.planned ≡ true)
            × IsEnd (outcome_of held.planned.hold held.planned.hold.kind) held.class end) }
        ensures ends { let hold = (whole_of_state self.now).planned.hold in
            IfSome result (λ _. MayEnd hold (outcome_of hold hold.kind)) }
    {
        match self.replacement {
            None => self.row.outcome(),
            Some(replacement) => self.outcome_of_replacement(replacement),
        }
    }

    #[cold]
    fn outcome_of_replacement(&self, replacement: Replacement) -> Option<Outcome>
        requires sound { IsWholeSound self.now }
        requires replacement { self.now.replacement ≡ Some replacement }
        ensures over { let held = whole_of_state self.now in MatchOption result
            (has_outcome held.planned ≡ false)
            (λ end. (has_outcome held.planned ≡ true)
            × IsEnd (outcome_of held.planned.hold held.planned.hold.kind) held.class end) }
        ensures ends { let hold = (whole_of_state self.now).planned.hold in
            IfSome result (λ _. MayEnd hold (outcome_of hold hold.kind)) }
    {
        if replacement.closed {
            return None;
        }
        if self.has_target(replacement) {
            return outcome_of_target(replacement);
        }
        if !self.row.hold.is_quiet() {
            return None;
        }
        match self.first_again(replacement) {
            Some(_) => None,
            None => Some(Outcome::GivenUp),
        }
    }

    /// Whether a command is put out that is neither answered nor abandoned.
    pub(crate) fn has_out(&self) -> bool
        requires { IsWholeSound self.now }
        ensures { let hold = (whole_of_state self.now).planned.hold in
            result ≡ (has_read_out hold || has_write_out hold) }
    {
        match self.replacement {
            None => self.row.has_out(),
            Some(replacement) => self.has_out_of_replacement(replacement),
        }
    }

    #[cold]
    fn has_out_of_replacement(&self, replacement: Replacement) -> bool
        requires sound { IsWholeSound self.now }
        requires replacement { self.now.replacement ≡ Some replacement }
        ensures { let hold = (whole_of_state self.now).planned.hold in
            result ≡ (has_read_out hold || has_write_out hold) }
    {
        if !self.row.hold.is_quiet() {
            return true;
        }
        replacement.is_sent() && self.has_target(replacement)
    }

    /// Whether the first read of the position is put out, and is neither answered nor abandoned.
    pub(crate) fn is_first_read(&self, position: usize) -> bool
        requires sound { IsWholeSound self.now }
        requires place { position < length self.now.row.hold.places }
        ensures { result ≡ is_read_out (cell_at (whole_of_state self.now).planned.hold.cells position) }
    {
        self.row.is_first_read(position)
    }

    /// The positions in sync whose reads met an error, and that aren't fixed.
    pub(crate) fn unreadable(&self) -> Mask
        requires { IsWholeSound self.now }
        ensures { (i : ℕ) → has result i ≡ is_in_error (cell_at (whole_of_state self.now).planned.hold.cells i) }
    {
        self.row.unreadable()
    }

    /// The position whose first device was taken out after writes to both of its devices were put out, if there is one.
    pub(crate) fn passed_on(&self) -> Option<usize>
        requires { IsWholeSound self.now }
        ensures { PassesOn (whole_of_state self.now).planned.hold.cells result }
    {
        self.row.passed_on()
    }

    /// Whether the first device of the position was taken out after writes to both of its devices were put out.
    pub(crate) fn is_passed_on(&self, position: usize) -> bool
        requires { IsWholeSound self.now }
        ensures { result ≡ is_passed (cell_at (whole_of_state self.now).planned.hold.cells position).doubling }
    {
        self.row.is_passed_on(position)
    }

    /// The block of the position, if it is known.
    pub(crate) fn block(&self, position: usize) -> Option<&Buffer>
        requires sound { IsWholeSound self.now }
        requires place { position < length self.now.row.hold.places }
        ensures { let hold = (whole_of_state self.now).planned.hold in
            let cell = cell_at hold.cells position in
            MatchOption result (IsUnknown cell) (λ block. IsKnownAs cell block.now × (length block.now ≡ hold.size)) }
    {
        match self.replacement {
            Some(replacement) if replacement.position == position && replacement.is_left() => None,
            _ => self.row.block(position),
        }
    }

    /// Takes the task back.
    pub(crate) fn take_task(&mut self) -> Option<RowTask>
        requires { IsWholeSound self.old }
        ensures task { kind_of result ≡ (whole_of_state self.old).planned.hold.kind }
        ensures closed { whole_of_state self.new ≡ closed (whole_of_state self.old) }
        ensures sound { IsWholeSound self.new }
    {
        let Some(replacement) = self.replacement else {
            return self.row.take_task();
        };
        self.replacement = Some(Replacement {
            closed: true,
            ..replacement
        });
        if replacement.closed {
            None
        } else {
            Some(RowTask::Rebuild(replacement.position))
        }
    }

    /// Whether the buffer of the position is away.
    pub(crate) fn is_away(&self, position: usize) -> bool
        requires { IsWholeSound self.now }
        ensures { result ≡ is_away (whole_of_state self.now) position }
    {
        match self.replacement {
            Some(replacement) if replacement.has_moved(position) => self.row.spare_away,
            _ => self.row.hold.is_away(position),
        }
    }

    /// Whether the buffer that is no position's is away.
    pub(crate) fn is_second_away(&self) -> bool
        requires { IsWholeSound self.now }
        ensures { result ≡ (whole_of_state self.now).second_away }
    {
        match self.replacement {
            Some(replacement) if replacement.has_moved(replacement.position) => false,
            _ => self.row.spare_away,
        }
    }

    /// Whether all buffers are home.
    pub(crate) fn is_home(&self) -> bool
        requires { IsWholeSound self.now }
        ensures { let held = whole_of_state self.now in
            result ≡ (not held.second_away && not (list_any (λ away. away) held.away)) }
    {
        self.row.is_home()
    }

    pub(crate) fn positions(&self) -> usize
        requires { IsWholeSound self.now }
        ensures { result ≡ length (whole_of_state self.now).planned.hold.cells }
    {
        self.row.hold.positions()
    }

    pub(crate) fn block_len(&self) -> usize
        requires { IsWholeSound self.now }
        ensures { result ≡ (whole_of_state self.now).planned.hold.size }
    {
        self.row.hold.len
    }
}

/// How a rebuild ends whose target is there, if its write is confirmed.
fn outcome_of_target(replacement: Replacement) -> Option<Outcome>
    ensures { result ≡ target_outcome replacement.written }
{
    match replacement.written {
        Written::Confirmed => Some(Outcome::Rebuilt),
        Written::Unwritten | Written::Sent => None,
    }
}
