//! A hold of a row, one position of which may have a second device.

ghost use Rattle.std.specs.Prelude.{◌≡◌, ◌≢◌, ◌<◌, ◌||◌, ◌&&◌, ℕ, [], not, true, false, length, slice_index_or, Some, None, MatchOption, IfSome, if◌then◌else◌};
ghost use Rattle.std.specs.List.{list_any};
ghost use Rattle.r6_stripe.specs.Checks.{IsClassAfter, IsEnd};
ghost use Rattle.r6_stripe.specs.Holds.{cell_at, MayEnd};
ghost use Rattle.r6_stripe.specs.Holds.Kind.{Rebuild};
ghost use Rattle.r6_stripe.specs.Holds.Standing.{InSync, Out};
ghost use Rattle.r6_stripe.specs.Masks.{flags_of, has};
ghost use Rattle.r6_stripe.specs.Places.{is_read_out, no_place};
ghost use Rattle.r6_stripe.specs.Plans as plans;
ghost use Rattle.r6_stripe.specs.Plans.{has_read_out, has_write_out, is_in_error, is_out, outcome_of};
ghost use Rattle.r6_stripe.specs.Preparing.{IsPrepared};
ghost use Rattle.r6_stripe.specs.RowViews.{IsRowHome, IsRowSound, row_of_state};
ghost use Rattle.r6_stripe.specs.PassedOn.{PassesOn};
ghost use Rattle.r6_stripe.specs.Seconds.{is_due, is_following, is_kept, is_passed, second_after, spare_after};
ghost use Rattle.r6_stripe.specs.Sound.{IsTask};
ghost use Rattle.r6_stripe.specs.Steps.{begun_beside, begun_held, IsNone, PutsOut, answered, failed, lost, closed, settled, taken_over, dropped, has_outcome, loses_unreadable, moves_unreadable, IsKnownAs, IsUnknown, is_away};
ghost use Rattle.r6_stripe.specs.Views.{held_of, hold_of, kind_of, kind_of_task, planned_of};
ghost use Rattle.r6_stripe.specs.declared.place.Standing.TheVariants as state;

use crate::command::{Outcome, RowCommand, RowTask};
use crate::mask::Mask;
use crate::place::{Standing, WriteState};
use crate::second::{CopyState, Doubling, Second};
use crate::state::HoldState;
use r6_kernels::Buffer;
use std::mem;

/// A hold, the second device of one position, and a buffer more.
#[derive(Drop)]
pub(crate) struct RowState {
    /// The hold, as it is without the second device.
    pub(crate) hold: HoldState,
    pub(crate) second: Option<Second>,
    /// Room for the block of a write to the second device, or for one that is read again while the position's own
    /// buffer is away with an abandoned command.
    pub(crate) spare: Buffer,
    pub(crate) spare_away: bool,
}

impl RowState {
    /// Begins a hold of a row, of whose positions these are in sync, with one device each; the others are out.
    pub(crate) fn begin(&mut self, task: RowTask, in_sync: Mask)
        requires home { IsRowHome self.old }
        requires task { IsTask (length self.old.hold.places) self.old.hold.len (Some task) }
        ensures held { row_of_state self.new ≡ begun_held self.old.hold.len
            (flags_of (length self.old.hold.places) in_sync) (kind_of_task task) }
        ensures sound { IsRowSound self.new }
    {
        self.hold.begin(task, in_sync);
        self.second = None;
    }

    /// The same where the position has a second device in sync.
    #[cold]
    pub(crate) fn begin_beside(&mut self, task: RowTask, in_sync: Mask, position: usize)
        requires home { IsRowHome self.old }
        requires task { IsTask (length self.old.hold.places) self.old.hold.len (Some task) }
        requires place { position < length self.old.hold.places }
        requires in_sync { has in_sync position ≡ true }
        requires apart { kind_of_task task ≢ Rebuild position }
        ensures held { row_of_state self.new ≡ begun_beside self.old.hold.len
            (flags_of (length self.old.hold.places) in_sync) (kind_of_task task) position }
        ensures sound { IsRowSound self.new }
    {
        self.hold.begin(task, in_sync);
        self.second = Some(Second {
            position,
            state: Standing::InSync,
            copy: CopyState::Following,
            doubling: Doubling::Single,
            recalled: false,
        });
    }

    /// Puts out the command that comes next.
    pub(crate) fn next_command(&mut self) -> Option<RowCommand>
        requires { IsRowSound self.old }
        ensures puts_out { PutsOut (row_of_state self.old) result (row_of_state self.new) }
        ensures sound { IsRowSound self.new }
    {
        match self.second {
            None => self.hold.next_command(),
            Some(second) => self.next_beside(second),
        }
    }

    /// The same with a second device.
    #[inline(always)]
    fn next_beside(&mut self, second: Second) -> Option<RowCommand>
        requires sound { IsRowSound self.old }
        requires second { self.old.second ≡ Some second }
        ensures puts_out { PutsOut (row_of_state self.old) result (row_of_state self.new) }
        ensures sound { IsRowSound self.new }
    {
        if self.is_recalled(second) {
            return self.next_recalled(second);
        }
        if second.is_due() {
            return self.next_after_first(second);
        }
        match self.hold.next_command() {
            Some(RowCommand::Write(position, buffer)) => {
                self.follow(second, position, &buffer);
                Some(RowCommand::Write(position, buffer))
            }
            Some(RowCommand::Read(position, buffer)) => Some(RowCommand::Read(position, buffer)),
            Some(RowCommand::Copy(position, buffer)) => Some(RowCommand::Copy(position, buffer)),
            None => None,
        }
    }

    /// Whether a read of the position is to be put out again.
    fn is_recalled(&self, second: Second) -> bool
        requires { second.position < length self.now.hold.places }
        ensures { result ≡ (second.recalled
            && plans.is_in_sync (cell_at (hold_of self.now.hold).cells second.position).standing) }
    {
        second.recalled && self.hold.places.get(second.position).is_in_sync()
    }

    /// The write of a position leaves with this block. Where it is the one that the second device's follows, that is
    /// due now, with the same block.
    fn follow(&mut self, second: Second, position: usize, block: &Buffer)
        requires place { second.position < length self.old.hold.places }
        requires size { is_following second.copy ≡ true → length block.now ≡ length self.old.spare }
        ensures hold { self.new.hold ≡ self.old.hold }
        ensures away { self.new.spare_away ≡ self.old.spare_away }
        ensures follows { let at = slice_index_or self.old.hold.places second.position no_place in
            (self.new.second ≡ second_after at second position self.old.second)
            × (self.new.spare ≡ spare_after at second position block.now self.old.spare) }
    {
        if position == second.position
            && second.is_following()
            && self.hold.places.get(second.position).was_sent()
        {
            self.spare.copy_from(block);
            self.second = Some(Second {
                copy: CopyState::Ready,
                doubling: Doubling::Doubled,
                ..second
            });
        }
    }

    /// What comes next where the write to the second device is due.
    #[inline(always)]
    fn next_after_first(&mut self, second: Second) -> Option<RowCommand>
        requires sound { IsRowSound self.old }
        requires second { self.old.second ≡ Some second }
        requires due { is_due second ≡ true }
        ensures puts_out { PutsOut (row_of_state self.old) result (row_of_state self.new) }
        ensures sound { IsRowSound self.new }
    {
        if !self.has_writes_left(second) {
            return None;
        }
        if let Some(position) = self.hold.next_write_below(second.position) {
            let buffer = self.hold.send(position);
            return Some(RowCommand::Write(position, buffer));
        }
        let buffer = mem::replace(&mut self.spare, Buffer::empty(self.hold.alloc));
        self.spare_away = true;
        self.second = Some(Second {
            copy: CopyState::Sent,
            ..second
        });
        Some(RowCommand::Copy(second.position, buffer))
    }

    /// Whether only writes are left, where that to the second device is due.
    fn has_writes_left(&self, second: Second) -> bool
        requires sound { IsRowSound self.now }
        requires second { self.now.second ≡ Some second }
        requires due { is_due second ≡ true }
        ensures left { result ≡ true → IsPrepared (planned_of self.now.hold) }
        ensures none { result ≡ false → IsNone (plans.next (row_of_state self.now).planned) }
    {
        self.hold.prepared || self.hold.has_writes_left()
    }

    /// What comes next where a read of the first device is to be put out again, to the second one.
    #[inline(always)]
    fn next_recalled(&mut self, second: Second) -> Option<RowCommand>
        requires sound { IsRowSound self.old }
        requires second { self.old.second ≡ Some second }
        requires recalled { second.recalled ≡ true }
        requires in_sync { (slice_index_or self.old.hold.places second.position no_place).state ≢ state.Out }
        ensures puts_out { PutsOut (row_of_state self.old) result (row_of_state self.new) }
        ensures sound { IsRowSound self.new }
    {
        if self.hold.gives_up() {
            let position = self.hold.next_again()?;
            let buffer = self.hold.ask_again(position);
            return Some(RowCommand::Read(position, buffer));
        }
        if self.hold.has_too_few() {
            return None;
        }
        if let Some(position) = self.hold.next_read_below(second.position) {
            let buffer = self.hold.ask(position);
            return Some(RowCommand::Read(position, buffer));
        }
        let buffer = self.hold.ask_anew(second.position);
        self.second = Some(Second {
            recalled: false,
            ..second
        });
        Some(RowCommand::Read(second.position, buffer))
    }

    /// Takes the buffer of a command to a position's first device home.
    #[inline(always)]
    pub(crate) fn done(&mut self, position: usize, buffer: Buffer)
        requires sound { IsRowSound self.old }
        requires away { is_away (row_of_state self.old) position ≡ true }
        requires size { length buffer ≡ self.old.hold.len }
        ensures answered { row_of_state self.new
            ≡ record (answered (row_of_state self.old) position buffer) { class = (row_of_state self.new).class } }
        ensures class { let new = row_of_state self.new in
            IsClassAfter new.planned.hold (row_of_state self.old).class new.class }
        ensures late { is_out (cell_at (row_of_state self.old).planned.hold.cells position).standing ≡ true
            → (row_of_state self.new).class ≡ (row_of_state self.old).class }
        ensures second { self.new.second ≡ self.old.second }
        ensures sound { IsRowSound self.new }
    {
        self.hold.answer(position, buffer);
        self.hold.classify();
    }

    /// Takes the buffer of any other command home: with the answer to a write to the second device, or late.
    pub(crate) fn settle(&mut self, position: usize, buffer: Buffer)
        requires sound { IsRowSound self.old }
        requires away { self.old.spare_away ≡ true }
        requires size { length buffer ≡ self.old.hold.len }
        ensures held { row_of_state self.new ≡ settled (row_of_state self.old) position }
        ensures alone { self.old.second ≡ None → self.new.second ≡ None }
        ensures sound { IsRowSound self.new }
    {
        self.spare = buffer;
        self.spare_away = false;
        if let Some(second) = self.second {
            if second.position == position && second.is_sent() {
                self.second = Some(Second {
                    copy: CopyState::Confirmed,
                    ..second
                });
            }
        }
    }

    /// The first read of the position met an error that loses nothing, and its buffer comes home.
    pub(crate) fn fail(&mut self, position: usize, buffer: Buffer)
        requires sound { IsRowSound self.old }
        requires away { is_away (row_of_state self.old) position ≡ true }
        requires asked { is_read_out (cell_at (row_of_state self.old).planned.hold.cells position) ≡ true }
        requires size { length buffer ≡ self.old.hold.len }
        ensures held { row_of_state self.new ≡ failed (row_of_state self.old) position }
        ensures second { self.new.second ≡ self.old.second }
        ensures sound { IsRowSound self.new }
    {
        self.hold.fail(position, buffer);
    }

    /// Loses the position, with its second device if it has one.
    pub(crate) fn lose(&mut self, position: usize)
        requires sound { IsRowSound self.old }
        requires place { position < length self.old.hold.places }
        ensures held { row_of_state self.new ≡ lost (row_of_state self.old) position }
        ensures alone { self.old.second ≡ None → self.new.second ≡ None }
        ensures sound { IsRowSound self.new }
    {
        match self.second {
            None => self.hold.lose(position),
            Some(second) => self.lose_beside(second, position),
        }
    }

    #[cold]
    fn lose_beside(&mut self, second: Second, position: usize)
        requires sound { IsRowSound self.old }
        requires second { self.old.second ≡ Some second }
        requires place { position < length self.old.hold.places }
        ensures held { row_of_state self.new ≡ lost (row_of_state self.old) position }
        ensures sound { IsRowSound self.new }
    {
        if second.position == position {
            let write = self.hold.places.get(position).write;
            self.keep_block(second, write);
            self.second = Some(second.lost(write));
        }
        self.hold.lose(position);
    }

    /// A block that is ready for both devices of a position is kept as that of the second one.
    fn keep_block(&mut self, second: Second, write: WriteState)
        requires sound { IsRowSound self.old }
        requires second { self.old.second ≡ Some second }
        requires write { write ≡ (slice_index_or self.old.hold.places second.position no_place).write }
        ensures hold { self.new.hold ≡ self.old.hold }
        ensures second { self.new.second ≡ self.old.second }
        ensures away { self.new.spare_away ≡ self.old.spare_away }
        ensures spare { let block = slice_index_or self.old.hold.blocks.items second.position [] in
            self.new.spare ≡ (if is_kept write second then block else self.old.spare) }
    {
        if second.keeps(write) {
            self.spare.copy_from(&self.hold.blocks[second.position]);
        }
    }

    /// The first of two devices of the position is taken out, and the second has its place.
    pub(crate) fn take_over(&mut self, position: usize)
        requires sound { IsRowSound self.old }
        requires second { is_out (cell_at (row_of_state self.old).planned.hold.cells position).second ≡ false }
        ensures held { row_of_state self.new ≡ taken_over (row_of_state self.old) position }
        ensures sound { IsRowSound self.new }
    {
        let Some(second) = self.second else {
            return;
        };
        let place = self.hold.places.get(position);
        if second.stays(place.away) {
            self.hold.stay_over(position);
            self.second = Some(second.moved(place.read));
            return;
        }
        let write = second.copy.as_write(place.write);
        self.hold
            .swap_over(position, write, &mut self.spare, self.spare_away);
        self.spare_away = place.away;
        self.second = Some(second.moved(place.read));
    }

    /// The second device of the position is taken out.
    pub(crate) fn drop_second(&mut self, position: usize)
        requires sound { IsRowSound self.old }
        requires second { is_out (cell_at (row_of_state self.old).planned.hold.cells position).second ≡ false }
        ensures held { row_of_state self.new ≡ dropped (row_of_state self.old) position }
        ensures sound { IsRowSound self.new }
    {
        let Some(second) = self.second else {
            return;
        };
        self.second = Some(Second {
            state: Standing::Out,
            copy: CopyState::Unwritten,
            ..second
        });
    }

    /// Whether the positions whose reads met an error are to be lost.
    pub(crate) fn loses_unreadable(&self) -> bool
        requires { IsRowSound self.now }
        ensures { result ≡ loses_unreadable (row_of_state self.now).planned }
    {
        self.hold.loses_unreadable() && self.unreadable_second().is_none()
    }

    /// The position with a second device, if its read met an error and it is to be read from that one.
    pub(crate) fn moves_unreadable(&self) -> Option<usize>
        requires { IsRowSound self.now }
        ensures { result ≡ moves_unreadable (row_of_state self.now).planned }
    {
        if self.hold.loses_unreadable() {
            self.unreadable_second()
        } else {
            None
        }
    }

    /// The position with a second device in sync, if its read met an error.
    fn unreadable_second(&self) -> Option<usize>
        requires { IsRowSound self.now }
        ensures { let hold = (row_of_state self.now).planned.hold in
            result ≡ plans.first_from (plans.is_next_move hold) 0 (length hold.cells) }
    {
        match self.second {
            Some(second)
                if second.is_in_sync() && self.hold.unreadable().contains(second.position) => Some(
                second.position,
            ),
            _ => None,
        }
    }

    /// How the hold ends, if it is over.
    pub(crate) fn outcome(&self) -> Option<Outcome>
        requires { IsRowSound self.now }
        ensures over { let held = row_of_state self.now in MatchOption result
            (has_outcome held.planned ≡ false)
            (λ end. (has_outcome held.planned ≡ true)
            × IsEnd (outcome_of held.planned.hold held.planned.hold.kind) held.class end) }
        ensures ends { let hold = (row_of_state self.now).planned.hold in
            IfSome result (λ _. MayEnd hold (outcome_of hold hold.kind)) }
    {
        match self.second {
            None => self.outcome_alone(),
            Some(second) => self.outcome_beside(second),
        }
    }

    #[inline(always)]
    fn outcome_alone(&self) -> Option<Outcome>
        requires { IsRowSound self.now }
        ensures over { let held = held_of self.now.hold in MatchOption result
            (has_outcome held.planned ≡ false)
            (λ end. (has_outcome held.planned ≡ true)
            × IsEnd (outcome_of held.planned.hold held.planned.hold.kind) held.class end) }
        ensures ends { let hold = hold_of self.now.hold in
            IfSome result (λ _. MayEnd hold (outcome_of hold hold.kind)) }
    {
        if self.hold.has_outcome() {
            Some(self.hold.end())
        } else {
            None
        }
    }

    #[cold]
    fn outcome_beside(&self, second: Second) -> Option<Outcome>
        requires sound { IsRowSound self.now }
        requires second { self.now.second ≡ Some second }
        ensures over { let held = row_of_state self.now in MatchOption result
            (has_outcome held.planned ≡ false)
            (λ end. (has_outcome held.planned ≡ true)
            × IsEnd (outcome_of held.planned.hold held.planned.hold.kind) held.class end) }
        ensures ends { let hold = (row_of_state self.now).planned.hold in
            IfSome result (λ _. MayEnd hold (outcome_of hold hold.kind)) }
    {
        if self.is_recalled(second) {
            return self.outcome_recalled(second);
        }
        if second.is_sent() || second.is_due() && !self.hold.gives_up() {
            return None;
        }
        self.outcome_alone()
    }

    /// How the hold ends while a read is to be put out again, which only one that gives up leaves.
    fn outcome_recalled(&self, second: Second) -> Option<Outcome>
        requires sound { IsRowSound self.now }
        requires second { self.now.second ≡ Some second }
        requires recalled { second.recalled ≡ true }
        requires in_sync { (slice_index_or self.now.hold.places second.position no_place).state ≢ state.Out }
        ensures over { let held = row_of_state self.now in MatchOption result
            (has_outcome held.planned ≡ false)
            (λ end. (has_outcome held.planned ≡ true)
            × IsEnd (outcome_of held.planned.hold held.planned.hold.kind) held.class end) }
        ensures ends { let hold = (row_of_state self.now).planned.hold in
            IfSome result (λ _. MayEnd hold (outcome_of hold hold.kind)) }
    {
        if self.hold.task.is_none() || !self.hold.gives_up() || self.has_out() {
            return None;
        }
        match self.hold.next_again() {
            Some(_) => None,
            None => Some(Outcome::GivenUp),
        }
    }

    /// Whether a command is put out that is neither answered nor abandoned.
    pub(crate) fn has_out(&self) -> bool
        requires { IsRowSound self.now }
        ensures { let hold = (row_of_state self.now).planned.hold in
            result ≡ (has_read_out hold || has_write_out hold) }
    {
        match self.second {
            None => !self.hold.is_quiet(),
            Some(second) => self.has_out_beside(second),
        }
    }

    #[cold]
    fn has_out_beside(&self, second: Second) -> bool
        requires sound { IsRowSound self.now }
        requires second { self.now.second ≡ Some second }
        ensures { let hold = (row_of_state self.now).planned.hold in
            result ≡ (has_read_out hold || has_write_out hold) }
    {
        if second.is_sent() {
            return true;
        }
        if second.recalled {
            return !self
                .hold
                .places
                .command_out()
                .put(second.position, false)
                .is_empty();
        }
        !self.hold.is_quiet()
    }

    /// Whether the first read of the position is put out, and is neither answered nor abandoned.
    pub(crate) fn is_first_read(&self, position: usize) -> bool
        requires sound { IsRowSound self.now }
        requires place { position < length self.now.hold.places }
        ensures { result ≡ is_read_out (cell_at (row_of_state self.now).planned.hold.cells position) }
    {
        if let Some(second) = self.second {
            if second.recalled && second.position == position {
                return false;
            }
        }
        self.hold.is_first_read(position)
    }

    /// The positions in sync whose reads met an error, and that aren't fixed.
    pub(crate) fn unreadable(&self) -> Mask
        requires { IsRowSound self.now }
        ensures { (i : ℕ) → has result i ≡ is_in_error (cell_at (row_of_state self.now).planned.hold.cells i) }
    {
        self.hold.unreadable()
    }

    /// The position whose first device was taken out after writes to both of its devices were put out, if there is one.
    pub(crate) fn passed_on(&self) -> Option<usize>
        requires { IsRowSound self.now }
        ensures { PassesOn (row_of_state self.now).planned.hold.cells result }
    {
        match self.second {
            Some(second) if second.is_passed() => Some(second.position),
            _ => None,
        }
    }

    /// Whether the first device of the position was taken out after writes to both of its devices were put out.
    pub(crate) fn is_passed_on(&self, position: usize) -> bool
        requires { IsRowSound self.now }
        ensures { result ≡ is_passed (cell_at (row_of_state self.now).planned.hold.cells position).doubling }
    {
        match self.second {
            Some(second) => second.position == position && second.is_passed(),
            None => false,
        }
    }

    /// The block of the position, if it is known.
    pub(crate) fn block(&self, position: usize) -> Option<&Buffer>
        requires sound { IsRowSound self.now }
        requires place { position < length self.now.hold.places }
        ensures { let hold = (row_of_state self.now).planned.hold in
            let cell = cell_at hold.cells position in
            MatchOption result (IsUnknown cell) (λ block. IsKnownAs cell block.now × (length block.now ≡ hold.size)) }
    {
        self.hold.block(position)
    }

    /// Takes the task back.
    pub(crate) fn take_task(&mut self) -> Option<RowTask>
        requires { IsRowSound self.old }
        ensures task { kind_of result ≡ (row_of_state self.old).planned.hold.kind }
        ensures closed { row_of_state self.new ≡ closed (row_of_state self.old) }
        ensures sound { IsRowSound self.new }
    {
        self.hold.take_task()
    }

    /// Whether all buffers are home.
    pub(crate) fn is_home(&self) -> bool
        requires { IsRowSound self.now }
        ensures { let held = row_of_state self.now in
            result ≡ (not held.second_away && not (list_any (λ away. away) held.away)) }
    {
        !self.spare_away && self.hold.is_home()
    }
}
