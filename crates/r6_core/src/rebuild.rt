//! Rebuilds: which row a turn takes, and how it is held.

ghost use Rattle.std.specs.Prelude.{◌≡◌, ◌≤◌, ◌<◌, MatchOption, None, IfOk, IfErr};
ghost use Rattle.r6_world.specs.Changes.{Start, Allowed, after};
ghost use Rattle.r6_world.specs.Steps.{Scans, Through};
ghost use Rattle.r6_world.specs.Layouts.{IsRowOf};
ghost use Rattle.r6_frames.specs.Calls.{IsNextOn};
ghost use Rattle.r6_frames.specs.Slots.{IsRebuiltOn, rows_of};
ghost use Rattle.r6_frames.specs.Views.{rebuild_task};
ghost use Rattle.r6_frames.specs.Sound as held;
ghost use Rattle.r6_core.specs.Shards.{core_with, layout_in, state_of};
ghost use Rattle.r6_core.specs.Effects.{KeepsRequests, Rebuilds};
ghost use Rattle.r6_core.specs.Rebuilds.{IsNextRebuild, NoneToRebuild};
ghost use Rattle.r6_world.specs.ShardStates.{limit};
ghost use Rattle.r6_core.specs.Refusals.{HasRebuildFault, IsFirstFault, HasNone, turn_faults};
ghost use Rattle.r6_core.specs.Inside.{CanHold, IsBuiltIn, IsCore, IsFirstUnheld, NoneUnheld, SameFrames, Seen};

use crate::refusal::Refusal;
use crate::state::{LIMIT, State};
use crate::turn::Turn;
use r6_frames::{Device, Job, RebuiltRows, Target};
use r6_stripe::RowTask;

/// A row that is to be held for its rebuild in a free frame.
#[derive(Clone, Copy)]
pub(crate) struct NextRebuild {
    pub target: Target,
    pub row: u64,
    pub frame: usize,
}

impl State {
    /// The row that is rebuilt next is held for its rebuild. Of a slot at most `window` rows are under way at one
    /// time.
    pub(crate) fn rebuild(&mut self, window: usize) -> Result<Turn, Refusal>
        requires core { IsCore self.old }
        requires window { window ≤ 8 }

        ensures core { IsCore self.new }
        ensures started { IfOk result (λ turn. (turn ≡ Turn.Started)
            × Rebuilds window (core_with window self.old) (core_with window self.new)) }
        ensures right { IfOk result (λ _. HasNone (HasRebuildFault (core_with window self.old) window) turn_faults) }
        ensures refused { IfErr result (λ refusal.
            (self.new ≡ self.old)
            × IsFirstFault (HasRebuildFault (core_with window self.old) window) turn_faults refusal) }

        // requests stay
        ensures kept { Seen KeepsRequests self.old self.new }
        ensures unanswered { self.new.unanswered ≡ self.old.unanswered }
    {
        let next = self.frame_for_rebuild(window)?;
        self.begin_rebuild(next.frame, next.target, next.row);
        Ok(Turn::Started)
    }

    /// The row that is rebuilt next and a free frame for it, or why the turn is refused. Of a slot at most `window`
    /// rows are under way at one time.
    pub(crate) fn frame_for_rebuild(&self, window: usize) -> Result<NextRebuild, Refusal>
        requires core { IsCore self.now }
        requires window { window ≤ 8 }

        // whether it is refused
        ensures right { IfOk result (λ _. HasNone (HasRebuildFault (core_with window self.now) window) turn_faults) }
        ensures refused { IfErr result
            (IsFirstFault (HasRebuildFault (core_with window self.now) window) turn_faults) }

        // the next row, and a frame for it
        ensures next { IfOk result (λ next.
            IsNextRebuild (core_with window self.now) window next.target.slot next.target.generation next.row) }
        ensures on { IfOk result (λ next. IsNextOn self.now.frames next.target next.row) }
        ensures frame { IfOk result (λ next. CanHold self.now.frames next.row next.frame) }
        ensures tokens { IfOk result (λ _. self.now.frames.commands.next < limit) }
    {
        if self.frames.saw_failed() {
            return Err(Refusal::ArrayFailed);
        }
        if self.frames.tokens() >= LIMIT {
            return Err(Refusal::Exhausted);
        }
        if !self.frames.is_live() {
            return Err(Refusal::NothingToDo);
        }
        let Some((target, row)) = self.next_rebuild(window) else {
            return Err(Refusal::NothingToDo);
        };
        match self.frames.free_frame() {
            Some(frame) => Ok(NextRebuild { target, row, frame }),
            None => Err(Refusal::NoFrame),
        }
    }

    // The row that is rebuilt next: of the lowest slot that has such a row, the first that isn't held among the first
    // `window` rows that aren't rebuilt.
    fn next_rebuild(&self, window: usize) -> Option<(Target, u64)>
        requires sound { held.IsSound self.now.frames }
        requires window { window ≤ 8 }
        ensures { MatchOption result (NoneToRebuild (core_with window self.now) window)
            (λ next. IsNextRebuild (core_with window self.now) window (next.0).slot (next.0).generation next.1) }
    {
        for slot in 0..self.frames.geometry().slots() {
            if let Some((generation, rebuilt)) = new_in(self.frames.device(slot)) {
                if let Some(row) = self.first_unheld(rebuilt, window) {
                    return Some((Target { slot, generation }, row));
                }
            }
        }
        None
    }

    // Of the first `window` rows that aren't rebuilt the first that isn't held.
    fn first_unheld(&self, rebuilt: RebuiltRows, window: usize) -> Option<u64>
        requires sound { held.IsSound self.now.frames }
        requires rebuilt { IsBuiltIn self.now.frames rebuilt }
        requires window { window ≤ 8 }
        ensures { MatchOption result (NoneUnheld self.now.frames rebuilt window)
            (IsFirstUnheld self.now.frames rebuilt window) }
    {
        let end = self.frames.geometry().shard_rows(self.frames.shard()).end;
        for number in 0..window {
            let row = rebuilt.next_row(number);
            if row < end && !self.frames.is_held(row) {
                return Some(row);
            }
        }
        None
    }

    // The row is held for its rebuild on the device, whose reads are put out.
    fn begin_rebuild(&mut self, frame: usize, target: Target, row: u64)
        requires core { IsCore self.old }
        requires slot { target.slot < self.old.frames.geometry.slots }
        requires row { IsRowOf (layout_in self.old) self.old.frames.shard row }

        // the row is next, and may be held
        requires next { IsNextOn self.old.frames target row }
        requires can { CanHold self.old.frames row frame }
        requires tokens { self.old.frames.commands.next < limit }

        // it is held, and what its hold puts out is out
        ensures core { IsCore self.new }
        ensures allowed { Allowed (layout_in self.old) self.old.frames.shard (state_of self.old)
            (Start frame row (rebuild_task target)) }
        ensures leads { Through (layout_in self.old) self.old.frames.shard Scans
            (after (layout_in self.old) (state_of self.old) (Start frame row (rebuild_task target)))
            (state_of self.new) }

        // the shard stays the shard that it is, and requests stay
        ensures same { SameFrames self.old self.new }
        ensures kept { Seen KeepsRequests self.old self.new }
        ensures unanswered { self.new.unanswered ≡ self.old.unanswered }
    {
        let position = self.frames.geometry().position_at(row, target.slot);
        self.frames.begin(frame, row, Job::Rebuild(target), RowTask::Rebuild(position));
        self.frames.drive(frame);
    }
}

// The new device of a slot, alone or beside another, with the rows that are rebuilt on it, if there are more to rebuild.
fn new_in(device: &Device) -> Option<(u32, RebuiltRows)>
    ensures { MatchOption result (rows_of device.now ≡ None) (λ new. IsRebuiltOn device.now new.0 new.1) }
{
    match device {
        Device::Building(generation, rebuilt) => Some((*generation, *rebuilt)),
        Device::Doubled(_, generation, rebuilt) => Some((*generation, *rebuilt)),
        Device::Synced(_) | Device::Missing | Device::Paired(..) => None,
    }
}
