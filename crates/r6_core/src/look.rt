//! Looks at the register.

ghost use Rattle.std.specs.Prelude.{◌≡◌, ◌<◌, ◌≤◌, ◌^◌, ℕ, Bool, length, take, drop, not, true, false, IsPermutation, None, IfOk, IfErr, MatchOption};
ghost use Rattle.std.specs.List.Sorted.{IsNonDecreasingBy};
ghost use Rattle.r6_world.specs.Steps.{Look};
ghost use Rattle.r6_world.specs.Changes.{Release, See_failed, after, adopted, alone, differs, part_of, started};
ghost use Rattle.r6_frames.specs.Views.{AreLive};
ghost use Rattle.r6_frames.specs.Slots as slots;
ghost use Rattle.r6_frames.specs.Slots.{AreOthersSingle};
ghost use Rattle.r6_health.specs.Slots.{is_replacing};
ghost use Rattle.r6_world.specs.Registers.{Replacing, ShardSet};
ghost use Rattle.r6_core.specs.Refusals.{ReplacesOneOf};
ghost use Rattle.r6_core.specs.Parts.{AdoptsAll, AdoptsIf, DiffersIf, HasPart, part_as};
ghost use Rattle.r6_core.specs.Shards.{Step, core_of, state_of, layout_in};
ghost use Rattle.r6_core.specs.Order.{SameReplies, FailsAll, LooksOn, HaveTurnsAfter};
ghost use Rattle.r6_core.specs.Inside.{RefusedLook, IsSound, IsSettled, StandByNumber, IsCore, AreReadOn, AreReadable, GivesOverUnless, ReadAgain, KeepsShard, SameFrames, TookOver, SameCalls, NoCalls, Seen, ReleasesFinished, Gathers};

use crate::queued::Queued;
use crate::refusal::Refusal;
use crate::scan::{ANYTHING, Freed};
use crate::state::State;
use circular_buffer::HeapCircularBuffer;
use r6_frames::{Device, FRAMES, RebuiltRows};
use r6_health::{SlotState, Snapshot};
use r6_world::Request;

impl State {
    /// Takes over what the register has of each slot. Then all finished requests are released, those too that a loss
    /// has finished, and what can start starts; or, if the array has failed, every request that isn't answered is
    /// answered so.
    pub(crate) fn look(&mut self, snapshot: &Snapshot) -> Result<(), Refusal>
        requires { IsCore self.old }
        ensures core { IsCore self.new }
        ensures step { IfOk result (λ _. Step (core_of self.old) (Look snapshot.now) (core_of self.new)) }
        ensures told { IfOk result (λ _. NoCalls self.old) }
        ensures one { IfOk result (λ _. ReplacesOneOf self.old.frames.geometry.slots snapshot.now) }
        ensures refused { IfErr result (λ refusal.
            (self.new ≡ self.old) × RefusedLook self.old snapshot.now refusal) }

        // what is finished is released, and what waited has its turn
        ensures order { IfOk result (λ _. LooksOn (core_of self.old) snapshot.now (core_of self.new)) }
        ensures unanswered { self.new.unanswered ≡ self.old.unanswered }
        ensures turns { IfOk result (λ _. HaveTurnsAfter (core_of self.old) snapshot.now (core_of self.new)) }
    {
        if !self.is_all_told() {
            return Err(Refusal::UntoldFirst);
        }
        let Some(differs) = self.compare(snapshot) else {
            return Err(Refusal::TwoReplaced);
        };
        self.adopt(snapshot, differs);
        if snapshot.failed() {
            self.see_failure();
            return Ok(());
        }
        if self.frames.saw_failed() {
            return Ok(());
        }
        let freed = if differs {
            self.settle();
            Freed::Any
        } else {
            Freed::Nothing
        };
        self.release();
        self.start_waiting(freed);
        Ok(())
    }

    // Whether no call is to be made at the register, and the answer of each is told.
    fn is_all_told(&self) -> bool
        ensures yes { result ≡ true → NoCalls self.now }
        ensures no { result ≡ false → NoCalls self.now → ⊥ }
    {
        self.calls.is_empty() && !self.has_untold()
    }

    // Whether the register has something else of a slot than the shard, unless two slots are being replaced.
    fn compare(&self, snapshot: &Snapshot) -> Option<bool>
        requires { IsSound self.now }
        ensures { MatchOption result (ReplacesOneOf self.now.frames.geometry.slots snapshot.now → ⊥)
            (λ differs. ReplacesOneOf self.now.frames.geometry.slots snapshot.now
            × DiffersIf differs self.now snapshot.now) }
    {
        let mut differs = false;
        let mut replaced = false;
        for slot in 0..self.frames.geometry().slots() {
            let device = self.frames.device(slot);
            if is_plainly_kept(device, snapshot.slot(slot)) {
                continue;
            }
            let status = snapshot.slot(slot);
            if status.is_replacing() {
                if replaced {
                    return None;
                }
                replaced = true;
            }
            if !is_kept(device, status) {
                differs = true;
            }
        }
        Some(differs)
    }

    // Takes over what the register has of each slot, if it has something else of one. Direct reads from what is taken
    // out wait again. Unless the array has failed, a hold that can't go on so loses the slots of its read errors.
    fn adopt(&mut self, snapshot: &Snapshot, differs: bool)
        requires settled { IsSettled self.old }
        requires told { NoCalls self.old }
        requires one { ReplacesOneOf self.old.frames.geometry.slots snapshot.now }
        requires differs { DiffersIf differs self.old snapshot.now }
        ensures sound { IsSound self.new }
        ensures reading { AreReadOn self.new.frames }
        ensures readable { snapshot.now.failed ≡ false → differs ≡ true → AreReadable self.new.frames }
        ensures takes { TookOver self.old snapshot.now self.new }
        ensures none { differs ≡ false → self.new ≡ self.old }

        // direct reads wait again, and nothing else changes
        ensures again { ReadAgain self.old self.new }
        ensures keeps { KeepsShard self.old self.new }
        ensures order { Seen SameReplies self.old self.new }
    {
        if !differs {
            return;
        }
        self.adopt_slots(snapshot);
        self.give_over_unless(snapshot.failed());
        self.read_again();
    }

    // Takes over what the register has of each slot. The slot that is replaced comes last: by then no other has two
    // devices.
    #[cold]
    #[inline(never)]
    fn adopt_slots(&mut self, snapshot: &Snapshot)
        requires sound { IsSound self.old }
        requires told { NoCalls self.old }
        requires one { ReplacesOneOf self.old.frames.geometry.slots snapshot.now }
        ensures { AdoptsAll self.old snapshot.now self.new }
    {
        let mut replaced = None;
        for slot in 0..self.frames.geometry().slots() {
            let status = snapshot.slot(slot);
            if status.is_replacing() {
                replaced = Some(slot);
            } else {
                self.adopt_slot(slot, status);
            }
        }
        if let Some(slot) = replaced {
            self.adopt_slot(slot, snapshot.slot(slot));
        }
    }

    // Takes over what the register has of the slot, if that is something else.
    fn adopt_slot(&mut self, slot: usize, status: SlotState)
        requires sound { IsSound self.old }
        requires told { NoCalls self.old }
        requires slot { slot < self.old.frames.geometry.slots }
        requires one { is_replacing status ≡ true
            → AreOthersSingle self.old.frames.geometry.slots self.old.frames.slots slot }
        ensures { (differs : Bool) × AdoptsIf differs self.old slot status self.new }
    {
        let device = *self.frames.device(slot);
        if is_kept(&device, status) {
            return;
        }
        let first_row = self.frames.geometry().shard_rows(self.frames.shard()).start;
        self.frames
            .take_out(slot, adopted(device, status, first_row));
    }

    // Unless the array has failed, a hold that can't go on with its read errors loses their slots.
    fn give_over_unless(&mut self, failed: bool)
        requires { IsSound self.old }
        ensures { GivesOverUnless failed self.old self.new }
    {
        if !failed {
            self.give_over();
        }
    }

    // The array has failed: every request that isn't released is answered so, from the oldest to the newest.
    fn see_failure(&mut self)
        requires { IsSound self.old }
        ensures core { IsSettled self.new }
        ensures fails { state_of self.new ≡ after (layout_in self.old) (state_of self.old) See_failed }
        ensures same { SameFrames self.old self.new }
        ensures calls { SameCalls self.old self.new }
        ensures order { Seen FailsAll self.old self.new }
        ensures unanswered { self.new.unanswered ≡ self.old.unanswered }
    {
        self.frames.see_failure();
        self.read_again();
        self.gather();
        sort_behind(&mut self.replies, self.released);
    }

    // All requests with no reply go behind those that have one.
    fn gather(&mut self)
        requires sound { IsSound self.old }
        requires reading { AreReadOn self.old.frames }
        requires stopped { AreLive self.old.frames → ⊥ }
        ensures gathers { Gathers self.old self.new }
    {
        self.waiting.gather(ANYTHING);
        while let Some(queued) = self.waiting.pop_oldest(ANYTHING) {
            let Queued { id, op, erred: _ } = queued;
            self.finished(Request { id, op });
        }
        for frame in 0..FRAMES {
            if let Some(ended) = self.frames.give_up(frame) {
                self.reply_to(ended);
            }
        }
    }

    /// The replies from the index on stand by number.
    pub(crate) fn sort_finished(&mut self, from: usize)
        requires sound { IsSound self.old }
        requires released { self.old.released ≤ from }
        requires within { from ≤ length self.old.replies.items }
        ensures { StandByNumber self.old from self.new }
    {
        if self.replies.len() - from <= 1 {
            return;
        }
        sort_behind(&mut self.replies, from);
    }

    // Releases all finished requests.
    fn release(&mut self)
        requires core { IsSettled self.old }
        requires unfailed { self.old.frames.saw_failed ≡ false }

        ensures core { IsSettled self.new }
        ensures released { state_of self.new ≡ after (layout_in self.old) (state_of self.old) Release }
        ensures order { Seen ReleasesFinished self.old self.new }

        // nothing else changes
        ensures unanswered { self.new.unanswered ≡ self.old.unanswered }
        ensures same { (self.new.frames ≡ self.old.frames) × SameCalls self.old self.new }
        ensures waiting { self.new.waiting ≡ self.old.waiting }
    {
        self.released = self.replies.len();
    }
}

/// What a shard has of a device.
#[derive(Clone, Copy)]
pub(crate) enum Part {
    Nothing,
    /// These rows, and not all.
    Rows(RebuiltRows),
    /// Every row.
    Whole,
}

// What the slot has of the device of this generation.
fn part_of(device: Device, generation: u32) -> Part
    ensures part { part_as result ≡ part_of (slots.state_of device) generation }
    ensures there { HasPart device generation result }
{
    if !device.has(generation) {
        return Part::Nothing;
    }
    match device {
        Device::Building(_, rebuilt) => Part::Rows(rebuilt),
        Device::Doubled(old, _, rebuilt) if old != generation => Part::Rows(rebuilt),
        _ => Part::Whole,
    }
}

// Whether one device is in sync in both the register and the shard, or none is there, as it mostly is.
#[inline(always)]
fn is_plainly_kept(device: &Device, status: SlotState) -> bool
    ensures kept { result ≡ true → differs (slots.state_of device.now) status ≡ false }
    ensures alone { result ≡ true → is_replacing status ≡ false }
{
    match (device, status) {
        (Device::Synced(current), SlotState::InSync(generation)) => *current == generation,
        (Device::Missing, SlotState::Lost) => true,
        _ => false,
    }
}

// Whether the register has of a slot what the shard has there.
#[cold]
#[inline(never)]
fn is_kept(device: &Device, status: SlotState) -> bool
    ensures { result ≡ not (differs (slots.state_of device.now) status) }
{
    let first = device.first();
    let is_alone = device.second().is_none();
    match status {
        SlotState::InSync(generation) => is_alone && (first.is_none() || first == Some(generation)),
        SlotState::Lost => first.is_none(),
        SlotState::Rebuilding(generation, _) => is_alone && first == Some(generation),
        SlotState::Replacing(old, new, _) => is_kept_beside(device, old, new),
    }
}

// So where the register has the new device beside the old one.
#[cold]
#[inline(never)]
fn is_kept_beside(device: &Device, old: u32, new: u32) -> bool
    ensures { (reported : ShardSet) → result ≡ not (differs (slots.state_of device.now) (Replacing old new reported)) }
{
    match device {
        Device::Missing => old == new,
        Device::Synced(current) | Device::Building(current, _) => *current == new,
        Device::Doubled(first, second, _) => old != new && *first == old && *second == new,
        Device::Paired(..) => old != new && device.has(old) && device.has(new),
    }
}

// What a slot with this device gets by a look that finds this, in a shard with this first row: what the shard has of the
// devices that the register has there, and no other. A device that is to be built, and of which the shard has nothing,
// begins with no row.
#[cold]
#[inline(never)]
fn adopted(device: Device, status: SlotState, first_row: u64) -> Device
    requires { first_row < 2 ^ 63 }
    ensures state { slots.state_of result ≡ adopted (slots.state_of device) status }
    ensures new { slots.IsNewFrom first_row device result }
    ensures single { is_replacing status ≡ false → slots.second_of result ≡ None }
{
    match status {
        SlotState::InSync(generation) => alone(device, generation),
        SlotState::Lost => Device::Missing,
        SlotState::Rebuilding(generation, _) => started(device, generation, first_row),
        SlotState::Replacing(old, new, _) => beside(device, old, new, first_row),
    }
}

// The device of this generation alone, as the shard has it.
fn alone(device: Device, generation: u32) -> Device
    ensures state { slots.state_of result ≡ alone generation (part_of (slots.state_of device) generation) }
    ensures new { (first_row : ℕ) → slots.IsNewFrom first_row device result }
    ensures single { slots.second_of result ≡ None }
{
    match part_of(device, generation) {
        Part::Nothing => Device::Missing,
        Part::Rows(rebuilt) => Device::Building(generation, rebuilt),
        Part::Whole => Device::Synced(generation),
    }
}

// The device of this generation alone, which is to be built.
fn started(device: Device, generation: u32, first_row: u64) -> Device
    requires { first_row < 2 ^ 63 }
    ensures state { slots.state_of result ≡ alone generation (started (part_of (slots.state_of device) generation)) }
    ensures new { slots.IsNewFrom first_row device result }
    ensures single { slots.second_of result ≡ None }
{
    match part_of(device, generation) {
        Part::Nothing => Device::Building(generation, RebuiltRows::none(first_row)),
        Part::Rows(rebuilt) => Device::Building(generation, rebuilt),
        Part::Whole => Device::Synced(generation),
    }
}

// The new device, which is to be built, beside the old one where that is in sync, and else alone. One that is to be
// replaced by itself is the only one.
fn beside(device: Device, old: u32, new: u32, first_row: u64) -> Device
    requires { first_row < 2 ^ 63 }
    ensures state { (reported : ShardSet)
        → slots.state_of result ≡ adopted (slots.state_of device) (Replacing old new reported) }
    ensures new { slots.IsNewFrom first_row device result }
{
    if old == new {
        return alone(device, old);
    }
    match (part_of(device, old), part_of(device, new)) {
        (Part::Whole, Part::Nothing) => Device::Doubled(old, new, RebuiltRows::none(first_row)),
        (Part::Whole, Part::Rows(rebuilt)) => Device::Doubled(old, new, rebuilt),
        (Part::Whole, Part::Whole) => device,
        _ => started(device, new, first_row),
    }
}

// Sorts the requests from the index on by their numbers.
fn sort_behind(queue: &mut HeapCircularBuffer<Request>, from: usize)
    requires { from ≤ length queue.old.items }
    ensures capacity { queue.new.capacity ≡ queue.old.capacity }
    ensures before { take from queue.new.items ≡ take from queue.old.items }
    ensures same { IsPermutation (drop from queue.old.items) (drop from queue.new.items) }
    ensures sorted { IsNonDecreasingBy (λ request. request.id) (drop from queue.new.items) }
{
    queue.make_contiguous()[from..].sort_unstable_by_key(|request| request.id);
}
