//! Looks that wait for the parts of new devices.

ghost use Rattle.std.specs.Prelude.{◌≡◌, ◌<◌, true, false};
ghost use Rattle.r6_shard.specs.Performing.{HasPart, IsHere};
ghost use Rattle.r6_shard.specs.New.{IsNew, HasNew, HasNewHere, MissesPart, LacksNew};

use crate::performs::{Performs, TakesParts};
use crate::shard::Shard;
use r6_dev::BlockDevice;
use r6_health::{Register, SlotState, Snapshot};
use r6_layout::MOST_SLOTS;
use std::sync::Wait;

// Whether the part of the slot's new device is here, if one is built.
fn has_new<D: BlockDevice, P: TakesParts<D>>(parts: &P, slot: usize, state: SlotState) -> bool
    requires { P.holds parts.now }
    ensures here { result ≡ true → (generation : _) → IsNew state generation
        → IsHere (P.performer parts.now).labels slot generation × HasPart (P.performer parts.now).tells slot generation }
    ensures missing { result ≡ false → LacksNew (P.performer parts.now).labels slot state }
{
    match state {
        SlotState::Rebuilding(generation, _) | SlotState::Replacing(_, generation, _) => {
            parts.has_part(slot, generation)
        }
        SlotState::InSync(_) | SlotState::Lost => true,
    }
}

// Whether the part of each device is here that the snapshot has being built.
fn has_all<D: BlockDevice, P: TakesParts<D>>(parts: &P, snapshot: &Snapshot) -> bool
    requires { P.holds parts.now }
    ensures here { result ≡ true → (slot : _) → slot < 32
        → HasNewHere (P.performer parts.now).labels snapshot.now slot × HasNew (P.performer parts.now).tells snapshot.now slot }
    ensures missing { result ≡ false → MissesPart (P.performer parts.now).labels snapshot.now }
{
    for slot in 0..MOST_SLOTS {
        if !has_new(parts, slot, snapshot.slot(slot)) {
            return false;
        }
    }
    true
}

impl<P: Performs + Drop> Shard<P> {
    ghost use Rattle.std.specs.Prelude.{◌≡◌};
    ghost use Rattle.r6_health.specs.Passes.{IsPassOf};
    ghost use Rattle.r6_shard.specs.Counted.{PassesNone};
    ghost use Rattle.r6_core.specs.Order.{HasNoReply};
    ghost use Rattle.r6_shard.specs.Advances.{Advances};
    ghost use Rattle.r6_shard.specs.Driving.{SendsAll};
    ghost use Rattle.r6_shard.specs.Looking.{LooksInRound, LooksWhenHere};
    ghost use Rattle.r6_shard.specs.Shards.{SameLedger};

    /// Looks at the register as it is, once every call was told and the parts of the new devices are here; whether the
    /// core looked.
    pub fn look_when_here<D: BlockDevice, R: Wait>(&mut self, rt: &R, register: &Register) -> bool
    where
        P: TakesParts<D>,
        requires { IsPassOf register.now self.old.pass }
        ensures pass { IsPassOf register.now self.new.pass }
        ensures advances { Advances self.old self.new }
        ensures named { self.new.named ≡ self.old.named }
        ensures passed { PassesNone self.old.core self.new.core }
        ensures ledger { SameLedger self.old self.new }
        ensures looked { LooksWhenHere result self.old self.new }
    {
        let snapshot = self.read(rt, register);
        if !has_all::<D, P>(&self.parts, &snapshot) {
            return false;
        }
        self.see(&snapshot)
    }

    /// One round: commands are sent and completions received, calls made, the register is looked at if the part of
    /// each device is here that is built there, since else a command to it would fail, and replies are taken; whether
    /// the core looked. It waits for no completion.
    pub fn round_when_here<D: BlockDevice, R: Wait>(&mut self, rt: &R, register: &Register) -> bool
    where
        P: TakesParts<D>,
        requires { IsPassOf register.now self.old.pass }
        ensures pass { IsPassOf register.now self.new.pass }
        ensures advances { Advances self.old self.new }
        ensures passed { PassesNone self.old.core self.new.core }
        ensures asked { self.new.asked.items ≡ self.old.asked.items }
        ensures room { self.new.room ≡ self.old.room }
        ensures looked { LooksInRound result self.old self.new }
        ensures sent { SendsAll self.old self.new }
        ensures collected { HasNoReply self.new.core }
    {
        self.perform_all(rt);
        self.tell_all(rt, register);
        let looked = self.look_when_here::<D, R>(rt, register);
        self.collect_all(rt);
        looked
    }
}
