//! Commands are performed in place.

ghost use Rattle.std.specs.Prelude.{◌≡◌, ◌≤◌, ◌<◌, ◌↔◌, IsOk, IsTrue, IfErr, IfOk, IfSome, MatchResult, None, length, vec_capacity, true};
ghost use Rattle.std.specs.List.{position};
ghost use Rattle.r6_world.specs.Values.{given_transfer};
ghost use Rattle.r6_dev.specs.History.{Answers};
ghost use Rattle.r6_dev.specs.Promises.{Covers};
ghost use Rattle.r6_course.specs.Steps.{Does};
ghost use Rattle.r6_exchange.specs.Answering.{failed_by};
ghost use Rattle.r6_shard.specs.Parts.{is_of, part_of};
ghost use Rattle.r6_shard.specs.Performing.{kind_of};

use crate::performs::{Performs, TakesParts};
use r6_dev::{BlockDevice, Fault};
use r6_exchange::{Completion, Part};
use r6_kernels::Buffer;
use r6_world::{Command, CommandKind, DeviceFault, FaultKind};
use std::mem;
use std::sync::Wait;

/// Performs commands in place, one at a time: a command that was sent is performed as its completion is received.
#[derive(Drop)]
pub struct InPlace<D> {
    /// At most one for a slot and generation is performed on: the first.
    pub parts: Vec<Part<D>>,
    // The command that was sent and not performed.
    waiting: Option<Command>,
}

// Whether it is of the device that the slot has with this generation.
fn is_of<D>(part: &Part<D>, slot: usize, generation: u32) -> bool
    ensures { result ≡ is_of slot generation part.now }
{
    part.slot == slot && part.generation == generation
}

fn kind_of(fault: Fault) -> FaultKind
    ensures { result ≡ kind_of fault }
{
    match fault {
        Fault::ReadFault => FaultKind::ReadFault,
        Fault::WriteFault => FaultKind::WriteFault,
        Fault::Gone => FaultKind::Gone,
        Fault::Length => FaultKind::Length,
    }
}

// The device does what a command says.
fn perform_on<D: BlockDevice>(
    device: &mut D,
    row: u64,
    kind: CommandKind,
    mut buffer: Buffer,
) -> Result<Buffer, DeviceFault>
    ensures done { MatchResult result
        (λ came. Does (D.told device.old) (given_transfer kind buffer) row came (D.told device.new)
        × (length came ≡ length buffer))
        (λ fault. Answers (D.told device.old) (failed_by fault.kind kind row) (D.told device.new)
        × (length fault.buffer ≡ length buffer)) }
    ensures sound { Covers (D.promised device.old) row (length buffer) → IsOk result }
    ensures promised { D.promised device.new ≡ D.promised device.old }
{
    let answer = match kind {
        CommandKind::Read => device.read(row, &mut buffer),
        CommandKind::Write => device.write(row, &buffer),
    };
    match answer {
        Ok(()) => Ok(buffer),
        Err(fault) => Err(DeviceFault {
            kind: kind_of(fault),
            buffer,
        }),
    }
}

impl<D: BlockDevice + Drop> InPlace<D> {
    ghost use Rattle.r6_shard.specs.Parts.{labels_of, part_in, promise_in, PutsIn};
    ghost use Rattle.r6_shard.specs.Performing.{Did};

    /// Who performs commands on these parts. It has as much room for parts as their vector has.
    pub fn new(parts: Vec<Part<D>>) -> InPlace<D>
        ensures { (result.parts ≡ parts) × (result.waiting ≡ None) }
    {
        InPlace {
            parts,
            waiting: None,
        }
    }

    // Where the part of a slot and generation stands.
    fn place_of(&self, slot: usize, generation: u32) -> Option<usize>
        ensures place { result ≡ position (is_of slot generation) self.now.parts.items }
        ensures within { IfSome result (λ at. at < length self.now.parts.items) }
    {
        self.parts
            .iter()
            .position(|part| is_of(part, slot, generation))
    }

    // Performs a command: its part reads into the buffer or writes from it, and no other part changes. Where no part is
    // there it fails.
    fn perform(&mut self, command: Command) -> Result<Buffer, DeviceFault>
        ensures performed { Did (part_in D.told self.old.parts.items) (part_in D.told self.new.parts.items) command
            result }
        ensures sound { Covers (promise_in D.promised self.old.parts.items command.slot command.generation) command.row
            (length command.buffer) → IsOk result }
        ensures promised { promise_in D.promised self.new.parts.items ≡ promise_in D.promised self.old.parts.items }
        ensures labels { labels_of self.new.parts.items ≡ labels_of self.old.parts.items }
        ensures part_room { vec_capacity self.new.parts ≡ vec_capacity self.old.parts }
        ensures waiting { self.new.waiting ≡ self.old.waiting }
    {
        let Command {
            token: _,
            slot,
            generation,
            row,
            kind,
            buffer,
        } = command;
        let Some(at) = self.place_of(slot, generation) else {
            return Err(DeviceFault {
                kind: FaultKind::Gone,
                buffer,
            });
        };
        let part = &mut self.parts[at];
        perform_on(&mut part.device, row, kind, buffer)
    }

    // Puts a part after the others, of whose slot and generation none is there.
    fn add(&mut self, part: Part<D>) -> Result<Option<Part<D>>, Part<D>>
        requires { part_of self.old.parts.items part.slot part.generation ≡ None }
        ensures taken { IfOk result (λ earlier. PutsIn part earlier self.old.parts.items self.new.parts.items) }
        ensures room { vec_capacity self.new.parts ≡ vec_capacity self.old.parts }
        ensures waiting { self.new.waiting ≡ self.old.waiting }
        ensures full { IfErr result (λ back.
            (back ≡ part) × (self.new ≡ self.old) × (vec_capacity self.old.parts ≤ length self.old.parts.items)) }
    {
        if self.parts.len() >= self.parts.capacity() {
            return Err(part);
        }
        self.parts.push_reserved(part);
        Ok(None)
    }

    // Puts a part in, in the place of that of its slot and generation if one is there. Back comes the earlier one, or,
    // where there is no room, the part itself.
    fn put_in(&mut self, part: Part<D>) -> Result<Option<Part<D>>, Part<D>>
        ensures taken { IfOk result (λ earlier. PutsIn part earlier self.old.parts.items self.new.parts.items) }
        ensures room { vec_capacity self.new.parts ≡ vec_capacity self.old.parts }
        ensures waiting { self.new.waiting ≡ self.old.waiting }
        ensures full { IfErr result (λ back.
            (back ≡ part) × (self.new ≡ self.old) × (vec_capacity self.old.parts ≤ length self.old.parts.items)) }
    {
        match self.place_of(part.slot, part.generation) {
            Some(at) => Ok(Some(mem::replace(&mut self.parts[at], part))),
            None => self.add(part),
        }
    }
}

impl<D: BlockDevice + Drop> Performs for InPlace<D> {
    ghost use Rattle.r6_shard.specs.Waiting.{performer_of, is_free, always, always_is_prop};

    ghost performer = { performer_of D.told D.promised };

    ghost has_room = { is_free };

    ghost holds = { always };

    ghost holds_is_prop = { always_is_prop };

    ghost Site = { Unit {0} };

    ghost site = { λ here. tt };

    fn make_room<R: Wait>(&mut self, _rt: &R) -> bool {
        self.waiting.is_none()
    }

    fn send<R: Wait>(&mut self, _rt: &R, command: Command) {
        self.waiting = Some(command);
    }

    fn receive<R: Wait>(&mut self, _rt: &R) -> Option<Completion> {
        let command = self.waiting.take()?;
        let token = command.token;
        let slot = command.slot;
        let result = self.perform(command);
        Some(Completion {
            token,
            slot,
            result,
        })
    }

    fn is_idle(&self) -> bool {
        self.waiting.is_none()
    }
}

impl<D: BlockDevice + Drop> TakesParts<D> for InPlace<D> {
    ghost use Rattle.r6_shard.specs.Parts.{labels_of, part_in, TakesIn};
    ghost use Rattle.r6_shard.specs.Performing.{HasPart, IsHere};
    ghost use Rattle.r6_shard.specs.Waiting.{performer_of};

    fn has_part(&self, slot: usize, generation: u32) -> bool
        ensures here { IsTrue result ↔ IsHere (labels_of self.now.parts.items) slot generation }
        ensures tells { result ≡ true → HasPart (part_in D.told self.now.parts.items) slot generation }
    {
        self.place_of(slot, generation).is_some()
    }

    fn take_in<R: Wait>(&mut self, _rt: &R, part: Part<D>) -> Result<Option<Part<D>>, Part<D>>
        ensures holds { Unit {0} }
        ensures taken { MatchResult result
            (λ earlier. TakesIn D.told D.promised part earlier (performer_of D.told D.promised self.old)
            (performer_of D.told D.promised self.new))
            (λ back. (back ≡ part) × (self.new ≡ self.old)
            × (vec_capacity self.old.parts ≤ length (labels_of self.old.parts.items))) }
        ensures site { tt {0} ≡ tt }
    {
        self.put_in(part)
    }
}
