//! An array in memory, and what the events of a script do to it.

ghost use Rattle.std.specs.Prelude.{◌≡◌, ◌<◌, length, string_bytes, IfErr, IfOk, OnOk};
ghost use Rattle.r6_simulate.specs.Beginnings.{AreFirstShards};
ghost use Rattle.r6_simulate.specs.Shards.{shard_of_block};
ghost use Rattle.r6_simulate.specs.declared.fault.SimulationFault.TheVariants.{Memory};

use crate::devices::{Blocks, Devices};
use crate::fault::SimulationFault;
use crate::lines::EventOutcome;
use crate::register::OwnRegister;
use crate::shard::Shard;
use indexmap::IndexMap;
use r6_core::{Core, Op};
use r6_health::{Answered, Refusal, Snapshot};
use r6_layout::Geometry;
use r6_script::{Call, Event};
use std::alloc::Global;
use std::fmt::Write as _;
use std::sync::Wait;

// Rows of a rebuild that a shard may hold at a time.
const WINDOW: usize = 1;

// The byte that a new device has throughout.
const NEW: u8 = 0xff;

/// An array in memory.
#[derive(Drop)]
pub struct Simulation {
    pub geometry: Geometry,
    pub blocks: Blocks,
    pub register: OwnRegister,
    pub shards: Vec<Shard>,
    pub devices: Devices,
    ghost all_there: { length shards.items ≡ geometry.shards },
    ghost some_there: { 0 < geometry.shards },
}

// The shards of an array with all slots in sync.
fn shards_of(alloc: Global, geometry: Geometry) -> Result<Vec<Shard>, SimulationFault>
    ensures all { IfOk result (λ shards. AreFirstShards geometry shards.items) }
    ensures some { IfOk result (λ shards. 0 < length shards.items) }
    ensures refused { IfErr result (λ fault. fault ≡ Memory) }
{
    let snapshot = Snapshot::start(&geometry, 0);
    let mut shards = Vec::with_capacity(alloc, geometry.shards())?;
    for number in 0..geometry.shards() {
        match Core::new(alloc, geometry, number, WINDOW, &snapshot) {
            Ok(core) => shards.push(Shard {
                number,
                core,
                in_flight: IndexMap::new(alloc),
            })?,
            Err(_) => return Err(SimulationFault::Memory),
        }
    }
    Ok(shards)
}

impl Simulation {
    ghost use Rattle.r6_simulate.specs.Plays.{IsFirst, Requests, Calls, Fails, Brings, Attaches, Replaces, Plays};

    /// The array as it begins: devices of zeros, all in sync.
    pub fn new<R: Wait>(
        rt: &R,
        alloc: Global,
        geometry: Geometry,
    ) -> Result<Simulation, SimulationFault>
        ensures first { IfOk result (IsFirst geometry) }
        ensures refused { IfErr result (λ fault. fault ≡ Memory) }
    {
        let blocks = Blocks {
            alloc,
            len: geometry.block(),
        };
        Ok(Simulation {
            geometry,
            blocks,
            register: OwnRegister::new(rt, alloc, &geometry)?,
            shards: shards_of(alloc, geometry)?,
            devices: Devices::new(blocks, &geometry)?,
        })
    }

    // The shard of a block; a block that isn't there goes to shard 0, which refuses it.
    fn shard_of_block(&self, block: u64) -> usize
        ensures value { result ≡ shard_of_block self.now.geometry block }
        ensures within { result < self.now.geometry.shards }
    {
        match self.geometry.place(block) {
            Some(place) => place.shard,
            None => 0,
        }
    }

    // Submits a request to the shard of its block.
    fn play_request(&mut self, block: u64, op: Op, line: &mut String) -> Result<(), SimulationFault>
        ensures { OnOk result (Requests op block self.old (string_bytes line.old) self.new (string_bytes line.new)) }
    {
        let number = self.shard_of_block(block);
        let shard = &mut self.shards[number];
        let outcome = shard.submit(op);
        shard.report(outcome, line)
    }

    // Does something at a shard, if the array has it.
    fn play_call<R: Wait>(
        &mut self,
        rt: &R,
        number: u64,
        call: Call,
        line: &mut String,
    ) -> Result<(), SimulationFault>
        ensures { OnOk result (Calls number call self.old (string_bytes line.old) self.new (string_bytes line.new)) }
    {
        let number = number as usize;
        if number >= self.shards.len() {
            write!(line, "{}", EventOutcome::NoSuchShard)?;
            return Ok(());
        }
        let shard = &mut self.shards[number];
        let outcome = shard.make(
            rt,
            call,
            &mut self.register,
            &mut self.devices,
            &self.blocks,
        )?;
        shard.report(outcome, line)
    }

    // Fails a slot at the register.
    fn play_fail<R: Wait>(
        &mut self,
        rt: &R,
        slot: u64,
        line: &mut String,
    ) -> Result<(), SimulationFault>
        ensures { OnOk result (Fails slot self.old (string_bytes line.old) self.new (string_bytes line.new)) }
    {
        let answer = self.register.fail(rt, slot as usize);
        write!(line, "{}", EventOutcome::Called(Answered(answer)))?;
        Ok(())
    }

    // Attaches a new device to a slot at the register.
    fn play_attach<R: Wait>(
        &mut self,
        rt: &R,
        slot: u64,
        line: &mut String,
    ) -> Result<(), SimulationFault>
        ensures { OnOk result (Attaches slot self.old (string_bytes line.old) self.new (string_bytes line.new)) }
    {
        let slot = slot as usize;
        let answer = self.register.attach(rt, slot);
        self.bring(slot, answer, line)
    }

    // Replaces the device of a slot by a new one at the register.
    fn play_replace<R: Wait>(
        &mut self,
        rt: &R,
        slot: u64,
        line: &mut String,
    ) -> Result<(), SimulationFault>
        ensures { OnOk result (Replaces slot self.old (string_bytes line.old) self.new (string_bytes line.new)) }
    {
        let slot = slot as usize;
        let answer = self.register.replace(rt, slot);
        self.bring(slot, answer, line)
    }

    // The register has answered so for a new device of the slot.
    fn bring(
        &mut self,
        slot: usize,
        answer: Result<u32, Refusal>,
        line: &mut String,
    ) -> Result<(), SimulationFault>
        ensures { OnOk result ((self.new.register ≡ self.old.register)
            × Brings slot answer self.old (string_bytes line.old) self.new (string_bytes line.new)) }
    {
        self.devices.attach(slot, answer, NEW)?;
        write!(
            line,
            "{}",
            EventOutcome::Called(Answered::of_attach(answer))
        )?;
        Ok(())
    }

    /// Plays an event, and writes its line: what became of it, and what its shard puts out, replies first.
    pub fn play<R: Wait>(
        &mut self,
        rt: &R,
        event: Event,
        line: &mut String,
    ) -> Result<(), SimulationFault>
        ensures { OnOk result (Plays event self.old (string_bytes line.old) self.new (string_bytes line.new)) }
    {
        match event {
            Event::Read(block) => {
                let buffer = self.blocks.of(0)?;
                self.play_request(block, Op::Read(block, buffer), line)
            }
            Event::Write(block, byte) => {
                let buffer = self.blocks.of(byte)?;
                self.play_request(block, Op::Write(block, buffer), line)
            }
            Event::At(number, call) => self.play_call(rt, number, call, line),
            Event::Fail(slot) => self.play_fail(rt, slot, line),
            Event::Attach(slot) => self.play_attach(rt, slot, line),
            Event::Replace(slot) => self.play_replace(rt, slot, line),
        }
    }
}
