//! The register of the array, and the one thread that calls it.

ghost use Rattle.std.specs.Prelude.{◌≡◌, IfErr, IfOk};
ghost use Rattle.r6_health.specs.Passes.{IsPassOf, Tells, view_of};
ghost use Rattle.r6_health.specs.Views.{Attached, Looks, Replaced};
ghost use Rattle.r6_core.specs.Shards.{call_of};
ghost use Rattle.r6_world.specs.Worlds.{as_made};
ghost use Rattle.r6_health.specs.declared.call.Call.TheVariants.{Fail};
ghost use Rattle.r6_simulate.specs.declared.fault.SimulationFault.TheVariants.{Memory};

use crate::fault::SimulationFault;
use r6_core::Call;
use r6_health::{Answer, Pass, Refusal, Register, Snapshot};
use r6_layout::Geometry;
use std::alloc::Global;
use std::sync::Wait;

/// A register with the only pass that calls it.
#[derive(Drop)]
pub struct OwnRegister {
    register: Register,
    pass: Pass,
    ghost own: { IsPassOf register pass },
}

impl OwnRegister {
    ghost use Rattle.r6_simulate.specs.AtShards.{held_by};
    ghost use Rattle.r6_simulate.specs.Beginnings.{IsFirstPass};

    /// The register of an array with all slots in sync.
    pub fn new<R: Wait>(
        rt: &R,
        alloc: Global,
        geometry: &Geometry,
    ) -> Result<OwnRegister, SimulationFault>
        ensures first { IfOk result (λ register. IsFirstPass geometry.now register.pass) }
        ensures refused { IfErr result (λ fault. fault ≡ Memory) }
    {
        match Register::new(rt, alloc, geometry, 0) {
            Ok((register, pass)) => Ok(OwnRegister { register, pass }),
            Err(_) => Err(SimulationFault::Memory),
        }
    }

    /// What the register holds.
    pub fn read<R: Wait>(&mut self, rt: &R) -> Snapshot
        ensures looks { Looks (view_of self.old.pass) (view_of self.new.pass) }
        ensures held { result ≡ held_by self.new }
    {
        self.register.read(rt, &mut self.pass)
    }

    /// A slot is failed.
    pub fn fail<R: Wait>(&mut self, rt: &R, slot: usize) -> Result<Answer, Refusal>
        ensures { Tells self.old.pass (Fail slot) result self.new.pass }
    {
        self.register.fail(rt, &mut self.pass, slot)
    }

    /// A new device stands in a lost slot: its generation.
    pub fn attach<R: Wait>(&mut self, rt: &R, slot: usize) -> Result<u32, Refusal>
        ensures { Attached (view_of self.old.pass) slot result (view_of self.new.pass) }
    {
        self.register.attach(rt, &mut self.pass, slot)
    }

    /// A new device is to take the place of a slot's, which works: its generation.
    pub fn replace<R: Wait>(&mut self, rt: &R, slot: usize) -> Result<u32, Refusal>
        ensures { Replaced (view_of self.old.pass) slot result (view_of self.new.pass) }
    {
        self.register.replace(rt, &mut self.pass, slot)
    }

    /// A shard's call is made.
    pub fn make<R: Wait>(&mut self, rt: &R, shard: usize, call: Call) -> Result<Answer, Refusal>
        ensures { Tells self.old.pass (as_made shard (call_of call)) result self.new.pass }
    {
        match call {
            Call::DeclareLost(slot, generation) => {
                self.register
                    .declare_lost(rt, &mut self.pass, slot, generation)
            }
            Call::ReportRebuilt(slot, generation) => {
                self.register
                    .report_rebuilt(rt, &mut self.pass, shard, slot, generation)
            }
        }
    }
}
