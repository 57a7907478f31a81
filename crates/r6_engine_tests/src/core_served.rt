//! Requests served by the caller of a core.

ghost use Rattle.r6_health.specs.Passes.{IsPassOf};

use crate::blocks::{BLOCK, ROWS, SLOTS, filled, geometry_of, register_of};
use crate::core_caller::serve;
use r6_core::{Core, Op, OpId, Reply};
use r6_dev::MemoryDevice;
use r6_health::{Pass, Register, Snapshot};
use r6_layout::Geometry;
use std::alloc::Global;
use std::process::Abort;
use std::sync::Wait;

/// The core of an array of one shard, beside its devices.
#[derive(Drop)]
struct Bench {
    alloc: Global,
    core: Core,
    devices: Vec<MemoryDevice>,
}

/// Devices of zeros, of which that of slot 1 has no rows.
fn devices_of<R: Abort>(rt: &R, alloc: Global) -> Vec<MemoryDevice> {
    let mut devices = Vec::new(alloc);
    for slot in 0..SLOTS {
        let rows = if slot == 1 { 0 } else { ROWS as u64 };
        let device = MemoryDevice::new(alloc, 0..rows, BLOCK).expect(rt, "memory");
        devices.push(device).expect(rt, "memory");
    }
    devices
}

impl Bench {
    fn new<R: Abort>(rt: &R, alloc: Global, geometry: Geometry) -> Bench {
        let register = Snapshot::start(&geometry, 0);
        assert!(rt; geometry.shards() > 0 && !register.failed() && register.attaches() == 0);
        let devices = devices_of(rt, alloc);
        let core = Core::new(alloc, geometry, 0, 1, &register).expect(rt, "memory");
        Bench {
            alloc,
            core,
            devices,
        }
    }

    /// Whether a request to read block 0 is served, as that of this number.
    fn is_read<R: Wait + Abort>(
        &mut self,
        rt: &R,
        register: &Register,
        pass: &mut Pass,
        id: u64,
    ) -> bool
        requires { IsPassOf register.now pass.old }
        ensures { IsPassOf register.now pass.new }
    {
        let op = Op::Read(0, filled(rt, self.alloc, 0));
        let reply = serve(rt, &mut self.core, &mut self.devices, register, pass, op);
        matches!(&reply, Some((OpId(number), Reply::Data(_))) if *number == id)
    }
}

/// Whether two requests to read block 0 are served with a new register, and slot 1 is lost then.
fn are_served<R: Wait + Abort>(rt: &R, geometry: &Geometry, bench: &mut Bench) -> bool {
    let (register, mut pass) = register_of(rt, bench.alloc, geometry);
    let first = bench.is_read(rt, &register, &mut pass, 0);
    let second = bench.is_read(rt, &register, &mut pass, 1);
    let is_lost = register.read(rt, &mut pass).slot(1).is_lost();
    first && second && is_lost
}

fn are_served_without_a_device<R: Wait + Abort>(rt: &R, alloc: Global) -> bool {
    let geometry = geometry_of(rt, 1);
    let mut bench = Bench::new(rt, alloc, geometry);
    let is_so = are_served(rt, &geometry, &mut bench);
    drop(bench);
    is_so
}

// Block 0 stands in slot 1, whose device is lost at the first command.
#[test]
fn requests_are_served_without_a_device(rt: HostRuntime) {
    assert!(rt; are_served_without_a_device(&rt, rt.alloc()));
}
