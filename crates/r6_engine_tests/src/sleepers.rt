//! Devices so slow that the threads that wait for them sleep: one that nobody wakes would never end well.

ghost use Rattle.std.specs.Prelude.{◌≡◌, length};
ghost use Rattle.r6_engine.specs.feed.Events.{AreWhole};

use crate::answers::Answer;
use crate::blocks::{BLOCK, SLOTS, filled, geometry_of};
use crate::serve_bench::{Crowd, check_answer};
use r6_core::Op;
use r6_dev::{BlockDevice, Fault, MemoryDevice};
use r6_engine::{Config, Event, serve};
use r6_health::Answer as Told;
use r6_kernels::Buffer;
use r6_layout::Geometry;
use r6_shard::{Part, Parts};
use std::alloc::Global;
use std::process::Abort;
use std::sync::Wait;
use std::thread;
use std::thread::Threads;

// As often a device lets other threads go on before it performs a command. Who finds nothing to do looks 64 times.
const PATIENCE: u64 = 2_000;

// A device that tells no blocks.
#[derive(Drop)]
struct Slow {
    zeros: MemoryDevice,
}

impl Slow {
    fn wait(&self) {
        for _ in 0..PATIENCE {
            thread::yield_now();
        }
    }
}

impl BlockDevice for Slow {
    ghost use Rattle.std.specs.Prelude.{None};
    ghost use Rattle.r6_dev.specs.Promises.{no_promise};

    ghost told = { λ _. None };

    ghost promised = { λ _. no_promise };

    fn read(&mut self, row: u64, buffer: &mut Buffer) -> Result<(), Fault> {
        self.wait();
        self.zeros.read(row, buffer)
    }

    fn write(&mut self, row: u64, buffer: &Buffer) -> Result<(), Fault> {
        self.wait();
        self.zeros.write(row, buffer)
    }
}

fn new_device<R: Abort>(rt: &R, alloc: Global, geometry: &Geometry) -> Slow {
    let zeros = MemoryDevice::new(alloc, 0..geometry.rows(), BLOCK).expect(rt, "memory");
    Slow { zeros }
}

// A new device, a part for each shard.
fn device_of<R: Abort>(rt: &R, alloc: Global, geometry: &Geometry) -> Vec<Slow>
    ensures { length result.items ≡ geometry.now.shards }
{
    let mut parts = Vec::with_capacity(alloc, geometry.shards()).expect(rt, "memory");
    for _ in 0..geometry.shards() {
        parts
            .push(new_device(rt, alloc, geometry))
            .expect(rt, "memory");
    }
    parts
}

fn parts_of_shard<R: Abort>(rt: &R, alloc: Global, geometry: &Geometry) -> Parts<Slow> {
    let mut parts = Vec::with_capacity(alloc, SLOTS).expect(rt, "memory");
    for slot in 0..SLOTS {
        let part = Part {
            slot,
            generation: 0,
            device: new_device(rt, alloc, geometry),
        };
        parts.push(part).expect(rt, "memory");
    }
    Parts { parts }
}

fn parts_of<R: Abort>(rt: &R, alloc: Global, geometry: &Geometry) -> Vec<Parts<Slow>>
    ensures { length result.items ≡ geometry.now.shards }
{
    let mut parts = Vec::with_capacity(alloc, geometry.shards()).expect(rt, "memory");
    for _ in 0..geometry.shards() {
        parts
            .push(parts_of_shard(rt, alloc, geometry))
            .expect(rt, "memory");
    }
    parts
}

// A block is written, its slot lost and rebuilt on a new device, and the block read each time; then all rows are checked.
fn events_of<R: Abort>(rt: &R, alloc: Global, geometry: &Geometry) -> Vec<Event<Slow>>
    ensures { AreWhole geometry.now.shards result.items }
{
    let mut events = Vec::with_capacity(alloc, 8).expect(rt, "memory");
    events.push_reserved(Event::Request(Op::Write(0, filled(rt, alloc, 0x5a))));
    events.push_reserved(Event::Wait);
    events.push_reserved(Event::Fail(1));
    events.push_reserved(Event::Request(Op::Read(0, filled(rt, alloc, 0))));
    events.push_reserved(Event::Attach(1, device_of(rt, alloc, geometry)));
    events.push_reserved(Event::Wait);
    events.push_reserved(Event::Request(Op::Read(0, filled(rt, alloc, 0))));
    events.push_reserved(Event::Check);
    events
}

const ANSWERS: &[Answer] = &[
    Answer::Done,
    Answer::Nothing,
    Answer::Failed(Ok(Told::Degraded)),
    Answer::Data(0x5a),
    Answer::Attached(Ok(1)),
    Answer::Nothing,
    Answer::Data(0x5a),
    Answer::Rows([4, 0, 0, 0, 0, 0, 0]),
];

fn serve_slowly<R: Threads + Wait + Abort + Sync>(rt: &R, alloc: Global, crowd: Crowd) {
    let Crowd { shards, workers } = crowd;
    let geometry = geometry_of(rt, shards);
    assert!(rt; 1 <= workers && workers <= 8);
    let config = Config {
        geometry,
        window: 1,
        workers,
        lost: 0,
        stop: None,
    };
    let parts = parts_of(rt, alloc, &geometry);
    let events = events_of(rt, alloc, &geometry);
    let served = serve(rt, alloc, config, parts, events).expect(rt, "an array that is served");
    for (event, wanted) in ANSWERS.iter().enumerate() {
        check_answer(rt, "slow devices", &served, event, wanted);
    }
}

const CROWDS: &[(usize, usize)] = &[(1, 1), (1, 4), (2, 2), (4, 1)];

#[test]
fn threads_that_sleep_are_woken(rt: HostRuntime) {
    for (shards, workers) in CROWDS {
        let crowd = Crowd {
            shards: *shards,
            workers: *workers,
        };
        serve_slowly(&rt, rt.alloc(), crowd);
    }
}
