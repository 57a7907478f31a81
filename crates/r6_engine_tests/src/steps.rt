//! What the events of a test ask, and what each is to be answered.

ghost use Rattle.r6_engine.specs.feed.Events.{IsWhole, AreWhole};

use crate::answers::Answer;
use crate::array::device_of;
use crate::blocks::filled;
use r6_core::Op;
use r6_dev::MemoryDevice;
use r6_engine::Event;
use r6_layout::Geometry;
use std::alloc::Global;
use std::process::Abort;

/// What an event asks.
#[derive(Clone, Copy)]
pub(crate) enum Ask {
    /// To write this byte throughout a block.
    Write(u64, u8),
    /// To read a block.
    Read(u64),
    Wait,
    /// To lose a slot.
    Fail(usize),
    /// To give a slot a new device, with this byte throughout.
    Attach(usize, u8),
    /// To give a slot a new device in place of its own, with this byte throughout.
    Replace(usize, u8),
    Check,
    Repair,
}

/// What an event asks, and what it is to be answered.
pub(crate) type Step = (Ask, Answer);

fn event_of<R: Abort>(rt: &R, alloc: Global, geometry: &Geometry, ask: Ask) -> Event<MemoryDevice>
    ensures { IsWhole geometry.now.shards result }
{
    match ask {
        Ask::Write(block, byte) => Event::Request(Op::Write(block, filled(rt, alloc, byte))),
        Ask::Read(block) => Event::Request(Op::Read(block, filled(rt, alloc, 0))),
        Ask::Wait => Event::Wait,
        Ask::Fail(slot) => Event::Fail(slot),
        Ask::Attach(slot, byte) => Event::Attach(slot, device_of(rt, alloc, geometry, byte)),
        Ask::Replace(slot, byte) => Event::Replace(slot, device_of(rt, alloc, geometry, byte)),
        Ask::Check => Event::Check,
        Ask::Repair => Event::Repair,
    }
}

/// What the steps ask, as an array of this shape is handed it.
pub(crate) fn events_of<R: Abort>(
    rt: &R,
    alloc: Global,
    geometry: &Geometry,
    steps: &[Step],
) -> Vec<Event<MemoryDevice>>
    ensures { AreWhole geometry.now.shards result.items }
{
    let mut events = Vec::with_capacity(alloc, steps.len()).expect(rt, "memory");
    for (ask, _) in steps.iter() {
        events
            .push(event_of(rt, alloc, geometry, *ask))
            .expect(rt, "memory");
    }
    events
}
