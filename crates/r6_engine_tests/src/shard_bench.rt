//! The shards of an array of zeros, over devices in memory and beside its register, from the array's beginning on.

ghost use Rattle.std.specs.Prelude.{◌≡◌, ◌<◌, length, true};
ghost use Rattle.r6_layout.specs.Shape.{IsShape};
ghost use Rattle.r6_health.specs.Histories.{start_losing};
ghost use Rattle.r6_health.specs.Passes.{view_of, IsPassOf};
ghost use Rattle.r6_health.specs.Registers.{starting};
ghost use Rattle.r6_health.specs.Views.{first_of};
ghost use Rattle.r6_shard.specs.Beginnings.{IsFirstPass};
ghost use Rattle.r6_engine_tests.specs.Passes.{AreFirst};

use crate::answers::{Answer, answer_in, check, check_all};
use crate::blocks::{BLOCK, SLOTS, filled, geometry_of, register_of};
use r6_core::{Op, Refusal, Refused};
use r6_dev::{Faulty, MemoryDevice};
use r6_health::{Pass, Register, Snapshot};
use r6_kernels::Buffer;
use r6_layout::Geometry;
use r6_shard::{InPlace, Part, PartRefusal, Shard, ShardConfig};
use std::alloc::Global;
use std::process::Abort;
use std::sync::Wait;

/// The rows of each slot's device.
pub(crate) type DeviceRows = [u64; SLOTS];

pub(crate) const ALL_ROWS: DeviceRows = [4; SLOTS];

/// A device of a slot, which may have read errors.
pub(crate) type Member = Faulty<MemoryDevice>;

/// Which devices a shard has.
#[derive(Clone, Copy)]
pub(crate) enum Devices {
    /// Each has all rows.
    Whole,
    /// That of slot 1 has no rows: its first command fails.
    WithoutSlot1,
    /// Of that of slot 1 the commands of the numbers 1 and 2 fail.
    TwoFailures,
    /// Row 0 of that of slot 1 can't be read until it is written.
    UnreadableRow,
}

fn rows_of(devices: Devices) -> DeviceRows {
    match devices {
        Devices::Whole | Devices::TwoFailures | Devices::UnreadableRow => ALL_ROWS,
        Devices::WithoutSlot1 => [4, 0, 4, 4],
    }
}

fn lacks_slot_1(devices: Devices) -> bool {
    matches!(devices, Devices::WithoutSlot1)
}

// Of the device of slot 1 the commands that fail, and the rows that can't be read.
fn faults_of(devices: Devices) -> (&'static [u64], &'static [u64]) {
    match devices {
        Devices::Whole | Devices::WithoutSlot1 => (&[], &[]),
        Devices::TwoFailures => (&[1, 2], &[]),
        Devices::UnreadableRow => (&[], &[0]),
    }
}

/// What a request asks.
#[derive(Clone, Copy)]
pub(crate) enum Request {
    /// To write this byte throughout a block.
    Write(u64, u8),
    /// To read a block.
    Read(u64),
    /// The same, into a buffer of this length.
    ReadInto(u64, usize),
}

/// What became of a part that was handed in.
#[derive(Clone, Copy, PartialEq, Eq)]
pub(crate) enum Handed {
    /// It is the first of its generation.
    First,
    /// An earlier one came back.
    Later,
    /// The part of this generation came back.
    Refused(PartRefusal, u32),
}

/// A turn in the course of a shard.
#[derive(Clone, Copy)]
pub(crate) enum Turn {
    /// A request is handed in, and answered so once the shard has nothing left to do.
    Asks(Request, Answer),
    /// A part of this generation with so many rows is handed in for slot 1.
    Hands(u32, u64, Handed),
    /// Slot 1 gets its first new device.
    Attaches,
    /// The shard goes on until nothing is left to do.
    Runs,
    /// Slot 1 is lost.
    IsLost,
    /// Slot 1 is in sync.
    IsInSync,
    /// No command of the shard failed.
    HasNamedNone,
    /// Commands to slot 1 failed, and to no other.
    HasNamedSlot1,
}

/// What a shard does from its beginning on.
#[derive(Clone, Copy)]
pub(crate) enum Course<'c> {
    InTurn(&'c [Turn]),
    /// These requests are handed in together, and are answered so. Slot 1 is lost then if its device has no rows, and
    /// no other slot.
    AtOnce(&'c [Request], &'c [Answer]),
}

type MemberShard = Shard<InPlace<Member>>;

fn op_of<R: Abort>(rt: &R, alloc: Global, request: Request) -> Op {
    match request {
        Request::Write(block, byte) => Op::Write(block, filled(rt, alloc, byte)),
        Request::Read(block) => Op::Read(block, filled(rt, alloc, 0)),
        Request::ReadInto(block, len) => {
            Op::Read(block, Buffer::new(alloc, len).expect(rt, "memory"))
        }
    }
}

// A device of zeros with so many rows.
fn zeros_of<R: Abort>(rt: &R, alloc: Global, rows: u64) -> MemoryDevice {
    MemoryDevice::new(alloc, 0..rows, BLOCK).expect(rt, "memory")
}

fn numbers_of<R: Abort>(rt: &R, alloc: Global, numbers: &[u64]) -> Vec<u64> {
    let mut list = Vec::with_capacity(alloc, numbers.len()).expect(rt, "memory");
    for number in numbers {
        list.push(*number).expect(rt, "memory");
    }
    list
}

// A device of zeros with so many rows, of whose commands these fail, and of whose rows these can't be read.
fn member_of<R: Abort>(
    rt: &R,
    alloc: Global,
    rows: u64,
    failing: &[u64],
    unreadable: &[u64],
) -> Member {
    Faulty::new(
        zeros_of(rt, alloc, rows),
        numbers_of(rt, alloc, failing),
        None,
        numbers_of(rt, alloc, unreadable),
    )
}

/// A device of zeros for each slot, with so many rows, and room for a part more.
pub(crate) fn parts_of<R: Abort>(
    rt: &R,
    alloc: Global,
    rows: &DeviceRows,
) -> Vec<Part<MemoryDevice>> {
    let mut parts = Vec::with_capacity(alloc, SLOTS + 1).expect(rt, "memory");
    for slot in 0..SLOTS {
        let part = Part {
            slot,
            generation: 0,
            device: zeros_of(rt, alloc, rows[slot]),
        };
        parts.push(part).expect(rt, "memory");
    }
    parts
}

// The devices that a shard has, and room for a part more.
fn members_of<R: Abort>(rt: &R, alloc: Global, devices: Devices) -> Vec<Part<Member>> {
    let (rows, (failing, unreadable)) = (rows_of(devices), faults_of(devices));
    let mut parts = Vec::with_capacity(alloc, SLOTS + 1).expect(rt, "memory");
    for slot in 0..SLOTS {
        let device = if slot == 1 {
            member_of(rt, alloc, rows[slot], failing, unreadable)
        } else {
            member_of(rt, alloc, rows[slot], &[], &[])
        };
        let part = Part {
            slot,
            generation: 0,
            device,
        };
        parts.push(part).expect(rt, "memory");
    }
    parts
}

// Hands a request in; why it is refused, if it is.
fn submit(shard: &mut MemberShard, event: u64, op: Op) -> Option<Refusal>
    requires { length shard.old.asked.items < shard.old.room }
    ensures { shard.new.pass ≡ shard.old.pass }
{
    match shard.submit(event, op) {
        Ok(_) => None,
        Err(Refused { refusal, back: _ }) => Some(refusal),
    }
}

// Goes on until nothing is left to do.
fn run<R: Wait>(rt: &R, shard: &mut MemberShard, register: &Register)
    requires { IsPassOf register.now shard.old.pass }
    ensures { IsPassOf register.now shard.new.pass }
{
    for _ in rt.forever() {
        shard.round_when_here::<Member, R>(rt, register);
        if shard.rests(rt, register) {
            break;
        }
    }
}

// Whether one more request may be accepted.
fn has_room(shard: &MemberShard) -> bool
    ensures { result ≡ true → length shard.now.asked.items < shard.now.room }
{
    shard.asked.len() < shard.room
}

// What a request is answered, once nothing is left to do.
fn answer<R: Wait>(
    rt: &R,
    shard: &mut MemberShard,
    register: &Register,
    event: u64,
    op: Op,
) -> Answer
    requires { IsPassOf register.now shard.old.pass }
    ensures { IsPassOf register.now shard.new.pass }
{
    if !has_room(shard) {
        return Answer::Nothing;
    }
    let refused = submit(shard, event, op);
    run(rt, shard, register);
    match refused {
        Some(refusal) => Answer::Refused(refusal.number()),
        None => answer_in(shard.entries.as_slice(), &[], event),
    }
}

// What becomes of a part. The shard's pass stays what it was.
fn hand_in<R: Wait>(rt: &R, shard: &mut MemberShard, part: Part<Member>) -> Handed
    ensures { shard.new.pass ≡ shard.old.pass }
{
    match shard.hand_in::<Member, R>(rt, part) {
        Ok(None) => Handed::First,
        Ok(Some(_)) => Handed::Later,
        Err(refused) => Handed::Refused(refused.refusal, refused.part.generation),
    }
}

// Slot 1 gets a new device; whether it is the array's first.
fn attach<R: Wait>(rt: &R, register: &Register, caller: &mut Pass) -> bool
    requires { IsPassOf register.now caller.old }
    ensures { IsPassOf register.now caller.new }
{
    matches!(register.attach(rt, caller, 1), Ok(1))
}

// Whether slot 1 is lost, and whether it is lost or rebuilt.
fn look<R: Wait>(rt: &R, register: &Register, caller: &mut Pass) -> (bool, bool)
    requires { IsPassOf register.now caller.old }
    ensures { IsPassOf register.now caller.new }
{
    let slot = register.read(rt, caller).slot(1);
    (slot.is_lost(), slot.is_out())
}

// Whether no slot is named, but slot 1 if commands to it failed.
fn has_named(shard: &MemberShard, slot_1_failed: bool) -> bool {
    let mut named = [false; 32];
    named[1] = slot_1_failed;
    shard.named == named
}

// Whether a turn goes as it says.
fn goes<R: Wait + Abort>(
    rt: &R,
    alloc: Global,
    shard: &mut MemberShard,
    register: &Register,
    caller: &mut Pass,
    event: u64,
    turn: Turn,
) -> bool
    requires shard { IsPassOf register.now shard.old.pass }
    requires caller { IsPassOf register.now caller.old }
    ensures shard { IsPassOf register.now shard.new.pass }
    ensures caller { IsPassOf register.now caller.new }
{
    match turn {
        Turn::Asks(request, wanted) => {
            let op = op_of(rt, alloc, request);
            let found = answer(rt, shard, register, event, op);
            check(rt, "a shard", event, &found, &wanted);
        }
        Turn::Hands(generation, rows, wanted) => {
            let part = Part {
                slot: 1,
                generation,
                device: member_of(rt, alloc, rows, &[], &[]),
            };
            return hand_in(rt, shard, part) == wanted;
        }
        Turn::Attaches => return attach(rt, register, caller),
        Turn::Runs => run(rt, shard, register),
        Turn::IsLost => return look(rt, register, caller).0,
        Turn::IsInSync => return !look(rt, register, caller).1,
        Turn::HasNamedNone => return has_named(shard, false),
        Turn::HasNamedSlot1 => return has_named(shard, true),
    }
    true
}

// Each turn has to go as it says.
fn go_all<R: Wait + Abort>(
    rt: &R,
    alloc: Global,
    shard: &mut MemberShard,
    register: &Register,
    caller: &mut Pass,
    turns: &[Turn],
)
    requires shard { IsPassOf register.now shard.old.pass }
    requires caller { IsPassOf register.now caller.old }
    ensures { IsPassOf register.now caller.new }
{
    for (number, turn) in turns.iter().enumerate() {
        let went = goes(rt, alloc, shard, register, caller, number as u64, *turn);
        assert!(rt; went, "turn {number}");
    }
}

fn play_in_turn<R: Wait + Abort>(
    rt: &R,
    alloc: Global,
    place: ShardConfig,
    register: &Register,
    pass: Pass,
    caller: &mut Pass,
    devices: Devices,
    turns: &[Turn],
)
    requires limits { IsShape place.geometry }
    requires number { place.number < place.geometry.shards }
    requires window { place.window ≡ 1 }
    requires pass { IsPassOf register.now pass }
    requires first { IsFirstPass place.geometry place.number (starting 0) (view_of pass) }
    requires caller { IsPassOf register.now caller.old }
    ensures { IsPassOf register.now caller.new }
{
    let snapshot = Snapshot::start(&place.geometry, 0);
    let parts = InPlace::new(members_of(rt, alloc, devices));
    let mut shard = Shard::new(alloc, place, &snapshot, pass, parts, turns.len()).expect(
        rt, "memory",
    );
    go_all(rt, alloc, &mut shard, register, caller, turns);
    drop(shard);
}

// Hands all requests in, of events with the numbers from 0 on; those that were refused. Its pass stays what it was.
fn hand_all<R: Abort>(
    rt: &R,
    alloc: Global,
    shard: &mut MemberShard,
    requests: &[Request],
) -> Vec<(u64, Refusal)>
    ensures { shard.new.pass ≡ shard.old.pass }
{
    let mut refused = Vec::new(alloc);
    for (event, request) in requests.iter().enumerate() {
        let event = event as u64;
        let op = op_of(rt, alloc, *request);
        if !has_room(shard) {
            break;
        }
        if let Some(refusal) = submit(shard, event, op) {
            refused.push((event, refusal)).expect(rt, "memory");
        }
    }
    refused
}

fn play_at_once<R: Wait + Abort>(
    rt: &R,
    alloc: Global,
    place: ShardConfig,
    register: &Register,
    pass: Pass,
    devices: Devices,
    requests: &[Request],
    wanted: &[Answer],
)
    requires limits { IsShape place.geometry }
    requires number { place.number < place.geometry.shards }
    requires window { place.window ≡ 1 }
    requires pass { IsPassOf register.now pass }
    requires first { IsFirstPass place.geometry place.number (starting 0) (view_of pass) }
{
    let snapshot = Snapshot::start(&place.geometry, 0);
    let parts = InPlace::new(members_of(rt, alloc, devices));
    let mut shard = Shard::new(alloc, place, &snapshot, pass, parts, requests.len()).expect(
        rt, "memory",
    );
    let refused = hand_all(rt, alloc, &mut shard, requests);
    run(rt, &mut shard, register);
    check_all(
        rt,
        "a shard",
        shard.entries.as_slice(),
        refused.as_slice(),
        wanted,
    );
    assert!(rt; has_named(&shard, lacks_slot_1(devices)));
    drop(shard);
}

// A shard of an array that begins plays its course.
fn play_course<R: Wait + Abort>(
    rt: &R,
    alloc: Global,
    place: ShardConfig,
    register: &Register,
    pass: Pass,
    caller: &mut Pass,
    devices: Devices,
    course: Course,
)
    requires limits { IsShape place.geometry }
    requires number { place.number < place.geometry.shards }
    requires window { place.window ≡ 1 }
    requires pass { IsPassOf register.now pass }
    requires first { IsFirstPass place.geometry place.number (starting 0) (view_of pass) }
    requires caller { IsPassOf register.now caller.old }
    ensures { IsPassOf register.now caller.new }
{
    match course {
        Course::InTurn(turns) => {
            play_in_turn(rt, alloc, place, register, pass, caller, devices, turns)
        }
        Course::AtOnce(requests, wanted) => {
            play_at_once(rt, alloc, place, register, pass, devices, requests, wanted);
            assert!(rt; look(rt, register, caller).0 == lacks_slot_1(devices));
        }
    }
}

// A pass for each shard, from the first shard on, with the shard's number as its name, which this pass gives it.
fn passes_of<R: Abort>(
    rt: &R,
    alloc: Global,
    register: &Register,
    geometry: &Geometry,
    first: &mut Pass,
) -> Vec<Pass>
    requires pass { IsPassOf register.now first.old }
    requires first { view_of first.old ≡ first_of (start_losing geometry.now.slots geometry.now.shards 0) }
    ensures pass { IsPassOf register.now first.new }
    ensures passes { AreFirst register.now geometry.now result.items }
    ensures many { length result.items ≡ geometry.now.shards }
{
    let mut passes = Vec::with_capacity(alloc, geometry.shards()).expect(rt, "memory");
    for _ in 0..geometry.shards() {
        passes.push(register.split(first)).expect(rt, "memory");
    }
    passes
}

/// The shards of an array play these courses, one after the other, each over devices of its own.
pub(crate) fn play<R: Wait + Abort>(rt: &R, alloc: Global, courses: &[(Devices, Course)]) {
    let geometry = geometry_of(rt, courses.len());
    let (register, mut caller) = register_of(rt, alloc, &geometry);
    let passes = passes_of(rt, alloc, &register, &geometry, &mut caller);
    let mut number = 0;
    for pass in passes {
        let Some((devices, course)) = courses.get(number) else {
            break;
        };
        let place = ShardConfig {
            geometry,
            number,
            window: 1,
        };
        play_course(
            rt,
            alloc,
            place,
            &register,
            pass,
            &mut caller,
            *devices,
            *course,
        );
        number += 1;
    }
    drop((register, caller));
}
