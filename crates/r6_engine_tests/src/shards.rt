//! What shards do of their requests and parts. Block 0 stands in slot 1, in row 0.

use crate::answers::Answer;
use crate::shard_bench::{Course, Devices, Handed, Request, Turn, play};
use r6_shard::PartRefusal;

#[test]
fn what_was_written_is_read(rt: HostRuntime) {
    let turns = &[
        Turn::Asks(Request::Write(0, 7), Answer::Done),
        Turn::Asks(Request::Write(3, 9), Answer::Done),
        Turn::Asks(Request::Read(0), Answer::Data(7)),
        Turn::Asks(Request::Read(3), Answer::Data(9)),
        Turn::Asks(Request::Read(1), Answer::Data(0)),
        Turn::HasNamedNone,
    ];
    play(&rt, rt.alloc(), &[(Devices::Whole, Course::InTurn(turns))]);
}

#[test]
fn a_failed_device_is_named_and_read_by_parity(rt: HostRuntime) {
    let requests = &[Request::Write(0, 7), Request::Read(0), Request::Read(1)];
    let wanted = &[Answer::Done, Answer::Data(7), Answer::Data(0)];
    play(
        &rt,
        rt.alloc(),
        &[(Devices::WithoutSlot1, Course::AtOnce(requests, wanted))],
    );
}

// The first command of each request is put out when it is handed in, and those are performed in this order: the reads
// come before what the writes write.
#[test]
fn reads_beside_writes_give_what_the_devices_have(rt: HostRuntime) {
    let requests = &[
        Request::Write(0, 7),
        Request::Write(3, 9),
        Request::Read(0),
        Request::Read(3),
    ];
    let wanted = &[Answer::Done, Answer::Done, Answer::Data(0), Answer::Data(0)];
    play(
        &rt,
        rt.alloc(),
        &[(Devices::Whole, Course::AtOnce(requests, wanted))],
    );
}

#[test]
fn a_request_of_another_length_is_refused(rt: HostRuntime) {
    let requests = &[
        Request::Write(0, 7),
        Request::ReadInto(0, 15),
        Request::Write(1, 9),
    ];
    let wanted = &[Answer::Done, Answer::Refused(3), Answer::Done];
    play(
        &rt,
        rt.alloc(),
        &[(Devices::Whole, Course::AtOnce(requests, wanted))],
    );
}

// Shard 0 has blocks 0 to 3, and shard 1 blocks 4 to 7. What the one loses, the other answers without.
#[test]
fn two_shards_have_one_register(rt: HostRuntime) {
    let requests = &[Request::Write(0, 7), Request::Read(0)];
    let wanted = &[Answer::Done, Answer::Data(7)];
    let turns = &[
        Turn::Asks(Request::Write(4, 8), Answer::Done),
        Turn::Asks(Request::Read(4), Answer::Data(8)),
        Turn::Asks(Request::Read(0), Answer::Refused(2)),
        Turn::HasNamedNone,
        Turn::IsLost,
    ];
    let first = (Devices::WithoutSlot1, Course::AtOnce(requests, wanted));
    let second = (Devices::Whole, Course::InTurn(turns));
    play(&rt, rt.alloc(), &[first, second]);
}

// Of two parts for one generation the later is rebuilt, here one with rows; the earlier has none.
#[test]
fn the_later_part_of_an_attach_is_rebuilt_and_read(rt: HostRuntime) {
    let turns = &[
        Turn::Asks(Request::Write(0, 7), Answer::Done),
        Turn::Hands(1, 0, Handed::First),
        Turn::IsLost,
        Turn::Attaches,
        Turn::Hands(1, 4, Handed::Later),
        Turn::Runs,
        Turn::IsInSync,
        Turn::Asks(Request::Read(0), Answer::Data(7)),
        Turn::IsInSync,
        Turn::Hands(1, 4, Handed::Refused(PartRefusal::Looked, 1)),
        Turn::Hands(2, 4, Handed::Refused(PartRefusal::NoRoom, 2)),
    ];
    play(
        &rt,
        rt.alloc(),
        &[(Devices::WithoutSlot1, Course::InTurn(turns))],
    );
}

// Slot 1 performs the write of block 0, its command 0, and answers the read of it and the hold's by errors. The others
// give the block, which is written there and read again.
#[test]
fn a_block_that_cannot_be_read_is_fixed_and_its_slot_named(rt: HostRuntime) {
    let turns = &[
        Turn::Asks(Request::Write(0, 7), Answer::Done),
        Turn::HasNamedNone,
        Turn::Asks(Request::Read(0), Answer::Data(7)),
        Turn::HasNamedSlot1,
        Turn::IsInSync,
        Turn::Asks(Request::Read(0), Answer::Data(7)),
        Turn::IsInSync,
    ];
    play(
        &rt,
        rt.alloc(),
        &[(Devices::TwoFailures, Course::InTurn(turns))],
    );
}

// Block 1 stands in slot 2, in row 0 too: its write reads block 0, and fixes it.
#[test]
fn a_write_fixes_the_block_that_it_cannot_read(rt: HostRuntime) {
    let turns = &[
        Turn::Asks(Request::Write(1, 9), Answer::Done),
        Turn::HasNamedSlot1,
        Turn::IsInSync,
        Turn::Asks(Request::Read(1), Answer::Data(9)),
        Turn::Asks(Request::Read(0), Answer::Data(0)),
        Turn::IsInSync,
    ];
    play(
        &rt,
        rt.alloc(),
        &[(Devices::UnreadableRow, Course::InTurn(turns))],
    );
}
