//! Reads of positions that are in sync: they hold no row and wait for none, and wait again where their device is lost.
//!
//! In rows 0 to 3 of the array the slots have, in order: Q, D0, D1, P; D0, D1, P, Q; D1, P, Q, D0; P, Q, D0, D1.

use crate::bench::{Answer, Course, Requests, Step};
use r6_core::Task;

const COURSES: &[Course<'static>] = &[
    // Token 1 writes the block. A read before it is done gives the old block, one behind it the new, while P and Q are
    // not written yet.
    Course {
        name: "a read beside a write gives what the device has",
        rows: 4,
        shards: 1,
        window: 1,
        lost: &[],
        steps: &[
            (Step::Write(0, 0x5a), Answer::Accepted(0)),
            (Step::Drive(1), Answer::Driven(1, 0)),
            (Step::TakeAll, Answer::Commands(3)),
            (Step::Read(0), Answer::Accepted(1)),
            (Step::Take, Answer::Command(4, 1, 0)),
            (Step::Do(4), Answer::Taken),
            (Step::Look, Answer::Looked),
            (Step::Reply, Answer::Data(1, 0)),
            (Step::Do(1), Answer::Taken),
            (Step::Read(0), Answer::Accepted(2)),
            (Step::Take, Answer::Command(5, 1, 0)),
            (Step::Do(5), Answer::Taken),
            (Step::Look, Answer::Looked),
            (Step::Reply, Answer::Data(2, 0x5a)),
            (Step::Reply, Answer::Nothing),
            (Step::Do(2), Answer::Taken),
            (Step::Do(3), Answer::Taken),
            (Step::Look, Answer::Looked),
            (Step::Reply, Answer::Done(0, 0x5a)),
        ],
    },
    // The row is checked while its block is read, and its block is read while the row is checked.
    Course {
        name: "reads and checks wait for each other in no row",
        rows: 4,
        shards: 1,
        window: 1,
        lost: &[],
        steps: &[
            (Step::Read(0), Answer::Accepted(0)),
            (Step::Turn(Task::Check), Answer::Started),
            (Step::Read(1), Answer::Accepted(1)),
            (Step::Take, Answer::Command(0, 1, 0)),
            (Step::TakeAll, Answer::Commands(5)),
            (Step::Do(5), Answer::Taken),
            (Step::Do(0), Answer::Taken),
            (Step::Look, Answer::Looked),
            (Step::Reply, Answer::Data(1, 0)),
            (Step::Reply, Answer::Data(0, 0)),
            // row 0 is held still, by the check
            (Step::Turn(Task::Repair), Answer::Refused(10)),
        ],
    },
    // All are of one block.
    Course {
        name: "sixty four reads of one block are under way at once",
        rows: 4,
        shards: 1,
        window: 1,
        lost: &[],
        steps: &[
            (Step::Spoil(1, 0, 0x5a), Answer::Spoilt),
            (Step::Submit(Requests::Read(0), 0, 64), Answer::AllAccepted),
            (Step::TakeAll, Answer::Commands(64)),
            (Step::Do(63), Answer::Taken),
            (Step::Do(0), Answer::Taken),
            (Step::Look, Answer::Looked),
            (Step::Reply, Answer::Data(63, 0x5a)),
            (Step::Reply, Answer::Data(0, 0x5a)),
        ],
    },
    // The 65th is one too many for the buffers of such reads. It waits for one, though its row has no holder and frames
    // are free: a write goes past it, which reads the other block of data of its row 1, in slot 1.
    Course {
        name: "a read waits for a buffer and holds no row",
        rows: 4,
        shards: 1,
        window: 1,
        lost: &[],
        steps: &[
            (Step::Submit(Requests::Read(0), 0, 65), Answer::AllAccepted),
            (Step::TakeAll, Answer::Commands(64)),
            (Step::Take, Answer::Nothing),
            (Step::Write(2, 0x5a), Answer::Accepted(65)),
            (Step::Take, Answer::Command(64, 1, 1)),
            (Step::Do(9), Answer::Taken),
            (Step::Take, Answer::Command(65, 1, 0)),
            (Step::Take, Answer::Nothing),
        ],
    },
    // The other block of the row and P give it: 11 = 22 + 33.
    Course {
        name: "a read whose device fails is made again from the others",
        rows: 4,
        shards: 1,
        window: 1,
        lost: &[],
        steps: &[
            (Step::Write(0, 0x11), Answer::Accepted(0)),
            (Step::Drive(9), Answer::Driven(4, 0)),
            (Step::Write(1, 0x22), Answer::Accepted(1)),
            (Step::Drive(9), Answer::Driven(4, 0)),
            (Step::Read(0), Answer::Accepted(2)),
            (Step::Take, Answer::Command(8, 1, 0)),
            (Step::Fail(8), Answer::Taken),
            (Step::Take, Answer::Command(9, 2, 0)),
            (Step::Take, Answer::Command(10, 3, 0)),
            (Step::Take, Answer::Nothing),
            (Step::Do(9), Answer::Taken),
            (Step::Do(10), Answer::Taken),
            (Step::TellAll, Answer::Told(1, false)),
            (Step::Look, Answer::Looked),
            (Step::Reply, Answer::Done(0, 0x11)),
            (Step::Reply, Answer::Done(1, 0x22)),
            (Step::Reply, Answer::Data(2, 0x11)),
        ],
    },
    // The first write holds row 0, and the second waits for it. The read was accepted before the second, and gives what
    // that writes: its device, that of block 0, is lost when it is out.
    Course {
        name: "a read whose slot is lost goes behind those that wait",
        rows: 4,
        shards: 1,
        window: 1,
        lost: &[],
        steps: &[
            (Step::Write(1, 0x11), Answer::Accepted(0)),
            (Step::Read(0), Answer::Accepted(1)),
            (Step::Write(0, 0x22), Answer::Accepted(2)),
            (Step::Take, Answer::Command(0, 1, 0)),
            (Step::Take, Answer::Command(1, 1, 0)),
            (Step::Take, Answer::Nothing),
            (Step::Lose(1), Answer::Lost),
            (Step::Look, Answer::Looked),
            // the first write reads D1 and P, and writes D1, P and Q
            (Step::Drive(5), Answer::Driven(5, 0)),
            // the second reads D1, and writes P and Q
            (Step::Take, Answer::Command(7, 2, 0)),
            (Step::Take, Answer::Nothing),
            (Step::Do(7), Answer::Taken),
            (Step::Drive(2), Answer::Driven(2, 0)),
            // D1 and P
            (Step::Take, Answer::Command(10, 2, 0)),
            (Step::Take, Answer::Command(11, 3, 0)),
            (Step::Take, Answer::Nothing),
            (Step::Do(10), Answer::Taken),
            (Step::Do(11), Answer::Taken),
            (Step::Look, Answer::Looked),
            (Step::Reply, Answer::Done(0, 0x11)),
            (Step::Reply, Answer::Done(2, 0x22)),
            (Step::Reply, Answer::Data(1, 0x22)),
        ],
    },
    // Both blocks stand in slot 1. The third read takes over the buffer of the first, in front of that of the second.
    Course {
        name: "reads of one loss wait again in the order of their tokens",
        rows: 4,
        shards: 1,
        window: 1,
        lost: &[],
        steps: &[
            (Step::Read(0), Answer::Accepted(0)),
            (Step::Read(3), Answer::Accepted(1)),
            (Step::Take, Answer::Command(0, 1, 0)),
            (Step::Do(0), Answer::Taken),
            (Step::Read(0), Answer::Accepted(2)),
            (Step::Take, Answer::Command(1, 1, 1)),
            (Step::Take, Answer::Command(2, 1, 0)),
            (Step::Fail(2), Answer::Taken),
            // row 1 before row 0
            (Step::Take, Answer::Command(3, 0, 1)),
            (Step::Take, Answer::Command(4, 2, 1)),
            (Step::Take, Answer::Command(5, 2, 0)),
            (Step::Take, Answer::Command(6, 3, 0)),
            (Step::Take, Answer::Nothing),
            (Step::Deliver(1, 16, 0xee), Answer::Late),
            (Step::Drive(9), Answer::Driven(0, 0)),
        ],
    },
    // The earlier read is that of slot 2, and one look finds both slots lost.
    Course {
        name: "reads of one look wait again in the order of their tokens",
        rows: 4,
        shards: 1,
        window: 1,
        lost: &[],
        steps: &[
            (Step::Read(1), Answer::Accepted(0)),
            (Step::Read(3), Answer::Accepted(1)),
            (Step::Take, Answer::Command(0, 2, 0)),
            (Step::Take, Answer::Command(1, 1, 1)),
            (Step::Lose(1), Answer::Lost),
            (Step::Lose(2), Answer::Lost),
            (Step::Look, Answer::Looked),
            // P and Q of row 0, and D0 and Q of row 1
            (Step::Take, Answer::Command(2, 3, 0)),
            (Step::Take, Answer::Command(3, 0, 0)),
            (Step::Take, Answer::Command(4, 0, 1)),
            (Step::Take, Answer::Command(5, 3, 1)),
            (Step::Take, Answer::Nothing),
        ],
    },
    // Block 0 stands in slot 1. The 64 reads of it go on without slot 1, two reads each, one after another; their first
    // commands are out. Then a write holds row 1, so that a read of its block 2 has to have one of their buffers.
    Course {
        name: "a buffer is free when the late completion is home",
        rows: 4,
        shards: 1,
        window: 1,
        lost: &[],
        steps: &[
            (Step::Submit(Requests::Read(0), 0, 64), Answer::AllAccepted),
            (Step::TakeAll, Answer::Commands(64)),
            (Step::Lose(1), Answer::Lost),
            (Step::Look, Answer::Looked),
            (Step::Drive(999), Answer::Driven(128, 0)),
            (Step::Write(2, 0x5a), Answer::Accepted(64)),
            (Step::TakeAll, Answer::Commands(2)),
            (Step::DeliverLate(0, 63), Answer::AllLate),
            (
                Step::Submit(Requests::Read(2), 65, 129),
                Answer::AllAccepted,
            ),
            (Step::TakeAll, Answer::Commands(63)),
            (Step::Deliver(63, 16, 0xee), Answer::Late),
            (Step::Take, Answer::Command(257, 0, 1)),
            (Step::Take, Answer::Nothing),
        ],
    },
];

pub(crate) fn courses() -> &'static [Course<'static>] {
    COURSES
}
