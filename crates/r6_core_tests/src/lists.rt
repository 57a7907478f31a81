//! Requests that are handed in together.

use crate::bench::{Answer, Course, Requests, Step};

const COURSES: &[Course<'static>] = &[
    Course {
        name: "writes of a whole row that are handed in together read nothing",
        rows: 4,
        shards: 1,
        window: 1,
        lost: &[],
        steps: &[
            (
                Step::Together(&[(0, Some(0x11)), (1, Some(0x22)), (2, None)]),
                Answer::Together(0, 3, 0, 0),
            ),
            (Step::TakeAll, Answer::Commands(5)),
            (Step::Do(0), Answer::Taken),
            (Step::Do(1), Answer::Taken),
            (Step::Do(2), Answer::Taken),
            (Step::Do(3), Answer::Taken),
            (Step::Do(4), Answer::Taken),
            (Step::Look, Answer::Looked),
            (Step::Reply, Answer::Done(0, 0x11)),
            (Step::Reply, Answer::Done(1, 0x22)),
            (Step::Reply, Answer::Data(2, 0)),
            (Step::Reply, Answer::Nothing),
            (Step::Stored(1, 0), Answer::Stored(0x11)),
            (Step::Stored(2, 0), Answer::Stored(0x22)),
            (Step::Stored(3, 0), Answer::Stored(0x33)),
            (Step::Stored(0, 0), Answer::Stored(0x55)),
        ],
    },
    // The second write of block 0 waits for the next hold; the first one of each block goes with the first.
    Course {
        name: "two writes of a block in one list act in their order",
        rows: 4,
        shards: 1,
        window: 1,
        lost: &[],
        steps: &[
            (
                Step::Together(&[(0, Some(0x11)), (0, Some(0x44)), (1, Some(0x22))]),
                Answer::Together(0, 3, 0, 0),
            ),
            (Step::Drive(4), Answer::Driven(4, 0)),
            (Step::Drive(9), Answer::Driven(4, 0)),
            (Step::Look, Answer::Looked),
            (Step::Reply, Answer::Done(0, 0x11)),
            (Step::Reply, Answer::Done(2, 0x22)),
            (Step::Reply, Answer::Done(1, 0x44)),
            (Step::Stored(1, 0), Answer::Stored(0x44)),
            (Step::Stored(3, 0), Answer::Stored(0x66)),
        ],
    },
    // Shard 0 has the blocks 0 to 3 of 8.
    Course {
        name: "a list is taken up to the first that is refused",
        rows: 4,
        shards: 2,
        window: 1,
        lost: &[],
        steps: &[
            (
                Step::Together(&[(0, Some(0x11)), (8, Some(0x22)), (1, Some(0x33))]),
                Answer::Together(0, 1, 1, 2),
            ),
            (
                Step::Together(&[(4, None), (0, None)]),
                Answer::Together(1, 0, 2, 2),
            ),
            (Step::Together(&[]), Answer::Together(1, 0, 0, 0)),
            (Step::Drive(9), Answer::Driven(4, 0)),
            (Step::Look, Answer::Looked),
            (Step::Reply, Answer::Done(0, 0x11)),
            (Step::Reply, Answer::Nothing),
        ],
    },
    Course {
        name: "a list is taken until 256 are unanswered",
        rows: 4,
        shards: 1,
        window: 1,
        lost: &[],
        steps: &[
            (
                Step::Submit(Requests::ReadEight, 0, 253),
                Answer::AllAccepted,
            ),
            (
                Step::Together(&[(0, None), (1, None), (2, None), (3, None), (4, None)]),
                Answer::Together(253, 3, 4, 2),
            ),
            (Step::Drive(1000), Answer::Driven(256, 0)),
        ],
    },
    // A list that comes behind what waits doesn't overtake it, and what waits joins no new hold.
    Course {
        name: "a list stands behind what waits",
        rows: 4,
        shards: 1,
        window: 1,
        lost: &[],
        steps: &[
            (Step::Write(0, 0x11), Answer::Accepted(0)),
            (Step::Write(0, 0x22), Answer::Accepted(1)),
            (
                Step::Together(&[(0, Some(0x44)), (1, Some(0x55)), (3, None)]),
                Answer::Together(2, 3, 0, 0),
            ),
            (Step::Drive(99), Answer::Driven(13, 0)),
            (Step::Look, Answer::Looked),
            (Step::Stored(1, 0), Answer::Stored(0x44)),
            (Step::Stored(2, 0), Answer::Stored(0x55)),
        ],
    },
    // Block 0 of row 0 stands on slot 1, block 1 on slot 2, P on slot 3 and Q on slot 0.
    Course {
        name: "a whole row that loses a device while it is written",
        rows: 4,
        shards: 1,
        window: 1,
        lost: &[],
        steps: &[
            (
                Step::Together(&[(0, Some(0x11)), (1, Some(0x22))]),
                Answer::Together(0, 2, 0, 0),
            ),
            (Step::TakeAll, Answer::Commands(4)),
            (Step::Fail(1), Answer::Taken),
            (Step::Do(0), Answer::Taken),
            (Step::Do(2), Answer::Taken),
            (Step::Do(3), Answer::Taken),
            (Step::TellAll, Answer::Told(1, false)),
            (Step::Look, Answer::Looked),
            (Step::Reply, Answer::Done(0, 0x11)),
            (Step::Reply, Answer::Done(1, 0x22)),
            (Step::Reply, Answer::Nothing),
            (Step::Stored(1, 0), Answer::Stored(0x11)),
            (Step::Stored(3, 0), Answer::Stored(0x33)),
            (Step::Stored(0, 0), Answer::Stored(0x55)),
        ],
    },
    // A shard that has stopped takes a list and starts none of it, until a look sees that the array has failed.
    Course {
        name: "a list for a shard that has stopped",
        rows: 4,
        shards: 1,
        window: 1,
        lost: &[2, 3],
        steps: &[
            (Step::Read(0), Answer::Accepted(0)),
            (Step::Take, Answer::Command(0, 1, 0)),
            (Step::Fail(0), Answer::Taken),
            (
                Step::Together(&[(0, Some(0x11)), (1, Some(0x22))]),
                Answer::Together(1, 2, 0, 0),
            ),
            (Step::TakeAll, Answer::Commands(0)),
            (Step::TellAll, Answer::Told(1, true)),
            (Step::Look, Answer::Looked),
            (
                Step::Together(&[(0, Some(0x33))]),
                Answer::Together(3, 0, 5, 1),
            ),
            (Step::Reply, Answer::Failed(0)),
            (Step::Reply, Answer::Failed(1)),
            (Step::Reply, Answer::Failed(2)),
            (Step::Reply, Answer::Nothing),
        ],
    },
];

pub(crate) fn courses() -> &'static [Course<'static>] {
    COURSES
}
