//! Checks and repairs, step by step: what they read and write, what they count, and when a turn is refused.
//!
//! In rows 0 to 3 of the array the slots have, in order: Q, D0, D1, P; D0, D1, P, Q; D1, P, Q, D0; P, Q, D0, D1.

use crate::bench::{Answer, Course, Requests, Step};
use r6_core::{Counts, Task};

const NONE: Counts = Counts {
    consistent: 0,
    wrong_p: 0,
    wrong_q: 0,
    wrong_data: 0,
    many: 0,
    skipped: 0,
    repaired: 0,
    rebuilt: 0,
};

/// A row of four slots is read, and nothing is written.
const READ: Answer = Answer::Driven(4, 0);

const EACH_CLASS: Counts = Counts {
    wrong_p: 1,
    wrong_q: 1,
    wrong_data: 1,
    many: 1,
    ..NONE
};

const AGAIN: Counts = Counts {
    wrong_p: 2,
    ..EACH_CLASS
};

const REPAIRED: Counts = Counts {
    wrong_p: 2,
    repaired: 4,
    ..EACH_CLASS
};

const WHOLE: Counts = Counts {
    consistent: 4,
    ..REPAIRED
};

const COURSES: &[Course<'static>] = &[
    Course {
        name: "a check counts each class and writes nothing",
        rows: 4,
        shards: 1,
        window: 1,
        lost: &[],
        steps: &[
            // a wrong D0 is off by as much in P as in Q; one and eight can be no data block's of two
            (Step::Spoil(3, 0, 0x11), Answer::Spoilt),
            (Step::Spoil(3, 1, 0x22), Answer::Spoilt),
            (Step::Spoil(3, 2, 0x33), Answer::Spoilt),
            (Step::Spoil(0, 3, 0x01), Answer::Spoilt),
            (Step::Spoil(1, 3, 0x08), Answer::Spoilt),
            (Step::Pass(Task::Check), READ),
            (Step::Pass(Task::Check), READ),
            (Step::Pass(Task::Check), READ),
            (Step::Pass(Task::Check), READ),
            (Step::Counts(EACH_CLASS), Answer::Counted),
            // behind the last row comes the first again
            (Step::Pass(Task::Check), READ),
            (Step::Counts(AGAIN), Answer::Counted),
        ],
    },
    // The repair goes by itself: the checks before it did not move it on.
    Course {
        name: "a repair writes the wrong parities and no data",
        rows: 4,
        shards: 1,
        window: 1,
        lost: &[],
        steps: &[
            // a wrong D0 is off by as much in P as in Q; one and eight can be no data block's of two
            (Step::Spoil(3, 0, 0x11), Answer::Spoilt),
            (Step::Spoil(3, 1, 0x22), Answer::Spoilt),
            (Step::Spoil(3, 2, 0x33), Answer::Spoilt),
            (Step::Spoil(0, 3, 0x01), Answer::Spoilt),
            (Step::Spoil(1, 3, 0x08), Answer::Spoilt),
            (Step::Pass(Task::Check), READ),
            (Step::Pass(Task::Repair), Answer::Driven(5, 0)),
            (Step::Pass(Task::Repair), Answer::Driven(5, 0)),
            (Step::Pass(Task::Repair), Answer::Driven(6, 0)),
            (Step::Pass(Task::Repair), Answer::Driven(6, 0)),
            (Step::Counts(REPAIRED), Answer::Counted),
            (Step::Stored(3, 0), Answer::Stored(0)),
            (Step::Stored(3, 1), Answer::Stored(0)),
            // D0 stays, and is P and Q of the row with a D1 of zeros
            (Step::Stored(3, 2), Answer::Stored(0x33)),
            (Step::Stored(0, 2), Answer::Stored(0)),
            (Step::Stored(1, 2), Answer::Stored(0x33)),
            (Step::Stored(2, 2), Answer::Stored(0x33)),
            (Step::Stored(0, 3), Answer::Stored(0)),
            (Step::Stored(1, 3), Answer::Stored(0)),
            (Step::Pass(Task::Check), READ),
            (Step::Pass(Task::Check), READ),
            (Step::Pass(Task::Check), READ),
            (Step::Pass(Task::Check), READ),
            (Step::Counts(WHOLE), Answer::Counted),
        ],
    },
    Course {
        name: "a request waits for the row of a check",
        rows: 4,
        shards: 1,
        window: 1,
        lost: &[],
        steps: &[
            (Step::Turn(Task::Check), Answer::Started),
            (Step::TakeAll, Answer::Commands(4)),
            (Step::Turn(Task::Repair), Answer::Refused(10)),
            (Step::Write(0, 0x5a), Answer::Accepted(0)),
            (Step::Take, Answer::Nothing),
            (Step::Do(0), Answer::Taken),
            (Step::Do(1), Answer::Taken),
            (Step::Do(2), Answer::Taken),
            (Step::Take, Answer::Nothing),
            (Step::Do(3), Answer::Taken),
            // D1 is read, D0, P and Q are written
            (Step::Take, Answer::Command(4, 2, 0)),
            (Step::Turn(Task::Repair), Answer::Refused(10)),
            (Step::Do(4), Answer::Taken),
            (Step::Drive(9), Answer::Driven(3, 0)),
            (Step::Look, Answer::Looked),
            (Step::Reply, Answer::Done(0, 0x5a)),
            (Step::Turn(Task::Repair), Answer::Started),
            (Step::Drive(9), Answer::Driven(4, 0)),
            (
                Step::Counts(Counts {
                    consistent: 2,
                    ..NONE
                }),
                Answer::Counted,
            ),
        ],
    },
    Course {
        name: "a row with a slot out is passed over held or not",
        rows: 4,
        shards: 1,
        window: 1,
        lost: &[],
        steps: &[
            (Step::Write(0, 0x5a), Answer::Accepted(0)),
            (Step::Take, Answer::Command(0, 2, 0)),
            (Step::Turn(Task::Check), Answer::Refused(10)),
            (Step::Lose(3), Answer::Lost),
            (Step::Look, Answer::Looked),
            (Step::Turn(Task::Check), Answer::Skipped),
            (Step::Turn(Task::Check), Answer::Skipped),
            (Step::Turn(Task::Repair), Answer::Skipped),
            (Step::Take, Answer::Nothing),
            (Step::Do(0), Answer::Taken),
            (Step::Counts(Counts { skipped: 3, ..NONE }), Answer::Counted),
        ],
    },
    // Token 1 is the read of slot 2, whose device fails.
    Course {
        name: "a check that loses a position is counted as skipped",
        rows: 4,
        shards: 1,
        window: 1,
        lost: &[],
        steps: &[
            (Step::Spoil(3, 0, 0x11), Answer::Spoilt),
            (Step::Turn(Task::Repair), Answer::Started),
            (Step::TakeAll, Answer::Commands(4)),
            (Step::Do(0), Answer::Taken),
            (Step::Fail(1), Answer::Taken),
            (Step::Do(2), Answer::Taken),
            (Step::Counts(NONE), Answer::Counted),
            (Step::Do(3), Answer::Taken),
            (Step::Counts(Counts { skipped: 1, ..NONE }), Answer::Counted),
            (Step::Take, Answer::Nothing),
            (Step::Stored(3, 0), Answer::Stored(0x11)),
        ],
    },
    // Its class was read, and the parity that is lost needs no repair any more.
    Course {
        name: "a repair that loses its parity is counted by its class",
        rows: 4,
        shards: 1,
        window: 1,
        lost: &[],
        steps: &[
            (Step::Spoil(3, 0, 0x11), Answer::Spoilt),
            (Step::Turn(Task::Repair), Answer::Started),
            (Step::Drive(4), Answer::Driven(4, 0)),
            (Step::Take, Answer::Command(4, 3, 0)),
            (Step::Counts(NONE), Answer::Counted),
            (Step::Fail(4), Answer::Taken),
            (
                Step::Counts(Counts {
                    wrong_p: 1,
                    repaired: 1,
                    ..NONE
                }),
                Answer::Counted,
            ),
        ],
    },
    Course {
        name: "a stopped shard has nothing to do",
        rows: 4,
        shards: 1,
        window: 1,
        lost: &[2, 3],
        steps: &[
            (Step::Turn(Task::Check), Answer::Skipped),
            (Step::Read(0), Answer::Accepted(0)),
            (Step::Take, Answer::Command(0, 1, 0)),
            (Step::Fail(0), Answer::Taken),
            (Step::Turn(Task::Check), Answer::Refused(10)),
            (Step::Turn(Task::Repair), Answer::Refused(10)),
            (Step::TellAll, Answer::Told(1, true)),
            (Step::Look, Answer::Looked),
            (Step::Turn(Task::Check), Answer::Refused(5)),
            (Step::Counts(Counts { skipped: 1, ..NONE }), Answer::Counted),
        ],
    },
    // Rows 1 to 64 are written, each its first block, and row 0 is free.
    Course {
        name: "a turn needs a frame",
        rows: 66,
        shards: 1,
        window: 1,
        lost: &[],
        steps: &[
            (
                Step::Submit(Requests::WriteRows(1), 0, 64),
                Answer::AllAccepted,
            ),
            (Step::Turn(Task::Check), Answer::Refused(9)),
            (Step::TakeAll, Answer::Commands(64)),
            (Step::Do(63), Answer::Taken),
            (Step::Turn(Task::Check), Answer::Refused(9)),
            (Step::Drive(3), Answer::Driven(3, 0)),
            (Step::Turn(Task::Check), Answer::Started),
            (Step::Turn(Task::Check), Answer::Refused(10)),
            (Step::Turn(Task::Repair), Answer::Refused(10)),
        ],
    },
];

pub(crate) fn courses() -> &'static [Course<'static>] {
    COURSES
}
