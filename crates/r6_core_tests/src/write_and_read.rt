//! A write whose parity is confirmed before its data, and a read of it; with each slot lost, and each command failing, at
//! each token.
//!
//! Slot 0 of the row has Q, slot 1 the block, slot 2 the other block of data, of zeros, and slot 3 P.

use crate::bench::{Answer, Bench, Course, Step};
use std::alloc::Global;
use std::process::Abort;

/// Some steps of a course, each with its answer.
type Part = &'static [(Step, Answer)];

/// A whole course.
type Parts = &'static [Part];

const EMPTY: Course<'static> = Course {
    name: "no step",
    rows: 4,
    shards: 1,
    window: 1,
    lost: &[],
    steps: &[],
};

const WRITE: Part = &[
    (Step::Write(0, 0x5a), Answer::Accepted(0)),
    (Step::Take, Answer::Command(0, 2, 0)),
    (Step::Take, Answer::Nothing),
];

// What is answered with nothing lost, from one token to the next.

const TOKEN_0: Part = &[
    (Step::Do(0), Answer::Taken),
    (Step::Take, Answer::Command(1, 1, 0)),
    (Step::Take, Answer::Command(2, 3, 0)),
    (Step::Take, Answer::Command(3, 0, 0)),
    (Step::Take, Answer::Nothing),
];

const TOKEN_2: Part = &[(Step::Do(2), Answer::Taken)];

const TOKEN_1: Part = &[
    (Step::Do(1), Answer::Taken),
    (Step::Look, Answer::Looked),
    (Step::Reply, Answer::Nothing),
];

const TOKEN_3: Part = &[
    (Step::Do(3), Answer::Taken),
    (Step::Look, Answer::Looked),
    (Step::Reply, Answer::Done(0, 0x5a)),
];

const READ: Part = &[
    (Step::Read(0), Answer::Accepted(1)),
    (Step::Take, Answer::Command(4, 1, 0)),
    (Step::Take, Answer::Nothing),
];

const TOKEN_4: Part = &[
    (Step::Do(4), Answer::Taken),
    (Step::Look, Answer::Looked),
    (Step::Reply, Answer::Data(1, 0x5a)),
    (Step::Take, Answer::Nothing),
];

// What a loss changes.

const LOSE_0: Part = &[(Step::Lose(0), Answer::Lost), (Step::Look, Answer::Looked)];

const LOSE_1: Part = &[(Step::Lose(1), Answer::Lost), (Step::Look, Answer::Looked)];

const LOSE_2: Part = &[(Step::Lose(2), Answer::Lost), (Step::Look, Answer::Looked)];

const LOSE_3: Part = &[(Step::Lose(3), Answer::Lost), (Step::Look, Answer::Looked)];

/// After an error its loss is declared.
const TELL: Part = &[
    (Step::Look, Answer::Refused(8)),
    (Step::TellAll, Answer::Told(1, false)),
    (Step::Look, Answer::Looked),
];

/// Two of the three writes are put out, and there is no token 3.
const TWO_WRITES: Part = &[
    (Step::Do(0), Answer::Taken),
    (Step::TakeAll, Answer::Commands(2)),
    (Step::Do(3), Answer::Nothing),
    (Step::Do(2), Answer::Taken),
];

/// The last write is confirmed: that of Q was abandoned, or never put out.
const LAST_1: Part = &[
    (Step::Do(1), Answer::Taken),
    (Step::Look, Answer::Looked),
    (Step::Reply, Answer::Done(0, 0x5a)),
];

const LATE_1: Part = &[
    (Step::Do(1), Answer::Late),
    (Step::Look, Answer::Looked),
    (Step::Reply, Answer::Nothing),
];

const LATE_2: Part = &[(Step::Do(2), Answer::Late)];

const LATE_3: Part = &[(Step::Do(3), Answer::Late)];

/// The look that hears of the loss of Q's slot ends the write.
const LOOK_ENDS: Part = &[(Step::Reply, Answer::Done(0, 0x5a))];

/// The block that the write had to read is lost: the row is read elsewhere.
const TWO_READS: Part = &[
    (Step::Take, Answer::Command(1, 1, 0)),
    (Step::Take, Answer::Command(2, 3, 0)),
    (Step::Take, Answer::Nothing),
];

const LATE_0: Part = &[(Step::Do(0), Answer::Late)];

/// Then the three writes come, and the read after them.
const REST_AT_3: Part = &[
    (Step::Take, Answer::Command(3, 1, 0)),
    (Step::Take, Answer::Command(4, 3, 0)),
    (Step::Take, Answer::Command(5, 0, 0)),
    (Step::Take, Answer::Nothing),
    (Step::Do(3), Answer::Taken),
    (Step::Do(4), Answer::Taken),
    (Step::Look, Answer::Looked),
    (Step::Reply, Answer::Nothing),
    (Step::Do(5), Answer::Taken),
    (Step::Look, Answer::Looked),
    (Step::Reply, Answer::Done(0, 0x5a)),
    (Step::Read(0), Answer::Accepted(1)),
    (Step::Take, Answer::Command(6, 1, 0)),
    (Step::Take, Answer::Nothing),
    (Step::Do(6), Answer::Taken),
    (Step::Look, Answer::Looked),
    (Step::Reply, Answer::Data(1, 0x5a)),
];

/// The read is token 3, since one write was never put out.
const READ_AT_3: Part = &[
    (Step::Read(0), Answer::Accepted(1)),
    (Step::Take, Answer::Command(3, 1, 0)),
    (Step::Take, Answer::Nothing),
    (Step::Do(3), Answer::Taken),
    (Step::Look, Answer::Looked),
    (Step::Reply, Answer::Data(1, 0x5a)),
];

/// Likewise, and the block is computed from the other block of data and P.
const SUM_AT_3: Part = &[
    (Step::Read(0), Answer::Accepted(1)),
    (Step::Take, Answer::Command(3, 2, 0)),
    (Step::Take, Answer::Command(4, 3, 0)),
    (Step::Take, Answer::Nothing),
    (Step::Do(3), Answer::Taken),
    (Step::Do(4), Answer::Taken),
    (Step::Look, Answer::Looked),
    (Step::Reply, Answer::Data(1, 0x5a)),
];

const SUM_AT_4: Part = &[
    (Step::Read(0), Answer::Accepted(1)),
    (Step::Take, Answer::Command(4, 2, 0)),
    (Step::Take, Answer::Command(5, 3, 0)),
    (Step::Take, Answer::Nothing),
    (Step::Do(4), Answer::Taken),
    (Step::Do(5), Answer::Taken),
    (Step::Look, Answer::Looked),
    (Step::Reply, Answer::Data(1, 0x5a)),
];

/// The read is out when its slot is lost.
const SUM_AT_5: Part = &[
    (Step::Take, Answer::Command(5, 2, 0)),
    (Step::Take, Answer::Command(6, 3, 0)),
    (Step::Take, Answer::Nothing),
    (Step::Do(5), Answer::Taken),
    (Step::Do(6), Answer::Taken),
    (Step::Look, Answer::Looked),
    (Step::Reply, Answer::Data(1, 0x5a)),
];

const LATE_4: Part = &[(Step::Do(4), Answer::Late)];

// An error in place of a token's answer.

const ERROR_0: Part = &[(Step::Fail(0), Answer::Taken)];

const ERROR_2: Part = &[(Step::Fail(2), Answer::Taken)];

const ERROR_1: Part = &[(Step::Fail(1), Answer::Taken)];

const ERROR_3: Part = &[(Step::Fail(3), Answer::Taken)];

const ERROR_4: Part = &[(Step::Fail(4), Answer::Taken)];

const NO_REPLY: Part = &[(Step::Reply, Answer::Nothing)];

// The block and both parities, which are the same, as the other block is of zeros; but for those of a lost slot.

const BUT_0: Part = &[
    (Step::Stored(1, 0), Answer::Stored(0x5a)),
    (Step::Stored(3, 0), Answer::Stored(0x5a)),
];

const BUT_1: Part = &[
    (Step::Stored(0, 0), Answer::Stored(0x5a)),
    (Step::Stored(3, 0), Answer::Stored(0x5a)),
];

const ALL: Part = &[
    (Step::Stored(0, 0), Answer::Stored(0x5a)),
    (Step::Stored(1, 0), Answer::Stored(0x5a)),
    (Step::Stored(3, 0), Answer::Stored(0x5a)),
];

const BUT_3: Part = &[
    (Step::Stored(0, 0), Answer::Stored(0x5a)),
    (Step::Stored(1, 0), Answer::Stored(0x5a)),
];

const NO_LOSS: &[Parts] = &[&[
    WRITE, TOKEN_0, TOKEN_2, TOKEN_1, TOKEN_3, READ, TOKEN_4, ALL,
]];

// By slot, and then with an error.

const AT_TOKEN_0: &[Parts] = &[
    &[WRITE, LOSE_0, TWO_WRITES, LAST_1, READ_AT_3, BUT_0],
    &[WRITE, LOSE_1, TWO_WRITES, LAST_1, SUM_AT_3, BUT_1],
    &[
        WRITE, LOSE_2, TWO_READS, LATE_0, TOKEN_2, TOKEN_1, REST_AT_3, ALL,
    ],
    &[WRITE, LOSE_3, TWO_WRITES, LAST_1, READ_AT_3, BUT_3],
    &[
        WRITE, ERROR_0, TWO_READS, TELL, TOKEN_2, TOKEN_1, REST_AT_3, ALL,
    ],
];

const AT_TOKEN_2: &[Parts] = &[
    &[
        WRITE, TOKEN_0, LOSE_0, TOKEN_2, LAST_1, LATE_3, READ, TOKEN_4, BUT_0,
    ],
    &[
        WRITE, TOKEN_0, LOSE_1, TOKEN_2, LATE_1, TOKEN_3, SUM_AT_4, BUT_1,
    ],
    &[
        WRITE, TOKEN_0, LOSE_2, TOKEN_2, TOKEN_1, TOKEN_3, READ, TOKEN_4, ALL,
    ],
    &[
        WRITE, TOKEN_0, LOSE_3, LATE_2, TOKEN_1, TOKEN_3, READ, TOKEN_4, BUT_3,
    ],
    &[
        WRITE, TOKEN_0, ERROR_2, TELL, TOKEN_1, TOKEN_3, READ, TOKEN_4, BUT_3,
    ],
];

const AT_TOKEN_1: &[Parts] = &[
    &[
        WRITE, TOKEN_0, TOKEN_2, LOSE_0, LAST_1, LATE_3, READ, TOKEN_4, BUT_0,
    ],
    &[
        WRITE, TOKEN_0, TOKEN_2, LOSE_1, LATE_1, TOKEN_3, SUM_AT_4, BUT_1,
    ],
    &[
        WRITE, TOKEN_0, TOKEN_2, LOSE_2, TOKEN_1, TOKEN_3, READ, TOKEN_4, ALL,
    ],
    &[
        WRITE, TOKEN_0, TOKEN_2, LOSE_3, TOKEN_1, TOKEN_3, READ, TOKEN_4, BUT_3,
    ],
    &[
        WRITE, TOKEN_0, TOKEN_2, ERROR_1, TELL, NO_REPLY, TOKEN_3, SUM_AT_4, BUT_1,
    ],
];

const AT_TOKEN_3: &[Parts] = &[
    &[
        WRITE, TOKEN_0, TOKEN_2, TOKEN_1, LOSE_0, LOOK_ENDS, LATE_3, READ, TOKEN_4, BUT_0,
    ],
    &[
        WRITE, TOKEN_0, TOKEN_2, TOKEN_1, LOSE_1, TOKEN_3, SUM_AT_4, BUT_1,
    ],
    &[
        WRITE, TOKEN_0, TOKEN_2, TOKEN_1, LOSE_2, TOKEN_3, READ, TOKEN_4, ALL,
    ],
    &[
        WRITE, TOKEN_0, TOKEN_2, TOKEN_1, LOSE_3, TOKEN_3, READ, TOKEN_4, BUT_3,
    ],
    &[
        WRITE, TOKEN_0, TOKEN_2, TOKEN_1, ERROR_3, TELL, LOOK_ENDS, READ, TOKEN_4, BUT_0,
    ],
];

const AT_TOKEN_4: &[Parts] = &[
    &[
        WRITE, TOKEN_0, TOKEN_2, TOKEN_1, TOKEN_3, READ, LOSE_0, TOKEN_4, BUT_0,
    ],
    &[
        WRITE, TOKEN_0, TOKEN_2, TOKEN_1, TOKEN_3, READ, LOSE_1, LATE_4, SUM_AT_5, BUT_1,
    ],
    &[
        WRITE, TOKEN_0, TOKEN_2, TOKEN_1, TOKEN_3, READ, LOSE_2, TOKEN_4, ALL,
    ],
    &[
        WRITE, TOKEN_0, TOKEN_2, TOKEN_1, TOKEN_3, READ, LOSE_3, TOKEN_4, BUT_3,
    ],
    &[
        WRITE, TOKEN_0, TOKEN_2, TOKEN_1, TOKEN_3, READ, ERROR_4, TELL, SUM_AT_5, BUT_1,
    ],
];

/// The courses with a loss before each token, in the order in which the tokens are answered.
const TABLES: &[&[Parts]] = &[
    NO_LOSS, AT_TOKEN_0, AT_TOKEN_2, AT_TOKEN_1, AT_TOKEN_3, AT_TOKEN_4,
];

fn tables() -> &'static [&'static [Parts]] {
    TABLES
}

impl Bench {
    /// How many parts are answered as they have to be, up to the first that isn't.
    fn take_parts(&mut self, parts: Parts) -> usize {
        for (index, part) in parts.iter().enumerate() {
            if self.take_steps(*part).is_err() {
                return index;
            }
        }
        parts.len()
    }
}

/// A core takes the parts of a course: how many are answered as they have to be.
fn play(alloc: Global, parts: Parts) -> usize {
    match Bench::new(alloc, &EMPTY) {
        Some(mut bench) => bench.take_parts(parts),
        None => 0,
    }
}

fn play_each<R: Abort>(rt: &R, alloc: Global, table: usize, courses: &[Parts]) {
    for (course, parts) in courses.iter().enumerate() {
        let part = play(alloc, *parts);
        assert!(rt;
            part == parts.len(),
            "table {table}, course {course}, part {part}"
        );
    }
}

#[test]
fn a_slot_lost_at_any_token_changes_no_answer(rt: HostRuntime) {
    for (table, courses) in tables().iter().enumerate() {
        play_each(&rt, rt.alloc(), table, *courses);
    }
}
