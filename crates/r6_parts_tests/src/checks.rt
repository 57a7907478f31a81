//! Checks and repairs of a row, driven over blocks in memory.

use crate::bench::{Ask, Course, Step};
use r6_recover::RowClass;
use r6_stripe::Outcome;

/// A full row of four positions: P is the sum of the data, and Q is 01 + x 80 = 01 + 1d.
const ROW: [u8; 4] = [0x01, 0x80, 0x81, 0x1c];

/// A row whose first data block is wrong.
const WRONG: [u8; 4] = [0x01, 0x80, 0x80, 0x1d];

const CLASSED: Outcome = Outcome::Classed(RowClass::WrongData(0));

pub(crate) const COURSES: &[Course<'static>] = &[
    // All four reads are out when a position is lost: the check is over when the other three are answered.
    Course {
        name: "a check that is cut short waits for its reads",
        ask: Ask::Check,
        bytes: &ROW,
        in_sync: &[true; 4],
        steps: &[
            Step::PutOut(4),
            Step::Lose(1),
            Step::Answer(0),
            Step::Answer(1),
            Step::Answer(2),
            Step::End(None),
            Step::Answer(3),
            Step::Nothing,
            Step::End(Some(Outcome::GivenUp)),
            Step::IsHome(true),
        ],
        after: &ROW,
        lost: &[],
    },
    Course {
        name: "a repair's loss before any read",
        ask: Ask::Repair,
        bytes: &WRONG,
        in_sync: &[true; 4],
        steps: &[
            Step::Drive(0, 0),
            Step::End(None),
            Step::Lose(3),
            Step::Drive(9, 0),
            Step::End(Some(Outcome::GivenUp)),
            Step::IsHome(true),
        ],
        after: &WRONG,
        lost: &[3],
    },
    Course {
        name: "a repair's loss of a block that was read",
        ask: Ask::Repair,
        bytes: &WRONG,
        in_sync: &[true; 4],
        steps: &[
            Step::Drive(2, 2),
            Step::End(None),
            Step::Lose(0),
            Step::Drive(9, 0),
            Step::End(Some(Outcome::GivenUp)),
            Step::IsHome(true),
        ],
        after: &WRONG,
        lost: &[0],
    },
    Course {
        name: "a repair's loss of a block that was not read",
        ask: Ask::Repair,
        bytes: &WRONG,
        in_sync: &[true; 4],
        steps: &[
            Step::Drive(2, 2),
            Step::End(None),
            Step::Lose(3),
            Step::Drive(9, 0),
            Step::End(Some(Outcome::GivenUp)),
            Step::IsHome(true),
        ],
        after: &WRONG,
        lost: &[3],
    },
    Course {
        name: "a repair's loss of data after the reads",
        ask: Ask::Repair,
        bytes: &WRONG,
        in_sync: &[true; 4],
        steps: &[
            Step::Drive(4, 4),
            Step::End(None),
            Step::Lose(0),
            Step::Drive(9, 2),
            Step::End(Some(CLASSED)),
            Step::IsHome(true),
        ],
        after: &ROW,
        lost: &[0],
    },
    Course {
        name: "a repair's loss of P after the reads",
        ask: Ask::Repair,
        bytes: &WRONG,
        in_sync: &[true; 4],
        steps: &[
            Step::Drive(4, 4),
            Step::End(None),
            Step::Lose(2),
            Step::Drive(9, 1),
            Step::End(Some(CLASSED)),
            Step::IsHome(true),
        ],
        after: &ROW,
        lost: &[2],
    },
    // What P and Q differ by is 0 or 1 in the place of P, and that times x^z in the place of Q where data block z is
    // wrong.
    Course {
        name: "a check of a consistent row writes nothing",
        ask: Ask::Check,
        bytes: &ROW,
        in_sync: &[true; 4],
        steps: &[
            Step::Drive(9, 4),
            Step::End(Some(Outcome::Classed(RowClass::Consistent))),
        ],
        after: &ROW,
        lost: &[],
    },
    Course {
        name: "a repair of a consistent row writes nothing",
        ask: Ask::Repair,
        bytes: &ROW,
        in_sync: &[true; 4],
        steps: &[
            Step::Drive(9, 4),
            Step::End(Some(Outcome::Classed(RowClass::Consistent))),
        ],
        after: &ROW,
        lost: &[],
    },
    Course {
        name: "a check of a row with a wrong P writes nothing",
        ask: Ask::Check,
        bytes: &[0x01, 0x80, 0x80, 0x1c],
        in_sync: &[true; 4],
        steps: &[
            Step::Drive(9, 4),
            Step::End(Some(Outcome::Classed(RowClass::WrongP))),
        ],
        after: &[0x01, 0x80, 0x80, 0x1c],
        lost: &[],
    },
    Course {
        name: "a repair of a row with a wrong P writes P",
        ask: Ask::Repair,
        bytes: &[0x01, 0x80, 0x80, 0x1c],
        in_sync: &[true; 4],
        steps: &[
            Step::Drive(9, 5),
            Step::End(Some(Outcome::Classed(RowClass::WrongP))),
        ],
        after: &ROW,
        lost: &[],
    },
    Course {
        name: "a check of a row with a wrong Q writes nothing",
        ask: Ask::Check,
        bytes: &[0x01, 0x80, 0x81, 0x1d],
        in_sync: &[true; 4],
        steps: &[
            Step::Drive(9, 4),
            Step::End(Some(Outcome::Classed(RowClass::WrongQ))),
        ],
        after: &[0x01, 0x80, 0x81, 0x1d],
        lost: &[],
    },
    Course {
        name: "a repair of a row with a wrong Q writes Q",
        ask: Ask::Repair,
        bytes: &[0x01, 0x80, 0x81, 0x1d],
        in_sync: &[true; 4],
        steps: &[
            Step::Drive(9, 5),
            Step::End(Some(Outcome::Classed(RowClass::WrongQ))),
        ],
        after: &ROW,
        lost: &[],
    },
    Course {
        name: "a check of a row with a wrong block writes nothing",
        ask: Ask::Check,
        bytes: &[0x01, 0x80, 0x80, 0x1e],
        in_sync: &[true; 4],
        steps: &[
            Step::Drive(9, 4),
            Step::End(Some(Outcome::Classed(RowClass::WrongData(1)))),
        ],
        after: &[0x01, 0x80, 0x80, 0x1e],
        lost: &[],
    },
    Course {
        name: "a repair of a row with a wrong block writes P and Q",
        ask: Ask::Repair,
        bytes: &[0x01, 0x80, 0x80, 0x1e],
        in_sync: &[true; 4],
        steps: &[
            Step::Drive(9, 6),
            Step::End(Some(Outcome::Classed(RowClass::WrongData(1)))),
        ],
        after: &ROW,
        lost: &[],
    },
    Course {
        name: "a check of a row with more wrong writes nothing",
        ask: Ask::Check,
        bytes: &[0x01, 0x80, 0x80, 0x10],
        in_sync: &[true; 4],
        steps: &[
            Step::Drive(9, 4),
            Step::End(Some(Outcome::Classed(RowClass::Many))),
        ],
        after: &[0x01, 0x80, 0x80, 0x10],
        lost: &[],
    },
    Course {
        name: "a repair of a row with more wrong writes P and Q",
        ask: Ask::Repair,
        bytes: &[0x01, 0x80, 0x80, 0x10],
        in_sync: &[true; 4],
        steps: &[
            Step::Drive(9, 6),
            Step::End(Some(Outcome::Classed(RowClass::Many))),
        ],
        after: &ROW,
        lost: &[],
    },
];
