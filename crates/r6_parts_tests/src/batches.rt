//! Writes of several blocks of a row as one.

use crate::bench::{Ask, Course, Step};
use crate::holds::{EIGHT, SIX};

/// A full row of ten positions; [`SIX`] and [`EIGHT`] have the first of its data.
pub(crate) const TEN: [u8; 10] = [0x01, 0x80, 0x81, 0x1c, 0xff, 0x3e, 0x00, 0x77, 0xaa, 0x1f];

/// The same after 5a was written as data block 1 and c3 as data block 3.
pub(crate) const SIX_CHANGED: [u8; 6] = [0x01, 0x5a, 0x81, 0xc3, 0x19, 0xdd];

pub(crate) const EIGHT_CHANGED: [u8; 8] = [0x01, 0x5a, 0x81, 0xc3, 0xff, 0x3e, 0xd8, 0x05];

pub(crate) const TEN_CHANGED: [u8; 10] = [
    0x01, 0x5a, 0x81, 0xc3, 0xff, 0x3e, 0x00, 0x77, 0xaf, 0x00,
];

pub(crate) const BOTH: Ask<'static> = Ask::Write(&[(1, 0x5a), (3, 0xc3)]);

pub(crate) const COURSES: &[Course<'static>] = &[
    // With two of four data blocks written it reads the two others, and writes two blocks, P and Q.
    Course {
        name: "two of four are reconstructed",
        ask: BOTH,
        bytes: &SIX,
        in_sync: &[true; 6],
        steps: &[
            Step::Read(0),
            Step::Read(2),
            Step::Nothing,
            Step::Answer(2),
            Step::Answer(0),
            Step::PutOut(4),
            Step::Answer(1),
            Step::Answer(3),
            Step::Answer(4),
            Step::IsOver(false),
            Step::Answer(5),
            Step::IsOver(true),
        ],
        after: &SIX_CHANGED,
        lost: &[],
    },
    // Of six data blocks both plans read four, and it reconstructs; of eight a modify reads fewer.
    Course {
        name: "two of six are reconstructed",
        ask: BOTH,
        bytes: &EIGHT,
        in_sync: &[true; 8],
        steps: &[
            Step::Read(0),
            Step::Read(2),
            Step::Read(4),
            Step::Read(5),
            Step::Nothing,
        ],
        after: &EIGHT,
        lost: &[],
    },
    Course {
        name: "two of eight are modified",
        ask: BOTH,
        bytes: &TEN,
        in_sync: &[true; 10],
        steps: &[
            Step::Read(1),
            Step::Read(3),
            Step::Read(8),
            Step::Read(9),
            Step::Nothing,
            Step::Answer(9),
            Step::Answer(3),
            Step::Answer(1),
            Step::Answer(8),
            Step::Drive(9, 4),
            Step::IsOver(true),
        ],
        after: &TEN_CHANGED,
        lost: &[],
    },
    // P is lost while the blocks are read: they and Q are written.
    Course {
        name: "two are modified without a lost parity",
        ask: BOTH,
        bytes: &TEN,
        in_sync: &[true; 10],
        steps: &[
            Step::Drive(2, 2),
            Step::Lose(8),
            Step::Drive(9, 4),
            Step::IsOver(true),
        ],
        after: &TEN_CHANGED,
        lost: &[8],
    },
    // By the definitions: P of 01 and 80 is 81, and Q is 01 + x * 80 = 01 + 1d.
    Course {
        name: "all data are written without a read",
        ask: Ask::Write(&[(1, 0x80), (0, 0x01)]),
        bytes: &[0x77, 0x13, 0x05, 0x99],
        in_sync: &[true; 4],
        steps: &[
            Step::PutOut(4),
            Step::Answer(3),
            Step::Answer(2),
            Step::Answer(1),
            Step::Answer(0),
            Step::IsOver(true),
        ],
        after: &[0x01, 0x80, 0x81, 0x1c],
        lost: &[],
    },
    // Without a parity in sync nothing is read either.
    Course {
        name: "two are overwritten",
        ask: BOTH,
        bytes: &EIGHT,
        in_sync: &[true, true, true, true, true, true, false, false],
        steps: &[Step::Drive(9, 2), Step::IsOver(true)],
        after: &EIGHT_CHANGED,
        lost: &[6, 7],
    },
    // A position that is to be read is lost before it is: the two blocks that are written and P are read too.
    Course {
        name: "two are recovered after a loss",
        ask: BOTH,
        bytes: &SIX,
        in_sync: &[true; 6],
        steps: &[
            Step::Read(0),
            Step::Lose(0),
            Step::Read(1),
            Step::Read(2),
            Step::Read(3),
            Step::Read(4),
            Step::Nothing,
            Step::Answer(1),
            Step::Answer(2),
            Step::Answer(3),
            Step::Answer(4),
            Step::Drive(9, 4),
            Step::IsOver(true),
            Step::Answer(0),
            Step::IsHome(true),
        ],
        after: &SIX_CHANGED,
        lost: &[0],
    },
];
