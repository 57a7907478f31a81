//! Rebuilds of a position, driven over blocks in memory.

use crate::bench::{Ask, Course, Step, played};
use crate::must::must;
use r6_stripe::Outcome;
use std::alloc::Global;
use std::test::Fail;

/// A full row of six positions: P is the sum of the data, and Q is 01 + x 02 + x^2 03 + x^3 04 = 01 + 04 + 0c + 20.
pub(crate) const ROW: [u8; 6] = [0x01, 0x02, 0x03, 0x04, 0x04, 0x29];

pub(crate) const COURSES: &[Course<'static>] = &[
    // Q is rebuilt. The reads of the data are out when the first is lost: P is read for it, and its buffer comes home
    // last.
    Course {
        name: "a rebuild's read that is lost comes late",
        ask: Ask::Rebuild(5),
        bytes: &[0x01, 0x02, 0x03, 0x04, 0x04, 0xee],
        in_sync: &[true, true, true, true, true, false],
        steps: &[
            Step::PutOut(4),
            Step::Lose(0),
            Step::Answer(1),
            Step::Answer(2),
            Step::Answer(3),
            Step::Read(4),
            Step::Answer(4),
            Step::Write(5),
            Step::End(None),
            Step::Answer(5),
            Step::End(Some(Outcome::Rebuilt)),
            Step::IsHome(false),
            Step::Answer(0),
            Step::IsHome(true),
        ],
        after: &ROW,
        lost: &[0],
    },
];

/// The row with ee at the target and dd at another position, of which neither is in sync, if they are below six.
fn without(target: usize, other: usize) -> ([u8; 6], [bool; 6]) {
    let (mut bytes, mut in_sync) = (ROW, [true; 6]);
    for (position, byte) in &[(other, 0xdd), (target, 0xee)] {
        if *position < 6 {
            bytes[*position] = *byte;
            in_sync[*position] = false;
        }
    }
    (bytes, in_sync)
}

/// As many reads as there are data, and one write.
const FIVE: &[Step] = &[Step::Drive(9, 5), Step::End(Some(Outcome::Rebuilt))];

/// Whether a hold over a row ends so, and the row is full then but at a position that is out.
fn is_rebuilt(
    alloc: Global,
    ask: Ask<'_>,
    bytes: &[u8],
    in_sync: &[bool],
    out: &[usize],
) -> Result<bool, Fail> {
    let course = Course {
        name: "a rebuild",
        ask,
        bytes,
        in_sync,
        steps: FIVE,
        after: &ROW,
        lost: out,
    };
    Ok(played(alloc, &course)? == course.end())
}

#[test]
fn each_position_is_rebuilt_with_any_other_out(rt: HostRuntime) -> Result<(), Fail> {
    for target in 0..6usize {
        for other in 0..6usize {
            let out = if other == target { 6 } else { other };
            let (bytes, in_sync) = without(target, out);
            let ask = Ask::Rebuild(target);
            let is_so = is_rebuilt(rt.alloc(), ask, &bytes, &in_sync, &[out])?;
            must(&rt, is_so, "a target with one out", target, out);
        }
    }
    Ok(())
}
