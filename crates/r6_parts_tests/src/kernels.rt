//! Worked values of the kernels, at lengths around the widths of vectors and of a step.

ghost use Rattle.std.specs.Prelude.{◌≡◌, length};
ghost use Rattle.std.specs.List.{All};

use crate::blocks::{LENGTHS, blocks_of, is_grown, two};
use crate::must::must;
use r6_field::{ConstMul, Gf};
use r6_kernels::{Buffer, delta, double, parity, scale_add, xor_into};
use std::alloc::{AllocError, Global};
use std::test::Fail;

/// What is done to a block and another one of its length, P and Q where there are data.
#[derive(Clone, Copy)]
enum Sum {
    /// They become the parity of the data.
    Parity,
    /// They go on when the data block of this index was the first of two and becomes the second.
    Delta(u32),
    Double,
    /// So many times the other one is added.
    AddTimes(u8),
    Add,
    Copy,
    Clear,
}

/// The bytes with which blocks begin: the data, and the block and the other one before a sum and after it.
#[derive(Clone, Copy)]
struct Case {
    name: &'static str,
    sum: Sum,
    data: &'static [u8],
    before: (u8, u8),
    after: (u8, u8),
}

// By the definitions: P is the sum of all Di, and Q of all x^i Di. Twice 80 is 1d, twice 81 is 1f, four times 5a is 75,
// eight times c2 is 5e, and 53 times c3 is the sum of 1, 2, 10 and 40 times c3, c3 + 9b + ac + 8a.
const CASES: &[Case] = &[
    Case {
        name: "parity of two",
        sum: Sum::Parity,
        data: &[0x01, 0x80],
        before: (0xee, 0xee),
        after: (0x81, 0x1c),
    },
    Case {
        name: "parity of three",
        sum: Sum::Parity,
        data: &[0x01, 0x80, 0x5a],
        before: (0x00, 0x00),
        after: (0xdb, 0x69),
    },
    Case {
        name: "parity of none",
        sum: Sum::Parity,
        data: &[],
        before: (0x81, 0x1c),
        after: (0x00, 0x00),
    },
    Case {
        name: "block 1 was 80 and becomes 01",
        sum: Sum::Delta(1),
        data: &[0x80, 0x01],
        before: (0x81, 0x1c),
        after: (0x00, 0x03),
    },
    Case {
        name: "block 3 was 01 and becomes c3",
        sum: Sum::Delta(3),
        data: &[0x01, 0xc3],
        before: (0x11, 0x11),
        after: (0xd3, 0x4f),
    },
    Case {
        name: "doubled",
        sum: Sum::Double,
        data: &[],
        before: (0x80, 0x77),
        after: (0x1d, 0x77),
    },
    Case {
        name: "1d times 01 is added",
        sum: Sum::AddTimes(0x1d),
        data: &[],
        before: (0x1d, 0x01),
        after: (0x00, 0x01),
    },
    Case {
        name: "53 times c3 is added",
        sum: Sum::AddTimes(0x53),
        data: &[],
        before: (0x77, 0xc3),
        after: (0x09, 0xc3),
    },
    Case {
        name: "01 is added",
        sum: Sum::Add,
        data: &[],
        before: (0x00, 0x01),
        after: (0x01, 0x01),
    },
    Case {
        name: "copied",
        sum: Sum::Copy,
        data: &[],
        before: (0x77, 0x1c),
        after: (0x1c, 0x1c),
    },
    Case {
        name: "cleared",
        sum: Sum::Clear,
        data: &[],
        before: (0x1c, 0x77),
        after: (0x00, 0x77),
    },
];

fn add_up(sum: &Sum, sources: &[Buffer], block: &mut Buffer, other: &mut Buffer)
    requires lengths { All (λ source. length source ≡ length block.old) sources.now }
    requires same { length other.old ≡ length block.old }
{
    match sum {
        Sum::Parity => parity(sources, block, other),
        Sum::Delta(index) => {
            if let [old, new] = sources {
                if old.len() == block.len() && new.len() == block.len() {
                    delta(block, other, old, new, *index);
                }
            }
        }
        Sum::Double => double(block),
        Sum::AddTimes(constant) => scale_add(block, other, &ConstMul::new(Gf(*constant))),
        Sum::Add => xor_into(block, other),
        Sum::Copy => block.copy_from(other),
        Sum::Clear => block.clear(),
    }
}

/// Whether a sum of blocks of a length comes out so.
fn comes_out(alloc: Global, len: usize, case: &Case) -> Result<bool, AllocError> {
    let data = blocks_of(alloc, len, case.data)?;
    let (mut block, mut other) = two(alloc, len, case.before)?;
    add_up(&case.sum, data.as_slice(), &mut block, &mut other);
    let is_so = is_left(&block, len, case.after.0) && is_left(&other, len, case.after.1);
    drop(data);
    drop(block);
    drop(other);
    Ok(is_so)
}

fn is_left(block: &Buffer, len: usize, first: u8) -> bool {
    block.len() == len && block.is_empty() == (len == 0) && is_grown(block, first)
}

#[test]
fn sums_come_out_at_all_lengths(rt: HostRuntime) -> Result<(), Fail> {
    for len in LENGTHS {
        for case in CASES {
            let is_so = comes_out(rt.alloc(), *len, case)?;
            must(&rt, is_so, case.name, *len, 0);
        }
    }
    Ok(())
}
