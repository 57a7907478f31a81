//! Worked rows of blocks that have one byte throughout.

ghost use Rattle.std.specs.Prelude.{◌≡◌, length, IfOk};

use crate::must::must;
use crate::rows::{Damage, Loss, all_but, change, is_mended};
use r6_kernels::{Buffer, parity};
use r6_recover::{RowBuf, RowClass, TooManyLost, restore};
use std::alloc::{AllocError, Global};
use std::test::Fail;

const LENGTHS: &[usize] = &[0, 1, 31, 33, 48, 80];

/// A block in which two bytes can differ.
const LONGER: &[usize] = &[31, 33, 48, 80];

/// The bytes of lost blocks, which are no block's of a row here.
const LOST: u8 = 0x4d;

// Two blocks x and y of data that are lost are A P + B Q and its sum with P, where the other data are zeros: a P of 01
// and a Q of zeros give A and A + 01, a P of zeros and a Q of 01 give B and B. With d for y - x, A = x^d / (x^d + 1) and
// B = x^-x / (x^d + 1): 02 / 03 and 01 / 03 for 0 and 1, 04 / 05 and 8e / 05 for 1 and 3.
const LOSSES: &[Loss<'static>] = &[
    Loss {
        name: "both of two data blocks",
        before: &[LOST, LOST, 0x81, 0x1c],
        lost: &[0, 1],
        restored: Ok(()),
        after: &[0x01, 0x80, 0x81, 0x1c],
    },
    Loss {
        name: "A of 0 and 1",
        before: &[LOST, LOST, 0x01, 0x00],
        lost: &[0, 1],
        restored: Ok(()),
        after: &[0xf5, 0xf4, 0x01, 0x00],
    },
    Loss {
        name: "B of 0 and 1",
        before: &[LOST, LOST, 0x00, 0x01],
        lost: &[0, 1],
        restored: Ok(()),
        after: &[0xf4, 0xf4, 0x00, 0x01],
    },
    Loss {
        name: "a data block and P",
        before: &[0x01, LOST, LOST, 0x03],
        lost: &[1, 2],
        restored: Ok(()),
        after: &[0x01, 0x01, 0x00, 0x03],
    },
    Loss {
        name: "two of four data blocks",
        before: &[0x01, LOST, 0x03, LOST, 0x04, 0x29],
        lost: &[1, 3],
        restored: Ok(()),
        after: &[0x01, 0x02, 0x03, 0x04, 0x04, 0x29],
    },
    Loss {
        name: "A of 1 and 3",
        before: &[0x00, LOST, 0x00, LOST, 0x01, 0x00],
        lost: &[1, 3],
        restored: Ok(()),
        after: &[0x00, 0xa6, 0x00, 0xa7, 0x01, 0x00],
    },
    Loss {
        name: "B of 1 and 3",
        before: &[0x00, LOST, 0x00, LOST, 0x00, 0x01],
        lost: &[1, 3],
        restored: Ok(()),
        after: &[0x00, 0xdd, 0x00, 0xdd, 0x00, 0x01],
    },
    Loss {
        name: "a data block, P and Q",
        before: &[LOST, 0x80, LOST, LOST],
        lost: &[0, 2, 3],
        restored: Err(TooManyLost),
        after: &[LOST, 0x80, LOST, LOST],
    },
];

const ZEROS: &[u8] = &[0; 6];

// Data of zeros. Q is twice P in all bytes but the last, and there four times P, and the other way round.
const DAMAGES: &[Damage] = &[
    Damage {
        firsts: &[0, 0, 0, 0, 0x01, 0x02],
        last: &[(5, 0x06)],
        class: RowClass::Many,
        repaired: Some(ZEROS),
    },
    Damage {
        firsts: &[0, 0, 0, 0, 0x01, 0x04],
        last: &[(5, 0x06)],
        class: RowClass::Many,
        repaired: Some(ZEROS),
    },
    Damage {
        firsts: &[0, 0, 0, 0, 0x01, 0x02],
        last: &[],
        class: RowClass::WrongData(1),
        repaired: Some(ZEROS),
    },
    Damage {
        firsts: &[0, 0, 0, 0, 0x01, 0x04],
        last: &[],
        class: RowClass::WrongData(2),
        repaired: Some(ZEROS),
    },
];

/// Whether a block of a length has this byte throughout.
fn is_all(block: &Buffer, len: usize, byte: u8) -> bool {
    for found in block.as_slice() {
        if *found != byte {
            return false;
        }
    }
    block.len() == len
}

/// Two blocks of a length that have these bytes throughout.
fn two(alloc: Global, len: usize, bytes: (u8, u8)) -> Result<(Buffer, Buffer), AllocError>
    ensures { IfOk result (λ two. (length two.0 ≡ len) × (length two.1 ≡ len)) }
{
    Ok((
        Buffer::filled(alloc, len, bytes.0)?,
        Buffer::filled(alloc, len, bytes.1)?,
    ))
}

/// Whether P of 01 and 80 is 81 and Q is 1c.
fn has_parity(alloc: Global, len: usize) -> Result<bool, AllocError> {
    let (first, second) = two(alloc, len, (0x01, 0x80))?;
    let (mut p, mut q) = two(alloc, len, (LOST, LOST))?;
    parity(&[first, second], &mut p, &mut q);
    Ok(is_all(&p, len, 0x81) && is_all(&q, len, 0x1c))
}

#[test]
fn parity_has_one_byte_throughout(rt: HostRuntime) -> Result<(), Fail> {
    for len in LENGTHS {
        let is_so = has_parity(rt.alloc(), *len)?;
        must(&rt, is_so, "parity", *len, 0);
    }
    Ok(())
}

/// A block of a row has this byte throughout from now on.
fn fill(alloc: Global, row: &mut RowBuf, position: usize, byte: u8) -> Result<(), AllocError> {
    if position < row.positions() {
        let block = Buffer::filled(alloc, row.block(0).len(), byte)?;
        row.set_block(position, block.as_slice());
    }
    Ok(())
}

/// A row of blocks of a length that have these bytes throughout.
fn row_of(alloc: Global, len: usize, bytes: &[u8]) -> Result<RowBuf, Fail> {
    if bytes.len() < 4 || bytes.len() > 32 {
        return Err(Fail::from("no row"));
    }
    let mut row = RowBuf::new(alloc, bytes.len(), len)?;
    for (position, byte) in bytes.iter().enumerate() {
        fill(alloc, &mut row, position, *byte)?;
    }
    Ok(row)
}

/// Whether the blocks of a row have a length and these bytes throughout.
fn is_row(row: &RowBuf, len: usize, bytes: &[u8]) -> bool {
    for position in 0..row.positions() {
        if position >= bytes.len() || !is_all(row.block(position), len, bytes[position]) {
            return false;
        }
    }
    row.positions() == bytes.len()
}

/// Whether a row of blocks of a length is restored so.
fn comes_back(alloc: Global, len: usize, loss: &Loss<'_>) -> Result<bool, Fail> {
    let mut row = row_of(alloc, len, loss.before)?;
    let is_so = restore(&mut row, all_but(loss.lost)) == loss.restored
        && is_row(&row, len, loss.after);
    drop(row);
    Ok(is_so)
}

#[test]
fn factors_of_two_lost_blocks_come_out(rt: HostRuntime) -> Result<(), Fail> {
    for len in LENGTHS {
        for loss in LOSSES {
            let is_so = comes_back(rt.alloc(), *len, loss)?;
            must(&rt, is_so, loss.name, *len, 0);
        }
    }
    Ok(())
}

/// Whether a row of blocks of a length is classified and repaired so.
fn is_seen(alloc: Global, len: usize, damage: &Damage) -> Result<bool, Fail> {
    let mut row = row_of(alloc, len, damage.firsts)?;
    for (position, added) in damage.last {
        change(alloc, &mut row, *position, *added)?;
    }
    Ok(is_mended(&mut row, damage))
}

#[test]
fn one_byte_of_another_ratio_is_seen(rt: HostRuntime) -> Result<(), Fail> {
    for len in LONGER {
        for (case, damage) in DAMAGES.iter().enumerate() {
            let is_so = is_seen(rt.alloc(), *len, damage)?;
            must(&rt, is_so, "a damage, by length and row", *len, case);
        }
    }
    Ok(())
}
