//! Worked rows, at lengths around the bytes of a step of the kernels. Each byte of a block is x times the one before it.

use crate::blocks::{grown, is_grown, two};
use crate::must::must;
use crate::{batches, holds};
use r6_kernels::Buffer;
use r6_recover::{
    Known, RowBuf, RowClass, TooManyLost, classify, repair_parity, restore, restore_from_p_into,
    restore_from_q_into, restore_two_into,
};
use std::alloc::{AllocError, Global};
use std::mem;
use std::test::Fail;

const LENGTHS: &[usize] = &[
    1, 31, 33, 48, 80, 127, 128, 129, 255, 256, 257, 383, 384, 385, 4096,
];

/// A full row: P is the sum of the data, and Q is 01 + x 02 + x^2 03 + x^3 04 = 01 + 04 + 0c + 20.
const FULL: [u8; 6] = [0x01, 0x02, 0x03, 0x04, 0x04, 0x29];

const ZEROS: [u8; 6] = [0; 6];

/// The bytes with which the blocks of a row begin, before and after it is restored from all but the lost ones.
#[derive(Clone, Copy)]
pub(crate) struct Loss<'a> {
    pub(crate) name: &'a str,
    pub(crate) before: &'a [u8],
    pub(crate) lost: &'a [usize],
    pub(crate) restored: Result<(), TooManyLost>,
    pub(crate) after: &'a [u8],
}

const LOSSES: &[Loss<'static>] = &[
    Loss {
        name: "both of two data blocks",
        before: &[0x00, 0x00, 0x81, 0x1c],
        lost: &[0, 1],
        restored: Ok(()),
        after: &[0x01, 0x80, 0x81, 0x1c],
    },
    Loss {
        name: "a data block and P",
        before: &[0x01, 0x00, 0x00, 0x03],
        lost: &[1, 2],
        restored: Ok(()),
        after: &[0x01, 0x01, 0x00, 0x03],
    },
    Loss {
        name: "two of four data blocks",
        before: &[0x01, 0x00, 0x03, 0x00, 0x04, 0x29],
        lost: &[1, 3],
        restored: Ok(()),
        after: &FULL,
    },
    Loss {
        name: "three are too many",
        before: &[0x05, 0x07, 0x00, 0x00],
        lost: &[0, 2, 3],
        restored: Err(TooManyLost),
        after: &[0x05, 0x07, 0x00, 0x00],
    },
];

/// A row of blocks of a length that begin with these bytes.
fn row_of(alloc: Global, len: usize, firsts: &[u8]) -> Result<RowBuf, Fail> {
    if firsts.len() < 4 || firsts.len() > 32 {
        return Err(Fail::from("no row"));
    }
    let mut row = RowBuf::new(alloc, firsts.len(), len)?;
    for (position, first) in firsts.iter().enumerate() {
        if !is_exchanged(alloc, &mut row, position, *first)? {
            return Err(Fail::from("no zeros came out"));
        }
    }
    Ok(row)
}

/// Whether a block that begins with this byte takes the place of zeros.
fn is_exchanged(
    alloc: Global,
    row: &mut RowBuf,
    position: usize,
    first: u8,
) -> Result<bool, AllocError> {
    if position >= row.positions() {
        return Ok(false);
    }
    let mut block = grown(alloc, row.block(0).len(), first)?;
    row.swap_block(position, &mut block);
    Ok(is_grown(&block, 0))
}

/// Whether the blocks of a row begin with these bytes.
fn is_row(row: &RowBuf, firsts: &[u8]) -> bool {
    for position in 0..row.positions() {
        if position >= firsts.len() || !is_grown(row.block(position), firsts[position]) {
            return false;
        }
    }
    row.positions() == firsts.len()
}

pub(crate) fn all_but(lost: &[usize]) -> Known {
    let mut known = Known::none();
    for position in 0..6usize {
        if !lost.contains(&position) && !known.contains(position) {
            known.insert(position);
        }
    }
    known
}

/// Whether a row of blocks of a length is restored so.
fn comes_back(alloc: Global, len: usize, loss: &Loss<'_>) -> Result<bool, Fail> {
    let mut row = row_of(alloc, len, loss.before)?;
    let is_so = restore(&mut row, all_but(loss.lost)) == loss.restored && is_row(&row, loss.after);
    drop(row);
    Ok(is_so)
}

/// Whether any two blocks of a full row come back that begin with 4d.
fn any_two_come_back(alloc: Global, len: usize) -> Result<bool, Fail> {
    for y in 0..6usize {
        for x in 0..y {
            let mut before = FULL;
            before[x] = 0x4d;
            before[y] = 0x4d;
            let loss = Loss {
                name: "any two",
                before: &before,
                lost: &[x, y],
                restored: Ok(()),
                after: &FULL,
            };
            if !comes_back(alloc, len, &loss)? {
                return Ok(false);
            }
        }
    }
    Ok(true)
}

#[test]
fn lost_blocks_come_back(rt: HostRuntime) -> Result<(), Fail> {
    for len in LENGTHS {
        for loss in LOSSES {
            let is_so = comes_back(rt.alloc(), *len, loss)?;
            must(&rt, is_so, loss.name, *len, 0);
        }
        let is_so = any_two_come_back(rt.alloc(), *len)?;
        must(&rt, is_so, "any two", *len, 0);
    }
    let known = all_but(&[1, 2, 4, 5]);
    must(&rt, known.contains(3) && !known.contains(2), "known", 0, 0);
    Ok(())
}

/// The bytes with which the blocks of a row begin, and what is added to the last byte of these positions; its class; and
/// the row once its parity is repaired.
#[derive(Clone, Copy)]
pub(crate) struct Damage {
    pub(crate) firsts: &'static [u8],
    pub(crate) last: &'static [(usize, u8)],
    pub(crate) class: RowClass,
    pub(crate) repaired: Option<&'static [u8]>,
}

const DAMAGES: &[Damage] = &[
    Damage {
        firsts: &ZEROS,
        last: &[],
        class: RowClass::Consistent,
        repaired: Some(&ZEROS),
    },
    Damage {
        firsts: &[0, 0, 0, 0, 0x05, 0x0a],
        last: &[],
        class: RowClass::WrongData(1),
        repaired: Some(&ZEROS),
    },
    Damage {
        firsts: &[0, 0, 0, 0, 0x05, 0x00],
        last: &[],
        class: RowClass::WrongP,
        repaired: Some(&ZEROS),
    },
    Damage {
        firsts: &[0, 0, 0, 0, 0x00, 0x05],
        last: &[],
        class: RowClass::WrongQ,
        repaired: Some(&ZEROS),
    },
    Damage {
        firsts: &[0, 0, 0, 0, 0x01, 0x10],
        last: &[],
        class: RowClass::Many,
        repaired: Some(&ZEROS),
    },
    // The last byte has another place: that of block 2, and what it has in common with the others at a length of 1.
    Damage {
        firsts: &[0, 0, 0, 0, 0x01, 0x02],
        last: &[(4, 0x02), (5, 0x08)],
        class: RowClass::Many,
        repaired: Some(&ZEROS),
    },
    // P lacks 04 and Q d6, which is none of 04, 08, 10 and 20.
    Damage {
        firsts: &[0x01, 0x02, 0x03, 0x04, 0x00, 0xff],
        last: &[],
        class: RowClass::Many,
        repaired: Some(&FULL),
    },
    // The rows of holds, which are full.
    Damage {
        firsts: &holds::FOUR,
        last: &[],
        class: RowClass::Consistent,
        repaired: Some(&holds::FOUR),
    },
    Damage {
        firsts: &holds::SIX,
        last: &[],
        class: RowClass::Consistent,
        repaired: Some(&holds::SIX),
    },
    Damage {
        firsts: &holds::EIGHT,
        last: &[],
        class: RowClass::Consistent,
        repaired: Some(&holds::EIGHT),
    },
    Damage {
        firsts: &holds::FOUR_CHANGED,
        last: &[],
        class: RowClass::Consistent,
        repaired: Some(&holds::FOUR_CHANGED),
    },
    Damage {
        firsts: &holds::SIX_CHANGED,
        last: &[],
        class: RowClass::Consistent,
        repaired: Some(&holds::SIX_CHANGED),
    },
    Damage {
        firsts: &holds::EIGHT_CHANGED,
        last: &[],
        class: RowClass::Consistent,
        repaired: Some(&holds::EIGHT_CHANGED),
    },
    Damage {
        firsts: &holds::SIX_FIRST,
        last: &[],
        class: RowClass::Consistent,
        repaired: Some(&holds::SIX_FIRST),
    },
    Damage {
        firsts: &holds::WRITTEN,
        last: &[],
        class: RowClass::Consistent,
        repaired: Some(&holds::WRITTEN),
    },
    Damage {
        firsts: &batches::SIX_CHANGED,
        last: &[],
        class: RowClass::Consistent,
        repaired: Some(&batches::SIX_CHANGED),
    },
    Damage {
        firsts: &batches::EIGHT_CHANGED,
        last: &[],
        class: RowClass::Consistent,
        repaired: Some(&batches::EIGHT_CHANGED),
    },
    Damage {
        firsts: &batches::TEN,
        last: &[],
        class: RowClass::Consistent,
        repaired: Some(&batches::TEN),
    },
    Damage {
        firsts: &batches::TEN_CHANGED,
        last: &[],
        class: RowClass::Consistent,
        repaired: Some(&batches::TEN_CHANGED),
    },
    Damage {
        firsts: &FULL,
        last: &[],
        class: RowClass::Consistent,
        repaired: Some(&FULL),
    },
    Damage {
        firsts: &FULL,
        last: &[(0, 1)],
        class: RowClass::WrongData(0),
        repaired: None,
    },
    Damage {
        firsts: &FULL,
        last: &[(1, 1)],
        class: RowClass::WrongData(1),
        repaired: None,
    },
    Damage {
        firsts: &FULL,
        last: &[(2, 1)],
        class: RowClass::WrongData(2),
        repaired: None,
    },
    Damage {
        firsts: &FULL,
        last: &[(3, 1)],
        class: RowClass::WrongData(3),
        repaired: None,
    },
    Damage {
        firsts: &FULL,
        last: &[(4, 1)],
        class: RowClass::WrongP,
        repaired: Some(&FULL),
    },
    Damage {
        firsts: &FULL,
        last: &[(5, 1)],
        class: RowClass::WrongQ,
        repaired: Some(&FULL),
    },
];

/// Adds to the last byte of the block at a position, if there is one.
pub(crate) fn change(
    alloc: Global,
    row: &mut RowBuf,
    position: usize,
    added: u8,
) -> Result<(), AllocError> {
    if position < row.positions() {
        let mut bytes = row.block(position).as_slice().to_vec(alloc)?;
        if let Some(last) = bytes.last_mut() {
            *last ^= added;
        }
        if row.block(0).len() == bytes.len() {
            row.set_block(position, bytes.as_slice());
        }
    }
    Ok(())
}

/// Whether a row has a class, and becomes another one where that is told.
pub(crate) fn is_mended(row: &mut RowBuf, damage: &Damage) -> bool {
    if classify(row) != damage.class {
        return false;
    }
    repair_parity(row);
    match damage.repaired {
        Some(firsts) => is_row(row, firsts),
        None => classify(row) == RowClass::Consistent,
    }
}

/// Whether a row of blocks of a length is classified and repaired so.
fn is_seen(alloc: Global, len: usize, damage: &Damage) -> Result<bool, Fail> {
    let mut row = row_of(alloc, len, damage.firsts)?;
    for (position, added) in damage.last {
        change(alloc, &mut row, *position, *added)?;
    }
    Ok(is_mended(&mut row, damage))
}

#[test]
fn wrong_bytes_are_seen_and_parity_is_repaired(rt: HostRuntime) -> Result<(), Fail> {
    for len in LENGTHS {
        for (case, damage) in DAMAGES.iter().enumerate() {
            let is_so = is_seen(rt.alloc(), *len, damage)?;
            must(&rt, is_so, "a damage, by length and row", *len, case);
        }
    }
    Ok(())
}

/// Whether data 01 and 80 come back from P and Q, then the second from the first and Q, and the first from the second
/// and P. The buffers of all other blocks are away.
fn come_back_apart(alloc: Global) -> Result<bool, AllocError> {
    let (mut first, mut second) = two(alloc, 16, (0x00, 0x00))?;
    let (p, q) = two(alloc, 16, (0x81, 0x1c))?;
    let mut row = [Buffer::empty(alloc), Buffer::empty(alloc), p, q];
    restore_two_into(&row, 0, 1, &mut first, &mut second);
    let are_both = is_grown(&first, 0x01) && is_grown(&second, 0x80);
    // the row has the first and Q
    mem::swap(&mut row[0], &mut first);
    mem::swap(&mut row[2], &mut first);
    second.clear();
    restore_from_q_into(&row, 1, &mut second);
    let is_second = is_grown(&second, 0x80);
    // the row has the second and P
    mem::swap(&mut row[2], &mut first);
    mem::swap(&mut row[1], &mut second);
    mem::swap(&mut row[3], &mut second);
    mem::swap(&mut row[0], &mut first);
    first.clear();
    restore_from_p_into(&row, 0, &mut first);
    Ok(are_both && is_second && is_grown(&first, 0x01))
}

#[test]
fn lost_blocks_come_back_whose_buffers_are_away(rt: HostRuntime) -> Result<(), Fail> {
    let is_so = come_back_apart(rt.alloc())? && Buffer::empty(rt.alloc()).is_empty();
    must(&rt, is_so, "apart", 0, 0);
    Ok(())
}
