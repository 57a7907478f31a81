//! The recovery of blocks of a row, in place. Each call has room for two sums, and a sum and the block that it
//! restores exchange their buffers.

ghost use Rattle.std.specs.Prelude.{◌≡◌, ◌+◌, ◌-◌, ◌<◌, ◌≤◌, ◌↔◌, length, OnOk, OnErr, IsErr};
ghost use Rattle.std.specs.List.{All};
ghost use Rattle.r6_recover.specs.Known.{AreTooMany};
ghost use Rattle.r6_recover.specs.Restores.{RestoresBlock, Restores, AgreeAtKnown, BecomesFullRow, HaveSameLengths};

use crate::apart::{restore_from_p_into, restore_two_into, restore_with_p_into};
use crate::known::{Known, Missing, POSITIONS, TooManyLost, missing_among};
use r6_kernels::{Buffer, parity};
use std::mem;

/// P, from the data.
pub(crate) fn restore_p(blocks: &mut [Buffer], sum: &mut Buffer, weighted: &mut Buffer)
    requires count { 2 ≤ length blocks.old }
    requires long { All (λ block. length block ≡ length sum.old) blocks.old }
    requires same { length weighted.old ≡ length sum.old }
    ensures restores { let m = length blocks.old - 2 in
        RestoresBlock m (length sum.old) m (m + 1) blocks.old blocks.new }
    ensures sum_length { length sum.new ≡ length sum.old }
    ensures weighted_length { length weighted.new ≡ length weighted.old }
{
    let m = blocks.len() - 2;
    parity(&blocks[..m], sum, weighted);
    mem::swap(&mut blocks[m], sum);
}

/// Q, from the data.
pub(crate) fn restore_q(blocks: &mut [Buffer], sum: &mut Buffer, weighted: &mut Buffer)
    requires count { 2 ≤ length blocks.old }
    requires long { All (λ block. length block ≡ length sum.old) blocks.old }
    requires same { length weighted.old ≡ length sum.old }
    ensures restores { let m = length blocks.old - 2 in
        RestoresBlock m (length sum.old) (m + 1) m blocks.old blocks.new }
    ensures sum_length { length sum.new ≡ length sum.old }
    ensures weighted_length { length weighted.new ≡ length weighted.old }
{
    let m = blocks.len() - 2;
    parity(&blocks[..m], sum, weighted);
    mem::swap(&mut blocks[m + 1], weighted);
}

/// A data block, from P and the other data.
pub(crate) fn restore_from_p(blocks: &mut [Buffer], x: usize, sum: &mut Buffer)
    requires within { x + 2 < length blocks.old }
    requires long { All (λ block. length block ≡ length sum.old) blocks.old }
    ensures restores { let m = length blocks.old - 2 in
        RestoresBlock m (length sum.old) x (m + 1) blocks.old blocks.new }
    ensures sum_length { length sum.new ≡ length sum.old }
{
    restore_from_p_into(blocks, x, sum);
    mem::swap(&mut blocks[x], sum);
}

/// A data block and P, from Q and the other data.
pub(crate) fn restore_with_p(
    blocks: &mut [Buffer],
    x: usize,
    sum: &mut Buffer,
    weighted: &mut Buffer,
)
    requires within { x + 2 < length blocks.old }
    requires few { length blocks.old ≤ 32 }
    requires long { All (λ block. length block ≡ length sum.old) blocks.old }
    requires same { length weighted.old ≡ length sum.old }
    ensures restores { let m = length blocks.old - 2 in Restores m (length sum.old) x m blocks.old blocks.new }
    ensures sum_length { length sum.new ≡ length sum.old }
    ensures weighted_length { length weighted.new ≡ length weighted.old }
{
    let m = blocks.len() - 2;
    restore_with_p_into(blocks, x, sum, weighted);
    mem::swap(&mut blocks[x], sum);
    mem::swap(&mut blocks[m], weighted);
}

/// Two data blocks, from P, Q and the other data.
pub(crate) fn restore_two(
    blocks: &mut [Buffer],
    x: usize,
    y: usize,
    sum: &mut Buffer,
    weighted: &mut Buffer,
)
    requires before { x < y }
    requires within { y + 2 < length blocks.old }
    requires few { length blocks.old ≤ 32 }

    // lengths
    requires long { All (λ block. length block ≡ length sum.old) blocks.old }
    requires same { length weighted.old ≡ length sum.old }

    ensures restores { Restores (length blocks.old - 2) (length sum.old) x y blocks.old blocks.new }
    ensures sum_length { length sum.new ≡ length sum.old }
    ensures weighted_length { length weighted.new ≡ length weighted.old }
{
    restore_two_into(blocks, x, y, sum, weighted);
    mem::swap(&mut blocks[x], sum);
    mem::swap(&mut blocks[y], weighted);
}

/// One block, whichever it is.
pub(crate) fn restore_one(blocks: &mut [Buffer], x: usize, sum: &mut Buffer, weighted: &mut Buffer)
    requires within { x < length blocks.old }
    requires count { 2 ≤ length blocks.old }
    requires few { length blocks.old ≤ 32 }

    // lengths
    requires long { All (λ block. length block ≡ length sum.old) blocks.old }
    requires same { length weighted.old ≡ length sum.old }

    ensures restores { Restores (length blocks.old - 2) (length sum.old) x x blocks.old blocks.new }
    ensures sum_length { length sum.new ≡ length sum.old }
    ensures weighted_length { length weighted.new ≡ length weighted.old }
{
    let m = blocks.len() - 2;
    if x < m {
        restore_from_p(blocks, x, sum);
    } else if x == m {
        restore_p(blocks, sum, weighted);
    } else {
        restore_q(blocks, sum, weighted);
    }
}

/// Two blocks, whichever they are.
pub fn restore_pair(
    blocks: &mut [Buffer],
    x: usize,
    y: usize,
    sum: &mut Buffer,
    weighted: &mut Buffer,
)
    requires before { x < y }
    requires within { y < length blocks.old }
    requires few { length blocks.old ≤ 32 }

    // lengths
    requires long { All (λ block. length block ≡ length sum.old) blocks.old }
    requires same { length weighted.old ≡ length sum.old }

    ensures restores { Restores (length blocks.old - 2) (length sum.old) x y blocks.old blocks.new }
    ensures sum_length { length sum.new ≡ length sum.old }
    ensures weighted_length { length weighted.new ≡ length weighted.old }
{
    let m = blocks.len() - 2;
    if y < m {
        restore_two(blocks, x, y, sum, weighted);
    } else if x == m {
        restore_p(blocks, sum, weighted);
        restore_q(blocks, sum, weighted);
    } else if y == m {
        restore_with_p(blocks, x, sum, weighted);
    } else {
        restore_from_p(blocks, x, sum);
        restore_q(blocks, sum, weighted);
    }
}

/// The blocks that aren't known, where at most two aren't.
pub(crate) fn restore_unknown(
    blocks: &mut [Buffer],
    known: Known,
    sum: &mut Buffer,
    weighted: &mut Buffer,
) -> Result<(), TooManyLost>
    requires count { 2 ≤ length blocks.old }
    requires few { length blocks.old ≤ POSITIONS }
    requires long { All (λ block. length block ≡ length sum.old) blocks.old }
    requires same { length weighted.old ≡ length sum.old }
    ensures refused { IsErr result ↔ AreTooMany known (length blocks.old) }
    ensures err { OnErr result (blocks.new ≡ blocks.old) }

    ensures restored { OnOk result (BecomesFullRow known blocks.old blocks.new) }
    ensures kept { AgreeAtKnown known blocks.new blocks.old }
    ensures lengths { HaveSameLengths blocks.old blocks.new }

    ensures long { All (λ block. length block ≡ length sum.old) blocks.new }
    ensures sum_length { length sum.new ≡ length sum.old }
    ensures weighted_length { length weighted.new ≡ length weighted.old }
{
    match missing_among(known, blocks.len()) {
        Missing::None => Ok(()),
        Missing::One(x) => {
            restore_one(blocks, x, sum, weighted);
            Ok(())
        }
        Missing::Two(x, y) => {
            restore_pair(blocks, x, y, sum, weighted);
            Ok(())
        }
        Missing::Many => Err(TooManyLost),
    }
}
