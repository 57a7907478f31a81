//! A row of blocks.

ghost use Rattle.std.specs.Prelude.{◌≡◌, ◌<◌, ◌≤◌, ◌↔◌, length, replicate, slice_set, IfOk, OnOk, OnErr, IsErr};
ghost use Rattle.r6_kernels.specs.Blocks.{zeros};
ghost use Rattle.r6_recover.specs.Known.{AreTooMany};
ghost use Rattle.r6_recover.specs.Restores.{AgreeAtKnown, BecomesFullRow, HaveSameLengths};
ghost use Rattle.r6_recover.specs.Rows.{block_at, block_length, data_of, row_of};

use crate::in_place::restore_unknown;
use crate::known::{Known, POSITIONS, TooManyLost};
use crate::parity::rewrite_parity;
use r6_kernels::Buffer;
use std::alloc::{AllocError, Global};
use std::marker::Model;
use std::mem;

/// The blocks of a row in row order: the data, then P, then Q. There are 4 to 32, of one length.
///
/// It has room for the sums of a recovery, so that only `new` takes memory.
#[derive(Drop)]
pub struct RowBuf {
    pub(crate) blocks: Vec<Buffer>,
    pub(crate) sum: Buffer,
    pub(crate) weighted: Buffer,
}

impl Model for RowBuf {
    ghost use Rattle.std.specs.Prelude.{List, ℕ};

    ghost Value = { List (List ℕ) };

    ghost use Rattle.r6_recover.specs.RowBuf.{IsRowBuf};

    ghost view = { λ row. row.blocks.items };

    ghost invariant = { IsRowBuf };
}

impl RowBuf {
    /// `positions` blocks of `len` zeros.
    pub fn new(alloc: Global, positions: usize, len: usize) -> Result<RowBuf, AllocError>
        requires at_least { 4 ≤ positions }
        requires at_most { positions ≤ POSITIONS }
        ensures { IfOk result (λ row. row ≡ replicate positions (zeros len)) }
    {
        let sum = Buffer::new(alloc, len)?;
        let weighted = Buffer::new(alloc, len)?;
        let blocks = blocks_of_zeros(alloc, positions, len)?;
        Ok(RowBuf {
            blocks,
            sum,
            weighted,
        })
    }

    /// The number of blocks.
    pub fn positions(&self) -> usize
        ensures { result ≡ length self.now }
    {
        self.blocks.len()
    }

    /// The block at a position.
    pub fn block(&self, position: usize) -> &Buffer
        requires { position < length self.now }
        ensures { result.now ≡ block_at self.now position }
    {
        &self.blocks[position]
    }

    /// Takes over the bytes of a block.
    pub fn set_block(&mut self, position: usize, bytes: &[u8])
        requires within { position < length self.old }
        requires same { length bytes.now ≡ block_length self.old }
        ensures { self.new ≡ slice_set self.old position bytes.now }
    {
        self.blocks[position].copy_from_slice(bytes);
    }

    /// Exchanges a block for another one of the same length.
    pub fn swap_block(&mut self, position: usize, block: &mut Buffer)
        requires within { position < length self.old }
        requires same { length block.old ≡ block_length self.old }
        ensures row { self.new ≡ slice_set self.old position block.old }
        ensures block { block.new ≡ block_at self.old position }
    {
        mem::swap(&mut self.blocks[position], block);
    }
}

/// `count` blocks of `len` zeros.
pub fn blocks_of_zeros(alloc: Global, count: usize, len: usize) -> Result<Vec<Buffer>, AllocError>
    ensures { IfOk result (λ blocks. blocks.items ≡ replicate count (zeros len)) }
{
    let mut blocks = Vec::new(alloc);
    for _ in 0..count {
        blocks.push(Buffer::new(alloc, len)?)?;
    }
    Ok(blocks)
}

/// Computes the blocks that aren't known from those that are, where at most two aren't: the row becomes the one full
/// row that has the known blocks, wherever there is one.
///
/// Where no full row has them, the other blocks become any bytes. A known block never changes, and after an error none
/// has.
pub fn restore(row: &mut RowBuf, known: Known) -> Result<(), TooManyLost>
    ensures refused { IsErr result ↔ AreTooMany known (length row.old) }
    ensures err { OnErr result (row.new ≡ row.old) }

    ensures restored { OnOk result (BecomesFullRow known row.old row.new) }
    ensures kept { AgreeAtKnown known row.new row.old }
    ensures lengths { HaveSameLengths row.old row.new }
{
    restore_unknown(
        row.blocks.as_mut_slice(),
        known,
        &mut row.sum,
        &mut row.weighted,
    )
}

/// Computes P and Q anew from the data, whatever stood there. The data stay.
pub fn repair_parity(row: &mut RowBuf)
    ensures { row.new ≡ row_of (block_length row.old) (data_of row.old) }
{
    rewrite_parity(row.blocks.as_mut_slice());
}
