//! Rows of one chunk, read from each slot at once and checked as one row of longer blocks.

ghost use Rattle.std.specs.Prelude.{◌≡◌, ◌+◌, ◌-◌, ◌*◌, ◌%◌, ◌<◌, ◌≤◌, ℕ, length, IfOk, IsTrue, Some};
ghost use Rattle.r6_layout.specs.Shape.{IsShape};
ghost use Rattle.r6_recover.specs.declared.class.RowClass.TheVariants.{Consistent};
ghost use Rattle.r6_offline.specs.Lent.{KeepPromises, promises_of};
ghost use Rattle.r6_offline.specs.Parts.{OnlyRead, parts_of};
ghost use Rattle.r6_offline.specs.Reports.{IsFinding};
ghost use Rattle.r6_offline.specs.Stretches.{AreOfOneChunk, FitsRows, PositionRead, PositionsRead};

use crate::part::{number_at, read_rows_of};
use crate::row_check::has_absent;
use r6_dev::BlockDevice;
use r6_kernels::{Buffer, has_right_parities};
use r6_layout::Geometry;
use r6_recover::blocks_of_zeros;
use std::alloc::{AllocError, Global};

// Bytes of a slot that are read at once, at most, and bytes that the threads of a check have room for together.
const STRETCH_BYTES: usize = 1 << 17;

const CHECK_BYTES: usize = 1 << 23;

/// Room for the rows of a stretch, and for those of one slot on their way there.
#[derive(Drop)]
pub(crate) struct Stretch {
    pub(crate) rows: usize,
    /// By position, the blocks of all rows put together.
    pub(crate) blocks: Vec<Buffer>,
    pub(crate) bytes: Vec<u8>,
}

/// How many rows each shard of an array reads at once: a part of a chunk, as even as the room allows, or none.
pub(crate) fn rows_at_once(geometry: &Geometry) -> usize
    ensures { result ≤ geometry.now.chunk }
{
    let slots = geometry.shards() * (geometry.slots() + 1);
    let bytes = STRETCH_BYTES.min(CHECK_BYTES / slots);
    let most = (bytes / geometry.block()).max(1) as u64;
    let stretches = geometry.chunk().div_ceil(most);
    let rows = (geometry.chunk() / stretches) as usize;
    if rows < 2 { 0 } else { rows }
}

/// Whether a stretch of so many rows begins at this row, in whose chunk it stands whole, that ends by this end. One row
/// is none.
pub(crate) fn begins_at(geometry: &Geometry, rows: usize, row: u64, end: u64) -> bool
    requires { row ≤ end }
    ensures limits { IsShape geometry.now }
    ensures whole { IsTrue result → (0 < rows) × (row + rows ≤ end) × AreOfOneChunk geometry.now row rows }
{
    let rows = rows as u64;
    let offset = row % geometry.chunk();
    if geometry.chunk() - offset < rows {
        return false;
    }
    if end - row < rows {
        return false;
    }
    rows >= 2 && offset % rows == 0
}

/// Reads so many rows at once, this one and those that follow, from the part of the slot that has this position; or
/// doesn't, as where there is no such part.
pub(crate) fn read_position<D: BlockDevice>(
    geometry: &Geometry,
    parts: &mut [Option<D>],
    row: u64,
    position: usize,
    rows: usize,
    bytes: &mut Vec<u8>,
) -> bool
    requires rows { (0 < rows) × (row + rows ≤ geometry.now.rows) }
    requires chunk { AreOfOneChunk geometry.now row rows }
    requires position { position < geometry.now.slots }
    requires parts { length parts.old ≡ geometry.now.shards * geometry.now.slots }
    ensures room { length bytes.new.items ≡ length bytes.old.items }
    ensures only_read { OnlyRead (parts_of D.told parts.old) (parts_of D.told parts.new) }
    ensures promised { KeepPromises (promises_of D.promised parts.old) (promises_of D.promised parts.new) }
    ensures read { IsTrue result
        → PositionRead geometry.now (parts_of D.told parts.old) row rows position bytes.new.items }
{
    let number = number_at(geometry, row, position);
    read_rows_of(parts, number, row, rows, bytes.as_mut_slice())
}

impl Stretch {
    pub(crate) fn new(
        alloc: Global,
        geometry: &Geometry,
        rows: usize,
    ) -> Result<Stretch, AllocError>
        requires { rows ≤ geometry.now.chunk }
        ensures { IfOk result (λ stretch. FitsRows geometry.now stretch) }
    {
        let len = rows * geometry.block();
        Ok(Stretch {
            rows,
            blocks: blocks_of_zeros(alloc, geometry.slots(), len)?,
            bytes: vec![in alloc; 0u8; len]?,
        })
    }

    // Reads the rows from each slot at once, by position; or not all of them.
    fn read<D: BlockDevice>(
        &mut self,
        geometry: &Geometry,
        parts: &mut [Option<D>],
        row: u64,
    ) -> bool
        requires some { 0 < self.old.rows }
        requires within { row + self.old.rows ≤ geometry.now.rows }
        requires chunk { AreOfOneChunk geometry.now row self.old.rows }
        requires parts { length parts.old ≡ geometry.now.shards * geometry.now.slots }
        requires places { FitsRows geometry.now self.old }
        ensures places { FitsRows geometry.now self.new }
        ensures rows { self.new.rows ≡ self.old.rows }
        ensures only_read { OnlyRead (parts_of D.told parts.old) (parts_of D.told parts.new) }
        ensures promised { KeepPromises (promises_of D.promised parts.old) (promises_of D.promised parts.new) }
        ensures read { IsTrue result
            → PositionsRead geometry.now (parts_of D.told parts.old) row self.old.rows geometry.now.slots self.new.blocks.items }
    {
        for position in 0..geometry.slots() {
            if !read_position(geometry, parts, row, position, self.rows, &mut self.bytes) {
                return false;
            }
            self.blocks[position].swap_with_vec(&mut self.bytes);
        }
        true
    }

    /// Up to which row the rows from this one on, before the end, are all consistent, as far as one look at a stretch
    /// of them tells: this row, if it tells nothing.
    pub(crate) fn consistent_to<D: BlockDevice>(
        &mut self,
        geometry: &Geometry,
        parts: &mut [Option<D>],
        row: u64,
        end: u64,
    ) -> u64
        requires rows { (row < end) × (end ≤ geometry.now.rows) }
        requires parts { length parts.old ≡ geometry.now.shards * geometry.now.slots }
        requires places { FitsRows geometry.now self.old }
        ensures places { FitsRows geometry.now self.new }
        ensures within { (row ≤ result) × (result ≤ end) }
        ensures consistent { (at : ℕ) → row ≤ at → at < result
            → IsFinding geometry.now (parts_of D.told parts.old) at (Some Consistent) }
        ensures only_read { OnlyRead (parts_of D.told parts.old) (parts_of D.told parts.new) }
        ensures promised { KeepPromises (promises_of D.promised parts.old) (promises_of D.promised parts.new) }
    {
        if !begins_at(geometry, self.rows, row, end) || has_absent(geometry, parts, row) {
            return row;
        }
        if !self.read(geometry, parts, row) {
            return row;
        }
        if !has_right_parities(self.blocks.as_slice()) {
            return row;
        }
        row + self.rows as u64
    }
}
