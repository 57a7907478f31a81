//! A lost slot's blocks of the rows of a stretch, restored at once.

ghost use Rattle.std.specs.Prelude.{◌≡◌, ◌+◌, ◌*◌, ◌<◌, ◌≤◌, length, IfOk, IfSome, IsTrue};
ghost use Rattle.r6_offline.specs.Lent.{KeepPromises, promises_of};
ghost use Rattle.r6_offline.specs.Parts.{OnlyRead, parts_of};
ghost use Rattle.r6_offline.specs.Rebuilds.{AreRestored, IsRestoredBlock};
ghost use Rattle.r6_offline.specs.Stretches.{AreOfOneChunk, FitsLongRow, PositionsKnown};

use crate::part::{is_there, number_at};
use crate::stretch::{begins_at, read_position};
use r6_dev::BlockDevice;
use r6_kernels::Buffer;
use r6_layout::Geometry;
use r6_recover::{Known, RowBuf, restore};
use std::alloc::{AllocError, Global};

/// Room for the rows of a stretch as one row of longer blocks, and for those of one slot on their way there.
#[derive(Drop)]
pub(crate) struct LongRow {
    pub(crate) rows: usize,
    pub(crate) blocks: RowBuf,
    pub(crate) bytes: Vec<u8>,
    /// The lost slot's blocks, put together, of the rows from the first one on, before the end.
    pub(crate) block: Buffer,
    pub(crate) first_row: u64,
    pub(crate) end: u64,
}

impl LongRow {
    pub(crate) fn new(
        alloc: Global,
        geometry: &Geometry,
        rows: usize,
    ) -> Result<LongRow, AllocError>
        requires { rows ≤ geometry.now.chunk }
        ensures { IfOk result (λ long. FitsLongRow geometry.now long × (long.end ≡ 0)) }
    {
        let len = rows * geometry.block();
        Ok(LongRow {
            rows,
            blocks: RowBuf::new(alloc, geometry.slots(), len)?,
            bytes: vec![in alloc; 0u8; len]?,
            block: Buffer::new(alloc, len)?,
            first_row: 0,
            end: 0,
        })
    }

    // Reads the rows from each slot at once whose part is there, and says which positions these have; or not all.
    fn read<D: BlockDevice>(
        &mut self,
        geometry: &Geometry,
        parts: &mut [Option<D>],
        row: u64,
    ) -> Option<Known>
        requires some { 0 < self.old.rows }
        requires within { row + self.old.rows ≤ geometry.now.rows }
        requires chunk { AreOfOneChunk geometry.now row self.old.rows }
        requires parts { length parts.old ≡ geometry.now.shards * geometry.now.slots }
        requires places { FitsLongRow geometry.now self.old }
        ensures places { FitsLongRow geometry.now self.new }
        ensures rows { (self.new.rows ≡ self.old.rows) × (self.new.end ≡ self.old.end) }
        ensures only_read { OnlyRead (parts_of D.told parts.old) (parts_of D.told parts.new) }
        ensures promised { KeepPromises (promises_of D.promised parts.old) (promises_of D.promised parts.new) }
        ensures read { IfSome result (λ known.
            PositionsKnown geometry.now (parts_of D.told parts.old) row self.old.rows known self.new.blocks) }
    {
        let mut known = Known::none();
        for position in 0..geometry.slots() {
            if !is_there(parts, number_at(geometry, row, position)) {
                continue;
            }
            if !read_position(geometry, parts, row, position, self.rows, &mut self.bytes) {
                return None;
            }
            self.block.swap_with_vec(&mut self.bytes);
            self.blocks.swap_block(position, &mut self.block);
            known.insert(position);
        }
        Some(known)
    }

    // Whether a slot's block of this row is restored: it is already, or becomes so with those of the stretch that begins
    // at this row, if one does.
    fn reaches<D: BlockDevice>(
        &mut self,
        geometry: &Geometry,
        parts: &mut [Option<D>],
        row: u64,
        target: usize,
    ) -> bool
        requires row_within { row < geometry.now.rows }
        requires parts { length parts.old ≡ geometry.now.shards * geometry.now.slots }
        requires target { target < geometry.now.slots }
        requires places { FitsLongRow geometry.now self.old }
        ensures places { FitsLongRow geometry.now self.new }
        ensures only_read { OnlyRead (parts_of D.told parts.old) (parts_of D.told parts.new) }
        ensures promised { KeepPromises (promises_of D.promised parts.old) (promises_of D.promised parts.new) }
        ensures there { IsTrue result → (self.new.first_row ≤ row) × (row < self.new.end) }
        ensures restored { AreRestored geometry.now (parts_of D.told parts.old) target self.old self.new }
    {
        if self.first_row <= row && row < self.end {
            return true;
        }
        self.end = 0;
        if !begins_at(geometry, self.rows, row, geometry.rows()) {
            return false;
        }
        let Some(known) = self.read(geometry, parts, row) else {
            return false;
        };
        let Ok(()) = restore(&mut self.blocks, known) else {
            return false;
        };
        let position = geometry.position_at(row, target);
        self.blocks.swap_block(position, &mut self.block);
        self.first_row = row;
        self.end = row + self.rows as u64;
        true
    }

    /// Gives a slot's block of this row, restored with those of its stretch; or doesn't, as where there is no such
    /// stretch, or a device doesn't read it at once.
    pub(crate) fn give<D: BlockDevice>(
        &mut self,
        geometry: &Geometry,
        parts: &mut [Option<D>],
        row: u64,
        target: usize,
        block: &mut Buffer,
    ) -> bool
        requires row_within { row < geometry.now.rows }
        requires parts { length parts.old ≡ geometry.now.shards * geometry.now.slots }
        requires target { target < geometry.now.slots }
        requires places { FitsLongRow geometry.now self.old }
        requires block { length block.old ≡ geometry.now.block }
        ensures places { FitsLongRow geometry.now self.new }
        ensures only_read { OnlyRead (parts_of D.told parts.old) (parts_of D.told parts.new) }
        ensures promised { KeepPromises (promises_of D.promised parts.old) (promises_of D.promised parts.new) }
        ensures block { length block.new ≡ length block.old }
        ensures rows { AreRestored geometry.now (parts_of D.told parts.old) target self.old self.new }
        ensures restored { IsTrue result
            → IsRestoredBlock geometry.now (parts_of D.told parts.old) target row self.old block.new }
    {
        if !self.reaches(geometry, parts, row, target) {
            return false;
        }
        let at = (row - self.first_row) as usize * geometry.block();
        block.copy_from_slice(&self.block.as_slice()[at..at + geometry.block()]);
        true
    }
}
