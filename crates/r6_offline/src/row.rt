//! One row of the array.

ghost use Rattle.std.specs.Prelude.{◌≡◌, ◌*◌, ◌<◌, length, IfErr, IfOk};
ghost use Rattle.r6_layout.specs.Shape.{IsShape};
ghost use Rattle.r6_offline.specs.Lent.{FailsAlone, KeepPromises, promises_of};
ghost use Rattle.r6_offline.specs.Parts.{parts_of};
ghost use Rattle.r6_offline.specs.Rows.{Fits, ReadFails, RowRead, SlotRead, marked};

use crate::part::read_part;
use r6_dev::{BlockDevice, Fault};
use r6_kernels::Buffer;
use r6_layout::Geometry;
use r6_recover::{Known, RowBuf};
use std::alloc::{AllocError, Global};

/// Room for a row of the array, and for a block on its way there.
#[derive(Drop)]
pub(crate) struct RowReader {
    pub(crate) blocks: RowBuf,
    pub(crate) block: Buffer,
}

/// A slot whose part answered a fault.
#[derive(Clone, Copy)]
pub(crate) struct SlotFault {
    pub(crate) slot: usize,
    pub(crate) fault: Fault,
}

impl RowReader {
    pub(crate) fn new(alloc: Global, geometry: &Geometry) -> Result<RowReader, AllocError>
        ensures { IfOk result (λ reader. Fits geometry.now reader) }
    {
        let blocks = RowBuf::new(alloc, geometry.slots(), geometry.block())?;
        let block = Buffer::new(alloc, geometry.block())?;
        Ok(RowReader { blocks, block })
    }

    // Reads the block of one slot, if its part is there.
    fn read_slot<D: BlockDevice>(
        &mut self,
        geometry: &Geometry,
        parts: &mut [Option<D>],
        row: u64,
        slot: usize,
    ) -> Result<bool, Fault>
        requires row_within { row < geometry.now.rows }
        requires slot_within { slot < geometry.now.slots }
        requires parts { length parts.old ≡ geometry.now.shards * geometry.now.slots }
        requires room { Fits geometry.now self.old }
        ensures room { Fits geometry.now self.new }
        ensures read { IfOk result
            (λ there. SlotRead geometry.now (parts_of D.told parts.old) (parts_of D.told parts.new) row slot
            there self.old.blocks self.new.blocks) }
        ensures fails { IfErr result
            (λ fault. ReadFails geometry.now (parts_of D.told parts.old) row (record { slot = slot; fault = fault })) }
        ensures alone { IfErr result
            (λ fault. FailsAlone geometry.now (promises_of D.promised parts.old) (parts_of D.told parts.old)
            (parts_of D.told parts.new) row (record { slot = slot; fault = fault })) }
        ensures promised { KeepPromises (promises_of D.promised parts.old) (promises_of D.promised parts.new) }
    {
        let number = geometry.shard_of(row) * geometry.slots() + slot;
        let there = read_part(parts, number, row, &mut self.block)?;
        if there {
            let position = geometry.position_at(row, slot);
            self.blocks.swap_block(position, &mut self.block);
        }
        Ok(there)
    }

    /// Reads the blocks of a row, by slot, from the parts that are there, and says which positions these have.
    pub(crate) fn read_row<D: BlockDevice>(
        &mut self,
        geometry: &Geometry,
        parts: &mut [Option<D>],
        row: u64,
    ) -> Result<Known, SlotFault>
        requires row_within { row < geometry.now.rows }
        requires parts { length parts.old ≡ geometry.now.shards * geometry.now.slots }
        requires room { Fits geometry.now self.old }
        ensures room { Fits geometry.now self.new }
        ensures read { IfOk result (λ known.
            RowRead geometry.now (parts_of D.told parts.old) (parts_of D.told parts.new) row known self.new.blocks) }
        ensures fails { IfErr result (ReadFails geometry.now (parts_of D.told parts.old) row) }
        ensures alone { IfErr result
            (FailsAlone geometry.now (promises_of D.promised parts.old) (parts_of D.told parts.old)
            (parts_of D.told parts.new) row) }
        ensures promised { KeepPromises (promises_of D.promised parts.old) (promises_of D.promised parts.new) }
        ensures limits { IsShape geometry.now }
    {
        let mut known = Known::none();
        for slot in 0..geometry.slots() {
            match self.read_slot(geometry, parts, row, slot) {
                Ok(there) => mark(&mut known, geometry.position_at(row, slot), there),
                Err(fault) => return Err(SlotFault { slot, fault }),
            }
        }
        Ok(known)
    }
}

// Adds a position whose block is there.
fn mark(known: &mut Known, position: usize, there: bool)
    requires { position < 32 }
    ensures { known.new ≡ marked known.old position there }
{
    if there {
        known.insert(position);
    }
}
