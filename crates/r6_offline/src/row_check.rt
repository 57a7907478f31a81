//! One row of the array, read and classified.

ghost use Rattle.std.specs.Prelude.{◌≡◌, ◌*◌, ◌<◌, length, IfErr, IfOk, MatchBool, OnOk};
ghost use Rattle.r6_offline.specs.Lent.{FailsAlone, KeepPromises, promises_of};
ghost use Rattle.r6_offline.specs.Parts.{OnlyRead, parts_of};
ghost use Rattle.r6_offline.specs.Rows.{AreThere, Fits, HasAbsent, ReadFails};
ghost use Rattle.r6_offline.specs.RowChecks.{IsClassified, IsRead};

use crate::row::{RowReader, SlotFault};
use r6_dev::BlockDevice;
use r6_layout::Geometry;
use r6_recover::{RowClass, classify};
use std::alloc::{AllocError, Global};

/// Room for a row of the array, and for what is found of it.
#[derive(Drop)]
pub(crate) struct RowCheck {
    pub(crate) reader: RowReader,
    /// All parts of the row were there.
    pub(crate) is_whole: bool,
    /// The class of the row, or none if it is skipped.
    pub(crate) finding: Option<RowClass>,
}

impl RowCheck {
    pub(crate) fn new(alloc: Global, geometry: &Geometry) -> Result<RowCheck, AllocError>
        ensures { IfOk result (λ check. Fits geometry.now check.reader) }
    {
        Ok(RowCheck {
            reader: RowReader::new(alloc, geometry)?,
            is_whole: false,
            finding: None,
        })
    }

    /// Reads the blocks of a row, by slot. Of a row of which some part isn't there nothing is read.
    pub(crate) fn read<D: BlockDevice>(
        &mut self,
        geometry: &Geometry,
        parts: &mut [Option<D>],
        row: u64,
    ) -> Result<(), SlotFault>
        requires row_within { row < geometry.now.rows }
        requires parts { length parts.old ≡ geometry.now.shards * geometry.now.slots }
        requires room { Fits geometry.now self.old.reader }
        ensures room { Fits geometry.now self.new.reader }
        ensures only_read { OnOk result (OnlyRead (parts_of D.told parts.old) (parts_of D.told parts.new)) }
        ensures read { OnOk result (IsRead geometry.now (parts_of D.told parts.old) row self.new) }
        ensures fails { IfErr result (ReadFails geometry.now (parts_of D.told parts.old) row) }
        ensures alone { IfErr result
            (FailsAlone geometry.now (promises_of D.promised parts.old) (parts_of D.told parts.old)
            (parts_of D.told parts.new) row) }
        ensures promised { KeepPromises (promises_of D.promised parts.old) (promises_of D.promised parts.new) }
    {
        if has_absent(geometry, parts, row) {
            self.is_whole = false;
            return Ok(());
        }
        match self.reader.read_row(geometry, parts, row) {
            Ok(_) => {
                self.is_whole = true;
                Ok(())
            }
            Err(fault) => Err(fault),
        }
    }

    /// Finds the class of the row that was read.
    pub(crate) fn classify(&mut self)
        ensures { IsClassified self.old self.new }
    {
        if !self.is_whole {
            self.finding = None;
            return;
        }
        self.finding = Some(classify(&mut self.reader.blocks));
    }
}

/// Whether some part of the row isn't there.
pub(crate) fn has_absent<D: BlockDevice>(geometry: &Geometry, parts: &[Option<D>], row: u64) -> bool
    requires row_within { row < geometry.now.rows }
    requires parts { length parts.now ≡ geometry.now.shards * geometry.now.slots }
    ensures { MatchBool result
        (HasAbsent geometry.now (parts_of D.told parts.now) row)
        (AreThere geometry.now (parts_of D.told parts.now) row) }
{
    let first = geometry.shard_of(row) * geometry.slots();
    for slot in 0..geometry.slots() {
        if parts[first + slot].is_none() {
            return true;
        }
    }
    false
}
