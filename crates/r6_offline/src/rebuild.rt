//! A lost slot, rebuilt onto new parts.

ghost use Rattle.std.specs.Prelude.{◌≡◌, ◌≢◌, ◌*◌, ◌<◌, ℕ, length, IfErr, IfOk, IfSome, MatchBool, OnErr, OnOk, Some};
ghost use Rattle.r6_dev.specs.Promises.{Covers, MayAnswer};
ghost use Rattle.r6_offline.specs.Lent.{IsNamed, KeepPromises, OnlyReadBut, Promises, promises_of, target_promises};
ghost use Rattle.r6_offline.specs.Parts.{IsAbsent, IsThere, OnlyRead, parts_of};
ghost use Rattle.r6_offline.specs.Rows.{Fits};
ghost use Rattle.r6_offline.specs.Rebuilds.{AreRestored, FitsRoom, HasCause, IsRebuilt, IsRestoredBlock, IsRestoredRow, IsSoundRebuild, IsSpared, PartWritten, RebuildFails, RowRebuilt, targets_of};

use crate::error::EngineError;
use crate::long_row::LongRow;
use crate::report::RowFault;
use crate::row::{RowReader, SlotFault};
use crate::shard_check::alone;
use crate::stretch::rows_at_once;
use r6_dev::{BlockDevice, Fault};
use r6_kernels::Buffer;
use r6_layout::Geometry;
use r6_recover::restore;
use std::alloc::{AllocError, Global};

/// How far a rebuild came.
#[derive(Clone, Copy, PartialEq, Eq, Debug)]
pub struct Rebuilt {
    /// The number of rows that were rebuilt, from the lowest on.
    pub rows: u64,
    /// The fault that ended the rebuild. The rows before its row are rebuilt.
    pub fault: Option<RowFault>,
}

/// Whether no part of a slot is there.
pub fn is_absent<D: BlockDevice>(geometry: &Geometry, parts: &[Option<D>], slot: usize) -> bool
    requires parts { length parts.now ≡ geometry.now.shards * geometry.now.slots }
    requires slot { slot < geometry.now.slots }
    ensures { MatchBool result
        (IsAbsent geometry.now slot (parts_of D.told parts.now))
        (IsThere geometry.now slot (parts_of D.told parts.now)) }
{
    for shard in 0..geometry.shards() {
        if parts[shard * geometry.slots() + slot].is_some() {
            return false;
        }
    }
    true
}

/// Rebuilds a slot: computes each row from the parts that are there, and writes the target's block to its new parts,
/// of which there is one for each shard. The first fault ends it; rows that are written stay.
/// No part of the target may be there: [`is_absent`] tells.
///
/// A row of which more than two parts aren't there can't be restored: it is the fault `Gone` of the target.
/// All memory is taken before the first command.
///
/// # Errors
/// `NoMemory`.
pub fn rebuild_all<D: BlockDevice>(
    alloc: Global,
    geometry: &Geometry,
    parts: &mut [Option<D>],
    target: usize,
    targets: &mut [D],
) -> Result<Rebuilt, EngineError>
    requires parts { length parts.old ≡ geometry.now.shards * geometry.now.slots }
    requires target { target < geometry.now.slots }
    requires absent { IsAbsent geometry.now target (parts_of D.told parts.old) }
    requires targets { length targets.old ≡ geometry.now.shards }
    ensures rebuilt { IfOk result (IsRebuilt geometry.now target (parts_of D.told parts.old)
        (targets_of D.told targets.old) (targets_of D.told targets.new)) }
    ensures sound { IfOk result (λ rebuilt. IsSoundRebuild geometry.now target (parts_of D.told parts.old)
        (promises_of D.promised parts.old) (target_promises D.promised targets.old) rebuilt.fault) }
    ensures kept { IfOk result (λ rebuilt. OnlyReadBut (IsNamed geometry.now rebuilt.fault)
        (parts_of D.told parts.old) (parts_of D.told parts.new)) }
    ensures promised { KeepPromises (promises_of D.promised parts.old) (promises_of D.promised parts.new) }
    ensures targets { KeepPromises (target_promises D.promised targets.old) (target_promises D.promised targets.new) }
    ensures err { IfErr result (λ error. error ≡ EngineError.NoMemory) }
    ensures unread { OnErr result ((parts.new ≡ parts.old) × (targets.new ≡ targets.old)) }
{
    let mut room = Room::new(alloc, geometry)?;
    Ok(rebuild_rows(geometry, parts, target, targets, &mut room))
}

/// Room for one row, and for those of a stretch.
#[derive(Drop)]
pub(crate) struct Room {
    pub(crate) reader: RowReader,
    pub(crate) long: LongRow,
}

impl Room {
    fn new(alloc: Global, geometry: &Geometry) -> Result<Room, AllocError>
        ensures { IfOk result (λ room. FitsRoom geometry.now room × (room.long.end ≡ 0)) }
    {
        // One thread reads, as in a check of an array of one shard.
        let rows = rows_at_once(&alone(geometry));
        Ok(Room {
            reader: RowReader::new(alloc, geometry)?,
            long: LongRow::new(alloc, geometry, rows)?,
        })
    }
}

fn rebuild_rows<D: BlockDevice>(
    geometry: &Geometry,
    parts: &mut [Option<D>],
    target: usize,
    targets: &mut [D],
    room: &mut Room,
) -> Rebuilt
    requires parts { length parts.old ≡ geometry.now.shards * geometry.now.slots }
    requires target { target < geometry.now.slots }
    requires absent { IsAbsent geometry.now target (parts_of D.told parts.old) }
    requires targets { length targets.old ≡ geometry.now.shards }
    requires room { FitsRoom geometry.now room.old }
    requires none { room.old.long.end ≡ 0 }
    ensures rebuilt { IsRebuilt geometry.now target (parts_of D.told parts.old) (targets_of D.told targets.old)
        (targets_of D.told targets.new) result }
    ensures sound { IsSoundRebuild geometry.now target (parts_of D.told parts.old)
        (promises_of D.promised parts.old) (target_promises D.promised targets.old) result.fault }
    ensures kept { OnlyReadBut (IsNamed geometry.now result.fault) (parts_of D.told parts.old)
        (parts_of D.told parts.new) }
    ensures promised { KeepPromises (promises_of D.promised parts.old) (promises_of D.promised parts.new) }
    ensures targets { KeepPromises (target_promises D.promised targets.old) (target_promises D.promised targets.new) }
{
    for row in 0..geometry.rows() {
        match rebuild_row(geometry, parts, row, target, targets, room) {
            Ok(()) => {}
            Err(fault) => return ended(row, fault),
        }
    }
    Rebuilt {
        rows: geometry.rows(),
        fault: None,
    }
}

// A rebuild that ends at this row.
fn ended(row: u64, fault: SlotFault) -> Rebuilt
    ensures { result
        ≡ record { rows = row; fault = Some (record { row = row; slot = fault.slot; fault = fault.fault }) } }
{
    Rebuilt {
        rows: row,
        fault: Some(RowFault {
            row,
            slot: fault.slot,
            fault: fault.fault,
        }),
    }
}

fn rebuild_row<D: BlockDevice>(
    geometry: &Geometry,
    parts: &mut [Option<D>],
    row: u64,
    target: usize,
    targets: &mut [D],
    room: &mut Room,
) -> Result<(), SlotFault>
    requires row_within { row < geometry.now.rows }
    requires parts { length parts.old ≡ geometry.now.shards * geometry.now.slots }
    requires target { target < geometry.now.slots }
    requires absent { IsAbsent geometry.now target (parts_of D.told parts.old) }
    requires targets { length targets.old ≡ geometry.now.shards }
    requires room { FitsRoom geometry.now room.old }
    ensures room { FitsRoom geometry.now room.new }
    ensures rebuilt { OnOk result
        (RowRebuilt geometry.now target row (parts_of D.told parts.old) (parts_of D.told parts.new)
        (targets_of D.told targets.old) (targets_of D.told targets.new) room.old.long room.new.long) }
    ensures fails { IfErr result (λ fault.
        RebuildFails geometry.now target row (parts_of D.told parts.old) (parts_of D.told parts.new) fault
        × HasCause geometry.now target (parts_of D.told parts.old) (promises_of D.promised parts.old)
        (target_promises D.promised targets.old) row fault) }
    ensures promised { KeepPromises (promises_of D.promised parts.old) (promises_of D.promised parts.new)
        × KeepPromises (target_promises D.promised targets.old) (target_promises D.promised targets.new) }
    ensures unwritten { IfErr result (λ fault. (shard : ℕ) → IsSpared geometry.now target shard row fault.slot
        → targets_of D.told targets.new shard ≡ targets_of D.told targets.old shard) }
{
    if let Err(fault) = restore_block(geometry, parts, row, target, room) {
        return Err(fault);
    }
    let shard = geometry.shard_of(row);
    match write_part(targets, shard, row, &room.reader.block) {
        Ok(()) => Ok(()),
        Err(fault) => Err(SlotFault {
            slot: target,
            fault,
        }),
    }
}

// Restores the target's block of a row: with those of its stretch, or of the row alone, which tells the fault if there
// is one.
fn restore_block<D: BlockDevice>(
    geometry: &Geometry,
    parts: &mut [Option<D>],
    row: u64,
    target: usize,
    room: &mut Room,
) -> Result<(), SlotFault>
    requires row_within { row < geometry.now.rows }
    requires parts { length parts.old ≡ geometry.now.shards * geometry.now.slots }
    requires target { target < geometry.now.slots }
    requires absent { IsAbsent geometry.now target (parts_of D.told parts.old) }
    requires room { FitsRoom geometry.now room.old }
    ensures room { FitsRoom geometry.now room.new }
    ensures only_read { OnOk result (OnlyRead (parts_of D.told parts.old) (parts_of D.told parts.new)) }
    ensures restored { OnOk result
        (IsRestoredBlock geometry.now (parts_of D.told parts.old) target row room.old.long room.new.reader.block
        × AreRestored geometry.now (parts_of D.told parts.old) target room.old.long room.new.long) }
    ensures fails { IfErr result
        (RebuildFails geometry.now target row (parts_of D.told parts.old) (parts_of D.told parts.new)) }
    ensures cause { IfErr result (λ fault. (targets : Promises) → HasCause geometry.now target
        (parts_of D.told parts.old) (promises_of D.promised parts.old) targets row fault) }
    ensures promised { KeepPromises (promises_of D.promised parts.old) (promises_of D.promised parts.new) }
{
    if room
        .long
        .give(geometry, parts, row, target, &mut room.reader.block)
    {
        return Ok(());
    }
    if let Err(fault) = restore_row(geometry, parts, row, target, &mut room.reader) {
        return Err(fault);
    }
    let position = geometry.position_at(row, target);
    room.reader
        .blocks
        .swap_block(position, &mut room.reader.block);
    Ok(())
}

// Reads a row, and restores the blocks of the parts that aren't there.
fn restore_row<D: BlockDevice>(
    geometry: &Geometry,
    parts: &mut [Option<D>],
    row: u64,
    target: usize,
    reader: &mut RowReader,
) -> Result<(), SlotFault>
    requires row_within { row < geometry.now.rows }
    requires parts { length parts.old ≡ geometry.now.shards * geometry.now.slots }
    requires target { target < geometry.now.slots }
    requires absent { IsAbsent geometry.now target (parts_of D.told parts.old) }
    requires room { Fits geometry.now reader.old }
    ensures room { Fits geometry.now reader.new }
    ensures only_read { OnOk result (OnlyRead (parts_of D.told parts.old) (parts_of D.told parts.new)) }
    ensures restored { OnOk result (IsRestoredRow geometry.now (parts_of D.told parts.old) row reader.new.blocks) }
    ensures fails { IfErr result
        (RebuildFails geometry.now target row (parts_of D.told parts.old) (parts_of D.told parts.new)) }
    ensures cause { IfErr result (λ fault. (targets : Promises) → HasCause geometry.now target
        (parts_of D.told parts.old) (promises_of D.promised parts.old) targets row fault) }
    ensures promised { KeepPromises (promises_of D.promised parts.old) (promises_of D.promised parts.new) }
{
    let known = match reader.read_row(geometry, parts, row) {
        Ok(known) => known,
        Err(fault) => return Err(fault),
    };
    match restore(&mut reader.blocks, known) {
        Ok(()) => Ok(()),
        Err(_) => Err(SlotFault {
            slot: target,
            fault: Fault::Gone,
        }),
    }
}

// Writes a row of the part with this number.
fn write_part<D: BlockDevice>(
    targets: &mut [D],
    shard: usize,
    row: u64,
    block: &Buffer,
) -> Result<(), Fault>
    requires { shard < length targets.old }
    ensures written { OnOk result
        (PartWritten (targets_of D.told targets.old) (targets_of D.told targets.new) shard row block.now) }
    ensures others { (other : ℕ) → other ≢ shard
        → targets_of D.told targets.new other ≡ targets_of D.told targets.old other }
    ensures of_write { IfErr result (λ fault. fault ≢ Fault.ReadFault) }
    ensures sound { OnErr result (IfSome (target_promises D.promised targets.old shard)
        (λ promise. ¬ Covers promise row (length block.now))) }
    ensures kind { IfErr result (λ fault. IfSome (target_promises D.promised targets.old shard)
        (λ promise. MayAnswer promise row fault)) }
    ensures targets { KeepPromises (target_promises D.promised targets.old) (target_promises D.promised targets.new) }
{
    targets[shard].write(row, block)
}
