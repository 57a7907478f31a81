//! Many rows of the array, read one after another and classified in several threads.

ghost use Rattle.std.specs.Prelude.{◌≡◌, ◌+◌, ◌*◌, ◌^◌, ◌<◌, ◌≤◌, length, IfOk, IfSome};
ghost use Rattle.std.specs.Thread.{IsSync};
ghost use Rattle.r6_offline.specs.Lent.{FailsAlone, KeepPromises, promises_of};
ghost use Rattle.r6_offline.specs.Parts.{parts_of};
ghost use Rattle.r6_offline.specs.RowChecks.{AllFit, AreClassified, HasRoom, IsBatchRead, IsClassified};

use crate::row::SlotFault;
use crate::row_check::RowCheck;
use r6_dev::BlockDevice;
use r6_layout::Geometry;
use rayon::join_mut;
use rayon::prelude::*;
use std::alloc::{AllocError, Global};
use std::thread::Threads;

// Bytes of the rows that are read before they are classified, and how many rows these are at most.
const BATCH_BYTES: usize = 1 << 21;

const BATCH_ROWS: usize = 4096;

/// How far a batch was read.
#[derive(Clone, Copy)]
pub(crate) struct BatchRead {
    pub(crate) rows: usize,
    /// The fault that the next row met.
    pub(crate) fault: Option<SlotFault>,
}

/// Room for the rows of a batch, of which there is one at least.
pub(crate) fn new_batch(alloc: Global, geometry: &Geometry) -> Result<Vec<RowCheck>, AllocError>
    ensures { IfOk result (λ batch. HasRoom geometry.now batch.items) }
{
    let rows = BATCH_BYTES / (geometry.slots() * geometry.block());
    new_rows(
        alloc,
        geometry,
        rows.min(BATCH_ROWS).min(geometry.rows() as usize).max(1),
    )
}

// Room for so many rows.
fn new_rows(alloc: Global, geometry: &Geometry, count: usize) -> Result<Vec<RowCheck>, AllocError>
    ensures count { IfOk result (λ batch. length batch.items ≡ count) }
    ensures room { IfOk result (λ batch. AllFit geometry.now batch.items) }
{
    let mut batch = Vec::new(alloc);
    for _ in 0..count {
        batch.push(RowCheck::new(alloc, geometry)?)?;
    }
    Ok(batch)
}

/// Reads so many rows, from this one on, each into its place. The first fault ends it.
pub(crate) fn read_batch<D: BlockDevice>(
    geometry: &Geometry,
    parts: &mut [Option<D>],
    row: u64,
    count: usize,
    batch: &mut [RowCheck],
) -> BatchRead
    requires parts { length parts.old ≡ geometry.now.shards * geometry.now.slots }
    requires within { row + count ≤ geometry.now.rows }
    requires bounded { geometry.now.rows < 2 ^ 64 }
    requires places { count ≤ length batch.old }
    requires room { AllFit geometry.now batch.old }
    ensures read { IsBatchRead geometry.now (parts_of D.told parts.old) (parts_of D.told parts.new)
        row count batch.old batch.new result }
    ensures alone { IfSome result.fault
        (FailsAlone geometry.now (promises_of D.promised parts.old) (parts_of D.told parts.old)
        (parts_of D.told parts.new) (row + result.rows)) }
    ensures promised { KeepPromises (promises_of D.promised parts.old) (promises_of D.promised parts.new) }
{
    for index in 0..count {
        if let Err(fault) = batch[index].read(geometry, parts, row + index as u64) {
            return BatchRead {
                rows: index,
                fault: Some(fault),
            };
        }
    }
    BatchRead {
        rows: count,
        fault: None,
    }
}

/// Classifies rows that were read, in a thread for each processor.
pub(crate) fn classify_batch<R: Threads + Sync>(rt: &R, batch: &mut [RowCheck])
    ensures { AreClassified batch.old batch.new }
{
    par_for_each_mut(
        rt,
        batch,
        |_: usize, check: &mut RowCheck|
            ensures { IsClassified check.old check.new }
        { check.classify() },
    );
}

/// Classifies rows that were read, while the calling thread reads so many others into another batch.
pub(crate) fn classify_and_read<R: Threads + Sync, D: BlockDevice>(
    rt: &R,
    classified: &mut [RowCheck],
    geometry: &Geometry,
    parts: &mut [Option<D>],
    row: u64,
    count: usize,
    batch: &mut [RowCheck],
) -> BatchRead
    requires parts { length parts.old ≡ geometry.now.shards * geometry.now.slots }
    requires within { row + count ≤ geometry.now.rows }
    requires bounded { geometry.now.rows < 2 ^ 64 }
    requires places { count ≤ length batch.old }
    requires room { AllFit geometry.now batch.old }
    ensures classified { AreClassified classified.old classified.new }
    ensures read { IsBatchRead geometry.now (parts_of D.told parts.old) (parts_of D.told parts.new)
        row count batch.old batch.new result }
    ensures alone { IfSome result.fault
        (FailsAlone geometry.now (promises_of D.promised parts.old) (parts_of D.told parts.old)
        (parts_of D.told parts.new) (row + result.rows)) }
    ensures promised { KeepPromises (promises_of D.promised parts.old) (promises_of D.promised parts.new) }
{
    let (_, read) = join_mut(
        rt,
        &mut ||
            requires { IsSync R.row }
            ensures { AreClassified classified.entry.now classified.exit.now }
        { classify_batch(rt, classified) },
        &mut || -> BatchRead
            requires parts { length parts.now ≡ geometry.now.shards * geometry.now.slots }
            requires within { row + count ≤ geometry.now.rows }
            requires bounded { geometry.now.rows < 2 ^ 64 }
            requires places { count ≤ length batch.now }
            requires room { AllFit geometry.now batch.now }
            ensures read { IsBatchRead geometry.entry.now (parts_of D.told parts.entry.now)
                (parts_of D.told parts.exit.now) row count batch.entry.now batch.exit.now result }
            ensures alone { IfSome result.fault
                (FailsAlone geometry.entry.now (promises_of D.promised parts.entry.now)
                (parts_of D.told parts.entry.now) (parts_of D.told parts.exit.now) (row + result.rows)) }
            ensures promised { KeepPromises (promises_of D.promised parts.entry.now)
                (promises_of D.promised parts.exit.now) }
        { read_batch(geometry, parts, row, count, batch) },
    );
    read
}
