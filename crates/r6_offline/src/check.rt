//! Every row of an array, classified.

ghost use Rattle.std.specs.Prelude.{◌≡◌, ◌*◌, ◌+◌, ◌<◌, ◌≤◌, ◌^◌, length, map, IfErr, IfOk, IfSome, None, OnErr};
ghost use Rattle.r6_offline.specs.Errors.{IsRefusal};
ghost use Rattle.r6_offline.specs.Lent.{AreLeft, IsNamed, IsSound, KeepPromises, OnlyReadBut, promises_of};
ghost use Rattle.r6_offline.specs.Parts.{parts_of};
ghost use Rattle.r6_offline.specs.PartReports.{joined_all};
ghost use Rattle.r6_offline.specs.Reports.{IsReport, no_report, total};
ghost use Rattle.r6_offline.specs.RowChecks.{HasRoom};
ghost use Rattle.r6_offline.specs.ShardChecks.{report_of};

use crate::batch::{BatchRead, classify_and_read, new_batch, read_batch};
use crate::error::EngineError;
use crate::report::{Report, RowFault};
use crate::row::SlotFault;
use crate::row_check::RowCheck;
use crate::shard_check::{ShardCheck, alone, checks_of, exchange};
use crate::watch::Watch;
use r6_dev::BlockDevice;
use r6_layout::Geometry;
use r6_threads::{Unbegun, run_or_return};
use std::alloc::Global;
use std::mem;
use std::sync::Wait;
use std::thread::Threads;

// A pass tells how far it has come each time it has gone over so many rows.
const ROWS_A_WORD: u64 = 16384;

/// Reads all rows, the rows of each shard in a thread of their own, and counts them by class. What it answers is what
/// one thread answers that reads all rows in their order, each by slot: a row of which some part isn't there is
/// skipped, and nothing of it is read; the first fault ends it, and no row behind it is counted. Rows of a chunk are
/// read by one read of each slot where the devices can, and again one by one if they aren't all consistent.
///
/// Nothing is written. All memory is taken, and all threads are there, before the first read.
///
/// # Errors
/// `NoMemory` or `ThreadRefused`: nothing was read.
pub fn check_all<R: Threads + Wait + Sync, D: BlockDevice + Drop + Send>(
    rt: &R,
    alloc: Global,
    geometry: &Geometry,
    parts: &mut [Option<D>],
) -> Result<Report, EngineError>
    requires { length parts.old ≡ geometry.now.shards * geometry.now.slots }
    ensures report { IfOk result (IsReport geometry.now (parts_of D.told parts.old)) }
    ensures sound { IfOk result (λ report. IsSound geometry.now (promises_of D.promised parts.old) report.fault) }
    ensures kept { IfOk result (λ report. AreLeft geometry.now (promises_of D.promised parts.old) report.fault
        (parts_of D.told parts.old) (parts_of D.told parts.new)) }
    ensures promised { KeepPromises (promises_of D.promised parts.old) (promises_of D.promised parts.new) }
    ensures err { IfErr result IsRefusal }
    ensures unread { OnErr result (parts.new ≡ parts.old) }
{
    let alone = alone(geometry);
    let mut checks = checks_of(alloc, geometry, &alone)?;
    exchange(parts, checks.as_mut_slice());
    match run_or_return(rt, alloc, &alone, checks, || ()) {
        Ok((_, mut checks)) => {
            exchange(parts, checks.as_mut_slice());
            Ok(join_reports(checks.as_slice()))
        }
        Err(Unbegun { reason, mut works }) => {
            exchange(parts, works.as_mut_slice());
            Err(reason.into())
        }
    }
}

// The reports of the shards, from the first on, up to the first fault.
fn join_reports<D>(checks: &[ShardCheck<D>]) -> Report
    requires { total (joined_all no_report (map report_of checks.now)).counts < 2 ^ 64 }
    ensures { result ≡ joined_all no_report (map report_of checks.now) }
{
    let mut report = Report::new();
    for check in checks {
        report.join(&check.report);
        if report.fault.is_some() {
            return report;
        }
    }
    report
}

/// As [`check_all`], with the same answer: the calling thread reads all rows in their order, a batch at a time, and
/// meanwhile other threads classify the batch before. `watch` hears now and then how far it has come.
///
/// Where no thread can be started the calling one classifies too.
///
/// # Errors
/// `NoMemory`.
pub fn verify<R: Threads + Sync, D: BlockDevice + Send, W: Watch>(
    rt: &R,
    alloc: Global,
    geometry: &Geometry,
    parts: &mut [Option<D>],
    watch: &mut W,
) -> Result<Report, EngineError>
    requires { length parts.old ≡ geometry.now.shards * geometry.now.slots }
    ensures report { IfOk result (IsReport geometry.now (parts_of D.told parts.old)) }
    ensures sound { IfOk result (λ report. IsSound geometry.now (promises_of D.promised parts.old) report.fault) }
    ensures kept { IfOk result (λ report. OnlyReadBut (IsNamed geometry.now report.fault)
        (parts_of D.told parts.old) (parts_of D.told parts.new)) }
    ensures promised { KeepPromises (promises_of D.promised parts.old) (promises_of D.promised parts.new) }
    ensures err { IfErr result (λ error. error ≡ EngineError.NoMemory) }
    ensures unread { OnErr result (parts.new ≡ parts.old) }
{
    let first = new_batch(alloc, geometry)?;
    let second = new_batch(alloc, geometry)?;
    let report = verify_rows(rt, geometry, parts, first, second, watch);
    watch.ended();
    Ok(report)
}

// The rows of the batch in front are classified while those that follow are read into the one behind.
fn verify_rows<R: Threads + Sync, D: BlockDevice, W: Watch>(
    rt: &R,
    geometry: &Geometry,
    parts: &mut [Option<D>],
    mut front: Vec<RowCheck>,
    mut behind: Vec<RowCheck>,
    watch: &mut W,
) -> Report
    requires parts { length parts.old ≡ geometry.now.shards * geometry.now.slots }
    requires front { HasRoom geometry.now front.items }
    requires behind { HasRoom geometry.now behind.items }
    ensures report { IsReport geometry.now (parts_of D.told parts.old) result }
    ensures sound { IsSound geometry.now (promises_of D.promised parts.old) result.fault }
    ensures kept { OnlyReadBut (IsNamed geometry.now result.fault) (parts_of D.told parts.old)
        (parts_of D.told parts.new) }
    ensures promised { KeepPromises (promises_of D.promised parts.old) (promises_of D.promised parts.new) }
{
    let rows = geometry.rows();
    let mut report = Report::new();
    let mut row = 0;
    let count = count_of_rows(geometry, 0, front.len());
    let mut read = read_batch(geometry, parts, 0, count, front.as_mut_slice());
    while row < rows {
        if row % ROWS_A_WORD == 0 {
            watch.passed(row, rows);
        }
        let end = row + read.rows as u64;
        let count = count_behind(geometry, &read, end, behind.len());
        let next = classify_and_read(
            rt,
            front.as_mut_slice(),
            geometry,
            parts,
            end,
            count,
            behind.as_mut_slice(),
        );
        for index in 0..read.rows {
            report.note(row + index as u64, front[index].finding);
        }
        if let Some(SlotFault { slot, fault }) = read.fault {
            report.fault = Some(RowFault {
                row: end,
                slot,
                fault,
            });
            return report;
        }
        mem::swap(&mut front, &mut behind);
        row = end;
        read = next;
    }
    report
}

// How many rows are read behind a batch that ends at this row: none after a fault.
fn count_behind(geometry: &Geometry, read: &BatchRead, end: u64, room: usize) -> usize
    requires within { end ≤ geometry.now.rows }
    requires some { 0 < room }
    ensures some { read.now.fault ≡ None → end < geometry.now.rows → 0 < result }
    ensures none { IfSome read.now.fault (λ _. result ≡ 0) }
    ensures room { result ≤ room }
    ensures within { end + result ≤ geometry.now.rows }
{
    match read.fault {
        None => count_of_rows(geometry, end, room),
        Some(_) => 0,
    }
}

// How many rows the batch has that begins at this one: as many as there is room for, up to the next word.
fn count_of_rows(geometry: &Geometry, row: u64, room: usize) -> usize
    requires within { row ≤ geometry.now.rows }
    requires some { 0 < room }
    ensures some { row < geometry.now.rows → 0 < result }
    ensures room { result ≤ room }
    ensures within { row + result ≤ geometry.now.rows }
{
    let left = geometry.rows() - row;
    let to_word = ROWS_A_WORD - row % ROWS_A_WORD;
    left.min(to_word).min(room as u64) as usize
}
