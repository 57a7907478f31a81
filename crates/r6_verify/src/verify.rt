//! Every row of an array, classified by the threads of its shards.

ghost use Rattle.std.specs.Prelude.{◌≡◌, ◌*◌, length, IfErr, IfOk, OnErr};
ghost use Rattle.r6_offline.specs.Errors.{IsRefusal};
ghost use Rattle.r6_offline.specs.Lent.{AreLeft, IsSound, KeepPromises, promises_of};
ghost use Rattle.r6_offline.specs.Parts.{parts_of};
ghost use Rattle.r6_offline.specs.Reports.{IsReport};

use crate::heard::{Ear, with_ear};
use r6_dev::BlockDevice;
use r6_layout::Geometry;
use r6_offline::{EngineError, Report, Watch, check_all};
use std::alloc::Global;
use std::sync::Wait;
use std::thread::Threads;

/// Reads all rows, and counts them by class: those of each shard in a thread of its own. What it answers is what one
/// thread answers that reads all rows in their order, each by slot: a row of which some part isn't there is skipped, and
/// nothing of it is read; the first fault ends it, and no row after it is counted.
///
/// Nothing is written. The threads of the shards after that of the fault may have read on, and met faults of their own,
/// which are not told.
///
/// # Errors
/// `NoMemory`, or `ThreadRefused` where a thread can't be made: no part has changed.
pub fn verify_shards<R: Threads + Wait + Sync, D: BlockDevice + Drop + Send>(
    rt: &R,
    alloc: Global,
    geometry: &Geometry,
    parts: &mut [Option<D>],
) -> Result<Report, EngineError>
    requires { length parts.old ≡ geometry.now.shards * geometry.now.slots }
    ensures report { IfOk result (IsReport geometry.now (parts_of D.told parts.old)) }
    ensures sound { IfOk result (λ report. IsSound geometry.now (promises_of D.promised parts.old) report.fault) }
    ensures kept { IfOk result (λ report. AreLeft geometry.now (promises_of D.promised parts.old) report.fault
        (parts_of D.told parts.old) (parts_of D.told parts.new)) }
    ensures promised { KeepPromises (promises_of D.promised parts.old) (promises_of D.promised parts.new) }
    ensures err { IfErr result IsRefusal }
    ensures unread { OnErr result (parts.new ≡ parts.old) }
{
    check_all(rt, alloc, geometry, parts)
}

// The same of parts that an ear hears of, and that are dropped then.
fn verify_heard<R: Threads + Wait + Sync, D: BlockDevice + Drop + Send, W: Watch + Send>(
    rt: &R,
    alloc: Global,
    geometry: &Geometry,
    parts: Vec<Option<D>>,
    ear: &Ear<W>,
) -> Result<Report, EngineError>
    requires { length parts.items ≡ geometry.now.shards * geometry.now.slots }
    ensures report { IfOk result (IsReport geometry.now (parts_of D.told parts.items)) }
    ensures sound { IfOk result (λ report. IsSound geometry.now (promises_of D.promised parts.items) report.fault) }
    ensures err { IfErr result IsRefusal }
{
    let mut heard = with_ear(alloc, geometry, parts, ear)?;
    verify_shards(rt, alloc, geometry, heard.as_mut_slice())
}

/// As [`verify_shards`], of parts that are dropped then. `watch` hears from the threads now and then how far they have
/// come together, and at last that all is over.
///
/// # Errors
/// `NoMemory`, or `ThreadRefused`.
pub fn verify_watched<R, D, W>(
    rt: &R,
    alloc: Global,
    geometry: &Geometry,
    parts: Vec<Option<D>>,
    watch: W,
) -> Result<Report, EngineError>
where
    R: Threads + Wait + Sync,
    D: BlockDevice + Drop + Send,
    W: Watch + Drop + Send,
    requires { length parts.items ≡ geometry.now.shards * geometry.now.slots }
    ensures report { IfOk result (IsReport geometry.now (parts_of D.told parts.items)) }
    ensures sound { IfOk result (λ report. IsSound geometry.now (promises_of D.promised parts.items) report.fault) }
    ensures err { IfErr result IsRefusal }
{
    let ear = Ear::new(watch, geometry.rows());
    let report = verify_heard(rt, alloc, geometry, parts, &ear);
    ear.end();
    report
}
