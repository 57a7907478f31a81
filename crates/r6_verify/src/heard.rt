//! Word of how far a pass has come that several threads make.

ghost use Rattle.std.specs.Prelude.{◌≡◌, length, map, IfOk};
ghost use Rattle.r6_verify.specs.Heard.{below, promised_below, told_below};

use r6_dev::{BlockDevice, Fault};
use r6_kernels::Buffer;
use r6_layout::Geometry;
use r6_offline::Watch;
use std::alloc::{AllocError, Global};
use std::sync::Mutex;
use std::sync::atomic::{AtomicU64, Ordering};

// The watch hears each time that so many rows were passed.
const ROWS_A_WORD: u64 = 16384;

/// Hears of the rows that the threads of a pass read, and tells a watch how far the pass has come.
#[derive(Drop)]
pub(crate) struct Ear<W> {
    watch: Mutex<W>,
    passed: AtomicU64,
    rows: u64,
}

impl<W: Watch> Ear<W> {
    /// An ear for a pass over so many rows.
    pub(crate) fn new(watch: W, rows: u64) -> Ear<W> {
        Ear {
            watch: Mutex::new(watch),
            passed: AtomicU64::new(0),
            rows,
        }
    }

    // So many more rows are read. A word that comes while the watch hears another one is dropped.
    fn pass(&self, rows: u64) {
        let passed = self.passed.fetch_add(rows, Ordering::SeqCst);
        let begun = passed % ROWS_A_WORD;
        if begun == 0 || ROWS_A_WORD - begun < rows {
            if let Some(mut watch) = self.watch.try_lock() {
                watch.passed(passed, self.rows);
            }
        }
    }

    /// The pass is over, and the watch hears so.
    pub(crate) fn end(self)
    where
        W: Drop,
    {
        let mut watch = self.watch.into_inner();
        watch.ended();
    }
}

/// A part of a device, of which an ear may hear the rows that are read.
#[derive(Drop)]
pub(crate) struct Heard<'e, D, W> {
    pub(crate) device: D,
    ear: Option<&'e Ear<W>>,
    // The ear has heard of the rows before this one.
    next: u64,
}

impl<D, W: Watch> Heard<'_, D, W> {
    // Rows are read up to this one. Rows that are read again aren't heard of again.
    fn read_to(&mut self, row: u64, end: u64)
        ensures { self.new.device ≡ self.old.device }
    {
        let from = self.next.max(row);
        if let Some(ear) = self.ear {
            if from < end {
                ear.pass(end - from);
                self.next = end;
            }
        }
    }
}

impl<D: BlockDevice, W: Watch> BlockDevice for Heard<'_, D, W> {
    ghost told = { told_below D.told };

    ghost promised = { promised_below D.promised };

    fn read(&mut self, row: u64, buffer: &mut Buffer) -> Result<(), Fault> {
        self.read_to(row, row.saturating_add(1));
        self.device.read(row, buffer)
    }

    fn read_rows(&mut self, row: u64, count: usize, bytes: &mut [u8]) -> bool {
        self.read_to(row, row.saturating_add(count as u64));
        self.device.read_rows(row, count, bytes)
    }

    fn write(&mut self, row: u64, buffer: &Buffer) -> Result<(), Fault> {
        self.device.write(row, buffer)
    }
}

// A part that the ear hears of, if it is there.
fn hear<'e, D, W>(part: Option<D>, ear: Option<&'e Ear<W>>) -> Option<Heard<'e, D, W>>
    ensures { below result ≡ part }
{
    match part {
        Some(device) => Some(Heard {
            device,
            ear,
            next: 0,
        }),
        None => None,
    }
}

/// The parts of an array, in their order, as the ear hears of them: of each row once, when its block on the first slot
/// is first read.
///
/// # Errors
/// `AllocError`: the parts are dropped.
pub(crate) fn with_ear<'e, D: Drop, W>(
    alloc: Global,
    geometry: &Geometry,
    parts: Vec<Option<D>>,
    ear: &'e Ear<W>,
) -> Result<Vec<Option<Heard<'e, D, W>>>, AllocError>
    ensures below { IfOk result (λ heard. map below heard.items ≡ parts.items) }
    ensures count { IfOk result (λ heard. length heard.items ≡ length parts.items) }
{
    let mut heard = Vec::with_capacity(alloc, parts.len())?;
    for part in parts {
        let is_first = heard.len() % geometry.slots() == 0;
        heard.push_reserved(hear(part, if is_first { Some(ear) } else { None }));
    }
    Ok(heard)
}
