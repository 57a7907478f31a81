//! What a check finds, by class.

ghost use Rattle.std.specs.Prelude.{◌≡◌, ◌<◌, ◌≤◌, ◌+◌, ◌-◌, ◌^◌, Some, replicate};
ghost use Rattle.r6_offline.specs.PartReports.{noted_all};
ghost use Rattle.r6_offline.specs.Reports.{earlier, joined, no_report, noted, total, with_counts, with_finding, with_row};

use r6_dev::Fault;
use r6_recover::RowClass;

/// How many rows have each class, and how many were skipped because a slot of theirs is lost.
#[derive(Clone, Copy, PartialEq, Eq, Debug)]
pub struct ClassCounts {
    pub consistent: u64,
    pub wrong_p: u64,
    pub wrong_q: u64,
    pub wrong_data: u64,
    pub many: u64,
    pub skipped: u64,
}

/// A row of another class than `Consistent`.
#[derive(Clone, Copy, PartialEq, Eq, Debug)]
pub struct WrongRow {
    pub row: u64,
    pub class: RowClass,
}

/// Where a pass met a fault.
#[derive(Clone, Copy, PartialEq, Eq, Debug)]
pub struct RowFault {
    pub row: u64,
    pub slot: usize,
    pub fault: Fault,
}

/// What a check of an array found.
#[derive(Clone, Copy, PartialEq, Eq, Debug)]
pub struct Report {
    pub counts: ClassCounts,
    /// The first row that isn't consistent.
    pub first_wrong: Option<WrongRow>,
    /// The fault that ended the check. The rows before its row are counted, and no other.
    pub fault: Option<RowFault>,
}

impl ClassCounts {
    /// Of no row.
    pub fn new() -> ClassCounts
        ensures { result ≡ record { consistent = 0; wrong_p = 0; wrong_q = 0; wrong_data = 0; many = 0; skipped = 0 } }
    {
        ClassCounts {
            consistent: 0,
            wrong_p: 0,
            wrong_q: 0,
            wrong_data: 0,
            many: 0,
            skipped: 0,
        }
    }

    // Counts one more row, of this class or skipped.
    fn add(&mut self, finding: Option<RowClass>)
        requires { total self.old + 1 < 2 ^ 64 }
        ensures { self.new ≡ with_finding self.old finding }
    {
        match finding {
            None => self.skipped += 1,
            Some(RowClass::Consistent) => self.consistent += 1,
            Some(RowClass::WrongP) => self.wrong_p += 1,
            Some(RowClass::WrongQ) => self.wrong_q += 1,
            Some(RowClass::WrongData(_)) => self.wrong_data += 1,
            Some(RowClass::Many) => self.many += 1,
        }
    }

    // Counts further rows.
    fn add_all(&mut self, more: ClassCounts)
        requires { total self.old + total more < 2 ^ 64 }
        ensures { self.new ≡ with_counts self.old more }
    {
        self.consistent += more.consistent;
        self.wrong_p += more.wrong_p;
        self.wrong_q += more.wrong_q;
        self.wrong_data += more.wrong_data;
        self.many += more.many;
        self.skipped += more.skipped;
    }
}

// The first wrong row, where this row comes next.
fn first_of(first: Option<WrongRow>, row: u64, finding: Option<RowClass>) -> Option<WrongRow>
    ensures { result ≡ with_row first row finding }
{
    match first {
        Some(wrong) => Some(wrong),
        None => match finding {
            None => None,
            Some(RowClass::Consistent) => None,
            Some(class) => Some(WrongRow { row, class }),
        },
    }
}

// The first wrong row, where further rows come next.
fn earlier_of(first: Option<WrongRow>, next: Option<WrongRow>) -> Option<WrongRow>
    ensures { result ≡ earlier first next }
{
    match first {
        Some(earlier) => Some(earlier),
        None => next,
    }
}

impl Report {
    /// Of no row.
    pub(crate) fn new() -> Report
        ensures { result ≡ no_report }
    {
        Report {
            counts: ClassCounts::new(),
            first_wrong: None,
            fault: None,
        }
    }

    /// Takes in what was found of the next row.
    pub(crate) fn note(&mut self, row: u64, finding: Option<RowClass>)
        requires { total self.old.counts + 1 < 2 ^ 64 }
        ensures { self.new ≡ noted self.old row finding }
    {
        self.counts.add(finding);
        self.first_wrong = first_of(self.first_wrong, row, finding);
    }

    /// Takes in that the next rows, from this one on up to the one that comes next, are all consistent.
    pub(crate) fn note_consistent(&mut self, row: u64, next: u64)
        requires order { row ≤ next }
        requires fits { total self.old.counts + (next - row) < 2 ^ 64 }
        ensures { self.new ≡ noted_all self.old row (replicate (next - row) (Some RowClass.Consistent)) }
    {
        self.counts.consistent += next - row;
    }

    /// Takes in the report of the rows that come next.
    pub(crate) fn join(&mut self, next: &Report)
        requires { total self.old.counts + total next.now.counts < 2 ^ 64 }
        ensures { self.new ≡ joined self.old next.now }
    {
        self.counts.add_all(next.counts);
        self.first_wrong = earlier_of(self.first_wrong, next.first_wrong);
        self.fault = next.fault;
    }
}
