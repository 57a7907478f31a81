//! Standard error: the line of a fault, and word of how far a command has come.

ghost use Rattle.std.specs.Prelude.{◌≡◌, ◌∷◌, ◌++◌, [], false};
ghost use Rattle.std.specs.Io.KnownBytes.{Appends};
ghost use Rattle.r6_execute.specs.Faults.{fault_text};

use crate::fault::Fault;
use r6_engine::Watch;
use std::io::Write;

/// Standard error. Where it is a terminal, long work shows on it how far it has come.
#[derive(Drop)]
pub struct ErrorOutput<W> {
    pub writer: W,
    is_terminal: bool,
    // A line of progress stands on it.
    has_progress: bool,
    /// It refused the line of a fault.
    pub is_refused: bool,
}

impl<W: Write> ErrorOutput<W> {
    pub fn new(writer: W, is_terminal: bool) -> ErrorOutput<W>
        ensures { result ≡ record { writer = writer; is_terminal = is_terminal; has_progress = false; is_refused = false } }
    {
        ErrorOutput {
            writer,
            is_terminal,
            has_progress: false,
            is_refused: false,
        }
    }

    /// Writes the line of a fault. One that it refuses is lost.
    pub(crate) fn report(&mut self, fault: Fault)
        ensures { self.new.is_refused ≡ false
            → Appends (W.contents self.old.writer) (W.contents self.new.writer) (fault_text fault ++ 10 ∷ []) }
    {
        self.is_refused = writeln!(self.writer, "{fault}").is_err();
    }
}

// A write that standard error refuses is lost.
impl<W: Write> Watch for ErrorOutput<W> {
    fn passed(&mut self, rows: u64, of: u64) {
        if self.is_terminal && rows > 0 {
            self.has_progress = true;
            let _ = write!(self.writer, "\r{rows} of {of} rows");
        }
    }

    fn ended(&mut self) {
        if self.has_progress {
            self.has_progress = false;
            // to the line's begin, and what stands on it is erased
            let _ = write!(self.writer, "\r\x1b[K");
        }
    }
}

/// What is shown on standard error, from whichever thread, while it is lent to a pass.
#[derive(Drop)]
pub(crate) struct Shown<'e, W> {
    pub(crate) err: &'e mut ErrorOutput<W>,
}

impl<W: Write> Watch for Shown<'_, W> {
    fn passed(&mut self, rows: u64, of: u64) {
        self.err.passed(rows, of);
    }

    fn ended(&mut self) {
        self.err.ended();
    }
}
