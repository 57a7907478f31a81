//! The frames that hold a row, found by the row.

ghost use Rattle.std.specs.Prelude.{◌≡◌, ◌<◌, ℕ, true, false};
ghost use Rattle.r6_bits.specs.Words.{HasNone};
ghost use Rattle.r6_frames.specs.Holders.{frames_for, IsWithFrame};

use r6_bits::with_bit;

/// By what is left of a row's number, divided by 64, the frames that hold such rows: bit i is frame i.
#[derive(Clone, Copy)]
pub(crate) struct Holders {
    frames: [u64; 64],
}

impl Holders {
    /// No frame holds a row.
    pub(crate) fn none() -> Holders
        ensures { (row : ℕ) → HasNone (frames_for result row) }
    {
        Holders { frames: [0; 64] }
    }

    /// The frames that hold the row or one with the same remainder, a bit each.
    pub(crate) fn frames_for(&self, row: u64) -> u64
        ensures { result ≡ frames_for self.now row }
    {
        self.frames[(row % 64) as usize]
    }

    /// The frame holds the row.
    pub(crate) fn add(&mut self, row: u64, frame: usize)
        requires { frame < 64 }
        ensures { IsWithFrame self.old row frame true self.new }
    {
        let entry = &mut self.frames[(row % 64) as usize];
        *entry = with_bit(*entry, frame, true);
    }

    /// The frame holds the row no more.
    pub(crate) fn remove(&mut self, row: u64, frame: usize)
        requires { frame < 64 }
        ensures { IsWithFrame self.old row frame false self.new }
    {
        let entry = &mut self.frames[(row % 64) as usize];
        *entry = with_bit(*entry, frame, false);
    }
}
