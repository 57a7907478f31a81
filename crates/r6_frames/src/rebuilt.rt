//! The rows that are rebuilt on a new device.

ghost use Rattle.std.specs.Prelude.{◌≡◌, ◌≢◌, ◌+◌, ◌<◌, ◌^◌, ℕ, true};
ghost use Rattle.r6_world.specs.Tables.{put};
ghost use Rattle.r6_frames.specs.Rebuilt.{is_rebuilt, none_rebuilt, next_row, AreNext, IsNext};

/// As many of a shard's rows that aren't rebuilt may be under way at one time, and no more.
pub const MOST_WINDOW: usize = 8;

/// Which rows of a shard are rebuilt on a new device.
///
/// The rows that are rebuilt next are always among the first eight that aren't, so no row after the last of these is.
#[derive(Clone, Copy)]
pub struct RebuiltRows {
    /// The shard's first row.
    pub(crate) start: u64,
    /// The first rows from there on that aren't rebuilt, in order.
    pub(crate) next: [u64; MOST_WINDOW],
}

/// A new device on which a row is rebuilt.
#[derive(Clone, Copy)]
pub struct Target {
    pub slot: usize,
    pub generation: u32,
}

impl RebuiltRows {
    /// No row of the shard that has this first row.
    pub fn none(start: u64) -> RebuiltRows
        requires { start < 2 ^ 63 }
        ensures { result ≡ none_rebuilt start }
    {
        let next = [
            start,
            start + 1,
            start + 2,
            start + 3,
            start + 4,
            start + 5,
            start + 6,
            start + 7,
        ];
        RebuiltRows { start, next }
    }

    /// Whether the row is rebuilt.
    pub fn is_built(&self, row: u64) -> bool
        ensures { result ≡ is_rebuilt self.now row }
    {
        self.start <= row && row < self.next[MOST_WINDOW - 1] && !self.next.contains(&row)
    }

    /// The row of this number, from 0 on, among those that are rebuilt next: the first that aren't rebuilt, in order.
    pub fn next_row(&self, number: usize) -> u64
        requires { number < 8 }
        ensures { result ≡ next_row self.now number }
    {
        self.next[number]
    }

    /// The row, which is one of those that are rebuilt next, is rebuilt.
    pub(crate) fn mark(&mut self, row: u64)
        requires next { IsNext self.old row }
        requires rows { (end : ℕ) × AreNext end self.old × (row < end) × (end < 2 ^ 63) }
        ensures start { self.new.start ≡ self.old.start }
        ensures built { is_rebuilt self.new ≡ put (is_rebuilt self.old) row true }
        ensures rows { (end : ℕ) → AreNext end self.old → row < end → AreNext end self.new }
        ensures others { (other : ℕ) → IsNext self.old other → other ≢ row → IsNext self.new other }
    {
        let last = self.next[MOST_WINDOW - 1];
        for number in 0..MOST_WINDOW - 1 {
            if self.next[number] >= row {
                self.next[number] = self.next[number + 1];
            }
        }
        self.next[MOST_WINDOW - 1] = last + 1;
    }
}
