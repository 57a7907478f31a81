//! Word of how far a pass has come.

/// Hears how far a pass has come, now and then.
pub trait Watch {
    /// The pass has gone over so many rows of all that there are.
    fn passed(&mut self, rows: u64, of: u64);

    /// The pass is over, or ended by a fault.
    fn ended(&mut self);
}

/// Hears nothing.
#[derive(Drop)]
pub struct Unwatched;

impl Watch for Unwatched {
    fn passed(&mut self, _rows: u64, _of: u64) {}

    fn ended(&mut self) {}
}
