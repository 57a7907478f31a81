//! Calls that a shard has to make at the register.

/// A call that a shard has to make at the register.
#[derive(Clone, Copy, PartialEq, Eq, Debug)]
pub enum Call {
    /// The device of this slot and generation has failed.
    DeclareLost(usize, u32),
    /// The shard has rebuilt all its rows on the device of this slot and generation.
    ReportRebuilt(usize, u32),
}
