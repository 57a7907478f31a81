//! What a shard's thread is handed.

use r6_kernels::Buffer;

/// What a shard's thread is handed of an event.
#[derive(Drop)]
pub enum EventPart<D> {
    /// Read the block of this number into the buffer.
    Read(u64, Buffer),
    /// Write the buffer's bytes to the block of this number.
    Write(u64, Buffer),
    /// Take up the shard's part of the device that the slot gets, under the generation that the register answered, 0
    /// where it refused the device.
    TakeUp {
        slot: usize,
        generation: u32,
        part: D,
    },
    /// Check every row.
    Check,
    /// Repair every row.
    Repair,
}
