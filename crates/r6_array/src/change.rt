//! What a shard asks for at the register.

use r6_core::Call;

/// A change of the register that a shard asks for: a slot is lost, or the shard has rebuilt its rows of one.
#[derive(Clone, Copy, PartialEq, Eq, Debug)]
pub struct Change {
    pub shard: usize,
    pub call: Call,
}
