//! What an array's threads are given to do.

use r6_world::Op;

/// What an array's threads are given to do. An event's number is how many stand before it.
#[derive(Drop)]
pub enum Event<D> {
    /// A block is read or written.
    Request(Op),
    /// All that came before is answered first, and what rebuilds is rebuilt.
    Wait,
    /// A slot is lost.
    Fail(usize),
    /// A lost slot gets a new device: its parts, one for each shard, from the first on.
    Attach(usize, Vec<D>),
    /// A slot in sync gets a new device, which replaces the one that it has once it is built: its parts, as of an
    /// attach. Until then the old one stays in use.
    Replace(usize, Vec<D>),
    /// Every row is checked, once all that came before is answered.
    Check,
    /// Every row is repaired, once all that came before is answered.
    Repair,
}
