//! What a shard gives an io worker to do.

use r6_world::Command;

/// The part of a device that serves the rows of a shard: of the device that a slot has with this generation.
#[derive(Drop)]
pub struct Part<D> {
    pub slot: usize,
    pub generation: u32,
    pub device: D,
}

/// A part that a worker serves.
#[derive(Drop)]
pub struct ServedPart<D> {
    pub part: Part<D>,
    /// The worker performs the commands to it also once it has stopped, so what the device promises holds of its
    /// completions.
    pub steady: bool,
}

/// What a shard gives a worker to do.
#[derive(Drop)]
pub enum WorkerTask<D> {
    /// A command is to be performed and answered.
    Perform(Command),
    /// A part is the worker's from now on: of two for one slot and generation the later.
    TakeUp(ServedPart<D>),
    /// Nothing more comes.
    End,
}
