//! What the two ends of an exchange know.

use crate::completion::{CompletionEnd, TaskEnd};

/// A shard's end: it knows which tasks it sent, and which completions it received. It has no bytes.
#[derive(Drop)]
pub struct ShardPass<D> {
    pub(crate) tasks: TaskEnd<D>,
    pub(crate) completions: CompletionEnd<D>,
}

/// A worker's end: it knows which tasks it took, and which completions it gave. It has no bytes.
#[derive(Drop)]
pub struct WorkerPass<D> {
    pub(crate) tasks: TaskEnd<D>,
    pub(crate) completions: CompletionEnd<D>,
}
