//! What a worker answers, and how it comes home.

use crate::task::WorkerTask;
use r6_kernels::Buffer;
use r6_queues::End;
use r6_world::DeviceFault;

/// How a command was answered.
#[derive(Drop)]
pub struct Completion {
    /// The command's.
    pub token: u64,
    /// The command's.
    pub slot: usize,
    /// The command's buffer, with the block that was read, or the fault of the device.
    pub result: Result<Buffer, DeviceFault>,
}

/// An end of a queue of tasks, or an acknowledgement of tasks that were taken. It has no bytes.
pub type TaskEnd<D> = End<WorkerTask<D>, usize>;

/// A completion on its way, with an acknowledgement of the tasks that its worker had taken, which has no bytes.
#[derive(Drop)]
pub struct Delivery<D> {
    pub completion: Completion,
    pub acknowledgement: TaskEnd<D>,
}

/// An end of a queue of completions. It has no bytes.
pub type CompletionEnd<D> = End<Delivery<D>, Option<TaskEnd<D>>>;
