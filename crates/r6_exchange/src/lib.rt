//! How a shard and an io worker exchange commands and completions: two queues, in which each end knows what it did.
#![tactic(auto)]

mod completion;
mod exchange;
mod laws;
mod pass;
mod rules;
mod task;
mod threads;
mod worker;

pub use completion::{Completion, CompletionEnd, Delivery, TaskEnd};
pub use exchange::{Exchange, Wakers};
pub use laws::{history_law, join_law, next_law};
pub use pass::{ShardPass, WorkerPass};
pub use task::{Part, ServedPart, WorkerTask};
pub use threads::{Performed, perform_in_thread};
pub use worker::{Step, Worker};

#[cfg(test)]
mod tests;
