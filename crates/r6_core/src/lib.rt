//! The core of one shard: a passive state machine, driven by requests, completions and looks at the register.
#![tactic(auto)]

mod call;
mod counts;
mod deliver;
mod hold;
mod laws;
mod look;
mod queued;
mod rebuild;
mod refusal;
mod scan;
mod shard_core;
mod state;
mod submitting;
mod tell;
mod turn;
mod written;

pub use call::Call;
pub use counts::Counts;
pub use laws::{array_law, counts_law, counts_of_one_core};
pub use queued::Queued;
pub use r6_world::{Command, CommandKind, DeviceFault, FaultKind, Op, OpId, Receipt, Reply};
pub use refusal::{CoreError, Refusal, Refused};
pub use shard_core::Core;
pub use state::MOST_UNANSWERED;
pub use submitting::Submitted;
pub use turn::{Task, Turn};
