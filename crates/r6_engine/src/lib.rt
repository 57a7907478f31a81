//! An array whose shards each run in a thread of their own.
#![tactic(auto)]

mod beginning;
mod crew;
mod ending;
pub mod feed;
mod found;
mod generations;
mod handback;
pub mod joining;
mod ledger;
mod lines;
pub mod lists;
mod making;
mod part;
mod post;
mod posting;
pub mod remote;
mod replies;
mod reply;
pub mod runner;
mod running;
mod served;
mod serving;
mod settling;
mod worker;

pub use feed::Event;
pub use found::Found;
pub use ledger::{Ledger, LedgerEntry};
pub use part::ShardParts;
pub use r6_exchange::{
    Completion, Exchange, Part, ServedPart, ShardPass, Wakers, WorkerPass, WorkerTask,
};
pub use r6_offline::{
    ClassCounts, EngineError, Rebuilt, Report, RowFault, Unwatched, Watch, WrongRow, check_all,
    create_files, is_absent, open_parts, open_slot, rebuild_all, verify,
};
pub use reply::EventReply;
pub use served::{Served, serve};
pub use serving::{Config, Stop};
