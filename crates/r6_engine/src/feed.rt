//! Who hands the events of a run to the threads of the shards.

mod answer;
mod calling;
mod event;
mod feed;
mod handing;
mod making;
mod shards;
mod steps;

pub use answer::{AnsweredHere, EventAnswer};
pub use event::Event;
pub use feed::Feed;
pub use making::{count_devices, count_tasks};
pub use shards::Shards;
