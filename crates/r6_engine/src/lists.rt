//! Queues by which the threads of shards are handed what the events of a run ask of them.

mod bringing;
mod consumer;
mod entry;
mod events;
mod item;
mod laws;
mod producer;
mod queue;
mod rest;
mod rule;
mod work;

pub use bringing::Bringing;
pub use consumer::Consumer;
pub use events::Events;
pub use item::Item;
pub use laws::event_law;
pub use producer::Producer;
pub use queue::{QUEUE_ROOM, Queue};
pub use rest::{Rest, wake_shards};
pub use work::EventPart;
