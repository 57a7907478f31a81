//! Entries that wait, in lines that take all their memory when they are made.
#![tactic(auto)]

mod front;
mod keyed;
mod positions;
mod waiters;

pub use keyed::KeyOf;
pub use waiters::Waiters;
