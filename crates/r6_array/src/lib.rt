//! An array for a program that has its devices elsewhere: the cores of its shards and its register, in one thread, or
//! each shard in a thread of its own.
#![tactic(auto)]

mod array;
mod change;
mod error;
mod handed_in;
mod member;
mod register;
mod requests;
mod shard;
mod ticket;
mod uses;

pub use array::Array;
pub use change::Change;
pub use error::ArrayError;
pub use handed_in::HandedIn;
pub use register::SharedRegister;
pub use requests::RequestList;
pub use shard::Shard;
pub use ticket::{Ticket, Undelivered};
pub use uses::{handle_laws, laws, may_change_threads};
