//! What became of requests that were handed in together.

use r6_core::Refusal;

/// What became of requests that were handed in together.
#[derive(Clone, Copy, PartialEq, Eq, Debug)]
pub struct HandedIn {
    /// How many were taken, from the front of the list.
    pub count: usize,
    /// Why the next one is refused; `None` if all were taken.
    pub refusal: Option<Refusal>,
}
