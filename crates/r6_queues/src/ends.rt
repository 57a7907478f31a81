//! What an end of a queue knows.

use std::collections::LinkedList;

/// What an end of a queue may do, which items it pushed or popped, which it was told that the reader has popped, and what
/// the queue is about. No value of it is made.
pub struct Ends<T, K> {
    pub pushes: bool,
    pub pops: bool,
    pub pushed: LinkedList<T>,
    pub popped: LinkedList<T>,
    pub acknowledged: LinkedList<T>,
    pub about: K,
}
