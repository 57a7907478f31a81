//! How a new device comes to a slot.

/// How a new device comes to a slot.
#[derive(Clone, Copy)]
pub enum Bringing {
    /// To a slot that is lost.
    Attach,
    /// To a slot in sync, whose device it replaces once it is built. Until then that one stays in use.
    Replace,
}
