//! What a script of `run` says.

/// An event of a script of `run`.
#[derive(Clone, Copy)]
pub enum RunEvent<'a> {
    /// A block is read.
    Read(u64),
    /// A block is written; all its bytes are this one.
    Write(u64, u8),
    /// All that was begun comes to its end.
    Wait,
    /// A slot is failed at the register.
    Fail(u64),
    /// The device at this path is attached to a slot at the register.
    Attach(u64, &'a str),
    /// The slot's device is replaced, at the register, by that at this path.
    Replace(u64, &'a str),
    /// The class of each row is found.
    Check,
    /// The class of each row is found, and wrong parities are written anew.
    Repair,
}
