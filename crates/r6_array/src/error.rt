//! Why an array, or a handle of one, can't be made.

ghost use Rattle.std.specs.Prelude.{◌≡◌};
ghost use Rattle.r6_array.specs.Errors.{error_number};

use r6_core::CoreError;
use std::alloc::AllocError;

/// Why an array, or a handle of one, can't be made. The numbers go on from those of [`GeometryError`](r6_layout::GeometryError).
#[derive(Clone, Copy, PartialEq, Eq, Debug)]
pub enum ArrayError {
    /// The window isn't 1 to 8.
    Window = 6,
    /// More than two slots are lost, or one that the array hasn't.
    Lost = 7,
    /// There is no memory for its room.
    NoMemory = 8,
    /// The array has no shard of this number.
    NoSuchShard = 9,
    /// A device was attached, or the array has failed: a shard is made before.
    Begun = 10,
}

impl ArrayError {
    /// The number of the error, 6 to 10.
    pub fn number(self) -> u8
        ensures { result ≡ error_number self }
    {
        self as u8
    }
}

impl From<AllocError> for ArrayError {
    fn from(_: AllocError) -> ArrayError {
        ArrayError::NoMemory
    }
}

impl From<CoreError> for ArrayError {
    fn from(_: CoreError) -> ArrayError {
        ArrayError::NoMemory
    }
}
