//! What names a command that is out.

ghost use Rattle.std.specs.Prelude.{◌≡◌};

use r6_core::{DeviceFault, Refusal};
use r6_kernels::Buffer;

/// Names a command that was handed out, until it is delivered. Only [`Array::next_command`](crate::Array::next_command)
/// makes one, and there is no copy of it.
#[derive(Drop)]
pub struct Ticket {
    pub(crate) shard: usize,
    pub(crate) slot: usize,
    pub(crate) token: u64,
}

impl Ticket {
    /// The shard whose core put the command out.
    pub fn shard(&self) -> usize
        ensures { result ≡ self.now.shard }
    {
        self.shard
    }

    /// The slot of the command.
    pub fn slot(&self) -> usize
        ensures { result ≡ self.now.slot }
    {
        self.slot
    }

    /// The command's token, which no other command of its shard ever has.
    pub fn token(&self) -> u64
        ensures { result ≡ self.now.token }
    {
        self.token
    }
}

/// A completion that was refused, with what was handed in.
#[derive(Drop)]
pub struct Undelivered {
    pub refusal: Refusal,
    /// As they were.
    pub ticket: Ticket,
    pub completion: Result<Buffer, DeviceFault>,
}
