//! What may pass through a queue.

ghost use Rattle.std.specs.Prelude.{List};

/// What has to be true of all items that are pushed into a queue.
pub trait Rule<T, K> {
    /// Of a queue that is about something, all items so far, the oldest first.
    ghost admits: { K → List T → Type 0 };

    /// What a queue is about before its ends are made.
    ghost start: { K };
}
