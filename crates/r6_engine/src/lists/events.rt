//! The events of a run, as the types of its queues know them.

ghost use Rattle.std.specs.Prelude.{ℕ, List};
ghost use Rattle.r6_layout.specs.Shape.{Shape};
ghost use Rattle.r6_engine.specs.lists.Events.{Event};

use std::marker::Brand;

/// Which events of which array are handed out. A call picks them by `Brand`.
pub trait Events {
    ghost shape: { Shape };

    ghost events: { List Event };

    /// Of which slots the parts of new devices fail no command of this shard, as their devices promise.
    ghost sound: { ℕ → ℕ → Type 0 };
}

impl Events for Brand {
    ghost use Rattle.std.specs.Prelude.{[]};
    ghost use Rattle.r6_layout.specs.Shape.{shape_of};

    ghost shape = { shape_of 0 0 0 0 0 };

    ghost events = { [] };

    ghost sound = { λ shard slot. ⊥ };
}
