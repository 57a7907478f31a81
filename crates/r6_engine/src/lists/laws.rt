//! Where each event goes.

ghost use Rattle.r6_engine.specs.lists.Laws.{EventLaw};

/// A request for a block of the array is handed to the shard of that block, and to no other; the parts of a new
/// device, a check and a repair are handed to every shard; and each request of a shard is one of the events.
pub fn event_law()
    ensures { EventLaw }
{}
