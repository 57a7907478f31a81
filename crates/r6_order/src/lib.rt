//! One order of all requests of an array that was served.
#![tactic(auto)]

ghost use Rattle.r6_order.specs.Orders.{LocalLaw};
ghost use Rattle.r6_order.specs.Served.{ServedOrderLaw};

use r6_dev::BlockDevice;

/// Whatever the order in time is in which requests are handed in and replies taken in all shards: where each shard's
/// ledger leads from one array, and each shard has blocks of its own, there is one order of the requests of all shards
/// in which one plain array gives each its reply, and which keeps to the time, across shards too.
pub fn local_law()
    ensures { LocalLaw }
{}

/// So it is of every array that was served over devices with known blocks.
pub fn served_order_law<D: BlockDevice>()
    ensures { ServedOrderLaw D.told D.promised }
{}
