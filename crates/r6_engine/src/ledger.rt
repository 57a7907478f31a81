//! What a shard did, as its ledger tells it.

use r6_core::OpId;
use r6_health::Snapshot;
use r6_layout::MOST_SLOTS;
use r6_shard::Asked;

/// A request that a shard answered.
#[derive(Clone, Copy, PartialEq, Eq, Debug)]
pub struct LedgerEntry {
    /// The number of its event: what it was answered stands there among the replies.
    pub event: u64,
    /// Its number in the shard.
    pub id: OpId,
    pub block: u64,
}

/// What a shard did.
#[derive(Drop)]
pub struct Ledger {
    /// The requests that it accepted, by their numbers.
    pub requests: Vec<Asked>,
    /// In the order in which they were answered.
    pub entries: Vec<LedgerEntry>,
    /// The slots that it has in sync, each with the generation of its device.
    pub in_sync: Vec<(usize, u32)>,
    /// The slots of which a command that wasn't abandoned failed here.
    pub named: [bool; MOST_SLOTS],
    /// Whether it saw that the array has failed.
    pub saw_failed: bool,
    /// Whether a slot wasn't in sync where it looked, or at the start: it was lost, rebuilt or replaced.
    pub saw_out: bool,
    /// How many commands it put out: their tokens are the numbers below.
    pub tokens: u64,
    /// The register as it looked at it last.
    pub last_look: Snapshot,
}
