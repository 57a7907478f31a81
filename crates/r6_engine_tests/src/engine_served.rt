//! An array served by the caller of the engine.

use crate::blocks::geometry_of;
use crate::engine_caller::{Summary, serve_array, summary_of};
use r6_engine::Found;

// Every row is consistent, and each shard's part of each of four devices and of the new one came back.
fn wanted(shards: usize) -> Summary {
    Summary {
        found: Some(Found {
            consistent: 4,
            wrong_p: 0,
            wrong_q: 0,
            wrong_data: 0,
            many: 0,
            skipped: 0,
            repaired: 0,
        }),
        byte: Some(0x5a),
        answered: 2,
        parts: shards.saturating_mul(5),
        is_in_sync: true,
    }
}

#[test]
fn an_array_is_served_by_its_caller(rt: HostRuntime) {
    for shards in [1, 2, 4] {
        let served = serve_array(&rt, rt.alloc(), geometry_of(&rt, shards)).expect(&rt, "memory");
        assert!(rt; summary_of(&served) == wanted(shards), "{shards} shards");
        drop(served);
    }
}
