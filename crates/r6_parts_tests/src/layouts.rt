//! Worked places of a left-symmetric layout.

use crate::must::must;
use r6_layout::{Geometry, GeometryError, Place, Role};
use std::test::Fail;

/// What a geometry has to say.
#[derive(Clone, Copy)]
enum Fact {
    /// What a slot keeps in a row.
    Role(u64, usize, Role),
    /// Where a block stands.
    Place(u64, Option<Place>),
    /// The block of a row and an index.
    Block(u64, usize, u64),
    /// The slot of a row and a position.
    Slot(u64, usize, usize),
    /// The position of a row and a slot.
    Position(u64, usize, usize),
    /// The rows of a shard: the first, and the first behind them.
    Rows(usize, u64, u64),
    /// The shard of a row.
    Shard(u64, usize),
    /// Slots, slots of data, blocks of a chunk and bytes of a block.
    Sizes(usize, usize, u64, usize),
    /// Rows, shards and blocks.
    Counts(u64, usize, u64),
}

/// Slots, blocks of a chunk, bytes of a block, rows and shards.
type Shape = (usize, u64, usize, u64, usize);

const FACTS: &[(Shape, &[Fact])] = &[
    // parity turns left by one slot a chunk row
    (
        (4, 1, 16, 8, 1),
        &[
            Fact::Role(0, 0, Role::Q),
            Fact::Role(0, 1, Role::Data(0)),
            Fact::Role(0, 2, Role::Data(1)),
            Fact::Role(0, 3, Role::P),
            Fact::Role(2, 0, Role::Data(1)),
            Fact::Role(2, 1, Role::P),
            Fact::Role(2, 2, Role::Q),
            Fact::Role(2, 3, Role::Data(0)),
            Fact::Role(4, 0, Role::Q),
            Fact::Role(4, 1, Role::Data(0)),
            Fact::Role(4, 2, Role::Data(1)),
            Fact::Role(4, 3, Role::P),
        ],
    ),
    // a block stands at its offset in the row of its chunk
    (
        (4, 2, 16, 8, 1),
        &[
            Fact::Place(
                5,
                Some(Place {
                    shard: 0,
                    row: 3,
                    index: 0,
                    slot: 0,
                }),
            ),
            Fact::Place(16, None),
            Fact::Block(3, 0, 5),
            Fact::Slot(3, 0, 0),
            Fact::Position(3, 0, 0),
        ],
    ),
    // the largest shape
    (
        (32, 128, 4096, 16_777_216, 16),
        &[
            Fact::Sizes(32, 30, 128, 4096),
            Fact::Counts(16_777_216, 16, 503_316_480),
        ],
    ),
    // shards begin at their share of the chunk rows, rounded down: of 5, floor(5 / 2) are the first one's
    (
        (6, 2, 16, 10, 2),
        &[
            Fact::Rows(0, 0, 4),
            Fact::Rows(1, 4, 10),
            Fact::Shard(3, 0),
            Fact::Shard(4, 1),
        ],
    ),
];

/// Whether a geometry says so of a row of its own, and a slot or a position.
fn is_at(geometry: &Geometry, fact: &Fact) -> bool {
    let (rows, slots) = (geometry.rows(), geometry.slots());
    match fact {
        Fact::Role(row, slot, role) if *row < rows && *slot < slots => {
            geometry.role(*row, *slot) == *role
        }
        Fact::Block(row, index, block) if *row < rows && *index < geometry.data_slots() => {
            geometry.block_of(*row, *index) == *block
        }
        Fact::Slot(row, position, slot) if *row < rows && *position < slots => {
            geometry.slot_at(*row, *position) == *slot
        }
        Fact::Position(row, slot, position) if *row < rows && *slot < slots => {
            geometry.position_at(*row, *slot) == *position
        }
        _ => false,
    }
}

fn is_so(geometry: &Geometry, fact: &Fact) -> bool {
    match fact {
        Fact::Place(block, place) => geometry.place(*block) == *place,
        Fact::Rows(shard, start, end) if *shard < geometry.shards() => {
            let rows = geometry.shard_rows(*shard);
            (rows.start, rows.end) == (*start, *end)
        }
        Fact::Shard(row, shard) if *row < geometry.rows() => geometry.shard_of(*row) == *shard,
        Fact::Sizes(slots, data, chunk, block) => {
            (geometry.slots(), geometry.data_slots()) == (*slots, *data)
                && (geometry.chunk(), geometry.block()) == (*chunk, *block)
        }
        Fact::Counts(rows, shards, blocks) => {
            (geometry.rows(), geometry.shards(), geometry.blocks()) == (*rows, *shards, *blocks)
        }
        _ => is_at(geometry, fact),
    }
}

#[test]
fn blocks_stand_where_the_layout_has_them(rt: HostRuntime) -> Result<(), Fail> {
    for ((slots, chunk, block, rows, shards), facts) in FACTS {
        let geometry = Geometry::new(*slots, *chunk, *block, *rows, *shards)?;
        for (index, fact) in facts.iter().enumerate() {
            must(
                &rt,
                is_so(&geometry, fact),
                "a fact of so many slots",
                *slots,
                index,
            );
        }
    }
    Ok(())
}

#[test]
fn the_first_limit_that_is_not_kept_is_named(rt: HostRuntime) {
    let cases: &[(Shape, GeometryError, u8)] = &[
        ((3, 1, 16, 4, 1), GeometryError::Slots, 1),
        ((33, 1, 16, 4, 1), GeometryError::Slots, 1),
        ((4, 129, 16, 129, 1), GeometryError::Chunk, 2),
        ((4, 1, 24, 4, 1), GeometryError::Block, 3),
        ((4, 2, 16, 5, 1), GeometryError::Rows, 4),
        ((4, 1, 16, 0, 1), GeometryError::Rows, 4),
        ((4, 1, 16, 32, 17), GeometryError::Shards, 5),
        ((4, 1, 16, 4, 5), GeometryError::Shards, 5),
        ((3, 1, 24, 4, 1), GeometryError::Slots, 1),
    ];
    for (row, ((slots, chunk, block, rows, shards), error, number)) in cases.iter().enumerate() {
        let refused = Geometry::new(*slots, *chunk, *block, *rows, *shards);
        let is_so = refused == Err(*error) && error.number() == *number;
        must(&rt, is_so, "a limit", row, 0);
    }
}
