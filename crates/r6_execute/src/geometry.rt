//! What the command `geometry` prints.

ghost use Rattle.std.specs.Prelude.{◌≡◌, ◌+◌, ◌<◌, ◌++◌, OnOk, IfOk, min, string_bytes};
ghost use Rattle.r6_layout.specs.Shape.{chunk_rows};
ghost use Rattle.r6_script.specs.Texts.{texts_below};
ghost use Rattle.r6_execute.specs.Layouts.{chunk_row_line, layout_text, role_text, shape_line, shard_line};

use r6_layout::{Geometry, Role};
use std::alloc::{AllocError, Global};
use std::fmt::Write;

fn write_role(text: &mut String, role: Role) -> Result<(), AllocError>
    ensures { OnOk result (string_bytes text.new ≡ string_bytes text.old ++ role_text role) }
{
    match role {
        Role::Data(index) => write!(text, " d{index}"),
        Role::P => write!(text, " p"),
        Role::Q => write!(text, " q"),
    }
}

fn write_shape(text: &mut String, geometry: &Geometry) -> Result<(), AllocError>
    ensures { OnOk result (string_bytes text.new ≡ string_bytes text.old ++ shape_line geometry.now) }
{
    let (slots, chunk, block) = (geometry.slots(), geometry.chunk(), geometry.block());
    let (rows, shards, blocks) = (geometry.rows(), geometry.shards(), geometry.blocks());
    writeln!(
        text,
        "slots {slots} chunk {chunk} block {block} rows {rows} shards {shards} blocks {blocks}"
    )
}

fn write_shard(text: &mut String, geometry: &Geometry, shard: usize) -> Result<(), AllocError>
    requires { shard < geometry.now.shards }
    ensures { OnOk result (string_bytes text.new ≡ string_bytes text.old ++ shard_line geometry.now shard) }
{
    let rows = geometry.shard_rows(shard);
    let (first, last) = (rows.start, rows.end - 1);
    writeln!(text, "shard {shard} rows {first} to {last}")
}

fn write_chunk_row(text: &mut String, geometry: &Geometry, chunk_row: u64) -> Result<(), AllocError>
    requires { chunk_row < chunk_rows geometry.now }
    ensures { OnOk result (string_bytes text.new ≡ string_bytes text.old ++ chunk_row_line geometry.now chunk_row) }
{
    let row = chunk_row * geometry.chunk();
    write!(text, "chunk row {chunk_row}:")?;
    for slot in 0..geometry.slots() {
        write_role(text, geometry.role(row, slot))?;
    }
    writeln!(text)
}

// A line for each shard.
fn write_shards(text: &mut String, geometry: &Geometry) -> Result<(), AllocError>
    ensures { OnOk result
        (string_bytes text.new ≡ string_bytes text.old ++ texts_below (shard_line geometry.now) geometry.now.shards) }
{
    for shard in 0..geometry.shards() {
        write_shard(text, geometry, shard)?;
    }
    Ok(())
}

// A line for each of the first chunk rows, after which the roles of the slots come again.
fn write_chunk_rows(text: &mut String, geometry: &Geometry) -> Result<(), AllocError>
    ensures { OnOk result (string_bytes text.new ≡ string_bytes text.old
        ++ texts_below (chunk_row_line geometry.now) (min geometry.now.slots (chunk_rows geometry.now))) }
{
    let chunk_rows = geometry.rows() / geometry.chunk();
    let end = (geometry.slots() as u64).min(chunk_rows);
    for chunk_row in 0..end {
        write_chunk_row(text, geometry, chunk_row)?;
    }
    Ok(())
}

/// The layout of an array as text: a line of its numbers, a line for each shard with its first and its
/// last device row, and a line for each of the first chunk rows, after which the roles of the slots come
/// again, with what each slot keeps there.
pub fn described(alloc: Global, geometry: &Geometry) -> Result<String, AllocError>
    ensures { IfOk result (λ text. string_bytes text ≡ layout_text geometry.now) }
{
    let mut text = String::new(alloc);
    write_shape(&mut text, geometry)?;
    write_shards(&mut text, geometry)?;
    write_chunk_rows(&mut text, geometry)?;
    Ok(text)
}
