//! A block as text.

ghost use Rattle.std.specs.Prelude.{◌≡◌, ◌==◌, ◌≤◌, length, IsOk};
ghost use Rattle.std.specs.Fmt.{HasWritten, IsPlainFormatter};
ghost use Rattle.std.specs.List.{flat_map, list_all};
ghost use Rattle.r6_kernels.specs.Texts.{byte_word, only_byte};

use crate::buffer::Buffer;
use std::{fmt, str};

// As many bytes of a block as are written at one time.
const PIECE: usize = 32;

// Writes each byte as two hexadecimal digits.
fn write_piece<W: fmt::Write>(f: &mut fmt::Formatter<W>, piece: &[u8]) -> fmt::Result
    requires few { length piece.now ≤ 32 }
    ensures { IsPlainFormatter f.old → IsOk result
        → HasWritten W.write_str_gives f.old (flat_map byte_word piece.now) f.new }
{
    let mut room = [0; 2 * PIECE];
    let digits = &mut room[..2 * piece.len()];
    let Ok(()) = hex::encode_to_slice(piece, digits) else {
        unreachable!();
    };
    let Ok(text) = str::from_utf8(digits) else {
        unreachable!();
    };
    f.write_str(text)
}

// The same of any number of bytes.
fn write_bytes<W: fmt::Write>(f: &mut fmt::Formatter<W>, bytes: &[u8]) -> fmt::Result
    ensures { IsPlainFormatter f.old → IsOk result
        → HasWritten W.write_str_gives f.old (flat_map byte_word bytes.now) f.new }
{
    for piece in bytes.chunks(PIECE) {
        write_piece(f, piece)?;
    }
    Ok(())
}

fn are_all(bytes: &[u8], byte: u8) -> bool
    ensures { result ≡ list_all (λ other. other == byte) bytes.now }
{
    bytes.iter().all(|other| *other == byte)
}

// The byte that all bytes of a block are, if they are equal.
fn only_byte(block: &[u8]) -> Option<u8>
    ensures { result ≡ only_byte block.now }
{
    let (first, rest) = block.split_first()?;
    if are_all(rest, *first) {
        Some(*first)
    } else {
        None
    }
}

/// Its byte, if all its bytes are equal, else all of them, each in two hexadecimal digits in lower case.
impl fmt::Display for Buffer {
    ghost use Rattle.std.specs.Prelude.{Some};
    ghost use Rattle.r6_kernels.specs.Texts.{block_text};

    ghost output = { λ block. Some (block_text block) };

    fn fmt<W: fmt::Write>(&self, f: &mut fmt::Formatter<W>) -> fmt::Result {
        let bytes = self.as_slice();
        match only_byte(bytes) {
            Some(byte) => write_piece(f, &[byte]),
            None => write_bytes(f, bytes),
        }
    }
}
