//! A caller of a hold, complete: a row's operation is driven to its end over blocks in memory.

use r6_kernels::Buffer;
use r6_stripe::{Hold, Outcome, RowCommand};

/// The blocks of a row's devices, by position, and that of the device which replaces one of them.
#[derive(Drop)]
pub(crate) struct RowBlocks {
    pub(crate) blocks: Vec<Buffer>,
    pub(crate) second: Buffer,
}

fn copy(to: &mut Buffer, from: &Buffer) {
    if to.len() == from.len() {
        to.copy_from(from);
    }
}

/// The command's device performs it: the buffer that comes back.
fn perform(command: RowCommand, row: &mut RowBlocks) -> Buffer {
    match command {
        RowCommand::Read(position, mut buffer) => {
            if let Some(block) = row.blocks.get(position) {
                copy(&mut buffer, block);
            }
            buffer
        }
        RowCommand::Write(position, buffer) => {
            if let Some(block) = row.blocks.get_mut(position) {
                copy(block, &buffer);
            }
            buffer
        }
        RowCommand::Copy(_, buffer) => {
            copy(&mut row.second, &buffer);
            buffer
        }
    }
}

/// The position of a command, and whether it is to the position's second device.
pub(crate) fn place_of(command: &RowCommand) -> (usize, bool) {
    match command {
        RowCommand::Read(position, _) | RowCommand::Write(position, _) => (*position, false),
        RowCommand::Copy(position, _) => (*position, true),
    }
}

/// A command is performed and answered. Whether its buffer comes home.
pub(crate) fn answer(hold: &mut Hold, command: RowCommand, row: &mut RowBlocks) -> bool {
    let (position, is_copy) = place_of(&command);
    let buffer = perform(command, row);
    if buffer.len() != hold.block_len() {
        return false;
    }
    if is_copy {
        let is_away = hold.is_second_away();
        if is_away {
            hold.settled(position, buffer);
        }
        return is_away;
    }
    let is_away = hold.is_away(position);
    if is_away {
        hold.done(position, buffer);
    }
    is_away
}

/// The position's read met an error that leaves its block as it was, and its buffer comes home. A first read loses
/// nothing by it, and a second one the position.
pub(crate) fn fail(hold: &mut Hold, position: usize, buffer: Buffer) {
    if position >= hold.positions() || buffer.len() != hold.block_len() {
        return;
    }
    if !hold.is_away(position) {
        return;
    }
    if hold.is_first_read(position) {
        hold.failed(position, buffer);
    } else {
        hold.lost(position);
        hold.done(position, buffer);
    }
}

/// The positions whose reads met an error are lost, if they are to be.
pub(crate) fn give_over(hold: &mut Hold) {
    if hold.loses_unreadable() {
        let unreadable = hold.unreadable();
        for position in 0..32usize {
            if position < hold.positions() && unreadable.contains(position) {
                hold.lost(position);
            }
        }
    }
}

/// Drives a hold to its end, and says whether its task is done.
pub(crate) fn drive(hold: &mut Hold, row: &mut RowBlocks) -> bool {
    for _ in 0..u64::MAX {
        match hold.next_command() {
            Some(command) => answer(hold, command, row),
            None => break,
        };
    }
    hold.outcome() == Some(Outcome::Done)
}
