//! The runs of one core and of two through the loss of a device, of one through read errors, of two that rebuild, and
//! of one whose device is replaced in service.

use crate::devices::{byte_of, filled};
use r6_core::Core;
use r6_core_runs::{
    LostRow, WrittenRow, read_beside_a_loss, read_into_a_failure, read_through_a_failed_fix,
    read_through_a_fix, read_through_a_loss, read_through_a_move, rebuild_in_two_shards,
    replace_in_service, replace_in_vain, replace_through_a_loss, write_to_both,
};
use r6_kernels::Buffer;
use std::alloc::Global;

fn block(alloc: Global, byte: u8) -> Buffer {
    filled(alloc, 16, byte)
}

fn lost_row(alloc: Global, other: u8, parity: u8, lost: u8) -> LostRow {
    LostRow {
        other: block(alloc, other),
        parity: block(alloc, parity),
        lost: block(alloc, lost),
    }
}

/// What is asked of a core after its run. Nothing else is known of it there, so that it costs nothing to let go of it.
trait AfterRun {
    /// The generation of slot 1, if it is in sync.
    fn in_sync(&self) -> Option<u32>;
}

impl AfterRun for Core {
    fn in_sync(&self) -> Option<u32> {
        Core::in_sync(self, 1)
    }
}

/// The byte that a block has throughout, if this core has slot 1 so in sync.
fn byte_beside<C: AfterRun>(core: &C, in_sync: Option<u32>, block: &Buffer) -> Option<u16> {
    if core.in_sync() == in_sync {
        Some(byte_of(block))
    } else {
        None
    }
}

/// Likewise, of the block that a run has read.
fn byte_of_one<C: AfterRun + Drop>(ran: Option<(C, Buffer)>, in_sync: Option<u32>) -> Option<u16> {
    let (core, block) = ran?;
    byte_beside(&core, in_sync, &block)
}

/// Likewise, of a run of two cores.
fn byte_of_two<C: AfterRun + Drop>(
    ran: Option<(C, C, Buffer)>,
    in_sync: Option<u32>,
) -> Option<u16> {
    let (first, second, block) = ran?;
    byte_beside(&first, in_sync, &block)?;
    byte_beside(&second, in_sync, &block)
}

// The block that is lost is the sum of the other data block and P: 11 = 22 + 33.
fn read_through(alloc: Global) -> Option<u16> {
    let (other, parity) = (block(alloc, 0x22), block(alloc, 0x33));
    byte_of_one(
        read_through_a_loss(alloc, block(alloc, 0), other, parity),
        None,
    )
}

// The same of the second shard's block, on a slot whose loss the first shard has found: 66 = 33 + 55.
fn read_beside(alloc: Global) -> Option<u16> {
    let (lost, room) = (block(alloc, 0), block(alloc, 0));
    let (other, parity) = (block(alloc, 0x33), block(alloc, 0x55));
    byte_of_two(read_beside_a_loss(alloc, lost, room, other, parity), None)
}

// The block that can't be read is 11 = 22 + 33: it is written anew, and slot 1 is in sync as before.
fn read_fixed(alloc: Global) -> Option<u16> {
    let row = lost_row(alloc, 0x22, 0x33, 0x11);
    byte_of_one(read_through_a_fix(alloc, block(alloc, 0), row), Some(0))
}

// The same block where it can't be read again either: slot 1 is lost.
fn read_unfixed(alloc: Global) -> Option<u16> {
    let row = lost_row(alloc, 0x22, 0x33, 0x11);
    byte_of_one(read_through_a_failed_fix(alloc, block(alloc, 0), row), None)
}

// Two blocks of the row can't be read, and a third slot is lost. What the buffer holds then isn't said.
fn is_failed(alloc: Global) -> bool {
    byte_of_one(read_into_a_failure(alloc, block(alloc, 0)), None).is_some()
}

// Both rows of slot 1 are restored, 11 = 22 + 33 and 66 = 33 + 55, and block 0 is then read from the new device.
fn read_rebuilt(alloc: Global) -> Option<u16> {
    let here = lost_row(alloc, 0x22, 0x33, 0x11);
    let there = lost_row(alloc, 0x33, 0x55, 0x66);
    byte_of_two(
        rebuild_in_two_shards(alloc, here, there, block(alloc, 0)),
        Some(1),
    )
}

// The block of slot 1 is copied, and read from the new device.
fn read_replaced(alloc: Global) -> Option<u16> {
    let (room, copied) = (block(alloc, 0), block(alloc, 0x11));
    byte_of_one(replace_in_service(alloc, room, copied), Some(1))
}

// The old device can't give it: 11 = 22 + 33 is written to the new one.
fn read_replaced_through_a_loss(alloc: Global) -> Option<u16> {
    let row = lost_row(alloc, 0x22, 0x33, 0x11);
    byte_of_one(replace_through_a_loss(alloc, block(alloc, 0), row), Some(1))
}

// The new device can't take it, and the old one is kept.
fn read_kept(alloc: Global) -> Option<u16> {
    let (room, kept) = (block(alloc, 0), block(alloc, 0x11));
    byte_of_one(replace_in_vain(alloc, room, kept), Some(0))
}

// The block of slot 1 is written anew while it has two devices: P is 44 = 66 + 22, and Q 22 = 66 + 2 * 22.
fn written_to_both(alloc: Global) -> Option<u16> {
    let row = WrittenRow {
        other: block(alloc, 0x22),
        new_data: block(alloc, 0x66),
        p: block(alloc, 0x44),
        q: block(alloc, 0x22),
    };
    byte_of_one(write_to_both(alloc, block(alloc, 0x11), row), Some(1))
}

// The old device can't give it, and with Q alone, 55 = 11 + 2 * 22, it can't be computed: it is read from the new one.
fn read_moved(alloc: Global) -> Option<u16> {
    let (room, moved) = (block(alloc, 0), block(alloc, 0x11));
    let q = block(alloc, 0x55);
    byte_of_one(read_through_a_move(alloc, room, moved, q), Some(1))
}

#[test]
fn reads_are_answered_through_losses_and_rebuilds(rt: HostRuntime) {
    let alloc = rt.alloc();
    assert!(rt; read_through(alloc) == Some(0x11));
    assert!(rt; read_beside(alloc) == Some(0x66));
    assert!(rt; read_rebuilt(alloc) == Some(0x11));
}

#[test]
fn reads_are_answered_through_read_errors(rt: HostRuntime) {
    let alloc = rt.alloc();
    assert!(rt; read_fixed(alloc) == Some(0x11));
    assert!(rt; read_unfixed(alloc) == Some(0x11));
    assert!(rt; is_failed(alloc));
}

#[test]
fn reads_are_answered_through_replacements(rt: HostRuntime) {
    let alloc = rt.alloc();
    assert!(rt; read_replaced(alloc) == Some(0x11));
    assert!(rt; read_replaced_through_a_loss(alloc) == Some(0x11));
    assert!(rt; read_kept(alloc) == Some(0x11));
    assert!(rt; written_to_both(alloc) == Some(0x66));
    assert!(rt; read_moved(alloc) == Some(0x11));
}
