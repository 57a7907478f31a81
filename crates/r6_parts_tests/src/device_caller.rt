//! A caller of devices, complete: rows are copied from one to another.

use r6_dev::{BlockDevice, Fault};
use r6_kernels::Buffer;
use std::ops::Range;

/// Copies rows through a buffer of one block, in order, up to the first fault.
pub(crate) fn copy_rows<A: BlockDevice, B: BlockDevice>(
    from: &mut A,
    to: &mut B,
    rows: Range<u64>,
    buffer: &mut Buffer,
) -> Result<(), Fault> {
    for row in rows {
        from.read(row, buffer)?;
        to.write(row, buffer)?;
    }
    Ok(())
}
