//! What the program writes to its standard output.

ghost use Rattle.std.specs.Prelude.{◌≡◌, IfErr, OnOk};
ghost use Rattle.std.specs.Io.KnownBytes.{Appends, Keeps};

use crate::fault::Fault;
use std::io::Write;

/// Writes a text, and sees that it has left.
///
/// # Errors
/// `Output` where a part of it was refused.
pub fn print<W: Write>(out: &mut W, text: &str) -> Result<(), Fault>
    ensures written { OnOk result (Appends (W.contents out.old) (W.contents out.new) text.now) }
    ensures refused { IfErr result (λ fault. fault ≡ Fault.Output) }
{
    out.write_all(text.as_bytes()).map_err(|_| Fault::Output)?;
    finish(out)
}

/// Sees that all that was written has left.
///
/// # Errors
/// `Output` where a part of it was refused.
pub fn finish<W: Write>(out: &mut W) -> Result<(), Fault>
    ensures kept { Keeps (W.contents out.old) (W.contents out.new) }
    ensures refused { IfErr result (λ fault. fault ≡ Fault.Output) }
{
    out.flush().map_err(|_| Fault::Output)
}
