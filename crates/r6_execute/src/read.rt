//! The files that a command reads, as text.

ghost use Rattle.std.specs.Prelude.{◌≡◌, ◌⊎◌, Ok, IfErr, IfOk, IfSome, string_bytes};
ghost use Rattle.r6_script.specs.Script.{Explains, Say, lines_of, said_of};
ghost use Rattle.r6_settings.specs.Settings.{AreInRange, settings_in, values_of};
ghost use Rattle.r6_execute.specs.Commands.{IsScriptFault, IsSettingsFault};

use crate::fault::{Fault, Input};
use r6_script::{Script, parse_script};
use r6_settings::{Config, settings};
use std::alloc::Global;
use std::io::{self, ErrorKind, Read};

/// Reads a file as text.
pub(crate) fn read_text<R: Read>(
    alloc: Global,
    reader: &mut R,
    input: Input,
) -> Result<String, Fault>
    ensures ok { IfOk result (λ text. IfSome (R.remaining reader.old) (λ bytes. string_bytes text ≡ bytes)) }
    ensures err { IfErr result (λ fault. (fault ≡ Fault.Memory) ⊎ (fault ≡ Fault.Unreadable input)) }
{
    match io::read_to_string(alloc, reader) {
        Ok(text) => Ok(text),
        Err(error) if error.kind() == ErrorKind::OutOfMemory => Err(Fault::Memory),
        Err(_) => Err(Fault::Unreadable(input)),
    }
}

/// Reads the settings of a command; those of one that uses devices name them.
pub(crate) fn read_settings<R: Read>(
    alloc: Global,
    reader: &mut R,
    with_devices: bool,
) -> Result<Config, Fault>
    ensures ok { IfOk result
        (λ config. IfSome (R.remaining reader.old) (λ text. settings_in with_devices text ≡ Ok (values_of config))) }
    ensures in_range { IfOk result (λ config. AreInRange (values_of config)) }
    ensures err { IfErr result (IsSettingsFault with_devices (R.remaining reader.old)) }
{
    let text = read_text(alloc, reader, Input::Settings)?;
    Ok(settings(alloc, text.as_str(), with_devices)?)
}

/// Reads the script of a command, or none of a text without events.
pub(crate) fn read_script<R: Read>(alloc: Global, reader: &mut R) -> Result<Option<Script>, Fault>
    ensures ok { IfOk result
        (λ script. IfSome (R.remaining reader.old) (λ text. Say (lines_of text) (said_of script))) }
    ensures err { IfErr result (IsScriptFault Explains (R.remaining reader.old)) }
{
    let text = read_text(alloc, reader, Input::Script)?;
    Ok(parse_script(alloc, text.as_str())?)
}
