//! The reader of scripts of `run`, over the words of scripts.

ghost use Rattle.std.specs.Prelude.{◌≡◌, ◌≢◌, ◌++◌, ◌∷◌, codes, IfErr, IfOk};
ghost use Rattle.r6_script.specs.Script.{Reads, lines_of};
ghost use Rattle.r6_script.specs.RunScript.{ExplainsRun, IsDevice, IsRunEvent, SayRun, device_text, run_line_of};

use crate::parser::{is_passed_over, parse_byte, parse_number, parse_number_before};
use crate::run_event::RunEvent;
use crate::script::ScriptFault;
use std::alloc::Global;

// The event of the line that goes on with this text after `read`.
fn parse_read(text: &str) -> Option<RunEvent<'_>>
    ensures { Reads run_line_of IsRunEvent (codes "read" ++ 32 ∷ text.now) result }
{
    Some(RunEvent::Read(parse_number(text)?))
}

// The event of the line that goes on with this text after `write`.
fn parse_write(text: &str) -> Option<RunEvent<'_>>
    ensures { Reads run_line_of IsRunEvent (codes "write" ++ 32 ∷ text.now) result }
{
    let (block, word) = parse_number_before(text, ' ')?;
    Some(RunEvent::Write(block, parse_byte(word)?))
}

// The event of the line that goes on with this text after `fail`.
fn parse_fail(text: &str) -> Option<RunEvent<'_>>
    ensures { Reads run_line_of IsRunEvent (codes "fail" ++ 32 ∷ text.now) result }
{
    Some(RunEvent::Fail(parse_number(text)?))
}

// A slot, and the path of its new device.
fn parse_device(text: &str) -> Option<(u64, &str)>
    ensures { Reads device_text IsDevice text.now result }
{
    let (slot, path) = parse_number_before(text, ' ')?;
    if path.is_empty() {
        return None;
    }
    Some((slot, path))
}

// The event of the line that goes on with this text after `attach`.
fn parse_attach(text: &str) -> Option<RunEvent<'_>>
    ensures { Reads run_line_of IsRunEvent (codes "attach" ++ 32 ∷ text.now) result }
{
    let (slot, path) = parse_device(text)?;
    Some(RunEvent::Attach(slot, path))
}

// The event of the line that goes on with this text after `replace`.
fn parse_replace(text: &str) -> Option<RunEvent<'_>>
    ensures { Reads run_line_of IsRunEvent (codes "replace" ++ 32 ∷ text.now) result }
{
    let (slot, path) = parse_device(text)?;
    Some(RunEvent::Replace(slot, path))
}

// The event that a line says.
fn parse_event(line: &str) -> Option<RunEvent<'_>>
    ensures { Reads run_line_of IsRunEvent line.now result }
{
    match line.split_once(' ') {
        None => match line {
            "wait" => Some(RunEvent::Wait),
            "check" => Some(RunEvent::Check),
            "repair" => Some(RunEvent::Repair),
            _ => None,
        },
        Some((name, text)) => match name {
            "read" => parse_read(text),
            "write" => parse_write(text),
            "fail" => parse_fail(text),
            "attach" => parse_attach(text),
            "replace" => parse_replace(text),
            _ => None,
        },
    }
}

/// Reads a script: its events, in their order.
///
/// # Errors
/// The first line with which the lines are no script's; want of memory can come at any place.
pub fn parse_run_script(alloc: Global, text: &str) -> Result<Vec<RunEvent<'_>>, ScriptFault>
    ensures ok { IfOk result (λ events. SayRun (lines_of text.now) events.items) }
    ensures err { IfErr result (ExplainsRun (lines_of text.now)) }
{
    let mut events = Vec::new(alloc);
    let mut number = 0;
    for line in text.split('\n') {
        number += 1;
        if !is_passed_over(line) {
            let event = parse_event(line).ok_or(ScriptFault::Line(number))?;
            events.push(event)?;
        }
    }
    Ok(events)
}
