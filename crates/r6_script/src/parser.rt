//! The reader of scripts: from texts to words, from words to lines, from lines to a script.

ghost use Rattle.std.specs.Prelude.{◌≡◌, ◌≢◌, ◌<◌, ◌++◌, ◌∷◌, ◌≤◌, ℕ, List, codes, decimal, IfErr, IfOk, MatchOption, Some};
ghost use Rattle.std.specs.Char.{digit_value};
ghost use Rattle.r6_layout.specs.Shape.{IsShape};
ghost use Rattle.r6_script.specs.declared.script.Event.{Event as Entered};
ghost use Rattle.r6_script.specs.Script.{Adds, CannotAdd, Explains, IsByte, IsCompletion, IsEvent, IsNumber, IsSaid, IsTask, Reads, ReadsDigit, Say, array_line, byte_word, command_word, completion_word, is_passed_over, line_of, lines_of, said_of, task_word};

use crate::script::{Call, Completion, Event, Script, ScriptFault, Task};
use r6_layout::Geometry;
use std::alloc::Global;

/// A decimal number without leading zeros, below 2^64.
pub(crate) fn parse_number(word: &str) -> Option<u64>
    ensures { Reads decimal IsNumber word.now result }
{
    if word.starts_with('+') {
        return None;
    }
    if word.starts_with('0') {
        return if word == "0" { Some(0) } else { None };
    }
    word.parse().ok()
}

/// A number with the text after the character that ends it.
pub(crate) fn parse_number_before(text: &str, end: char) -> Option<(u64, &str)>
    requires ascii { end < 128 }
    requires no_digit { 10 ≤ digit_value end }
    ensures { MatchOption result
        ((n : ℕ) (rest : List ℕ) → IsNumber n → text.now ≢ decimal n ++ end ∷ rest)
        (λ found. IsNumber found.0 × (text.now ≡ decimal found.0 ++ end ∷ found.1.now)) }
{
    let (word, rest) = text.split_once(end)?;
    Some((parse_number(word)?, rest))
}

// A hexadecimal digit, in lower case.
fn parse_digit(byte: u8) -> Option<u8>
    ensures { ReadsDigit byte result }
{
    match byte {
        b'0'..=b'9' => Some(byte - b'0'),
        b'a'..=b'f' => Some(byte - b'a' + 10),
        _ => None,
    }
}

/// A byte of two hexadecimal digits.
pub(crate) fn parse_byte(word: &str) -> Option<u8>
    ensures { Reads byte_word IsByte word.now result }
{
    match word.as_bytes() {
        [high, low] => Some(16 * parse_digit(*high)? + parse_digit(*low)?),
        _ => None,
    }
}

// A shard and a token of it.
fn parse_command(text: &str) -> Option<(u64, u64)>
    ensures { MatchOption result
        ((shard token : ℕ) → IsNumber shard → IsNumber token → text.now ≢ command_word shard token)
        (λ found. IsNumber found.0 × IsNumber found.1 × (text.now ≡ command_word found.0 found.1)) }
{
    let (shard, token) = parse_number_before(text, ':')?;
    Some((shard, parse_number(token)?))
}

// How a command is completed.
fn parse_completion(word: &str) -> Option<Completion>
    ensures { Reads completion_word IsCompletion word.now result }
{
    match word {
        "ok" => Some(Completion::Good),
        "error" => Some(Completion::Error),
        "gone" => Some(Completion::Gone),
        _ => None,
    }
}

// The event of the line that goes on with this text after `read`.
fn parse_read(text: &str) -> Option<Event>
    ensures { Reads line_of IsEvent (codes "read" ++ 32 ∷ text.now) result }
{
    Some(Event::Read(parse_number(text)?))
}

// The event of the line that goes on with this text after `write`.
fn parse_write(text: &str) -> Option<Event>
    ensures { Reads line_of IsEvent (codes "write" ++ 32 ∷ text.now) result }
{
    let (block, word) = parse_number_before(text, ' ')?;
    Some(Event::Write(block, parse_byte(word)?))
}

// The event of the line that goes on with this text after `perform`.
fn parse_perform(text: &str) -> Option<Event>
    ensures { Reads line_of IsEvent (codes "perform" ++ 32 ∷ text.now) result }
{
    let (shard, token) = parse_command(text)?;
    Some(Event::At(shard, Call::Perform(token)))
}

// The event of the line that goes on with this text after `answer`.
fn parse_answer(text: &str) -> Option<Event>
    ensures { Reads line_of IsEvent (codes "answer" ++ 32 ∷ text.now) result }
{
    let (shard, rest) = parse_number_before(text, ':')?;
    let (token, word) = parse_number_before(rest, ' ')?;
    Some(Event::At(shard, Call::Answer(token, parse_completion(word)?)))
}

// The event of the line that goes on with this text after `do`.
fn parse_do(text: &str) -> Option<Event>
    ensures { Reads line_of IsEvent (codes "do" ++ 32 ∷ text.now) result }
{
    let (shard, token) = parse_command(text)?;
    Some(Event::At(shard, Call::Do(token)))
}

// The event of the line that goes on with this text after `look`.
fn parse_look(text: &str) -> Option<Event>
    ensures { Reads line_of IsEvent (codes "look" ++ 32 ∷ text.now) result }
{
    Some(Event::At(parse_number(text)?, Call::Look))
}

// The event of the line that goes on with this text after `tell`.
fn parse_tell(text: &str) -> Option<Event>
    ensures { Reads line_of IsEvent (codes "tell" ++ 32 ∷ text.now) result }
{
    Some(Event::At(parse_number(text)?, Call::Tell))
}

// What a turn is for.
fn parse_task(word: &str) -> Option<Task>
    ensures { Reads task_word IsTask word.now result }
{
    match word {
        "rebuild" => Some(Task::Rebuild),
        "check" => Some(Task::Check),
        "repair" => Some(Task::Repair),
        _ => None,
    }
}

// The event of the line that goes on with this text after `turn`.
fn parse_turn(text: &str) -> Option<Event>
    ensures { Reads line_of IsEvent (codes "turn" ++ 32 ∷ text.now) result }
{
    let (shard, word) = parse_number_before(text, ' ')?;
    Some(Event::At(shard, Call::Turn(parse_task(word)?)))
}

// The event of the line that goes on with this text after `fail`.
fn parse_fail(text: &str) -> Option<Event>
    ensures { Reads line_of IsEvent (codes "fail" ++ 32 ∷ text.now) result }
{
    Some(Event::Fail(parse_number(text)?))
}

// The event of the line that goes on with this text after `attach`.
fn parse_attach(text: &str) -> Option<Event>
    ensures { Reads line_of IsEvent (codes "attach" ++ 32 ∷ text.now) result }
{
    Some(Event::Attach(parse_number(text)?))
}

// The event of the line that goes on with this text after `replace`.
fn parse_replace(text: &str) -> Option<Event>
    ensures { Reads line_of IsEvent (codes "replace" ++ 32 ∷ text.now) result }
{
    Some(Event::Replace(parse_number(text)?))
}

// The event that a line says.
fn parse_event(line: &str) -> Option<Event>
    ensures { Reads line_of IsEvent line.now result }
{
    let (name, text) = line.split_once(' ')?;
    match name {
        "read" => parse_read(text),
        "write" => parse_write(text),
        "perform" => parse_perform(text),
        "answer" => parse_answer(text),
        "do" => parse_do(text),
        "tell" => parse_tell(text),
        "look" => parse_look(text),
        "turn" => parse_turn(text),
        "fail" => parse_fail(text),
        "attach" => parse_attach(text),
        "replace" => parse_replace(text),
        _ => None,
    }
}

// The array that a line says, if it is one.
fn parse_array(line: &str) -> Option<Geometry>
    ensures { Reads array_line IsShape line.now result }
{
    let text = line.strip_prefix("array ")?;
    let (slots, text) = parse_number_before(text, ' ')?;
    let (chunk, text) = parse_number_before(text, ' ')?;
    let (block, text) = parse_number_before(text, ' ')?;
    let (rows, text) = parse_number_before(text, ' ')?;
    let shards = parse_number(text)?;
    Geometry::new(slots as usize, chunk, block as usize, rows, shards as usize).ok()
}

/// Whether a line is empty or a comment.
pub(crate) fn is_passed_over(line: &str) -> bool
    ensures { result ≡ is_passed_over line.now }
{
    line.is_empty() || line.starts_with('#')
}

// What was read, and then a line that isn't passed over.
fn followed(
    alloc: Global,
    before: Option<Script>,
    line: &str,
    number: u64,
) -> Result<Script, ScriptFault>
    requires { IsSaid (said_of before) }
    ensures ok { IfOk result (λ script. Adds (said_of before) line.now (said_of (Some script))) }
    ensures err { IfErr result (λ fault. fault ≢ ScriptFault.Memory
        → (fault ≡ ScriptFault.Line number) × CannotAdd (said_of before) line.now) }
    ensures memory { IfErr result (λ fault. fault ≡ ScriptFault.Memory
        → (event : Entered) × (line.now ≡ line_of event)) }
{
    match before {
        None => match parse_array(line) {
            Some(geometry) => Ok(Script {
                geometry,
                events: Vec::new(alloc),
            }),
            None => Err(ScriptFault::Line(number)),
        },
        Some(mut script) => match parse_event(line) {
            Some(event) => {
                script.events.push(event)?;
                Ok(script)
            }
            None => Err(ScriptFault::Line(number)),
        },
    }
}

/// Reads a script: the array and the events, or nothing if there is no event.
///
/// # Errors
/// The first line with which the lines are no script's; want of memory can come at any place.
pub fn parse_script(alloc: Global, text: &str) -> Result<Option<Script>, ScriptFault>
    ensures ok { IfOk result (λ script. Say (lines_of text.now) (said_of script)) }
    ensures err { IfErr result (Explains (lines_of text.now)) }
{
    let mut script = None;
    let mut number = 0;
    for line in text.split('\n') {
        number += 1;
        if !is_passed_over(line) {
            script = Some(followed(alloc, script, line, number)?);
        }
    }
    Ok(script)
}
