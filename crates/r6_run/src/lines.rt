//! The lines of a run.

ghost use Rattle.std.specs.Prelude.{◌≡◌, ◌<◌, OnOk};
ghost use Rattle.std.specs.Io.KnownBytes.{Appends};
ghost use Rattle.r6_run.specs.Lines.{answer_text, event_line, classes_text, found_text, is_degraded, is_wait, lines_text, rest_text, slot_text, state_text, state_word};

use r6_engine::{EventReply, Found};
use r6_health::{Answered, Snapshot};
use r6_layout::Geometry;
use std::io::{self, Write};

// The classes of wrong rows with one block to blame.
fn write_classes<W: Write>(out: &mut W, found: &Found) -> io::Result<()>
    ensures { OnOk result (Appends (W.contents out.old) (W.contents out.new) (classes_text found.now)) }
{
    let (wrong_p, wrong_q, wrong_data) = (found.wrong_p, found.wrong_q, found.wrong_data);
    write!(
        out,
        " wrong_p {wrong_p} wrong_q {wrong_q} wrong_data {wrong_data}"
    )
}

// The other words of a line of counts.
fn write_rest<W: Write>(out: &mut W, found: &Found) -> io::Result<()>
    ensures { OnOk result (Appends (W.contents out.old) (W.contents out.new) (rest_text found.now)) }
{
    let (many, skipped, repaired) = (found.many, found.skipped, found.repaired);
    write!(out, " many {many} skipped {skipped} repaired {repaired}")
}

fn write_found<W: Write>(out: &mut W, found: &Found) -> io::Result<()>
    ensures { OnOk result (Appends (W.contents out.old) (W.contents out.new) (found_text found.now)) }
{
    write!(out, "consistent {}", found.consistent)?;
    write_classes(out, found)?;
    write_rest(out, found)
}

fn write_answer<W: Write>(out: &mut W, reply: &EventReply) -> io::Result<()>
    ensures { OnOk result (Appends (W.contents out.old) (W.contents out.new) (answer_text reply.now)) }
{
    match reply {
        EventReply::Waited => Ok(()),
        EventReply::Replied(reply) => write!(out, "{reply}"),
        EventReply::Refused(refusal) => write!(out, "{refusal}"),
        EventReply::Failed(answer) => write!(out, "{}", Answered(*answer)),
        EventReply::Attached(answer) | EventReply::Replaced(answer) => {
            write!(out, "{}", Answered::of_attach(*answer))
        }
        EventReply::Counted(found) => write_found(out, found),
    }
}

// The line of an event.
fn write_line<W: Write>(out: &mut W, number: u64, reply: &EventReply) -> io::Result<()>
    ensures { OnOk result (Appends (W.contents out.old) (W.contents out.new) (event_line number reply.now)) }
{
    write!(out, "{number} ")?;
    write_answer(out, reply)?;
    writeln!(out)
}

// Whether nothing was answered, as to a wait.
fn is_wait(reply: &EventReply) -> bool
    ensures { result ≡ is_wait reply.now }
{
    matches!(reply, EventReply::Waited)
}

/// Writes the lines of the events by what they were answered, in their order, numbered from 0. A wait has none.
///
/// # Errors
/// That of `out`, where it refuses a part of them.
pub fn write_lines<W: Write>(out: &mut W, replies: &[EventReply]) -> io::Result<()>
    ensures { OnOk result (Appends (W.contents out.old) (W.contents out.new) (lines_text 0 replies.now)) }
{
    let mut number = 0;
    for reply in replies {
        if !is_wait(reply) {
            write_line(out, number, reply)?;
            number += 1;
        }
    }
    Ok(())
}

fn write_slot<W: Write>(out: &mut W, snapshot: &Snapshot, slot: usize) -> io::Result<()>
    requires { slot < 32 }
    ensures { OnOk result (Appends (W.contents out.old) (W.contents out.new) (slot_text snapshot.now slot)) }
{
    if snapshot.slot(slot).is_lost() {
        writeln!(out, "slot {slot} lost")
    } else {
        Ok(())
    }
}

// Whether a slot is out.
fn is_degraded(geometry: &Geometry, snapshot: &Snapshot) -> bool
    ensures { result ≡ is_degraded geometry.now.slots snapshot.now }
{
    let mut degraded = false;
    for slot in 0..geometry.slots() {
        degraded = degraded || snapshot.slot(slot).is_out();
    }
    degraded
}

// How the array is.
fn state_word(geometry: &Geometry, snapshot: &Snapshot) -> &'static str
    ensures { result.now ≡ state_word geometry.now.slots snapshot.now }
{
    if snapshot.failed() {
        "failed"
    } else if is_degraded(geometry, snapshot) {
        "degraded"
    } else {
        "good"
    }
}

/// Writes which slots are lost, and how the array is.
///
/// # Errors
/// That of `out`, where it refuses a part of them.
pub fn write_state<W: Write>(
    out: &mut W,
    geometry: &Geometry,
    snapshot: &Snapshot,
) -> io::Result<()>
    ensures { OnOk result (Appends (W.contents out.old) (W.contents out.new) (state_text geometry.now.slots snapshot.now)) }
{
    for slot in 0..geometry.slots() {
        write_slot(out, snapshot, slot)?;
    }
    writeln!(out, "state {}", state_word(geometry, snapshot))
}
