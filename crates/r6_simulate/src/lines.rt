//! The lines that the command `simulate` prints.

ghost use Rattle.std.specs.Prelude.{◌≡◌, ◌++◌, OnOk, string_bytes};
ghost use Rattle.r6_simulate.specs.Lines.{command_text, outcome_text, reply_text};
ghost use Rattle.r6_simulate.specs.declared.lines.EventOutcome.TheVariants.{Received, Turned};

use r6_core::{Call, Command, CommandKind, OpId, Receipt, Refusal, Reply, Turn};
use r6_health::Answered;
use std::alloc::AllocError;
use std::fmt::{self, Write};

/// A call that a shard makes at the register.
#[derive(Clone, Copy)]
pub struct Made(pub Call);

impl fmt::Display for Made {
    ghost use Rattle.std.specs.Prelude.{Some};
    ghost use Rattle.r6_simulate.specs.Lines.{call_text};

    ghost output = { λ made. Some (call_text made.0) };

    fn fmt<W: fmt::Write>(&self, f: &mut fmt::Formatter<W>) -> fmt::Result {
        match self.0 {
            Call::DeclareLost(slot, generation) => write!(f, "declare_lost {slot} {generation}"),
            Call::ReportRebuilt(slot, generation) => {
                write!(f, "report_rebuilt {slot} {generation}")
            }
        }
    }
}

/// What became of an event.
#[derive(Clone, Copy)]
pub enum EventOutcome {
    /// The shard accepted a request, under this number of its own.
    Accepted(usize, OpId),
    /// A device performed a command.
    Performed,
    /// The command had been performed, and nothing was done.
    PerformedAlready,
    /// No command with this token is outstanding, and nothing was done.
    NoSuchCommand,
    /// The command isn't performed, and nothing was delivered.
    NotPerformed,
    /// The shard received a completion.
    Received(Receipt),
    /// The shard looked at the register.
    Looked,
    /// The shard had a turn.
    Turned(Turn),
    /// The shard refused a request, a completion, a look or a turn.
    Refused(Refusal),
    /// The shard's call was made, and the shard was told the answer.
    Told(Made, Answered),
    /// The shard has no call to make.
    Nothing,
    /// The register was called from outside.
    Called(Answered),
    /// The array has no shard of this number.
    NoSuchShard,
}

// How a completion was received.
fn receipt_word(receipt: Receipt) -> &'static str
    ensures { result.now ≡ outcome_text (Received receipt) }
{
    match receipt {
        Receipt::Taken => "taken",
        Receipt::Late => "late",
    }
}

// What a turn did.
fn turn_word(turn: Turn) -> &'static str
    ensures { result.now ≡ outcome_text (Turned turn) }
{
    match turn {
        Turn::Started => "started",
        Turn::Skipped => "skipped",
    }
}

impl fmt::Display for EventOutcome {
    ghost use Rattle.std.specs.Prelude.{Some};
    ghost use Rattle.r6_simulate.specs.Lines.{outcome_text};

    ghost output = { λ outcome. Some (outcome_text outcome) };

    fn fmt<W: fmt::Write>(&self, f: &mut fmt::Formatter<W>) -> fmt::Result {
        match self {
            EventOutcome::Accepted(shard, id) => write!(f, "op {shard}:{}", id.0),
            EventOutcome::Performed => f.write_str("performed"),
            EventOutcome::PerformedAlready => f.write_str("performed already"),
            EventOutcome::NoSuchCommand => f.write_str("no such command"),
            EventOutcome::NotPerformed => f.write_str("not performed"),
            EventOutcome::Received(receipt) => f.write_str(receipt_word(*receipt)),
            EventOutcome::Looked => f.write_str("looked"),
            EventOutcome::Turned(turn) => f.write_str(turn_word(*turn)),
            EventOutcome::Refused(refusal) => write!(f, "{refusal}"),
            EventOutcome::Told(made, answered) => write!(f, "{made}: {answered}"),
            EventOutcome::Nothing => f.write_str("nothing"),
            EventOutcome::Called(answered) => write!(f, "{answered}"),
            EventOutcome::NoSuchShard => f.write_str("no such shard"),
        }
    }
}

/// Goes on with a line: a reply that the shard puts out.
pub fn write_reply(
    line: &mut String,
    shard: usize,
    id: OpId,
    reply: &Reply,
) -> Result<(), AllocError>
    ensures { OnOk result (string_bytes line.new ≡ string_bytes line.old ++ reply_text shard id.0 reply.now) }
{
    write!(line, " | reply {shard}:{} {reply}", id.0)
}

/// Goes on with a line: a command that the shard puts out.
pub fn write_command(line: &mut String, shard: usize, command: &Command) -> Result<(), AllocError>
    ensures { OnOk result (string_bytes line.new ≡ string_bytes line.old ++ command_text shard command.now) }
{
    let kind = match command.kind {
        CommandKind::Read => "read",
        CommandKind::Write => "write",
    };
    write!(
        line,
        " | {shard}:{} {kind} slot {} gen {} row {}",
        command.token, command.slot, command.generation, command.row
    )?;
    if command.kind == CommandKind::Write {
        write!(line, " {}", command.buffer)?;
    }
    Ok(())
}
