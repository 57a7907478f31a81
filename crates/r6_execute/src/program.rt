//! The program: its command line, its files, and the status that it ends with.

ghost use Rattle.std.specs.Prelude.{◌≡◌, ◌≢◌, ◌⊎◌};
ghost use Rattle.std.specs.Process.{exit_status};
ghost use Rattle.clap.specs.Values.{kind_of};
ghost use Rattle.clap.specs.declared.error.kind.ErrorKind.TheVariants.{DisplayHelp, DisplayVersion};
ghost use Rattle.r6_execute.specs.Status.{status_of};

use crate::commands::executed;
use crate::errors::ErrorOutput;
use crate::fault::Fault;
use crate::source::Source;
use clap::Error;
use r6_command::{CommandFault, Invocation, command};
use std::fs::File;
use std::io::{BufWriter, ErrorKind, IsTerminal};
use std::process::ExitCode;
use std::rt::Files;
use std::sync::Wait;
use std::thread::Threads;

fn refused(rt: &HostRuntime, fault: Fault) -> ExitCode
    ensures { exit_status result ≡ status_of fault }
{
    let _ = eprintln!(rt; "{fault}");
    ExitCode::from(fault.status())
}

// Prints clap's words, help on standard output and all else on standard error.
fn explained(rt: &HostRuntime, error: &Error) -> ExitCode
    ensures shown { (kind_of error.now ≡ DisplayHelp) ⊎ (kind_of error.now ≡ DisplayVersion)
        → (exit_status result ≡ 0) ⊎ (exit_status result ≡ status_of Fault.Output) }
    ensures wrong { kind_of error.now ≢ DisplayHelp → kind_of error.now ≢ DisplayVersion → exit_status result ≡ 2 }
{
    let printed = error.print(rt);
    if error.use_stderr() {
        return ExitCode::from(2);
    }
    match printed {
        Ok(()) => ExitCode::from(0),
        Err(_) => refused(rt, Fault::Output),
    }
}

// Room for what is printed, which goes to standard output in pieces of this length.
const OUTPUT_ROOM: usize = 65536;

// Carries out a command on the files that it names, and on standard output and error.
fn perform<R: Wait + Threads + Files<File = File> + Sync>(
    rt: &HostRuntime,
    threads: &R,
    invocation: &Invocation<'_>,
) -> ExitCode {
    let mut settings = Source::of(rt, invocation.config());
    let mut script = Source::of(rt, invocation.script());
    let Ok(mut out) = BufWriter::with_capacity(rt.alloc(), OUTPUT_ROOM, rt.stdout()) else {
        return refused(rt, Fault::Memory);
    };
    let stderr = rt.stderr();
    let is_terminal = stderr.is_terminal();
    let mut err = ErrorOutput::new(stderr, is_terminal);
    executed(
        threads,
        rt.alloc(),
        invocation,
        &mut settings,
        &mut script,
        &mut out,
        &mut err,
    )
}

/// The program: carries out the command of its command line, and answers the status to end with. `threads` is the right
/// to wait and to start threads, which `main` has.
pub fn exit_code<R: Wait + Threads + Files<File = File> + Sync>(
    rt: &HostRuntime,
    threads: &R,
) -> ExitCode {
    let words: Vec<String> = match std::env::args(rt) {
        Ok(words) => match words.collect(rt.alloc()) {
            Ok(words) => words,
            Err(_) => return refused(rt, Fault::Memory),
        },
        Err(error) if error.kind() == ErrorKind::OutOfMemory => return refused(rt, Fault::Memory),
        Err(_) => return refused(rt, Fault::NotText),
    };
    match command(rt.alloc(), words.as_slice()) {
        Ok(invocation) => perform(rt, threads, &invocation),
        Err(CommandFault::Refused(error)) => explained(rt, &error),
        Err(CommandFault::Memory) => refused(rt, Fault::Memory),
    }
}
