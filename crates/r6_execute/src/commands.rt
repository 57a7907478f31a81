//! Carries a command out.

ghost use Rattle.std.specs.Prelude.{◌≡◌, ◌≢◌, true, Option, Ok, IfErr, IfOk, IfSome, OnOk};
ghost use Rattle.std.specs.Process.{exit_status};
ghost use Rattle.r6_command.specs.CommandLine.{asked_of};
ghost use Rattle.r6_settings.specs.Settings.{AreInRange, settings_in, values_of};
ghost use Rattle.r6_execute.specs.Commands.{EndsAs, AreWrong, EndsBy, HasPlayed, HasPrinted, HasServed, IsAmiss, IsDone, IsSilent, IsTold, IsUnread, StopsGeometry, StopsPlay, StopsServing, Text};
ghost use Rattle.r6_execute.specs.Status.{status_of};

use crate::devices::{create, verify};
use crate::ending::Ending;
use crate::errors::ErrorOutput;
use crate::fault::{Fault, Input};
use crate::geometry::described;
use crate::output::{finish, print};
use crate::read::{read_script, read_settings, read_text};
use r6_command::Invocation;
use r6_run::run;
use r6_script::parse_run_script;
use r6_settings::Config;
use r6_simulate::simulate;
use std::alloc::Global;
use std::io::{Read, Seek, Write};
use std::os::unix::fs::FileExt;
use std::process::ExitCode;
use std::rt::Files;
use std::sync::Wait;
use std::thread::Threads;

// Prints the layout of an array.
fn print_geometry<S: Read, W: Write>(
    alloc: Global,
    settings: &mut S,
    out: &mut W,
) -> Result<(), Fault>
    ensures ok { OnOk result (HasPrinted (S.remaining settings.old) (W.contents out.old) (W.contents out.new)) }
    ensures err { IfErr result (StopsGeometry (S.remaining settings.old) (W.contents out.old) (W.contents out.new)) }
{
    let config = read_settings(alloc, settings, false)?;
    let text = described(alloc, &config.geometry)?;
    print(out, text.as_str())
}

// Plays a script.
fn play<R: Wait, T: Read, W: Write>(
    rt: &R,
    alloc: Global,
    script: &mut T,
    out: &mut W,
) -> Result<Ending, Fault>
    ensures ok { IfOk result (HasPlayed (T.remaining script.old) (W.contents out.old) (W.contents out.new)) }
    ensures err { IfErr result (StopsPlay (T.remaining script.old) (W.contents out.old) (W.contents out.new)) }
{
    let ending = match read_script(alloc, script)? {
        Some(script) => Ending::from(simulate(rt, alloc, &script, out)?),
        None => Ending::Good,
    };
    finish(out)?;
    Ok(ending)
}

// Runs the script that a text says on the devices of the settings.
fn run_text<F, R, W>(
    rt: &R,
    alloc: Global,
    config: &Config,
    text: &str,
    out: &mut W,
) -> Result<Ending, Fault>
where
    F: FileExt + Seek + Drop + Send,
    R: Wait + Threads + Files<File = F> + Sync,
    W: Write,
    requires { AreInRange (values_of config.now) }
    ensures ok { IfOk result (λ ending. (settings script : Option Text)
        → IfSome settings (λ held. settings_in true held ≡ Ok (values_of config.now))
        → IfSome script (λ held. text.now ≡ held)
        → HasServed settings script (W.contents out.old) (W.contents out.new) ending) }
    ensures err { IfErr result (λ fault. (settings script : Option Text)
        → IfSome settings (λ held. settings_in true held ≡ Ok (values_of config.now))
        → IfSome script (λ held. text.now ≡ held)
        → StopsServing settings script (W.contents out.old) (W.contents out.new) fault) }
{
    let events = parse_run_script(alloc, text)?;
    let ending = run(rt, alloc, config, events, out)?;
    finish(out)?;
    Ok(Ending::from(ending))
}

// Runs a script on the devices of these settings.
fn run_script<F, R, T, W>(
    rt: &R,
    alloc: Global,
    config: &Config,
    script: &mut T,
    out: &mut W,
) -> Result<Ending, Fault>
where
    F: FileExt + Seek + Drop + Send,
    R: Wait + Threads + Files<File = F> + Sync,
    T: Read,
    W: Write,
    requires { AreInRange (values_of config.now) }
    ensures ok { IfOk result (λ ending. (settings : Option Text)
        → IfSome settings (λ held. settings_in true held ≡ Ok (values_of config.now))
        → HasServed settings (T.remaining script.old) (W.contents out.old) (W.contents out.new) ending) }
    ensures err { IfErr result (λ fault. (settings : Option Text)
        → IfSome settings (λ held. settings_in true held ≡ Ok (values_of config.now))
        → StopsServing settings (T.remaining script.old) (W.contents out.old) (W.contents out.new) fault) }
{
    let text = read_text(alloc, script, Input::Script)?;
    run_text(rt, alloc, config, text.as_str(), out)
}

// Runs a script on the devices of the settings, and reads it once they are right.
fn serve<F, R, S, T, W>(
    rt: &R,
    alloc: Global,
    settings: &mut S,
    script: &mut T,
    out: &mut W,
) -> Result<Ending, Fault>
where
    F: FileExt + Seek + Drop + Send,
    R: Wait + Threads + Files<File = F> + Sync,
    S: Read,
    T: Read,
    W: Write,
    ensures ok { IfOk result (HasServed (S.remaining settings.old) (T.remaining script.old)
        (W.contents out.old) (W.contents out.new)) }
    ensures err { IfErr result (StopsServing (S.remaining settings.old) (T.remaining script.old)
        (W.contents out.old) (W.contents out.new)) }
    ensures unread { AreWrong true (S.remaining settings.old) → script.new ≡ script.old }
{
    let config = read_settings(alloc, settings, true)?;
    run_script(rt, alloc, &config, script, out)
}

fn carry_out<F, R, S, T, W, E>(
    rt: &R,
    alloc: Global,
    invocation: &Invocation<'_>,
    settings: &mut S,
    script: &mut T,
    out: &mut W,
    err: &mut ErrorOutput<E>,
) -> Result<Ending, Fault>
where
    F: FileExt + Seek + Drop + Send,
    R: Wait + Threads + Files<File = F> + Sync,
    S: Read,
    T: Read,
    W: Write,
    E: Write + Send,
    ensures ok { IfOk result (EndsAs (asked_of invocation.now) (S.remaining settings.old) (T.remaining script.old)
        (W.contents out.old) (W.contents out.new)) }
    ensures err { IfErr result (EndsBy (asked_of invocation.now) (S.remaining settings.old) (T.remaining script.old)
        (W.contents out.old) (W.contents out.new)) }
    ensures unread { IsUnread (asked_of invocation.now) (S.remaining settings.old) script.old script.new }
    ensures silent { IsSilent (asked_of invocation.now) (E.contents err.old.writer) (E.contents err.new.writer) }
{
    match invocation {
        Invocation::Geometry { .. } => print_geometry(alloc, settings, out).and(Ok(Ending::Good)),
        Invocation::Create { .. } => create(rt, alloc, settings, out).and(Ok(Ending::Good)),
        Invocation::Verify { .. } => verify(rt, alloc, settings, out, err),
        Invocation::Simulate { .. } => play(rt, alloc, script, out),
        Invocation::Run { .. } => serve(rt, alloc, settings, script, out),
    }
}

/// Carries a command out over its settings file and its script, each of which is read only where the command uses it,
/// the script of `run` once the settings are right, and gives the status with which the program ends. What the command
/// prints goes to `out`; a fault is one line on `err`, the last that is written there, unless it refuses that. The
/// status is 0 if all is well, 1 if the array of a script has failed at its end or a row that was read isn't consistent,
/// and else that of a fault. A fault of the settings, of the script or of a device file comes before anything is written
/// to `out`.
pub fn execute<F, R, S, T, W, E>(
    rt: &R,
    alloc: Global,
    invocation: &Invocation<'_>,
    settings: &mut S,
    script: &mut T,
    out: &mut W,
    err: &mut ErrorOutput<E>,
) -> u8
where
    F: FileExt + Seek + Drop + Send,
    R: Wait + Threads + Files<File = F> + Sync,
    S: Read,
    T: Read,
    W: Write,
    E: Write + Send,
    ensures done { result ≡ 0 → IsDone (asked_of invocation.now) (S.remaining settings.old) (T.remaining script.old)
        (W.contents out.old) (W.contents out.new) }
    ensures amiss { result ≡ 1 → IsAmiss (asked_of invocation.now) (S.remaining settings.old) (T.remaining script.old)
        (W.contents out.old) (W.contents out.new) }
    ensures unread { IsUnread (asked_of invocation.now) (S.remaining settings.old) script.old script.new }
    ensures refused { result ≢ 0 → result ≢ 1 → (fault : Fault) × (result ≡ status_of fault)
        × EndsBy (asked_of invocation.now) (S.remaining settings.old) (T.remaining script.old)
        (W.contents out.old) (W.contents out.new) fault
        × IsTold (asked_of invocation.now) (E.contents err.old.writer) (E.contents err.new.writer) err.new.is_refused fault }
{
    match carry_out(rt, alloc, invocation, settings, script, out, err) {
        Ok(ending) => ending.status(),
        Err(fault) => {
            // A line that standard error refuses is lost: the status still says what went wrong.
            err.report(fault);
            fault.status()
        }
    }
}

/// As [`execute`]: what it answers is what the process ends with.
pub fn executed<F, R, S, T, W, E>(
    rt: &R,
    alloc: Global,
    invocation: &Invocation<'_>,
    settings: &mut S,
    script: &mut T,
    out: &mut W,
    err: &mut ErrorOutput<E>,
) -> ExitCode
where
    F: FileExt + Seek + Drop + Send,
    R: Wait + Threads + Files<File = F> + Sync,
    S: Read,
    T: Read,
    W: Write,
    E: Write + Send,
    ensures done { exit_status result ≡ 0 → IsDone (asked_of invocation.now) (S.remaining settings.old) (T.remaining script.old)
        (W.contents out.old) (W.contents out.new) }
    ensures amiss { exit_status result ≡ 1 → IsAmiss (asked_of invocation.now) (S.remaining settings.old) (T.remaining script.old)
        (W.contents out.old) (W.contents out.new) }
    ensures unread { IsUnread (asked_of invocation.now) (S.remaining settings.old) script.old script.new }
    ensures refused { exit_status result ≢ 0 → exit_status result ≢ 1 → (fault : Fault) × (exit_status result ≡ status_of fault)
        × EndsBy (asked_of invocation.now) (S.remaining settings.old) (T.remaining script.old)
        (W.contents out.old) (W.contents out.new) fault
        × IsTold (asked_of invocation.now) (E.contents err.old.writer) (E.contents err.new.writer) err.new.is_refused fault }
{
    ExitCode::from(execute(rt, alloc, invocation, settings, script, out, err))
}
