//! What the command `simulate` does: the events of a script, played against the cores of an array in memory.

ghost use Rattle.std.specs.Prelude.{◌≡◌, IfErr, IfOk, OnOk};
ghost use Rattle.std.specs.Io.KnownBytes.{Appends};
ghost use Rattle.r6_simulate.specs.Plays.{ending_of, HasPlayed, IsFirst, PlaysAndPrints};

use crate::array::Simulation;
use crate::fault::SimulationFault;
use r6_health::Snapshot;
use r6_script::{Event, Script};
use std::alloc::Global;
use std::fmt::Write as _;
use std::io::Write;
use std::sync::Wait;

/// How a run of a script ends.
#[derive(Clone, Copy)]
pub enum Ending {
    /// The register has not failed.
    InService,
    /// A third slot was out.
    Failed,
}

impl Ending {
    // By what the register holds.
    fn of(snapshot: &Snapshot) -> Ending
        ensures { result ≡ ending_of snapshot.now }
    {
        if snapshot.failed() {
            Ending::Failed
        } else {
            Ending::InService
        }
    }
}

fn print<W: Write>(out: &mut W, text: &str) -> Result<(), SimulationFault>
    ensures written { OnOk result (Appends (W.contents out.old) (W.contents out.new) text.now) }
    ensures refused { IfErr result (λ fault. fault ≡ SimulationFault.Output) }
{
    out.write_all(text.as_bytes())
        .map_err(|_| SimulationFault::Output)
}

// Plays an event, and prints its line.
fn play_and_print<R: Wait, W: Write>(
    rt: &R,
    simulation: &mut Simulation,
    event: Event,
    line: &mut String,
    out: &mut W,
) -> Result<(), SimulationFault>
    ensures { OnOk result
        (PlaysAndPrints event simulation.old (W.contents out.old) simulation.new (W.contents out.new)) }
{
    line.clear();
    simulation.play(rt, event, line)?;
    writeln!(line)?;
    print(out, line.as_str())
}

// Plays the events of a script, in order, against an array as it begins.
fn play_all<R: Wait, W: Write>(
    rt: &R,
    alloc: Global,
    script: &Script,
    simulation: &mut Simulation,
    out: &mut W,
) -> Result<Ending, SimulationFault>
    requires { IsFirst script.now.geometry simulation.old }
    ensures { IfOk result (λ ending.
        HasPlayed script.now.geometry script.now.events.items (W.contents out.old) ending (W.contents out.new)) }
{
    print(out, "array\n")?;
    let mut line = String::new(alloc);
    for event in &script.events {
        play_and_print(rt, simulation, *event, &mut line, out)?;
    }
    Ok(Ending::of(&simulation.register.read(rt)))
}

/// Plays the events of a script, in order, against an array in memory: devices of zeros, all in sync, and one
/// register. A line for the array and for each event goes to `out`, when the event was played.
///
/// # Errors
/// `Memory`; `Output` where `out` refuses a line.
pub fn simulate<R: Wait, W: Write>(
    rt: &R,
    alloc: Global,
    script: &Script,
    out: &mut W,
) -> Result<Ending, SimulationFault>
    ensures { IfOk result (λ ending.
        HasPlayed script.now.geometry script.now.events.items (W.contents out.old) ending (W.contents out.new)) }
{
    let mut simulation = Simulation::new(rt, alloc, script.geometry)?;
    play_all(rt, alloc, script, &mut simulation, out)
}
