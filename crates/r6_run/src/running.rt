//! A script is run.

ghost use Rattle.std.specs.Prelude.{◌≡◌, ◌≢◌, ◌≤◌, ◌<◌, ◌^◌, List, [], None, Option, IfErr, IfOk, OnOk, count_ones};
ghost use Rattle.std.specs.Io.KnownBytes.{Appends};
ghost use Rattle.r6_script.specs.Script.{Text};
ghost use Rattle.r6_settings.specs.Settings.{AreInRange, values_of};
ghost use Rattle.r6_dev.specs.FilePart.{FilePart};
ghost use Rattle.r6_offline.specs.Files.{AreOpened};
ghost use Rattle.r6_layout.specs.Shape.{IsShape};
ghost use Rattle.r6_run.specs.Arrays.{AreGiven, mask_of};
ghost use Rattle.r6_run.specs.Ends.{ending_of};
ghost use Rattle.r6_run.specs.Faults.{IsRunningFault};
ghost use Rattle.r6_run.specs.Runs.{HasRun, report_text};

use crate::array::{mask_of, parts_of};
use crate::ending::Ending;
use crate::events::events_of;
use crate::fault::RunFault;
use crate::lines::{write_lines, write_state};
use r6_dev::{Access, FileDevice};
use r6_engine::{Config as ServeConfig, EventReply, Served, open_parts, serve};
use r6_health::Snapshot;
use r6_layout::Geometry;
use r6_script::RunEvent;
use r6_settings::Config;
use r6_shard::Parts;
use std::alloc::Global;
use std::io::{self, Seek, Write};
use std::os::unix::fs::FileExt;
use std::rt::Files;
use std::sync::Wait;
use std::thread::Threads;

// Writes the lines of a run.
fn write_report<W: Write>(
    out: &mut W,
    geometry: &Geometry,
    replies: &[EventReply],
    snapshot: &Snapshot,
) -> io::Result<()>
    ensures { OnOk result (Appends (W.contents out.old) (W.contents out.new)
        (report_text geometry.now replies.now snapshot.now)) }
{
    write_lines(out, replies)?;
    write_state(out, geometry, snapshot)
}

// The parts of each shard of an array of files, opened.
fn opened<F, R>(
    files: &R,
    alloc: Global,
    config: &Config,
) -> Result<Vec<Parts<FileDevice<F>>>, RunFault>
where
    F: FileExt + Seek + Drop,
    R: Files<File = F>,
    ensures ok { IfOk result (λ parts. (devices : List (Option FilePart))
        × AreOpened config.now.geometry (values_of config.now).devices config.now.lost.items Access.ReadWrite devices
        × AreGiven config.now.geometry.shards config.now.geometry.slots devices parts.items) }
    ensures err { IfErr result (IsRunningFault config.now.geometry.slots config.now.lost.items []) }
{
    let geometry = &config.geometry;
    let opened = open_parts(
        files,
        alloc,
        geometry,
        config.devices.as_slice(),
        config.lost.as_slice(),
        Access::ReadWrite,
    )?;
    Ok(parts_of(alloc, geometry.shards(), geometry.slots(), opened)?)
}

// How the array of the settings is served.
fn serving_of(config: &Config) -> ServeConfig
    requires { AreInRange (values_of config.now) }
    ensures is { result ≡ record {
      geometry = config.now.geometry;
      window = config.now.window;
      workers = config.now.workers;
      lost = mask_of config.now.geometry.slots config.now.lost.items;
      stop = None;
    } }
    ensures limits { IsShape result.geometry }
    ensures window { (1 ≤ result.window) × (result.window ≤ 8) }
    ensures workers { (1 ≤ result.workers) × (result.workers ≤ 8) }
    ensures lost { (result.lost < 2 ^ result.geometry.slots) × (count_ones result.lost ≤ 2) }
{
    ServeConfig {
        geometry: config.geometry,
        window: config.window as usize,
        workers: config.workers as usize,
        lost: mask_of(config.geometry.slots(), config.lost.as_slice()),
        stop: None,
    }
}

// Gives the events of a script to the array of the settings: who prints the report of this has run the script. The
// script's own memory is let go of before the events are served.
fn served<F, R>(
    rt: &R,
    alloc: Global,
    config: &Config,
    script: Vec<RunEvent<'_>>,
) -> Result<Served<FileDevice<F>>, RunFault>
where
    F: FileExt + Seek + Drop + Send,
    R: Wait + Threads + Files<File = F> + Sync,
    requires { AreInRange (values_of config.now) }
    ensures err { IfErr result (IsRunningFault config.now.geometry.slots config.now.lost.items script.entry.items) }
    ensures ok { IfOk result (λ served. (old new : Option Text)
        → Appends old new (report_text config.now.geometry served.replies.items served.snapshot)
        → HasRun (values_of config.now) script.entry.items old new (ending_of served.snapshot)) }
{
    let geometry = &config.geometry;
    let parts = opened(rt, alloc, config)?;
    let events = events_of(rt, alloc, geometry, script.as_slice())?;
    drop(script);
    Ok(serve(rt, alloc, serving_of(config), parts, events)?)
}

/// Runs the events of a script on the array of the settings, each shard in a thread of its own, and prints a line for
/// each event but waits, once all are over; then which slots are lost, and how the array is.
///
/// All files are opened, those of new devices too, all memory is taken and all threads are there before
/// the first command to a device.
///
/// # Errors
/// `Device(slot, fault)` for the first slot, and then for the first new device, whose file can't be had; `Memory`,
/// `Thread`: no file was changed and nothing printed. `Output` where `out` refuses a part of the lines.
pub fn run<F, R, W>(
    rt: &R,
    alloc: Global,
    config: &Config,
    script: Vec<RunEvent<'_>>,
    out: &mut W,
) -> Result<Ending, RunFault>
where
    F: FileExt + Seek + Drop + Send,
    R: Wait + Threads + Files<File = F> + Sync,
    W: Write,
    requires { AreInRange (values_of config.now) }
    ensures ok { IfOk result (HasRun (values_of config.now) script.entry.items (W.contents out.old) (W.contents out.new)) }
    ensures err { IfErr result (IsRunningFault config.now.geometry.slots config.now.lost.items script.entry.items) }
    ensures kept { IfErr result (λ fault. fault ≢ RunFault.Output → W.contents out.new ≡ W.contents out.old) }
{
    let geometry = &config.geometry;
    let served = served(rt, alloc, config, script)?;
    let ending = Ending::of(&served.snapshot);
    match write_report(out, geometry, &served.replies, &served.snapshot) {
        Ok(()) => Ok(ending),
        Err(_) => Err(RunFault::Output),
    }
}
