//! The commands `create` and `verify`, on the files of an array's devices.

ghost use Rattle.std.specs.Prelude.{◌≡◌, ℕ, List, Option, IfErr, IfOk, OnOk, string_bytes};
ghost use Rattle.r6_dev.specs.FilePart.{FilePart};
ghost use Rattle.r6_layout.specs.Shape.{IsShape};
ghost use Rattle.r6_offline.specs.Files.{AreOpened};
ghost use Rattle.r6_offline.specs.Parts.{parts_of, tells_nothing};
ghost use Rattle.r6_offline.specs.Reports.{IsReport};
ghost use Rattle.r6_settings.specs.Settings.{values_of};
ghost use Rattle.r6_verify.specs.Shards.{with_shards};
ghost use Rattle.r6_execute.specs.Commands.{HasCreated, HasReported, HasVerified, IsCheckFault, IsMakingFault, StopsCreate, StopsReport, StopsVerify, fault_met};
ghost use Rattle.r6_execute.specs.Reports.{created_text};

use crate::ending::Ending;
use crate::errors::{ErrorOutput, Shown};
use crate::fault::Fault;
use crate::output::print;
use crate::read::read_settings;
use crate::report::reported;
use r6_dev::Access;
use r6_engine::{EngineError, Report, create_files, open_parts};
use r6_layout::Geometry;
use r6_settings::Config;
use r6_verify::{verify_watched, with_shards};
use std::alloc::{AllocError, Global};
use std::fmt::Write as _;
use std::io::{Read, Seek, Write};
use std::os::unix::fs::FileExt;
use std::rt::Files;
use std::sync::Wait;
use std::thread::{self, Threads};

// What `create` prints.
fn created(alloc: Global, geometry: &Geometry) -> Result<String, AllocError>
    ensures { IfOk result (λ text. string_bytes text ≡ created_text geometry.now) }
{
    let mut text = String::new(alloc);
    let slots = geometry.slots();
    writeln!(text, "created {slots}")?;
    Ok(text)
}

// Makes the device files of the settings, and gives what is printed then.
fn made<R: Files>(files: &R, alloc: Global, config: &Config) -> Result<String, Fault>
    ensures ok { IfOk result (λ text. string_bytes text ≡ created_text config.now.geometry) }
    ensures err { IfErr result (IsMakingFault (values_of config.now)) }
{
    let text = created(alloc, &config.geometry)?;
    create_files(files, &config.geometry, config.devices.as_slice())?;
    Ok(text)
}

/// Makes the device files of the settings, of zeros, and prints how many.
pub(crate) fn create<R: Files, S: Read, W: Write>(
    files: &R,
    alloc: Global,
    settings: &mut S,
    out: &mut W,
) -> Result<(), Fault>
    ensures ok { OnOk result (HasCreated (S.remaining settings.old) (W.contents out.old) (W.contents out.new)) }
    ensures err { IfErr result (StopsCreate (S.remaining settings.old) (W.contents out.old) (W.contents out.new)) }
{
    let config = read_settings(alloc, settings, true)?;
    let text = made(files, alloc, &config)?;
    print(out, text.as_str())
}

// Prints what a check found.
fn print_report<W: Write>(
    alloc: Global,
    geometry: &Geometry,
    report: &Report,
    out: &mut W,
) -> Result<Ending, Fault>
    ensures ok { IfOk result (HasReported geometry.now report.now (W.contents out.old) (W.contents out.new)) }
    ensures err { IfErr result (StopsReport (W.contents out.old) (W.contents out.new)) }
{
    let text = reported(alloc, geometry, report)?;
    print(out, text.as_str())?;
    Ok(Ending::of_report(report))
}

// How many processors there are; one where the system doesn't say.
fn processors<R: Threads>(rt: &R) -> usize {
    match thread::available_parallelism(rt) {
        Ok(count) => count.get(),
        Err(_) => 1,
    }
}

// Checks every row of the devices of the slots that aren't lost, opened for reading alone by as many shards as there
// are processors.
fn check_devices<F, R, E>(
    rt: &R,
    alloc: Global,
    config: &Config,
    err: &mut ErrorOutput<E>,
) -> Result<Report, EngineError>
where
    F: FileExt + Seek + Drop + Send,
    R: Files<File = F> + Wait + Threads + Sync,
    E: Write + Send,
    ensures ok { IfOk result (λ report. (shards : ℕ) × (devices : List (Option FilePart))
        × IsShape (with_shards config.now.geometry shards)
        × AreOpened (with_shards config.now.geometry shards) (values_of config.now).devices config.now.lost.items
        Access.Read devices
        × IsReport (with_shards config.now.geometry shards) (parts_of tells_nothing devices) report) }
    ensures err { IfErr result (IsCheckFault (values_of config.now)) }
{
    let geometry = with_shards(&config.geometry, processors(rt));
    let parts = open_parts(
        rt,
        alloc,
        &geometry,
        config.devices.as_slice(),
        config.lost.as_slice(),
        Access::Read,
    )?;
    verify_watched(rt, alloc, &geometry, parts, Shown { err })
}

// The fault that a check met, if it met one.
fn met_by(report: &Report) -> Option<Fault>
    ensures { result ≡ fault_met report.now.fault }
{
    match report.fault {
        Some(met) => Some(Fault::Device(met.slot, met.fault)),
        None => None,
    }
}

/// Reads every row of the devices of the settings and classifies it, in a thread for each processor, and prints how many
/// rows have each class. The devices are opened for reading alone.
pub(crate) fn verify<F, R, S, W, E>(
    rt: &R,
    alloc: Global,
    settings: &mut S,
    out: &mut W,
    err: &mut ErrorOutput<E>,
) -> Result<Ending, Fault>
where
    F: FileExt + Seek + Drop + Send,
    R: Files<File = F> + Wait + Threads + Sync,
    S: Read,
    W: Write,
    E: Write + Send,
    ensures ok { IfOk result (HasVerified (S.remaining settings.old) (W.contents out.old) (W.contents out.new)) }
    ensures err { IfErr result (StopsVerify (S.remaining settings.old) (W.contents out.old) (W.contents out.new)) }
{
    let config = read_settings(alloc, settings, true)?;
    let report = check_devices(rt, alloc, &config, err)?;
    match met_by(&report) {
        Some(fault) => Err(fault),
        None => print_report(alloc, &config.geometry, &report, out),
    }
}
