//! The files of an array's devices.

ghost use Rattle.std.specs.Prelude.{◌≡◌, ◌*◌, length, IfOk};

use crate::must::must;
use r6_dev::{Access, BlockDevice, DeviceSize, Fault, FileDevice};
use r6_kernels::Buffer;
use r6_layout::{Geometry, GeometryError};
use r6_offline::{
    ClassCounts, EngineError, Rebuilt, Report, RowFault, WrongRow, check_all, create_files,
    is_absent, open_parts, open_slot, rebuild_all,
};
use r6_recover::RowClass;
use std::fs::{File, OpenOptions};
use std::process::Abort;
use std::rt::Files;
use std::sync::Wait;
use std::test::Fail;
use std::thread::Threads;
use std::{env, fs, process};

const SLOTS: usize = 4;

/// So many bytes of one value, and then so many of another one.
type Bytes = (usize, u8, usize, u8);

/// What is done with the files of four devices of 4 rows of 16 bytes, among them that of the course's own slot, or what
/// has to be found.
#[derive(Clone, Copy)]
enum Step {
    /// All files are written with these bytes, or only the own one.
    FillAll(Bytes),
    Fill(Bytes),
    Remove,
    /// All files are made; or the own one isn't, since it is there.
    Create,
    IsNotCreated,
    /// A single file isn't made, at a path that can be none.
    IsNotCreatedAt(&'static str),
    /// No device is opened at a path, neither for reading alone nor for writing: it is `Gone`.
    IsNotOpenedAt(&'static str),
    /// All files have these bytes, or the own one, or the others.
    AllHave(Bytes),
    Has(Bytes),
    OthersHave(Bytes),
    IsMissing,
    /// Whether there is a file for a slot.
    IsThere(usize, bool),
    /// The own file is refused, but not where its slot is lost.
    IsRefused(Fault),
    /// A check with so many shards reports so, with chunks of one block, or with chunks of so many.
    Reports(usize, Report),
    ReportsOf(u64, usize, Report),
    /// Likewise with two shards, and chunks of so many blocks, but once it is open the own file gets these bytes.
    ReportsOnce(u64, Bytes, Report),
    /// A part of the own file, which is open for writing alone, answers a read by a read error.
    IsUnreadable,
    /// The own slot is rebuilt onto its file.
    IsRebuilt,
    /// A part of the second of two shards answers so to a write of a row of this byte, or reads one.
    Writes(Access, u64, u8, Result<(), Fault>),
    Reads(u64, u8),
}

/// Steps that a slot's file and the three others have to take. There is none at first.
#[derive(Clone, Copy)]
struct Course {
    name: &'static str,
    slots: &'static [usize],
    steps: &'static [Step],
}

const ZEROS: Bytes = (64, 0, 0, 0);

const SEVENS: Bytes = (64, 7, 0, 0);

const CONSISTENT: Report = Report {
    counts: ClassCounts {
        consistent: 4,
        wrong_p: 0,
        wrong_q: 0,
        wrong_data: 0,
        many: 0,
        skipped: 0,
    },
    first_wrong: None,
    fault: None,
};

/// The first byte of slot 1 is wrong.
const WRONG: Report = Report {
    counts: ClassCounts {
        consistent: 3,
        wrong_data: 1,
        wrong_p: 0,
        wrong_q: 0,
        many: 0,
        skipped: 0,
    },
    first_wrong: Some(WrongRow {
        row: 0,
        class: RowClass::WrongData(0),
    }),
    fault: None,
};

/// The last byte of slot 1 is wrong, in data block 0 or 1 of row 3.
const LAST_OF_FIRST: Report = Report {
    first_wrong: Some(WrongRow {
        row: 3,
        class: RowClass::WrongData(0),
    }),
    ..WRONG
};

const LAST_OF_SECOND: Report = Report {
    first_wrong: Some(WrongRow {
        row: 3,
        class: RowClass::WrongData(1),
    }),
    ..WRONG
};

/// Slot 2 ends within row 2, or before it.
const SHORT: Report = Report {
    counts: ClassCounts {
        consistent: 2,
        wrong_data: 0,
        wrong_p: 0,
        wrong_q: 0,
        many: 0,
        skipped: 0,
    },
    first_wrong: None,
    fault: Some(RowFault {
        row: 2,
        slot: 2,
        fault: Fault::Gone,
    }),
};

const ALL_SLOTS: &[usize] = &[0, 1, 2, 3];

const COURSES: &[Course] = &[
    Course {
        name: "files are made of zeros, and found wrong once a byte changes",
        slots: &[1],
        steps: &[
            Step::Create,
            Step::AllHave(ZEROS),
            Step::Reports(1, CONSISTENT),
            Step::Reports(2, CONSISTENT),
            Step::Reports(4, CONSISTENT),
            Step::Fill((1, 1, 63, 0)),
            Step::Reports(1, WRONG),
            Step::Reports(2, WRONG),
            Step::Reports(4, WRONG),
        ],
    },
    // With chunks of two blocks slot 1 keeps data block 1 of rows 2 and 3, with one of four data block 0 of all rows.
    Course {
        name: "rows that are read at once are found wrong by their own bytes",
        slots: &[1],
        steps: &[
            Step::Create,
            Step::ReportsOf(2, 2, CONSISTENT),
            Step::ReportsOf(4, 1, CONSISTENT),
            Step::Fill((63, 0, 1, 1)),
            Step::ReportsOf(2, 1, LAST_OF_SECOND),
            Step::ReportsOf(2, 2, LAST_OF_SECOND),
            Step::ReportsOf(4, 1, LAST_OF_FIRST),
        ],
    },
    // The others are made before it and stay, or aren't made.
    Course {
        name: "a file that is there is not overwritten",
        slots: &[2],
        steps: &[
            Step::Fill((5, 7, 0, 0)),
            Step::IsNotCreated,
            Step::Has((5, 7, 0, 0)),
            Step::IsThere(0, true),
            Step::IsThere(1, true),
            Step::IsThere(3, false),
        ],
    },
    Course {
        name: "a file that cannot be made is refused",
        slots: &[0],
        steps: &[Step::IsNotCreatedAt("/dev/null/array")],
    },
    Course {
        name: "what is neither a file nor a block device is not opened",
        slots: &[0],
        steps: &[
            Step::IsNotOpenedAt("/dev/null"),
            Step::IsNotOpenedAt("/dev"),
        ],
    },
    Course {
        name: "an empty file is refused and not changed",
        slots: ALL_SLOTS,
        steps: &[
            Step::FillAll(SEVENS),
            Step::Fill((0, 7, 0, 0)),
            Step::IsRefused(Fault::Length),
            Step::Has((0, 7, 0, 0)),
            Step::OthersHave(SEVENS),
        ],
    },
    Course {
        name: "a file that is too short is refused and not changed",
        slots: ALL_SLOTS,
        steps: &[
            Step::FillAll(SEVENS),
            Step::Fill((63, 7, 0, 0)),
            Step::IsRefused(Fault::Length),
            Step::Has((63, 7, 0, 0)),
            Step::OthersHave(SEVENS),
        ],
    },
    Course {
        name: "a file that is too long is refused and not changed",
        slots: ALL_SLOTS,
        steps: &[
            Step::FillAll(SEVENS),
            Step::Fill((65, 7, 0, 0)),
            Step::IsRefused(Fault::Length),
            Step::Has((65, 7, 0, 0)),
            Step::OthersHave(SEVENS),
        ],
    },
    Course {
        name: "a missing file is refused and not made",
        slots: ALL_SLOTS,
        steps: &[
            Step::FillAll(SEVENS),
            Step::Remove,
            Step::IsRefused(Fault::Gone),
            Step::IsMissing,
            Step::OthersHave(SEVENS),
        ],
    },
    // It loses its last 20 bytes, of rows 2 and 3, or these rows.
    Course {
        name: "a file that is cut in mid-run is gone",
        slots: &[2],
        steps: &[
            Step::Create,
            Step::ReportsOnce(1, (44, 0, 0, 0), SHORT),
            Step::Fill(ZEROS),
            Step::ReportsOnce(1, (32, 0, 0, 0), SHORT),
            Step::Fill(ZEROS),
            Step::ReportsOnce(2, (44, 0, 0, 0), SHORT),
            Step::Fill(ZEROS),
            Step::ReportsOnce(2, (32, 0, 0, 0), SHORT),
        ],
    },
    Course {
        name: "a read that the system refuses is a read error",
        slots: &[2],
        steps: &[Step::Create, Step::IsUnreadable],
    },
    // Slot 1 keeps data blocks 0 and 1, P and Q of rows 0 to 3.
    Course {
        name: "a slot is rebuilt onto its file",
        slots: &[1],
        steps: &[
            Step::Create,
            Step::Fill(SEVENS),
            Step::IsRebuilt,
            Step::Has(ZEROS),
        ],
    },
    // The second shard has rows 2 and 3.
    Course {
        name: "a row stands in the file by its number",
        slots: &[0],
        steps: &[
            Step::Fill(ZEROS),
            Step::Writes(Access::ReadWrite, 1, 7, Err(Fault::Length)),
            Step::Writes(Access::ReadWrite, 3, 7, Ok(())),
            Step::Has((48, 0, 16, 7)),
            Step::Writes(Access::Read, 2, 7, Err(Fault::WriteFault)),
            Step::Reads(2, 0),
            Step::Reads(3, 7),
        ],
    },
];

/// Paths for the devices of this run.
fn paths_of(rt: &HostRuntime) -> Result<Vec<String>, Fail> {
    let run = process::id(rt.process());
    let folder = env::temp_dir(rt)?;
    let mut paths = Vec::new(rt.alloc());
    for slot in 0..SLOTS {
        paths.push(format!(in rt.alloc(); "{}/r6-{run}-{slot}", folder.as_str())?)?;
    }
    Ok(paths)
}

fn remove<R: Files>(rt: &R, paths: &[String]) {
    for path in paths {
        let _ = fs::remove_file(rt, path.as_str());
    }
}

/// The path of a slot's device.
fn path_of(paths: &[String], slot: usize) -> Result<&str, Fail> {
    match paths.get(slot) {
        Some(path) => Ok(path.as_str()),
        None => Err(Fail::from("no path")),
    }
}

fn byte_at(bytes: &Bytes, place: usize) -> u8 {
    if place < bytes.0 { bytes.1 } else { bytes.3 }
}

/// Writes a file of these bytes.
fn fill<R: Files + AllocGlobal>(rt: &R, path: &str, bytes: &Bytes) -> Result<bool, Fail> {
    let mut all = Vec::new(rt.alloc());
    for place in 0..bytes.0.saturating_add(bytes.2) {
        all.push(byte_at(bytes, place))?;
    }
    fs::write(rt, path, all.as_slice())?;
    Ok(true)
}

fn fill_all<R: Files + AllocGlobal>(rt: &R, paths: &[String], bytes: &Bytes) -> Result<bool, Fail> {
    for path in paths {
        fill(rt, path.as_str(), bytes)?;
    }
    Ok(true)
}

/// Whether what is found are these bytes.
fn are(found: &[u8], bytes: &Bytes) -> bool {
    for place in 0..found.len() {
        if found[place] != byte_at(bytes, place) {
            return false;
        }
    }
    found.len() == bytes.0.saturating_add(bytes.2)
}

fn has<R: Files + AllocGlobal>(rt: &R, path: &str, bytes: &Bytes) -> bool {
    match fs::read(rt, path) {
        Ok(found) => are(found.as_slice(), bytes),
        Err(_) => false,
    }
}

/// Whether all files but that of this slot have these bytes.
fn others_have<R: Files + AllocGlobal>(
    rt: &R,
    paths: &[String],
    slot: usize,
    bytes: &Bytes,
) -> bool {
    for (other, path) in paths.iter().enumerate() {
        if other != slot && !has(rt, path.as_str(), bytes) {
            return false;
        }
    }
    true
}

fn is_there<R: Files>(rt: &R, paths: &[String], slot: usize) -> bool {
    slot < paths.len() && fs::metadata(rt, paths[slot].as_str()).is_ok()
}

/// Whether what is to be found is.
fn is_found<R: Files + AllocGlobal>(rt: &R, paths: &[String], slot: usize, step: &Step) -> bool {
    match step {
        Step::AllHave(bytes) => others_have(rt, paths, SLOTS, bytes),
        Step::OthersHave(bytes) => others_have(rt, paths, slot, bytes),
        Step::Has(bytes) => slot < paths.len() && has(rt, paths[slot].as_str(), bytes),
        Step::IsMissing => !is_there(rt, paths, slot),
        Step::IsThere(other, is_so) => is_there(rt, paths, *other) == *is_so,
        _ => false,
    }
}

/// Whether files aren't made for this slot's path.
fn is_not_created<R: Files>(rt: &R, geometry: &Geometry, paths: &[String], slot: usize) -> bool {
    let fault = Fault::WriteFault;
    create_files(rt, geometry, paths) == Err(EngineError::Device { slot, fault })
}

fn is_not_created_at<R: Files + AllocGlobal>(
    rt: &R,
    geometry: &Geometry,
    path: &str,
) -> Result<bool, Fail> {
    let path = String::from_str(rt.alloc(), path)?;
    Ok(is_not_created(rt, geometry, &[path], 0))
}

fn is_not_opened_at<R: Files<File = File> + AllocGlobal>(
    rt: &R,
    geometry: &Geometry,
    path: &str,
) -> bool {
    let (slot, fault) = (0, Fault::Gone);
    for access in [Access::Read, Access::ReadWrite] {
        let refused = open_slot(rt, rt.alloc(), geometry, slot, path, access).err();
        if refused != Some(EngineError::Device { slot, fault }) {
            return false;
        }
    }
    true
}

fn opened<R: Files<File = File> + AllocGlobal>(
    rt: &R,
    geometry: &Geometry,
    paths: &[String],
    lost: &[u32],
) -> Result<Vec<Option<FileDevice<File>>>, EngineError>
    ensures { IfOk result (λ parts. length parts.items ≡ geometry.now.shards * geometry.now.slots) }
{
    open_parts(rt, rt.alloc(), geometry, paths, lost, Access::Read)
}

/// Whether the files are refused for this fault of a slot, and not if the slot is lost: its device isn't opened.
fn is_refused<R: Files<File = File> + AllocGlobal>(
    rt: &R,
    geometry: &Geometry,
    paths: &[String],
    slot: usize,
    fault: Fault,
) -> bool {
    let refused = opened(rt, geometry, paths, &[]).err();
    let lost = [(slot & 3) as u32];
    refused == Some(EngineError::Device { slot, fault })
        && opened(rt, geometry, paths, &lost).is_ok()
}

/// The array of these devices with chunks of so many blocks and so many shards.
fn shape(chunk: u64, shards: usize) -> Result<Geometry, GeometryError> {
    Geometry::new(SLOTS, chunk, 16, 4, shards)
}

/// Whether this is found in the files of these paths, one of which gets these bytes once it is open.
fn reports<R: Files<File = File> + AllocGlobal + Threads + Wait + Sync>(
    rt: &R,
    geometry: &Geometry,
    paths: &[String],
    own: &str,
    once: Option<&Bytes>,
    report: &Report,
) -> Result<bool, Fail> {
    let mut parts = opened(rt, geometry, paths, &[])?;
    if let Some(bytes) = once {
        fill(rt, own, bytes)?;
    }
    Ok(check_all(rt, rt.alloc(), geometry, parts.as_mut_slice())? == *report)
}

/// Whether a read of a file that is open for writing alone is answered by a read error.
fn is_unreadable<R: Files<File = File> + AllocGlobal>(rt: &R, path: &str) -> Result<bool, Fail> {
    let mut block = Buffer::new(rt.alloc(), 16)?;
    let size = DeviceSize { rows: 4, block: 16 };
    let mut how = OpenOptions::new();
    how.write(true);
    let file = how.open(rt, path)?;
    Ok(
        match FileDevice::over(rt.alloc(), file, path, Access::ReadWrite, size, 0..4) {
            Ok(mut part) => part.read(1, &mut block) == Err(Fault::ReadFault),
            Err(_) => false,
        },
    )
}

/// Whether a slot is rebuilt from the files of the others onto its own.
fn is_rebuilt<R: Files<File = File> + AllocGlobal>(
    rt: &R,
    geometry: &Geometry,
    paths: &[String],
    path: &str,
) -> Result<bool, Fail> {
    let mut parts = opened(rt, geometry, paths, &[1])?;
    let mut targets = open_slot(rt, rt.alloc(), geometry, 1, path, Access::ReadWrite)?;
    if targets.len() != geometry.shards() || !is_absent(geometry, parts.as_slice(), 1) {
        return Ok(false);
    }
    let (parts, targets) = (parts.as_mut_slice(), targets.as_mut_slice());
    let done = rebuild_all(rt.alloc(), geometry, parts, 1, targets)?;
    Ok(
        done == Rebuilt {
            rows: 4,
            fault: None,
        },
    )
}

/// Whether a part answers so to a write, or, without an answer, reads such a row.
fn does(
    part: &mut FileDevice<File>,
    row: u64,
    block: &mut Buffer,
    byte: u8,
    told: Option<Result<(), Fault>>,
) -> bool {
    match told {
        Some(told) => part.write(row, block) == told,
        None => part.read(row, block) == Ok(()) && are(block.as_slice(), &(16, byte, 0, 0)),
    }
}

/// Whether a part of the second shard does so.
fn second_does<R: Files<File = File> + AllocGlobal>(
    rt: &R,
    geometry: &Geometry,
    path: &str,
    access: Access,
    row: u64,
    byte: u8,
    told: Option<Result<(), Fault>>,
) -> Result<bool, Fail> {
    let mut block = Buffer::new(rt.alloc(), 16)?;
    block.copy_from_slice(&[if told.is_some() { byte } else { 0xee }; 16]);
    let mut parts = open_slot(rt, rt.alloc(), geometry, 0, path, access)?;
    Ok(match parts.get_mut(1) {
        Some(part) => does(part, row, &mut block, byte, told),
        None => false,
    })
}

/// Whether a step is taken so.
fn is_taken<R: Files<File = File> + AllocGlobal + Threads + Wait + Sync>(
    rt: &R,
    paths: &[String],
    slot: usize,
    step: &Step,
) -> Result<bool, Fail> {
    let geometry = shape(1, 2)?;
    let own = path_of(paths, slot)?;
    match step {
        Step::FillAll(bytes) => fill_all(rt, paths, bytes),
        Step::Fill(bytes) => fill(rt, own, bytes),
        Step::Remove => Ok(fs::remove_file(rt, own).is_ok()),
        Step::Create => Ok(create_files(rt, &geometry, paths).is_ok()),
        Step::IsNotCreated => Ok(is_not_created(rt, &geometry, paths, slot)),
        Step::IsNotCreatedAt(path) => is_not_created_at(rt, &geometry, *path),
        Step::IsNotOpenedAt(path) => Ok(is_not_opened_at(rt, &geometry, *path)),
        Step::IsRefused(fault) => Ok(is_refused(rt, &geometry, paths, slot, *fault)),
        Step::Reports(shards, report) => {
            reports(rt, &shape(1, *shards)?, paths, own, None, report)
        }
        Step::ReportsOf(chunk, shards, report) => {
            reports(rt, &shape(*chunk, *shards)?, paths, own, None, report)
        }
        Step::ReportsOnce(chunk, bytes, report) => {
            reports(rt, &shape(*chunk, 2)?, paths, own, Some(bytes), report)
        }
        Step::IsUnreadable => is_unreadable(rt, own),
        Step::IsRebuilt => is_rebuilt(rt, &geometry, paths, own),
        Step::Writes(access, row, byte, told) => {
            second_does(rt, &geometry, own, *access, *row, *byte, Some(*told))
        }
        Step::Reads(row, byte) => {
            second_does(rt, &geometry, own, Access::Read, *row, *byte, None)
        }
        _ => Ok(is_found(rt, paths, slot, step)),
    }
}

/// How many steps of a course are taken so, up to the first that isn't.
fn played<R: Files<File = File> + AllocGlobal + Threads + Wait + Sync>(
    rt: &R,
    paths: &[String],
    slot: usize,
    course: &Course,
) -> Result<usize, Fail> {
    remove(rt, paths);
    for (index, step) in course.steps.iter().enumerate() {
        if !is_taken(rt, paths, slot, step)? {
            return Ok(index);
        }
    }
    remove(rt, paths);
    Ok(course.steps.len())
}

/// A course has to be taken, whichever slot is its own.
fn has_to_go<R: Abort + Files<File = File> + AllocGlobal + Threads + Wait + Sync>(
    rt: &R,
    paths: &[String],
    course: &Course,
) -> Result<(), Fail> {
    for slot in course.slots {
        let steps = played(rt, paths, *slot, course)?;
        must(rt, steps == course.steps.len(), course.name, *slot, steps);
    }
    Ok(())
}

#[test]
fn files_are_made_opened_and_refused(rt: HostRuntime) -> Result<(), Fail> {
    let paths = paths_of(&rt)?;
    for course in COURSES {
        has_to_go(&rt, paths.as_slice(), course)?;
    }
    Ok(())
}
