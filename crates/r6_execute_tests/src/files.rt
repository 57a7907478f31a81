//! Courses of commands over the files of an array of four slots.

use crate::runs::{CREATE, Ended, How, RUN, VERIFY, WELL, is_so, push_all};
use r6_command::Invocation;
use std::alloc::{Alloc, Global};
use std::fmt::Write;
use std::io::Seek;
use std::os::unix::fs::FileExt;
use std::process::Abort;
use std::rt::Files;
use std::sync::Wait;
use std::thread::Threads;
use std::{env, fs, process};

pub(crate) const CREATED: Ended<'static> = ("created 4\n", "", 0);

pub(crate) const FOUR_ROWS: &str = "slots = 4\nchunk = 1\nblock = 16\nrows = 4\nshards = 1\n";

/// A file that is none of the array's slots, which have the numbers below 4.
pub(crate) const SPARE: usize = 9;

/// Bytes by runs: a byte, and how often it comes.
type Runs<'a> = &'a [(u8, usize)];

/// What happens next.
pub(crate) enum Step<'a> {
    /// A command has to end so.
    Create(Ended<'a>),
    Verify(Ended<'a>),
    /// Likewise `verify`, whose outputs serve so.
    VerifyOn(How, Ended<'a>),
    /// Likewise `run` with a script, in which `@` stands for the path of the spare file.
    Run(&'a str, Ended<'a>),
    /// A file gets these bytes and no others.
    Fill(usize, Runs<'a>),
    /// A file has to have these bytes and no others.
    Holds(usize, Runs<'a>),
    /// A file that has to be there is removed.
    Remove(usize),
    /// Likewise those of all slots.
    RemoveAll,
}

/// The steps that the commands take over files of their own, with these settings, in which the paths of the devices are
/// wanting.
pub(crate) struct Course<'a> {
    pub(crate) name: &'a str,
    pub(crate) settings: &'a str,
    pub(crate) steps: &'a [Step<'a>],
}

/// What the paths of a test's files begin with. A folder that can't be had is missing: no file is there.
pub(crate) fn folder_of(rt: &HostRuntime) -> String {
    let mut path = String::new(rt.alloc());
    if let Ok(folder) = env::temp_dir(rt) {
        let (folder, id) = (folder.as_str(), process::id(rt.process()));
        let _ = write!(path, "{folder}/raid6-{id}-");
    }
    path
}

fn path_of(alloc: Global, folder: &str, file: usize) -> String {
    let mut path = String::new(alloc);
    let _ = write!(path, "{folder}{file}");
    path
}

/// These settings with the paths of the files, at which there is nothing.
fn settings_of<R: Files>(rt: &R, alloc: Global, folder: &str, settings: &str) -> String {
    let mut text = String::new(alloc);
    push_all(&mut text, &[settings, "devices = ["]);
    for slot in 0..4usize {
        let path = path_of(alloc, folder, slot);
        let _ = fs::remove_file(rt, path.as_str());
        push_all(&mut text, &["\"", path.as_str(), "\", "]);
    }
    push_all(&mut text, &["]\n"]);
    text
}

/// Each course of these tables has to go as its steps say.
pub(crate) fn play_all<
    F: FileExt + Seek + Drop + Send,
    R: Abort + Alloc + Wait + Threads + Files<File = F> + Sync,
>(rt: &R, alloc: Global, folder: &str, tables: &[&[Course<'_>]]) {
    for courses in tables {
        for course in *courses {
            let settings = settings_of(rt, alloc, folder, course.settings);
            play(rt, alloc, folder, course, settings.as_str());
        }
    }
}

fn play<
    F: FileExt + Seek + Drop + Send,
    R: Abort + Alloc + Wait + Threads + Files<File = F> + Sync,
>(rt: &R, alloc: Global, folder: &str, course: &Course<'_>, settings: &str) {
    for (index, step) in course.steps.iter().enumerate() {
        assert!(rt;
            is_done(rt, alloc, folder, settings, step),
            "step {index} of {}",
            course.name
        );
    }
}

fn is_done<F: FileExt + Seek + Drop + Send, R: Alloc + Wait + Threads + Files<File = F> + Sync>(
    rt: &R,
    alloc: Global,
    folder: &str,
    settings: &str,
    step: &Step<'_>,
) -> bool {
    let Some((invocation, script, how, wanted)) = command_of(step) else {
        return is_filed(rt, alloc, folder, step);
    };
    let files = (settings, script_of(alloc, folder, script));
    is_so(rt, alloc, invocation, files, how, wanted)
}

/// A command with its script, how its outputs serve, and how it has to end.
type Command<'a> = (&'a Invocation<'static>, &'a str, &'a How, &'a Ended<'a>);

/// The command of a step, if it has one.
fn command_of<'a>(step: &'a Step<'a>) -> Option<Command<'a>> {
    match step {
        Step::Create(wanted) => Some((&CREATE, "", &WELL, wanted)),
        Step::Verify(wanted) => Some((&VERIFY, "", &WELL, wanted)),
        Step::VerifyOn(how, wanted) => Some((&VERIFY, "", how, wanted)),
        Step::Run(script, wanted) => Some((&RUN, *script, &WELL, wanted)),
        _ => None,
    }
}

/// A script in which the path of the spare file stands for each `@`.
fn script_of(alloc: Global, folder: &str, script: &str) -> String {
    let (mut text, path) = (String::new(alloc), path_of(alloc, folder, SPARE));
    for (index, part) in script.split('@').enumerate() {
        let before = if index > 0 { path.as_str() } else { "" };
        push_all(&mut text, &[before, part]);
    }
    text
}

fn is_filed<R: Files + Alloc>(rt: &R, alloc: Global, folder: &str, step: &Step<'_>) -> bool {
    match step {
        Step::Fill(file, runs) => fill(rt, alloc, path_of(alloc, folder, *file), runs),
        Step::Holds(file, runs) => holds(rt, alloc, path_of(alloc, folder, *file), runs),
        Step::Remove(file) => remove(rt, path_of(alloc, folder, *file)),
        Step::RemoveAll => remove_all(rt, alloc, folder),
        _ => false,
    }
}

fn bytes_of(alloc: Global, runs: Runs<'_>) -> Vec<u8> {
    let mut bytes = Vec::new(alloc);
    for (byte, count) in runs {
        for _ in 0..*count {
            let _ = bytes.push(*byte);
        }
    }
    bytes
}

fn fill<R: Files>(rt: &R, alloc: Global, path: String, runs: Runs<'_>) -> bool {
    let bytes = bytes_of(alloc, runs);
    fs::write(rt, path.as_str(), bytes.as_slice()).is_ok()
}

fn holds<R: Files + Alloc>(rt: &R, alloc: Global, path: String, runs: Runs<'_>) -> bool {
    let bytes = bytes_of(alloc, runs);
    match fs::read(rt, path.as_str()) {
        Ok(held) => held.as_slice() == bytes.as_slice(),
        Err(_) => false,
    }
}

fn remove<R: Files>(rt: &R, path: String) -> bool {
    fs::remove_file(rt, path.as_str()).is_ok()
}

fn remove_all<R: Files>(rt: &R, alloc: Global, folder: &str) -> bool {
    for slot in 0..4usize {
        if !remove(rt, path_of(alloc, folder, slot)) {
            return false;
        }
    }
    true
}
