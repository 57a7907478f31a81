//! Commands carried out over texts, and over files and outputs that fail.

use r6_command::Invocation;
use r6_execute::{ErrorOutput, execute};
use std::alloc::Global;
use std::io::{self, ErrorKind, Read, Seek, Write};
use std::os::unix::fs::FileExt;
use std::process::Abort;
use std::rt::Files;
use std::sync::Wait;
use std::thread::Threads;

pub(crate) const GEOMETRY: Invocation<'static> = Invocation::Geometry {
    config: "array.toml",
};

pub(crate) const CREATE: Invocation<'static> = Invocation::Create {
    config: "array.toml",
};

pub(crate) const VERIFY: Invocation<'static> = Invocation::Verify {
    config: "array.toml",
};

pub(crate) const RUN: Invocation<'static> = Invocation::Run {
    config: "array.toml",
    script: "requests.script",
};

pub(crate) const SIMULATE: Invocation<'static> = Invocation::Simulate { script: "script" };

/// What a command prints, what it says of a fault, and its status.
pub(crate) type Ended<'a> = (&'a str, &'a str, u8);

/// How a command's files and outputs serve.
#[derive(Clone, Copy)]
pub(crate) struct How {
    /// The files end with these bytes behind their texts.
    pub(crate) end: &'static [u8],
    /// Then they fail so.
    pub(crate) fails: Option<ErrorKind>,
    /// So many bytes the output takes before it refuses, and so many standard error.
    pub(crate) rooms: (usize, usize),
    pub(crate) is_terminal: bool,
}

pub(crate) const WELL: How = How {
    end: b"",
    fails: None,
    rooms: (usize::MAX, usize::MAX),
    is_terminal: false,
};

/// A reader of a text, which ends as its file does, and then may fail.
#[derive(Drop)]
struct Text<'a> {
    left: &'a [u8],
    end: &'static [u8],
    fails: Option<ErrorKind>,
}

impl Read for Text<'_> {
    fn read(&mut self, buf: &mut [u8]) -> io::Result<usize> {
        if !self.left.is_empty() {
            return self.left.read(buf);
        }
        match self.fails {
            Some(kind) if self.end.is_empty() => Err(io::Error::from(kind)),
            _ => self.end.read(buf),
        }
    }
}

/// A writer that takes so many bytes and then refuses, a flush too.
#[derive(Drop)]
struct Room {
    left: usize,
    taken: Vec<u8>,
}

impl Write for Room {
    fn write(&mut self, buf: &[u8]) -> io::Result<usize> {
        self.flush()?;
        let count = buf.len().min(self.left);
        match self.taken.extend_from_slice(&buf[..count]) {
            Ok(()) => {
                self.left -= count;
                Ok(count)
            }
            Err(_) => Err(io::Error::from(ErrorKind::OutOfMemory)),
        }
    }

    fn flush(&mut self) -> io::Result<()> {
        if self.left == 0 {
            return Err(io::Error::from(ErrorKind::StorageFull));
        }
        Ok(())
    }
}

/// The status of a command whose settings and script these are. No more is known of it here, so that what calls this
/// has nothing of what `execute` promises to look through.
fn status_of<F, R>(
    rt: &R,
    alloc: Global,
    invocation: &Invocation<'_>,
    (settings, script): (&mut Text<'_>, &mut Text<'_>),
    out: &mut Room,
    err: &mut ErrorOutput<Room>,
) -> u8
where
    F: FileExt + Seek + Drop + Send,
    R: Wait + Threads + Files<File = F> + Sync,
{
    execute(rt, alloc, invocation, settings, script, out, err)
}

fn room_of(alloc: Global, left: usize) -> Room {
    Room {
        left,
        taken: Vec::new(alloc),
    }
}

fn is_taken(room: &Room, wanted: &str) -> bool {
    room.taken.as_slice() == wanted.as_bytes()
}

fn text_of<'a>(text: &'a str, how: &How) -> Text<'a> {
    Text {
        left: text.as_bytes(),
        end: how.end,
        fails: how.fails,
    }
}

/// What there is no memory for is missing, so that nothing ends as wanted.
pub(crate) fn push_all(text: &mut String, parts: &[&str]) {
    for part in parts {
        let _ = text.push_str(part);
    }
}

fn joined(alloc: Global, parts: &[&str]) -> String {
    let mut text = String::new(alloc);
    push_all(&mut text, parts);
    text
}

/// Whether a command whose settings and script these are ends so, if they and the outputs serve so.
pub(crate) fn is_so<F: FileExt + Seek + Drop + Send, R: Wait + Threads + Files<File = F> + Sync>(
    rt: &R,
    alloc: Global,
    invocation: &Invocation<'_>,
    (settings, script): (&str, String),
    how: &How,
    wanted: &Ended<'_>,
) -> bool {
    let mut out = room_of(alloc, how.rooms.0);
    let mut err = ErrorOutput::new(room_of(alloc, how.rooms.1), how.is_terminal);
    let (mut settings, mut script) = (text_of(settings, how), text_of(script.as_str(), how));
    let texts = (&mut settings, &mut script);
    let status = status_of(rt, alloc, invocation, texts, &mut out, &mut err);
    is_taken(&out, wanted.0) && is_taken(&err.writer, wanted.1) && status == wanted.2
}

/// Whether a run whose settings are these leaves its script unread.
fn leaves_script<F: FileExt + Seek + Drop + Send, R: Wait + Threads + Files<File = F> + Sync>(
    rt: &R,
    alloc: Global,
    settings: &str,
) -> bool {
    let mut out = room_of(alloc, usize::MAX);
    let mut err = ErrorOutput::new(room_of(alloc, usize::MAX), false);
    let (mut settings, mut script) = (text_of(settings, &WELL), text_of("wait\n", &WELL));
    let texts = (&mut settings, &mut script);
    status_of(rt, alloc, &RUN, texts, &mut out, &mut err) == 3 && script.left.len() == 5
}

/// Each run whose settings are one of these has to leave its script unread.
pub(crate) fn leave_script<
    F: FileExt + Seek + Drop + Send,
    R: Abort + Wait + Threads + Files<File = F> + Sync,
>(rt: &R, alloc: Global, settings: &[&str]) {
    for text in settings {
        assert!(rt; leaves_script(rt, alloc, text), "{text}");
    }
}

/// It has to end so; a failing test tells which it is, by this text.
pub(crate) fn must_be_so<
    F: FileExt + Seek + Drop + Send,
    R: Abort + Wait + Threads + Files<File = F> + Sync,
>(
    rt: &R,
    alloc: Global,
    invocation: &Invocation<'_>,
    files: (&str, String),
    (how, wanted): (&How, &Ended<'_>),
    text: &str,
) {
    assert!(rt; is_so(rt, alloc, invocation, files, how, wanted), "{text}");
}

/// A command whose one file has this text is to end so, if the file and the outputs serve so.
pub(crate) type Case<'a> = (How, &'a str, Ended<'a>);

/// Each case of a command has to end as it says.
pub(crate) fn end_so<
    F: FileExt + Seek + Drop + Send,
    R: Abort + Wait + Threads + Files<File = F> + Sync,
>(rt: &R, alloc: Global, tables: &[(Invocation<'_>, &[Case<'_>])]) {
    for (invocation, cases) in tables {
        for (how, text, wanted) in *cases {
            let files = (*text, joined(alloc, &[*text]));
            must_be_so(rt, alloc, invocation, files, (how, wanted), text);
        }
    }
}

/// A command whose script has one of these lines, between two other texts, has to end so, whichever it is.
pub(crate) struct Lines<'a> {
    pub(crate) settings: &'a str,
    pub(crate) before: &'a str,
    pub(crate) lines: &'a [&'a str],
    pub(crate) behind: &'a str,
    pub(crate) wanted: Ended<'a>,
}

pub(crate) fn lines_end_so<
    F: FileExt + Seek + Drop + Send,
    R: Abort + Wait + Threads + Files<File = F> + Sync,
>(rt: &R, alloc: Global, invocation: &Invocation<'_>, lines: &Lines<'_>) {
    for line in lines.lines {
        let script = joined(alloc, &[lines.before, line, lines.behind]);
        let files = (lines.settings, script);
        must_be_so(rt, alloc, invocation, files, (&WELL, &lines.wanted), line);
    }
}

/// A command whose settings have one of these values, between two other texts, has to end so, whichever it is.
pub(crate) type Values<'a> = (&'a str, &'a [&'a str], &'a str, Ended<'a>);

/// Each value of these tables has to end the command as it says.
pub(crate) fn values_end_so<
    F: FileExt + Seek + Drop + Send,
    R: Abort + Wait + Threads + Files<File = F> + Sync,
>(rt: &R, alloc: Global, invocation: &Invocation<'_>, tables: &[&[Values<'_>]]) {
    for table in tables {
        for (before, values, behind, wanted) in *table {
            for value in *values {
                let text = joined(alloc, &[before, value, behind]);
                value_ends_so(rt, alloc, invocation, text.as_str(), wanted);
            }
        }
    }
}

// A command whose settings are this text has to end so.
fn value_ends_so<
    F: FileExt + Seek + Drop + Send,
    R: Abort + Wait + Threads + Files<File = F> + Sync,
>(rt: &R, alloc: Global, invocation: &Invocation<'_>, text: &str, wanted: &Ended<'_>) {
    let files = (text, String::new(alloc));
    must_be_so(rt, alloc, invocation, files, (&WELL, wanted), text);
}
