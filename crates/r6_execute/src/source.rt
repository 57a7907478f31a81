//! A file that a command reads.

ghost use Rattle.std.specs.Prelude.{◌≡◌, None};
ghost use Rattle.std.specs.Io.{ReadsAtMost};
ghost use Rattle.r6_execute.specs.Source.{Opens, Reads};

use std::fs::{self, File};
use std::io::{self, ErrorKind, Read};
use std::os::unix::fs::FileTypeExt;

/// A file that a command reads. It is opened where it is first read. One that can't be opened fails at every read, and
/// so does one that the command does not name.
#[derive(Drop)]
pub(crate) enum Source<'a> {
    Closed(&'a HostRuntime, &'a str),
    Open(File),
    Refused(ErrorKind),
}

// A file; but a FIFO, which nobody may ever write to, is refused by its own name.
fn opened(rt: &HostRuntime, path: &str) -> io::Result<File> {
    let kind = fs::symlink_metadata(rt, path)?.file_type();
    if kind.is_fifo() {
        return Err(io::Error::from(ErrorKind::InvalidInput));
    }
    fs::open(rt, path)
}

impl<'a> Source<'a> {
    /// The file at this path, which isn't opened yet.
    pub(crate) fn of(rt: &'a HostRuntime, path: Option<&'a str>) -> Source<'a>
        ensures { path.entry ≡ None → result ≡ Source.Refused ErrorKind.NotFound }
    {
        match path {
            Some(path) => Source::Closed(rt, path),
            None => Source::Refused(ErrorKind::NotFound),
        }
    }

    // Opens it, if it isn't open yet.
    fn open(&mut self)
        ensures { Opens self.old self.new }
    {
        if let Source::Closed(rt, path) = *self {
            *self = match opened(rt, path) {
                Ok(file) => Source::Open(file),
                Err(error) => Source::Refused(error.kind()),
            };
        }
    }

    // Reads of the file, which is opened first if it isn't open yet.
    fn take(&mut self, buf: &mut [u8]) -> io::Result<usize>
        ensures bound { ReadsAtMost result buf.new }
        ensures refused { Reads self.old self.new result }
    {
        self.open();
        match self {
            Source::Closed(..) => unreachable!(),
            Source::Open(file) => file.read(buf),
            Source::Refused(kind) => Err(io::Error::from(*kind)),
        }
    }
}

impl Read for Source<'_> {
    fn read(&mut self, buf: &mut [u8]) -> io::Result<usize> {
        self.take(buf)
    }
}
