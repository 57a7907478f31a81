//! Command lines.

use crate::must::must;
use r6_command::{CommandFault, command};
use std::alloc::Global;
use std::test::Fail;

fn words(alloc: Global, line: &str) -> Result<Vec<String>, Fail> {
    let mut words = Vec::new(alloc);
    for word in line.split(' ') {
        words.push(String::from_str(alloc, word)?)?;
    }
    Ok(words)
}

/// Lines with what they are read as; or, where they are refused, with the exit status and a word of what is printed.
const LINES: &[(&str, Option<i32>, &str)] = &[
    (
        "raid6 geometry a.toml",
        None,
        "Geometry { config: \"a.toml\" }",
    ),
    ("raid6 geometry -- -a", None, "Geometry { config: \"-a\" }"),
    ("raid6 geometry a --", None, "Geometry { config: \"a\" }"),
    ("raid6 geometry -", None, "Geometry { config: \"-\" }"),
    ("raid6 create a", None, "Create { config: \"a\" }"),
    ("raid6 verify a", None, "Verify { config: \"a\" }"),
    ("raid6 simulate a", None, "Simulate { script: \"a\" }"),
    (
        "raid6 run a b",
        None,
        "Run { config: \"a\", script: \"b\" }",
    ),
    (
        "raid6 run a -- --",
        None,
        "Run { config: \"a\", script: \"--\" }",
    ),
    // what clap refuses ends with 2, and a call for help or the version with 0
    ("raid6", Some(2), ""),
    ("raid6 layout a", Some(2), ""),
    ("raid6 geometry", Some(2), ""),
    ("raid6 geometry a b", Some(2), ""),
    ("raid6 geometry -x a", Some(2), ""),
    ("raid6 run a", Some(2), ""),
    ("raid6 -- geometry a", Some(2), ""),
    ("raid6 --help", Some(0), ""),
    ("raid6 geometry --help", Some(0), ""),
    ("raid6 --help", Some(0), "geometry"),
    ("raid6 --help", Some(0), "create"),
    ("raid6 --help", Some(0), "verify"),
    ("raid6 --help", Some(0), "simulate"),
    ("raid6 --help", Some(0), "  run "),
    ("raid6 --version", Some(0), "raid6 0.1.0\n"),
    ("raid6 -V", Some(0), "raid6 0.1.0\n"),
    ("raid6 geometry --version", Some(2), ""),
    // whatever the program's file is called
    ("out/r6_tool geometry", Some(2), "Usage: raid6 geometry"),
    ("out/r6_tool --help", Some(0), "Usage: raid6 <COMMAND>"),
];

/// Whether words are read so, or refused with this status.
fn are_said(
    alloc: Global,
    words: &[String],
    status: &Option<i32>,
    text: &str,
) -> Result<bool, Fail> {
    match command(alloc, words) {
        Ok(invocation) => {
            Ok(status.is_none() && format!(in alloc; "{invocation:?}")?.as_str() == text)
        }
        Err(CommandFault::Refused(error)) => Ok(
            Some(error.exit_code()) == *status
                && format!(in alloc; "{error}")?.as_str().contains(text),
        ),
        Err(CommandFault::Memory) => Err(Fail::from("memory")),
    }
}

fn is_said(alloc: Global, line: &str, status: &Option<i32>, text: &str) -> Result<bool, Fail> {
    let words = words(alloc, line)?;
    are_said(alloc, words.as_slice(), status, text)
}

#[test]
fn reads_or_refuses_words(rt: HostRuntime) -> Result<(), Fail> {
    for (line, status, text) in LINES {
        let is_so = is_said(rt.alloc(), *line, status, *text)?;
        must(&rt, is_so, *line, 0, 0);
    }
    Ok(())
}
