//! Transcripts of the command `simulate`: events, and what each of them prints.

use crate::runs::{SIMULATE, WELL, must_be_so, push_all};
use crate::{
    simulate_losses as losses, simulate_replacements as replacing, simulate_requests as requests,
    simulate_turns as turns,
};
use std::alloc::Global;
use std::fmt::Write as _;
use std::io::Seek;
use std::os::unix::fs::FileExt;
use std::process::Abort;
use std::rt::Files;
use std::sync::Wait;
use std::thread::Threads;

/// The status that a script ends with; and its lines, each a comment, or an event and what it prints, with an arrow
/// between.
pub(crate) type Transcript<'a> = (u8, &'a str);

/// Each script of these tables has to print what its transcript says.
fn play_all<F: FileExt + Seek + Drop + Send, R: Abort + Wait + Threads + Files<File = F> + Sync>(
    rt: &R,
    alloc: Global,
    tables: &[&[Transcript<'_>]],
) {
    for transcripts in tables {
        for transcript in *transcripts {
            play(rt, alloc, transcript);
        }
    }
}

fn play<F: FileExt + Seek + Drop + Send, R: Abort + Wait + Threads + Files<File = F> + Sync>(
    rt: &R,
    alloc: Global,
    (status, lines): &Transcript<'_>,
) {
    let (script, printed) = columns_of(alloc, lines);
    let wanted = (printed.as_str(), "", *status);
    must_be_so(rt, alloc, &SIMULATE, ("", script), (&WELL, &wanted), lines);
}

/// The events, and what they print. A line of which there is no memory is missing, so that the script isn't played as
/// its transcript says.
fn columns_of(alloc: Global, lines: &str) -> (String, String) {
    let (mut script, mut printed) = (String::new(alloc), String::new(alloc));
    for line in lines.lines() {
        let (event, answer) = line.split_once(" -> ").unwrap_or((line, ""));
        push_line(&mut script, event);
        push_line(&mut printed, answer);
    }
    (script, printed)
}

/// A line at the end of a text; nothing is no line.
fn push_line(text: &mut String, line: &str) {
    if !line.is_empty() {
        push_all(text, &[line, "\n"]);
    }
}

#[test]
fn scripts_print_their_transcripts(rt: HostRuntime) {
    let tables = &[
        requests::requests(),
        requests::completions(),
        losses::survived(),
        losses::fatal(),
        losses::calls(),
        turns::scrubs(),
        turns::rebuilds(),
        replacing::answers(),
        replacing::replacements(),
    ];
    play_all(&rt, rt.alloc(), tables);
}

#[test]
fn a_shard_takes_256_requests_at_a_time(rt: HostRuntime) {
    let mut text = String::new(rt.alloc());
    push_line(&mut text, "array 4 1 16 4 1 -> array");
    push_line(
        &mut text,
        "write 0 5a -> op 0:0 | 0:0 read slot 2 gen 0 row 0",
    );
    for id in 1..256 {
        let _ = writeln!(text, "write 0 5a -> op 0:{id}");
    }
    push_line(&mut text, "read 1 -> refused 4 Busy");
    play(&rt, rt.alloc(), &(0, text.as_str()));
}

#[test]
fn reads_wait_for_the_row_of_a_lost_slot(rt: HostRuntime) {
    let mut text = String::new(rt.alloc());
    push_line(&mut text, losses::late());
    for id in 2..257 {
        let _ = writeln!(text, "read 0 -> op 0:{id}");
    }
    push_line(&mut text, "read 0 -> refused 4 Busy");
    play(&rt, rt.alloc(), &(0, text.as_str()));
}
