//! A script of requests with losses and wrong completions at all moments.

use crate::bench::{Answer, Course, NO_TOKEN, Step};
use crate::trouble::{Failure, Trouble, run_through, run_to_the_last};
use std::alloc::Global;
use std::process::Abort;

/// Two writes, and a read of each.
pub(crate) const SCRIPT: Course<'static> = Course {
    name: "two writes and their reads",
    rows: 4,
    shards: 1,
    window: 1,
    lost: &[],
    steps: &[
        (Step::Write(0, 0x5a), Answer::Done(0, 0x5a)),
        (Step::Write(5, 0xa5), Answer::Done(1, 0xa5)),
        (Step::Read(0), Answer::Data(2, 0x5a)),
        (Step::Read(5), Answer::Data(3, 0xa5)),
    ],
};

/// In what order completions come, and how often.
pub(crate) const WAYS: &[(bool, bool)] = &[
    (false, false),
    (true, false),
    (false, true),
    (true, true),
];

/// How the commands of three tokens fail.
type Failures = [Failure; 3];

const GONE: Failures = [Failure::Gone; 3];

/// What two errors may be of which one is a read error at least.
const PAIRS: &[Failures] = &[
    [Failure::Once, Failure::Once, Failure::Gone],
    [Failure::Once, Failure::Lasting, Failure::Gone],
    [Failure::Once, Failure::Gone, Failure::Gone],
    [Failure::Lasting, Failure::Once, Failure::Gone],
    [Failure::Lasting, Failure::Lasting, Failure::Gone],
    [Failure::Lasting, Failure::Gone, Failure::Gone],
    [Failure::Gone, Failure::Once, Failure::Gone],
    [Failure::Gone, Failure::Lasting, Failure::Gone],
];

/// What three errors are, one row for each of the ways.
const TRIPLES: &[Failures] = &[
    [Failure::Once, Failure::Once, Failure::Once],
    [Failure::Gone, Failure::Lasting, Failure::Once],
    [Failure::Lasting, Failure::Once, Failure::Gone],
    [Failure::Lasting, Failure::Lasting, Failure::Lasting],
];

/// The commands with one read error that comes once, at each token. Tokens 0, 4, 8 and 9 are reads. A write that can't
/// read its one block reads two others, writes it, and reads it again; a direct read is made once more. By one at a write
/// the slot is lost: later commands to it fall away, and its blocks are read from two others.
const ONE_ONCE: &[u64] = &[14, 10, 11, 10, 14, 11, 11, 10, 11, 11];

/// Likewise, with one that lasts: the hold of a read can't read its block either, and does as the write does.
const ONE_LASTING: &[u64] = &[14, 10, 11, 10, 14, 11, 11, 10, 15, 15];

/// Completions come in one of the ways, with errors at these tokens.
fn trouble_of(way: &(bool, bool), failures: Failures, errors: [u64; 3]) -> Trouble {
    let (is_reversed, is_doubled) = *way;
    Trouble {
        errors,
        failures,
        is_reversed,
        is_doubled,
        ..Trouble::NONE
    }
}

/// The number of the commands of the two writes and their reads, with errors at these tokens.
fn failing<R: Abort>(
    rt: &R,
    alloc: Global,
    way: &(bool, bool),
    failures: Failures,
    errors: [u64; 3],
) -> u64 {
    match run_through(alloc, &SCRIPT, &trouble_of(way, failures, errors)) {
        Ok(commands) => commands,
        Err(request) => {
            let ([first, second, third], (is_reversed, is_doubled)) = (errors, *way);
            let [a, b, c] = failures;
            panic!(rt;
                "request {request} with errors at {first}, {second} and {third}, reversed: {is_reversed}, doubled: {is_doubled}, of the kinds {a:?}, {b:?} and {c:?}"
            )
        }
    }
}

fn fail_at_all<R: Abort>(rt: &R, alloc: Global, way: &(bool, bool), failures: Failures) {
    assert!(rt; failing(rt, alloc, way, failures, [NO_TOKEN; 3]) == 10);
    for first in 0..10u64 {
        for second in first + 1..failing(rt, alloc, way, failures, [first, NO_TOKEN, NO_TOKEN]) {
            for third in second + 1..failing(rt, alloc, way, failures, [first, second, NO_TOKEN]) {
                failing(rt, alloc, way, failures, [first, second, third]);
            }
        }
    }
}

// One or two errors at any tokens change no answer; with three each is right or failed. It is the same where the last
// command that is out is answered first, and where each completion comes twice.
#[test]
fn errors_at_any_tokens_are_survived_or_fail(rt: HostRuntime) {
    for way in WAYS {
        fail_at_all(&rt, rt.alloc(), way, GONE);
    }
}

/// One error at each token, each with as many commands.
fn fail_at_each<R: Abort>(
    rt: &R,
    alloc: Global,
    way: &(bool, bool),
    failure: Failure,
    wanted: &[u64],
) {
    for (token, commands) in wanted.iter().enumerate() {
        let errors = [token as u64, NO_TOKEN, NO_TOKEN];
        let found = failing(rt, alloc, way, [failure; 3], errors);
        assert!(rt;
            found == *commands,
            "{found} commands with a read error at {token}, {failure:?}"
        );
    }
}

// Of a read alone it loses no slot, and changes no answer.
#[test]
fn one_read_error_at_any_token_has_its_commands(rt: HostRuntime) {
    for way in WAYS {
        fail_at_each(&rt, rt.alloc(), way, Failure::Once, ONE_ONCE);
        fail_at_each(&rt, rt.alloc(), way, Failure::Lasting, ONE_LASTING);
    }
}

fn fail_at_two<R: Abort>(rt: &R, alloc: Global, way: &(bool, bool), failures: Failures) {
    for first in 0..10u64 {
        for second in first + 1..failing(rt, alloc, way, failures, [first, NO_TOKEN, NO_TOKEN]) {
            failing(rt, alloc, way, failures, [first, second, NO_TOKEN]);
        }
    }
}

// A slot is lost by a second read, by a write, and by a device that is gone, and no other is.
#[test]
fn two_read_errors_at_any_tokens_change_no_answer(rt: HostRuntime) {
    for failures in PAIRS {
        fail_at_two(&rt, rt.alloc(), &(false, false), *failures);
        fail_at_two(&rt, rt.alloc(), &(true, true), *failures);
    }
}

#[test]
fn three_read_errors_at_any_tokens_are_survived_or_fail(rt: HostRuntime) {
    for (way, failures) in WAYS.iter().zip(TRIPLES) {
        fail_at_all(&rt, rt.alloc(), way, *failures);
    }
}

/// The number of the commands where one completion comes last, with errors at two tokens.
fn coming_last<R: Abort>(
    rt: &R,
    alloc: Global,
    way: &(bool, bool),
    failures: Failures,
    last: u64,
    errors: [u64; 2],
) -> u64 {
    let [first, second] = errors;
    let trouble = Trouble {
        last,
        ..trouble_of(way, failures, [first, second, NO_TOKEN])
    };
    match run_to_the_last(alloc, &SCRIPT, &trouble) {
        Ok(commands) => commands,
        Err(request) => {
            let (is_reversed, is_doubled) = *way;
            panic!(rt;
                "request {request} where {last} comes last, with errors at {first} and {second}, reversed: {is_reversed}, doubled: {is_doubled}"
            )
        }
    }
}

fn each_comes_last<R: Abort>(rt: &R, alloc: Global, way: &(bool, bool), failures: Failures) {
    for last in 0..10u64 {
        let commands = coming_last(rt, alloc, way, failures, last, [NO_TOKEN; 2]);
        assert!(rt; commands == 10);
        for first in 0..commands {
            for second in first + 1..coming_last(
                rt,
                alloc,
                way,
                failures,
                last,
                [first, NO_TOKEN],
            ) {
                coming_last(rt, alloc, way, failures, last, [first, second]);
            }
        }
    }
}

// While a completion is out the requests for the other block are answered, and once it has come those for its own.
#[test]
fn a_completion_that_comes_last_keeps_up_its_own_row_alone(rt: HostRuntime) {
    for way in WAYS {
        each_comes_last(&rt, rt.alloc(), way, GONE);
    }
}

// It is the same where the other errors are read errors.
#[test]
fn a_completion_comes_last_beside_read_errors(rt: HostRuntime) {
    each_comes_last(&rt, rt.alloc(), &(true, false), [Failure::Once; 3]);
}
