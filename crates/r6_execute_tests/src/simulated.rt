//! The command `simulate`.

use crate::runs::{Case, How, Lines, WELL};
use std::io::ErrorKind;

const SCRIPTS: &[Case<'static>] = &[
    // no event
    (WELL, "", ("", "", 0)),
    (WELL, "\n", ("", "", 0)),
    (WELL, "#\n", ("", "", 0)),
    (WELL, "# array 4 1 16 4 1", ("", "", 0)),
    (WELL, "\n\n# nothing\n", ("", "", 0)),
    // comments and empty lines are passed over
    (
        WELL,
        "# a\n\n#array\narray 4 1 16 4 1\n\n# b\nlook 0",
        ("array\nlooked\n", "", 0),
    ),
    (WELL, "array 4 1 16 4 1", ("array\n", "", 0)),
    (
        WELL,
        "# a\n\narray 4 1 16 4 1\n\n# b\nlook\n",
        ("", "script: line 6\n", 3),
    ),
    // a script begins with its array
    (WELL, "read 0\n", ("", "script: line 1\n", 3)),
    (WELL, "array\n", ("", "script: line 1\n", 3)),
    (WELL, "array \n", ("", "script: line 1\n", 3)),
    (WELL, "array 4 1 16 4\n", ("", "script: line 1\n", 3)),
    (WELL, "array 4 1 16 4 \n", ("", "script: line 1\n", 3)),
    (WELL, "array 4 1 16 4 1 \n", ("", "script: line 1\n", 3)),
    (WELL, "array 4 1 16 4 1 1\n", ("", "script: line 1\n", 3)),
    (WELL, "array  4 1 16 4 1\n", ("", "script: line 1\n", 3)),
    (WELL, " array 4 1 16 4 1\n", ("", "script: line 1\n", 3)),
    (WELL, "array 04 1 16 4 1\n", ("", "script: line 1\n", 3)),
    (WELL, "array +4 1 16 4 1\n", ("", "script: line 1\n", 3)),
    (WELL, "array 4 1 16 4 x\n", ("", "script: line 1\n", 3)),
    (
        WELL,
        "array 18446744073709551620 1 16 4 1\n",
        ("", "script: line 1\n", 3),
    ),
    (WELL, "array 4 01 16 4 1\n", ("", "script: line 1\n", 3)),
    (WELL, "array 4 1 016 4 1\n", ("", "script: line 1\n", 3)),
    (WELL, "array 4 1 16 04 1\n", ("", "script: line 1\n", 3)),
    (WELL, "array 4 1 16 4 01\n", ("", "script: line 1\n", 3)),
    (
        WELL,
        "array 4 18446744073709551617 16 4 1\n",
        ("", "script: line 1\n", 3),
    ),
    (
        WELL,
        "array 4 1 18446744073709551632 4 1\n",
        ("", "script: line 1\n", 3),
    ),
    (
        WELL,
        "array 4 1 16 18446744073709551620 1\n",
        ("", "script: line 1\n", 3),
    ),
    (
        WELL,
        "array 4 1 16 4 18446744073709551617\n",
        ("", "script: line 1\n", 3),
    ),
    // each integer out of its limits
    (WELL, "array 3 1 16 4 1\n", ("", "script: line 1\n", 3)),
    (WELL, "array 4 0 16 4 1\n", ("", "script: line 1\n", 3)),
    (WELL, "array 4 1 24 4 1\n", ("", "script: line 1\n", 3)),
    (WELL, "array 4 2 16 5 1\n", ("", "script: line 1\n", 3)),
    (WELL, "array 4 1 16 4 5\n", ("", "script: line 1\n", 3)),
    (WELL, "array 4 1 16 4 0\n", ("", "script: line 1\n", 3)),
    (WELL, " \n", ("", "script: line 1\n", 3)),
    (WELL, " # comment\n", ("", "script: line 1\n", 3)),
];

pub(crate) fn scripts() -> &'static [Case<'static>] {
    SCRIPTS
}

const LINES: &[&str] = &[
    "array 4 1 16 4 1",
    "read",
    "read ",
    "read 0 0",
    "read 00",
    "read 01",
    "read +1",
    "read -1",
    "read 0x0",
    "read 18446744073709551616",
    "read 99999999999999999999999",
    "read  0",
    " read 0",
    "read 0 ",
    "read\t0",
    "read 0\r",
    "Read 0",
    "readx 0",
    "write 0",
    "write 0 ",
    "write 0 5",
    "write 0 5A",
    "write 0 5g",
    "write 0 5a0",
    "write 0 5a ",
    "write 0  5a",
    "write 00 5a",
    "write 5a",
    "write",
    "write 0 5a 0",
    "write 18446744073709551616 5a",
    "perform 0",
    "perform 0:",
    "perform :0",
    "perform 0:0:0",
    "perform 0: 0",
    "perform 0 0",
    "perform 00:0",
    "perform 0:00",
    "perform 0:0 ok",
    "perform",
    "perform 18446744073709551616:0",
    "perform 0:18446744073709551616",
    "answer 0:0",
    "answer 0:0 ",
    "answer 0:0 OK",
    "answer 0:0 okay",
    "answer 0:0  ok",
    "answer 0:0 ok ",
    "answer 0 ok",
    "answer 0:01 ok",
    "answer",
    "answer 0:0 ok 0",
    "answer 00:0 ok",
    "answer 18446744073709551616:0 ok",
    "answer 0:18446744073709551616 ok",
    "answer 0:0 error 0",
    "do 0",
    "do 0:0 ok",
    "do",
    "do 00:0",
    "do 0:00",
    "do 18446744073709551616:0",
    "do 0:18446744073709551616",
    "look",
    "look 0:0",
    "look 0 0",
    "look 00",
    "look 18446744073709551616",
    "tell",
    "tell 0:0",
    "tell 00",
    "tell 0 0",
    "tell 18446744073709551616",
    "fail",
    "fail 1 1",
    "fail 01",
    "fail 18446744073709551616",
    "attach",
    "attach 1 new.img",
    "attach x",
    "attach 01",
    "attach 18446744073709551616",
    "replace",
    "replace 1 new.img",
    "replace x",
    "replace 01",
    "replace 18446744073709551616",
    "answer 0:0 error ",
    "answer 0:0 errors",
    "answer 0:0 gone ",
    "answer 0:0 gone 0",
    "answer 0:0 gon",
    "answer 0:0 Gone",
    "answer 0 gone",
    "turn 0 rebuilds",
    "reads 0",
    "0",
    "; comment",
    "turn 0",
    "turn 0 check 1",
    "turn check",
    "turn 00 check",
    "turn",
    "turn 0 rebuild 0",
    "turn 0 repair 0",
    "turn 18446744073709551616 check",
    "turn 0 Check",
    "turn 0 check ",
    "turn 0:0 check",
];

const NO_EVENTS: &Lines<'static> = &Lines {
    settings: "",
    before: "array 4 1 16 4 1\n",
    lines: LINES,
    behind: "\nlook 0\n",
    wanted: ("", "script: line 2\n", 3),
};

pub(crate) fn no_events() -> &'static Lines<'static> {
    NO_EVENTS
}

const LOOKS: &str = "array 4 1 16 4 1\nlook 0\nlook 0\n";

// A file that fails or is no text, and an output that refuses, where standard error may refuse too.
const FAILURES: &[Case<'static>] = &[
    (
        How {
            fails: Some(ErrorKind::PermissionDenied),
            ..WELL
        },
        "array 4 1 16 4 1\n",
        ("", "script: unreadable\n", 3),
    ),
    (
        How {
            fails: Some(ErrorKind::OutOfMemory),
            ..WELL
        },
        "array 4 1 16 4 1\n",
        ("", "memory\n", 5),
    ),
    (
        How {
            end: b"\xff\n",
            ..WELL
        },
        "# ",
        ("", "script: unreadable\n", 3),
    ),
    (
        How {
            rooms: (0, usize::MAX),
            ..WELL
        },
        LOOKS,
        ("", "output\n", 4),
    ),
    (
        How {
            rooms: (0, 0),
            ..WELL
        },
        LOOKS,
        ("", "", 4),
    ),
    (
        How {
            rooms: (5, usize::MAX),
            ..WELL
        },
        LOOKS,
        ("array", "output\n", 4),
    ),
    (
        How {
            rooms: (5, 0),
            ..WELL
        },
        LOOKS,
        ("array", "", 4),
    ),
    (
        How {
            rooms: (6, usize::MAX),
            ..WELL
        },
        LOOKS,
        ("array\n", "output\n", 4),
    ),
    (
        How {
            rooms: (6, 0),
            ..WELL
        },
        LOOKS,
        ("array\n", "", 4),
    ),
    (
        How {
            rooms: (12, usize::MAX),
            ..WELL
        },
        LOOKS,
        ("array\nlooked", "output\n", 4),
    ),
    (
        How {
            rooms: (12, 0),
            ..WELL
        },
        LOOKS,
        ("array\nlooked", "", 4),
    ),
];

pub(crate) fn failures() -> &'static [Case<'static>] {
    FAILURES
}
