//! The commands `create` and `verify`, on files.

use crate::files::{CREATED, Course, FOUR_ROWS, Step, folder_of, play_all};
use crate::runs::{Case, Ended, How, WELL};
use crate::served;

pub(crate) const CONSISTENT: Ended<'static> = (
    "rows 4 consistent 4 wrong_p 0 wrong_q 0 wrong_data 0 many 0 skipped 0\n",
    "",
    0,
);

const LONG_CONSISTENT: &str =
    "rows 32769 consistent 32769 wrong_p 0 wrong_q 0 wrong_data 0 many 0 skipped 0\n";

const COURSES: &[Course<'static>] = &[
    // The bytes that change are one of D0 of row 0, one of P of row 1 and one of Q of row 2, one of Q alone, and one of
    // each block of data of row 0.
    Course {
        name: "created-files-verify-until-a-byte-changes",
        settings: FOUR_ROWS,
        steps: &[
            Step::Create(CREATED),
            Step::Holds(0, &[(0, 64)]),
            Step::Verify(CONSISTENT),
            Step::Fill(1, &[(1, 1), (0, 63)]),
            Step::Verify((
                "rows 4 consistent 3 wrong_p 0 wrong_q 0 wrong_data 1 many 0 skipped 0\nfirst 0 wrong_data 0\n",
                "",
                1,
            )),
            Step::Fill(1, &[(0, 64)]),
            Step::Fill(2, &[(0, 16), (1, 1), (0, 30), (1, 1), (0, 16)]),
            Step::Verify((
                "rows 4 consistent 2 wrong_p 1 wrong_q 1 wrong_data 0 many 0 skipped 0\nfirst 1 wrong_p\n",
                "",
                1,
            )),
            Step::Fill(2, &[(0, 47), (1, 1), (0, 16)]),
            Step::Verify((
                "rows 4 consistent 3 wrong_p 0 wrong_q 1 wrong_data 0 many 0 skipped 0\nfirst 2 wrong_q\n",
                "",
                1,
            )),
            Step::Fill(1, &[(1, 1), (0, 63)]),
            Step::Fill(2, &[(0, 1), (1, 1), (0, 45), (1, 1), (0, 16)]),
            Step::Verify((
                "rows 4 consistent 2 wrong_p 0 wrong_q 1 wrong_data 0 many 1 skipped 0\nfirst 0 many\n",
                "",
                1,
            )),
            // all is read and counted before the line, and where the line is refused nothing else is said
            Step::VerifyOn(
                How {
                    rooms: (0, usize::MAX),
                    ..WELL
                },
                ("", "output\n", 4),
            ),
            Step::VerifyOn(
                How {
                    rooms: (0, 0),
                    ..WELL
                },
                ("", "", 4),
            ),
            Step::RemoveAll,
        ],
    },
    // The file of the lost slot isn't opened: it is taken away.
    Course {
        name: "rows-are-skipped-with-a-slot-lost",
        settings: "slots = 4\nchunk = 1\nblock = 16\nrows = 4\nshards = 1\nlost = [2]\n",
        steps: &[
            Step::Create(CREATED),
            Step::Remove(2),
            Step::Verify((
                "rows 4 consistent 0 wrong_p 0 wrong_q 0 wrong_data 0 many 0 skipped 4\n",
                "",
                0,
            )),
            Step::Remove(0),
            Step::Remove(1),
            Step::Remove(3),
        ],
    },
];

fn courses() -> &'static [Course<'static>] {
    COURSES
}

const REFUSED: &[Course<'static>] = &[Course {
    name: "files-that-do-not-serve-are-refused",
    settings: FOUR_ROWS,
    steps: &[
        Step::Verify(("", "device 0 fault 3\n", 4)),
        Step::Create(CREATED),
        Step::Create(("", "device 0 fault 2\n", 4)),
        Step::Fill(3, &[]),
        Step::Verify(("", "device 3 fault 4\n", 4)),
        Step::Fill(3, &[(0, 63)]),
        Step::Verify(("", "device 3 fault 4\n", 4)),
        Step::Fill(3, &[(0, 65)]),
        Step::Verify(("", "device 3 fault 4\n", 4)),
        Step::Remove(3),
        Step::Verify(("", "device 3 fault 3\n", 4)),
        // the files of slots 0 to 2 are there
        Step::Remove(0),
        Step::Create(("", "device 1 fault 2\n", 4)),
        Step::Remove(0),
        Step::Remove(1),
        Step::Remove(2),
    ],
}];

fn refused() -> &'static [Course<'static>] {
    REFUSED
}

const LONG: &[Course<'static>] = &[
    // Twice 16,384 rows and one more.
    Course {
        name: "long-work-shows-on-a-terminal-how-far-it-is",
        settings: "slots = 4\nchunk = 1\nblock = 16\nrows = 32769\nshards = 2\n",
        steps: &[
            Step::Create(CREATED),
            Step::Verify((LONG_CONSISTENT, "", 0)),
            Step::VerifyOn(
                How {
                    is_terminal: true,
                    ..WELL
                },
                (
                    LONG_CONSISTENT,
                    "\r16384 of 32769 rows\r32768 of 32769 rows\r\x1b[K",
                    0,
                ),
            ),
            Step::RemoveAll,
        ],
    },
];

fn long() -> &'static [Course<'static>] {
    LONG
}

#[test]
fn commands_take_their_courses_over_files(rt: HostRuntime) {
    let folder = folder_of(&rt);
    play_all(
        &rt,
        rt.alloc(),
        folder.as_str(),
        &[
            courses(),
            refused(),
            long(),
            served::one_two_and_four_shards(),
            served::two_and_eight_workers(),
            served::refused(),
            served::courses(),
        ],
    );
}

// Settings without files, and such that lack an integer.
const NO_FILES: &[Case<'static>] = &[(WELL, FOUR_ROWS, ("", "settings: devices\n", 3))];

pub(crate) fn no_files() -> &'static [Case<'static>] {
    NO_FILES
}

const UNSET: &[Case<'static>] = &[(WELL, "slots = 4", ("", "settings: chunk\n", 3))];

pub(crate) fn unset() -> &'static [Case<'static>] {
    UNSET
}
