//! The command `run`, on files.

use crate::devices::CONSISTENT;
use crate::files::{CREATED, Course, FOUR_ROWS, SPARE, Step};
use crate::runs::Lines;

const WRITTEN: &str = "0 done
1 data 5a
2 degraded
3 data 5a
4 consistent 0 wrong_p 0 wrong_q 0 wrong_data 0 many 0 skipped 4 repaired 0
slot 1 lost
state degraded
";

const REPAIRED: &str = "0 consistent 3 wrong_p 0 wrong_q 0 wrong_data 1 many 0 skipped 0 repaired 0
1 consistent 3 wrong_p 0 wrong_q 0 wrong_data 1 many 0 skipped 0 repaired 1
2 consistent 4 wrong_p 0 wrong_q 0 wrong_data 0 many 0 skipped 0 repaired 0
state good
";

// A device is lost between a write and a read, and then every row is skipped; a wrong data block is counted, mended by
// its parities, and counted no more.
const IN_SHARDS: &[Step<'static>] = &[
    Step::Create(CREATED),
    Step::Run(
        "write 0 5a\nwait\nread 0\nwait\nfail 1\nwait\nread 0\nwait\ncheck\n",
        (WRITTEN, "", 0),
    ),
    Step::RemoveAll,
    Step::Create(CREATED),
    Step::Fill(1, &[(1, 1), (0, 63)]),
    Step::Run("check\nrepair\ncheck\n", (REPAIRED, "", 0)),
    Step::RemoveAll,
];

const ONE_TWO_AND_FOUR_SHARDS: &[Course<'static>] = &[
    Course {
        name: "one-two-and-four-shards-print-the-same-1",
        settings: FOUR_ROWS,
        steps: IN_SHARDS,
    },
    Course {
        name: "one-two-and-four-shards-print-the-same-2",
        settings: "slots = 4\nchunk = 1\nblock = 16\nrows = 4\nshards = 2\n",
        steps: IN_SHARDS,
    },
    Course {
        name: "one-two-and-four-shards-print-the-same-4",
        settings: "slots = 4\nchunk = 1\nblock = 16\nrows = 4\nshards = 4\n",
        steps: IN_SHARDS,
    },
];

pub(crate) fn one_two_and_four_shards() -> &'static [Course<'static>] {
    ONE_TWO_AND_FOUR_SHARDS
}

const TWO_AND_EIGHT_WORKERS: &[Course<'static>] = &[
    Course {
        name: "two-workers-print-the-same-1",
        settings: "slots = 4\nchunk = 1\nblock = 16\nrows = 4\nshards = 1\nworkers = 2\n",
        steps: IN_SHARDS,
    },
    Course {
        name: "eight-workers-print-the-same-1",
        settings: "slots = 4\nchunk = 1\nblock = 16\nrows = 4\nshards = 1\nworkers = 8\n",
        steps: IN_SHARDS,
    },
    Course {
        name: "two-workers-print-the-same-2",
        settings: "slots = 4\nchunk = 1\nblock = 16\nrows = 4\nshards = 2\nworkers = 2\n",
        steps: IN_SHARDS,
    },
    Course {
        name: "eight-workers-print-the-same-2",
        settings: "slots = 4\nchunk = 1\nblock = 16\nrows = 4\nshards = 2\nworkers = 8\n",
        steps: IN_SHARDS,
    },
    Course {
        name: "two-workers-print-the-same-4",
        settings: "slots = 4\nchunk = 1\nblock = 16\nrows = 4\nshards = 4\nworkers = 2\n",
        steps: IN_SHARDS,
    },
    Course {
        name: "eight-workers-print-the-same-4",
        settings: "slots = 4\nchunk = 1\nblock = 16\nrows = 4\nshards = 4\nworkers = 8\n",
        steps: IN_SHARDS,
    },
];

pub(crate) fn two_and_eight_workers() -> &'static [Course<'static>] {
    TWO_AND_EIGHT_WORKERS
}

const REFUSED: &[Course<'static>] = &[
    // What is refused, and from the third loss on all is. Slot 4 and block 8 aren't there.
    Course {
        name: "an-event-that-is-refused-says-why",
        settings: FOUR_ROWS,
        steps: &[
            Step::Create(CREATED),
            Step::Run("# no event\n\n", ("state good\n", "", 0)),
            Step::RemoveAll,
            Step::Create(CREATED),
            Step::Run(
                "read 8\nfail 4\nfail 18446744073709551615\nread 7",
                (
                    "0 refused 1 NoSuchBlock\n1 refused 1 NoSuchSlot\n2 refused 1 NoSuchSlot\n3 data 00\nstate good\n",
                    "",
                    0,
                ),
            ),
            Step::RemoveAll,
            Step::Create(CREATED),
            Step::Run(
                "fail 3\nfail 3\nwait\nfail 0\nfail 1\nwait\nwrite 0 5a\nwrite 7 11\nfail 2\ncheck\n",
                (
                    "0 degraded
1 refused 2 AlreadyLost
2 degraded
3 failed
4 refused 5 ArrayFailed
5 refused 5 ArrayFailed
6 refused 5 ArrayFailed
7 consistent 0 wrong_p 0 wrong_q 0 wrong_data 0 many 0 skipped 4 repaired 0
slot 0 lost
slot 1 lost
slot 3 lost
state failed
",
                    "",
                    1,
                ),
            ),
            Step::RemoveAll,
        ],
    },
];

pub(crate) fn refused() -> &'static [Course<'static>] {
    REFUSED
}

// The new device has FF in every byte at first. The one that slot 2 has isn't lost. In the end slot 1 keeps block 0 in
// row 0, and in the other rows all is zero.
const REBUILT: &[Step<'static>] = &[
    Step::Fill(SPARE, &[(0xff, 64)]),
    Step::Create(CREATED),
    Step::Fill(1, &[(1, 1), (0, 63)]),
    Step::Run(
        "write 0 5a\nwait\nfail 1\nwait\nattach 1 @\nwait\nread 0\nattach 2 @\nwait\ncheck",
        (
            "0 done
1 degraded
2 generation 1
3 data 5a
4 refused 4 NotLost
5 consistent 4 wrong_p 0 wrong_q 0 wrong_data 0 many 0 skipped 0 repaired 0
state good
",
            "",
            0,
        ),
    ),
    Step::Holds(SPARE, &[(0x5a, 16), (0, 48)]),
    Step::Remove(SPARE),
    Step::RemoveAll,
];

// The same without a loss: slot 1 is in service throughout. Slot 9 isn't there.
const REPLACED: &[Step<'static>] = &[
    Step::Fill(SPARE, &[(0xff, 64)]),
    Step::Create(CREATED),
    Step::Run(
        "write 0 5a\nwait\nreplace 1 @\nwait\nread 0\nreplace 9 @\nwait\ncheck",
        (
            "0 done
1 generation 1
2 data 5a
3 refused 1 NoSuchSlot
4 consistent 4 wrong_p 0 wrong_q 0 wrong_data 0 many 0 skipped 0 repaired 0
state good
",
            "",
            0,
        ),
    ),
    Step::Holds(SPARE, &[(0x5a, 16), (0, 48)]),
    Step::Remove(SPARE),
    Step::RemoveAll,
];

const COURSES: &[Course<'static>] = &[
    Course {
        name: "a-new-device-is-rebuilt",
        settings: FOUR_ROWS,
        steps: REBUILT,
    },
    // with more rows under way at one time than one, and with more than there are
    Course {
        name: "a-new-device-is-rebuilt-two-rows-at-a-time",
        settings: "slots = 4\nchunk = 1\nblock = 16\nrows = 4\nshards = 1\nwindow = 2\n",
        steps: REBUILT,
    },
    Course {
        name: "a-new-device-is-rebuilt-eight-rows-at-a-time",
        settings: "slots = 4\nchunk = 1\nblock = 16\nrows = 4\nshards = 1\nwindow = 8\n",
        steps: REBUILT,
    },
    Course {
        name: "a-device-is-replaced",
        settings: FOUR_ROWS,
        steps: REPLACED,
    },
    Course {
        name: "a-device-is-replaced-eight-rows-at-a-time",
        settings: "slots = 4\nchunk = 1\nblock = 16\nrows = 4\nshards = 1\nwindow = 8\n",
        steps: REPLACED,
    },
    Course {
        name: "a-device-is-replaced-in-two-shards",
        settings: "slots = 4\nchunk = 1\nblock = 16\nrows = 4\nshards = 2\n",
        steps: REPLACED,
    },
    // Settings come before the script, and the script before the devices; then the devices of the slots before those
    // that are attached. Nothing is printed, and no file is changed: the rows are consistent as before.
    Course {
        name: "what-cannot-be-had-is-named",
        settings: FOUR_ROWS,
        steps: &[
            Step::Create(CREATED),
            Step::Fill(SPARE, &[(0, 65)]),
            Step::Run(
                "write 0 5a\nattach 2 no-such-file\n",
                ("", "device 2 fault 3\n", 4),
            ),
            Step::Run("write 0 5a\nattach 7 @", ("", "device 7 fault 4\n", 4)),
            Step::Run("replace 3 no-such-file\n", ("", "device 3 fault 3\n", 4)),
            Step::Run("write 0 5a\nreplace 7 @", ("", "device 7 fault 4\n", 4)),
            Step::Run("write 0 5a\nread 0 \n", ("", "script: line 2\n", 3)),
            Step::Verify(CONSISTENT),
            Step::Remove(SPARE),
            Step::Fill(2, &[(0, 63)]),
            Step::Run("attach 1 no-such-file\n", ("", "device 2 fault 4\n", 4)),
            Step::Remove(1),
            Step::Run("attach 1 no-such-file\n", ("", "device 1 fault 3\n", 4)),
            Step::Run("read", ("", "script: line 1\n", 3)),
            Step::Fill(1, &[(0, 64)]),
            Step::RemoveAll,
        ],
    },
];

pub(crate) fn courses() -> &'static [Course<'static>] {
    COURSES
}

const SETTINGS: &str = "slots = 4
chunk = 1
block = 16
rows = 4
shards = 1
devices = ['no-0', 'no-1', 'no-2', 'no-3']
";

// Each line that isn't in the grammar, as the fourth of a script.
const LINES: &[&str] = &[
    "read",
    "read ",
    "read 00",
    "read 0 0",
    "read +1",
    "read 18446744073709551616",
    "write 0",
    "write 0 5A",
    "write 0 5a ",
    "write  0 5a",
    "write 01 5a",
    "write 0 5",
    "write",
    "write 0 5a 0",
    "write 18446744073709551616 5a",
    "wait ",
    " wait",
    "Wait",
    "waits",
    "wait 0",
    "fail",
    "fail x",
    "fail 01",
    "fail 1 1",
    "fail 18446744073709551616",
    "attach 1",
    "attach",
    "attach 1 ",
    "attach x y",
    "attach 01 y",
    "attach 18446744073709551616 y",
    "replace 1",
    "replace",
    "replace 1 ",
    "replace x y",
    "replace 01 y",
    "replace 18446744073709551616 y",
    "check 1",
    "checks",
    "repair 0",
    "array 4 1 16 4 1",
    "look 0",
];

// No device is opened before.
const NO_EVENTS: &Lines<'static> = &Lines {
    settings: SETTINGS,
    before: "wait\n# one\n\n",
    lines: LINES,
    behind: "\nread\n",
    wanted: ("", "script: line 4\n", 3),
};

pub(crate) fn no_events() -> &'static Lines<'static> {
    NO_EVENTS
}
