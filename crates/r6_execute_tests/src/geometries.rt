//! The command `geometry`.

use crate::runs::{Case, How, Values, WELL};
use std::io::ErrorKind;

const FOUR_SLOTS: &str = "slots = 4\nchunk = 1\nblock = 16\nrows = 4\nshards = 2\n";

const FOUR_SLOTS_LAYOUT: &str = "slots 4 chunk 1 block 16 rows 4 shards 2 blocks 8
shard 0 rows 0 to 1
shard 1 rows 2 to 3
chunk row 0: q d0 d1 p
chunk row 1: d0 d1 p q
chunk row 2: d1 p q d0
chunk row 3: p q d0 d1
";

// Three chunk rows are fewer than five slots.
const LAYOUTS: &[Case<'static>] = &[
    (WELL, FOUR_SLOTS, (FOUR_SLOTS_LAYOUT, "", 0)),
    (
        WELL,
        "slots = 6\nchunk = 2\nblock = 32\nrows = 16\nshards = 3\n",
        (
            "slots 6 chunk 2 block 32 rows 16 shards 3 blocks 64
shard 0 rows 0 to 3
shard 1 rows 4 to 9
shard 2 rows 10 to 15
chunk row 0: q d0 d1 d2 d3 p
chunk row 1: d0 d1 d2 d3 p q
chunk row 2: d1 d2 d3 p q d0
chunk row 3: d2 d3 p q d0 d1
chunk row 4: d3 p q d0 d1 d2
chunk row 5: p q d0 d1 d2 d3
",
            "",
            0,
        ),
    ),
    (
        WELL,
        "slots = 5\nchunk = 4\nblock = 16\nrows = 12\nshards = 1\n",
        (
            "slots 5 chunk 4 block 16 rows 12 shards 1 blocks 36
shard 0 rows 0 to 11
chunk row 0: q d0 d1 d2 p
chunk row 1: d0 d1 d2 p q
chunk row 2: d1 d2 p q d0
",
            "",
            0,
        ),
    ),
];

pub(crate) fn layouts() -> &'static [Case<'static>] {
    LAYOUTS
}

// The largest array's chunk rows were not worked out one by one but written by the rule of the layout, each as the one
// before it moved on by a slot.
const LARGEST_LAYOUT: &[Case<'static>] = &[(
    WELL,
    "slots = 32\nchunk = 128\nblock = 4096\nrows = 16777216\nshards = 16\n",
    (
        "slots 32 chunk 128 block 4096 rows 16777216 shards 16 blocks 503316480
shard 0 rows 0 to 1048575
shard 1 rows 1048576 to 2097151
shard 2 rows 2097152 to 3145727
shard 3 rows 3145728 to 4194303
shard 4 rows 4194304 to 5242879
shard 5 rows 5242880 to 6291455
shard 6 rows 6291456 to 7340031
shard 7 rows 7340032 to 8388607
shard 8 rows 8388608 to 9437183
shard 9 rows 9437184 to 10485759
shard 10 rows 10485760 to 11534335
shard 11 rows 11534336 to 12582911
shard 12 rows 12582912 to 13631487
shard 13 rows 13631488 to 14680063
shard 14 rows 14680064 to 15728639
shard 15 rows 15728640 to 16777215
chunk row 0: q d0 d1 d2 d3 d4 d5 d6 d7 d8 d9 d10 d11 d12 d13 d14 d15 d16 d17 d18 d19 d20 d21 d22 d23 d24 d25 d26 d27 d28 d29 p
chunk row 1: d0 d1 d2 d3 d4 d5 d6 d7 d8 d9 d10 d11 d12 d13 d14 d15 d16 d17 d18 d19 d20 d21 d22 d23 d24 d25 d26 d27 d28 d29 p q
chunk row 2: d1 d2 d3 d4 d5 d6 d7 d8 d9 d10 d11 d12 d13 d14 d15 d16 d17 d18 d19 d20 d21 d22 d23 d24 d25 d26 d27 d28 d29 p q d0
chunk row 3: d2 d3 d4 d5 d6 d7 d8 d9 d10 d11 d12 d13 d14 d15 d16 d17 d18 d19 d20 d21 d22 d23 d24 d25 d26 d27 d28 d29 p q d0 d1
chunk row 4: d3 d4 d5 d6 d7 d8 d9 d10 d11 d12 d13 d14 d15 d16 d17 d18 d19 d20 d21 d22 d23 d24 d25 d26 d27 d28 d29 p q d0 d1 d2
chunk row 5: d4 d5 d6 d7 d8 d9 d10 d11 d12 d13 d14 d15 d16 d17 d18 d19 d20 d21 d22 d23 d24 d25 d26 d27 d28 d29 p q d0 d1 d2 d3
chunk row 6: d5 d6 d7 d8 d9 d10 d11 d12 d13 d14 d15 d16 d17 d18 d19 d20 d21 d22 d23 d24 d25 d26 d27 d28 d29 p q d0 d1 d2 d3 d4
chunk row 7: d6 d7 d8 d9 d10 d11 d12 d13 d14 d15 d16 d17 d18 d19 d20 d21 d22 d23 d24 d25 d26 d27 d28 d29 p q d0 d1 d2 d3 d4 d5
chunk row 8: d7 d8 d9 d10 d11 d12 d13 d14 d15 d16 d17 d18 d19 d20 d21 d22 d23 d24 d25 d26 d27 d28 d29 p q d0 d1 d2 d3 d4 d5 d6
chunk row 9: d8 d9 d10 d11 d12 d13 d14 d15 d16 d17 d18 d19 d20 d21 d22 d23 d24 d25 d26 d27 d28 d29 p q d0 d1 d2 d3 d4 d5 d6 d7
chunk row 10: d9 d10 d11 d12 d13 d14 d15 d16 d17 d18 d19 d20 d21 d22 d23 d24 d25 d26 d27 d28 d29 p q d0 d1 d2 d3 d4 d5 d6 d7 d8
chunk row 11: d10 d11 d12 d13 d14 d15 d16 d17 d18 d19 d20 d21 d22 d23 d24 d25 d26 d27 d28 d29 p q d0 d1 d2 d3 d4 d5 d6 d7 d8 d9
chunk row 12: d11 d12 d13 d14 d15 d16 d17 d18 d19 d20 d21 d22 d23 d24 d25 d26 d27 d28 d29 p q d0 d1 d2 d3 d4 d5 d6 d7 d8 d9 d10
chunk row 13: d12 d13 d14 d15 d16 d17 d18 d19 d20 d21 d22 d23 d24 d25 d26 d27 d28 d29 p q d0 d1 d2 d3 d4 d5 d6 d7 d8 d9 d10 d11
chunk row 14: d13 d14 d15 d16 d17 d18 d19 d20 d21 d22 d23 d24 d25 d26 d27 d28 d29 p q d0 d1 d2 d3 d4 d5 d6 d7 d8 d9 d10 d11 d12
chunk row 15: d14 d15 d16 d17 d18 d19 d20 d21 d22 d23 d24 d25 d26 d27 d28 d29 p q d0 d1 d2 d3 d4 d5 d6 d7 d8 d9 d10 d11 d12 d13
chunk row 16: d15 d16 d17 d18 d19 d20 d21 d22 d23 d24 d25 d26 d27 d28 d29 p q d0 d1 d2 d3 d4 d5 d6 d7 d8 d9 d10 d11 d12 d13 d14
chunk row 17: d16 d17 d18 d19 d20 d21 d22 d23 d24 d25 d26 d27 d28 d29 p q d0 d1 d2 d3 d4 d5 d6 d7 d8 d9 d10 d11 d12 d13 d14 d15
chunk row 18: d17 d18 d19 d20 d21 d22 d23 d24 d25 d26 d27 d28 d29 p q d0 d1 d2 d3 d4 d5 d6 d7 d8 d9 d10 d11 d12 d13 d14 d15 d16
chunk row 19: d18 d19 d20 d21 d22 d23 d24 d25 d26 d27 d28 d29 p q d0 d1 d2 d3 d4 d5 d6 d7 d8 d9 d10 d11 d12 d13 d14 d15 d16 d17
chunk row 20: d19 d20 d21 d22 d23 d24 d25 d26 d27 d28 d29 p q d0 d1 d2 d3 d4 d5 d6 d7 d8 d9 d10 d11 d12 d13 d14 d15 d16 d17 d18
chunk row 21: d20 d21 d22 d23 d24 d25 d26 d27 d28 d29 p q d0 d1 d2 d3 d4 d5 d6 d7 d8 d9 d10 d11 d12 d13 d14 d15 d16 d17 d18 d19
chunk row 22: d21 d22 d23 d24 d25 d26 d27 d28 d29 p q d0 d1 d2 d3 d4 d5 d6 d7 d8 d9 d10 d11 d12 d13 d14 d15 d16 d17 d18 d19 d20
chunk row 23: d22 d23 d24 d25 d26 d27 d28 d29 p q d0 d1 d2 d3 d4 d5 d6 d7 d8 d9 d10 d11 d12 d13 d14 d15 d16 d17 d18 d19 d20 d21
chunk row 24: d23 d24 d25 d26 d27 d28 d29 p q d0 d1 d2 d3 d4 d5 d6 d7 d8 d9 d10 d11 d12 d13 d14 d15 d16 d17 d18 d19 d20 d21 d22
chunk row 25: d24 d25 d26 d27 d28 d29 p q d0 d1 d2 d3 d4 d5 d6 d7 d8 d9 d10 d11 d12 d13 d14 d15 d16 d17 d18 d19 d20 d21 d22 d23
chunk row 26: d25 d26 d27 d28 d29 p q d0 d1 d2 d3 d4 d5 d6 d7 d8 d9 d10 d11 d12 d13 d14 d15 d16 d17 d18 d19 d20 d21 d22 d23 d24
chunk row 27: d26 d27 d28 d29 p q d0 d1 d2 d3 d4 d5 d6 d7 d8 d9 d10 d11 d12 d13 d14 d15 d16 d17 d18 d19 d20 d21 d22 d23 d24 d25
chunk row 28: d27 d28 d29 p q d0 d1 d2 d3 d4 d5 d6 d7 d8 d9 d10 d11 d12 d13 d14 d15 d16 d17 d18 d19 d20 d21 d22 d23 d24 d25 d26
chunk row 29: d28 d29 p q d0 d1 d2 d3 d4 d5 d6 d7 d8 d9 d10 d11 d12 d13 d14 d15 d16 d17 d18 d19 d20 d21 d22 d23 d24 d25 d26 d27
chunk row 30: d29 p q d0 d1 d2 d3 d4 d5 d6 d7 d8 d9 d10 d11 d12 d13 d14 d15 d16 d17 d18 d19 d20 d21 d22 d23 d24 d25 d26 d27 d28
chunk row 31: p q d0 d1 d2 d3 d4 d5 d6 d7 d8 d9 d10 d11 d12 d13 d14 d15 d16 d17 d18 d19 d20 d21 d22 d23 d24 d25 d26 d27 d28 d29
",
        "",
        0,
    ),
)];

pub(crate) fn largest_layout() -> &'static [Case<'static>] {
    LARGEST_LAYOUT
}

// The first fault is named.
const FAULTS: &[Case<'static>] = &[
    (WELL, "slots = ", ("", "settings: toml\n", 3)),
    (WELL, "slots = 4\nslots = 4\n", ("", "settings: toml\n", 3)),
    (WELL, "slots = 4.0\nsize = 1\n", ("", "settings: key\n", 3)),
    (WELL, "Slots = 4\n", ("", "settings: key\n", 3)),
    (WELL, "[array]\nslots = 4\n", ("", "settings: key\n", 3)),
    (WELL, "", ("", "settings: slots\n", 3)),
    (
        WELL,
        "slots = 4.0\nchunk = 0\n",
        ("", "settings: slots\n", 3),
    ),
    (
        WELL,
        "slots = 4\nblock = 16\n",
        ("", "settings: chunk\n", 3),
    ),
    (
        WELL,
        "slots = 4\nchunk = -1\nblock = 16\n",
        ("", "settings: chunk\n", 3),
    ),
    (
        WELL,
        "slots = 4\nchunk = 1\nrows = 4\n",
        ("", "settings: block\n", 3),
    ),
    (
        WELL,
        "slots = 4\nchunk = 1\nblock = 16\nshards = 1\n",
        ("", "settings: rows\n", 3),
    ),
    (
        WELL,
        "slots = 4\nchunk = 1\nblock = 16\nrows = 4\n",
        ("", "settings: shards\n", 3),
    ),
];

pub(crate) fn faults() -> &'static [Case<'static>] {
    FAULTS
}

// Likewise, where the integers are there.
const LATER_FAULTS: &[Case<'static>] = &[
    (
        WELL,
        "slots = 4\nchunk = 1\nblock = 16\nrows = 4\nshards = 1\nwindow = 0\nworkers = 0\n",
        ("", "settings: window\n", 3),
    ),
    (
        WELL,
        "slots = 4\nchunk = 1\nblock = 16\nrows = 4\nshards = 1\nworkers = 9\nlost = 1\n",
        ("", "settings: workers\n", 3),
    ),
    (
        WELL,
        "slots = 3\nchunk = 1\nblock = 16\nrows = 4\nshards = 1\nlost = [3]\n",
        ("", "settings: lost\n", 3),
    ),
    (
        WELL,
        "slots = 3\nchunk = 0\nblock = 24\nrows = 4\nshards = 1\nlost = [2]\n",
        ("", "settings: geometry 1\n", 3),
    ),
    (
        WELL,
        "slots = 4\nchunk = 0\nblock = 24\nrows = 0\nshards = 0\n",
        ("", "settings: geometry 2\n", 3),
    ),
    (
        WELL,
        "slots = 4\nchunk = 1\nblock = 24\nrows = 0\nshards = 0\n",
        ("", "settings: geometry 3\n", 3),
    ),
    (
        WELL,
        "slots = 4\nchunk = 2\nblock = 16\nrows = 5\nshards = 0\n",
        ("", "settings: geometry 4\n", 3),
    ),
    (
        WELL,
        "slots = 4\nchunk = 1\nblock = 16\nrows = 4\nshards = 4294967295\n",
        ("", "settings: geometry 5\n", 3),
    ),
];

pub(crate) fn later_faults() -> &'static [Case<'static>] {
    LATER_FAULTS
}

// No integer from 0 to 4,294,967,295.
const NO_NUMBER: &[&str] = &["4.0", "true", "\"4\"", "[4]", "{}", "-1", "4294967296"];

// No integer from 1 to 8.
const NOT_1_TO_8: &[&str] = &["1.0", "true", "\"1\"", "[1]", "{}", "-1", "0", "9"];

// No array of integers, or one that hasn't at most two slots of four, none of them twice.
const NOT_LOST: &[&str] = &[
    "1",
    "true",
    "\"1\"",
    "{}",
    "[4]",
    "[-1]",
    "[1.0]",
    "[\"1\"]",
    "[[1]]",
    "[4294967296]",
    "[2, 2]",
    "[2, 4]",
    "[0, 1, 2]",
];

// Each key with each value that isn't its own: of another type, or one below or above its range. The keys before it are
// right, and so are those behind, for which the numbers are an array's.
const WRONG_VALUES: &[Values<'static>] = &[
    (
        "slots = ",
        NO_NUMBER,
        "\nchunk = 1\nblock = 16\nrows = 4\nshards = 1\n",
        ("", "settings: slots\n", 3),
    ),
    (
        "slots = 4\nchunk = ",
        NO_NUMBER,
        "\nblock = 16\nrows = 4\nshards = 1\n",
        ("", "settings: chunk\n", 3),
    ),
    (
        "slots = 4\nchunk = 1\nblock = ",
        NO_NUMBER,
        "\nrows = 4\nshards = 1\n",
        ("", "settings: block\n", 3),
    ),
    (
        "slots = 4\nchunk = 1\nblock = 16\nrows = ",
        NO_NUMBER,
        "\nshards = 1\n",
        ("", "settings: rows\n", 3),
    ),
    (
        "slots = 4\nchunk = 1\nblock = 16\nrows = 4\nshards = ",
        NO_NUMBER,
        "\n",
        ("", "settings: shards\n", 3),
    ),
    (
        "slots = 4\nchunk = 1\nblock = 16\nrows = 4\nshards = 1\nwindow = ",
        NOT_1_TO_8,
        "\n",
        ("", "settings: window\n", 3),
    ),
    (
        "slots = 4\nchunk = 1\nblock = 16\nrows = 4\nshards = 1\nworkers = ",
        NOT_1_TO_8,
        "\n",
        ("", "settings: workers\n", 3),
    ),
    (
        "slots = 4\nchunk = 1\nblock = 16\nrows = 4\nshards = 1\nlost = ",
        NOT_LOST,
        "\n",
        ("", "settings: lost\n", 3),
    ),
];

pub(crate) fn wrong_values() -> &'static [Values<'static>] {
    WRONG_VALUES
}

// One below the range of each integer and one above; of a block also one that is no multiple of 16, and of the shards
// one more than there are chunk rows.
const NO_ARRAYS: &[Values<'static>] = &[
    (
        "slots = ",
        &["3", "33"],
        "\nchunk = 1\nblock = 16\nrows = 4\nshards = 1\n",
        ("", "settings: geometry 1\n", 3),
    ),
    (
        "slots = 4\nchunk = ",
        &["0", "129"],
        "\nblock = 16\nrows = 16512\nshards = 1\n",
        ("", "settings: geometry 2\n", 3),
    ),
    (
        "slots = 4\nchunk = 1\nblock = ",
        &["0", "15", "17", "4097", "4112"],
        "\nrows = 4\nshards = 1\n",
        ("", "settings: geometry 3\n", 3),
    ),
    (
        "slots = 4\nchunk = 1\nblock = 16\nrows = ",
        &["0", "16777217"],
        "\nshards = 1\n",
        ("", "settings: geometry 4\n", 3),
    ),
    (
        "slots = 4\nchunk = 1\nblock = 16\nrows = 32\nshards = ",
        &["0", "17"],
        "\n",
        ("", "settings: geometry 5\n", 3),
    ),
    (
        "slots = 4\nchunk = 2\nblock = 16\nrows = 8\nshards = ",
        &["5"],
        "\n",
        ("", "settings: geometry 5\n", 3),
    ),
];

pub(crate) fn no_arrays() -> &'static [Values<'static>] {
    NO_ARRAYS
}

const ALL_BUT_THE_END: &str = "slots 4 chunk 1 block 16 rows 4 shards 2 blocks 8
shard 0 rows 0 to 1
shard 1 rows 2 to 3
chunk row 0: q d0 d1 p
chunk row 1: d0 d1 p q
chunk row 2: d1 p q d0
chunk row 3: p q d0 d1";

// A file that fails or is no text, and an output that refuses, where standard error may refuse too.
const FAILURES: &[Case<'static>] = &[
    (
        How {
            fails: Some(ErrorKind::PermissionDenied),
            ..WELL
        },
        FOUR_SLOTS,
        ("", "settings: unreadable\n", 3),
    ),
    (
        How {
            fails: Some(ErrorKind::OutOfMemory),
            ..WELL
        },
        FOUR_SLOTS,
        ("", "memory\n", 5),
    ),
    (
        How {
            end: b"\xff\n",
            ..WELL
        },
        "slots = 4 # ",
        ("", "settings: unreadable\n", 3),
    ),
    (
        How {
            rooms: (0, usize::MAX),
            ..WELL
        },
        FOUR_SLOTS,
        ("", "output\n", 4),
    ),
    (
        How {
            rooms: (0, 0),
            ..WELL
        },
        FOUR_SLOTS,
        ("", "", 4),
    ),
    (
        How {
            rooms: (60, usize::MAX),
            ..WELL
        },
        FOUR_SLOTS,
        (
            "slots 4 chunk 1 block 16 rows 4 shards 2 blocks 8\nshard 0 ro",
            "output\n",
            4,
        ),
    ),
    (
        How {
            rooms: (60, 0),
            ..WELL
        },
        FOUR_SLOTS,
        (
            "slots 4 chunk 1 block 16 rows 4 shards 2 blocks 8\nshard 0 ro",
            "",
            4,
        ),
    ),
    (
        How {
            rooms: (181, usize::MAX),
            ..WELL
        },
        FOUR_SLOTS,
        (ALL_BUT_THE_END, "output\n", 4),
    ),
    (
        How {
            rooms: (181, 0),
            ..WELL
        },
        FOUR_SLOTS,
        (ALL_BUT_THE_END, "", 4),
    ),
    (
        How {
            rooms: (182, usize::MAX),
            ..WELL
        },
        FOUR_SLOTS,
        (FOUR_SLOTS_LAYOUT, "output\n", 4),
    ),
    (
        How {
            rooms: (182, 0),
            ..WELL
        },
        FOUR_SLOTS,
        (FOUR_SLOTS_LAYOUT, "", 4),
    ),
];

pub(crate) fn failures() -> &'static [Case<'static>] {
    FAILURES
}
