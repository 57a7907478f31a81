//! Transcripts of devices that are replaced while they are in service.

use crate::transcripts::Transcript;

const REPLACEMENTS: &[Transcript<'static>] = &[
    (
        0,
        "# the old device fails under a write of both
# The array has one row, and with it all is built on the new device, which stays in service alone.
array 4 1 16 1 1 -> array
replace 1 -> generation 1
replace 2 -> refused 10 ReplacementBusy
look 0 -> looked
turn 0 rebuild -> started | 0:0 read slot 1 gen 0 row 0
do 0:0 -> taken | 0:1 write slot 1 gen 1 row 0 00
do 0:1 -> taken
write 0 66 -> op 0:0 | 0:2 read slot 2 gen 0 row 0
do 0:2 -> taken | 0:3 write slot 1 gen 0 row 0 66 | 0:4 write slot 1 gen 1 row 0 66 | 0:5 write slot 3 gen 0 row 0 66 | 0:6 write slot 0 gen 0 row 0 66
answer 0:3 error -> taken
do 0:4 -> taken
do 0:5 -> taken
do 0:6 -> taken
tell 0 -> report_rebuilt 1 1: complete
tell 0 -> declare_lost 1 0: refused 3 Stale
look 0 -> looked | reply 0:0 done
read 0 -> op 0:1 | 0:7 read slot 1 gen 1 row 0
",
    ),
    (
        0,
        "# the new device fails
# The slot keeps its old one, and may be replaced again.
array 4 1 16 2 1 -> array
replace 1 -> generation 1
look 0 -> looked
turn 0 rebuild -> started | 0:0 read slot 1 gen 0 row 0
do 0:0 -> taken | 0:1 write slot 1 gen 1 row 0 00
answer 0:1 error -> taken
tell 0 -> declare_lost 1 1: kept
look 0 -> looked
turn 0 rebuild -> refused 10 NothingToDo
read 0 -> op 0:0 | 0:2 read slot 1 gen 0 row 0
replace 1 -> generation 2
",
    ),
];

pub(crate) fn replacements() -> &'static [Transcript<'static>] {
    REPLACEMENTS
}

// The register alone answers them: no shard looks.
const ANSWERS: &[Transcript<'static>] = &[(
    1,
    "# a replacement is refused
array 4 1 16 4 1 -> array
replace 4 -> refused 1 NoSuchSlot
replace 18446744073709551615 -> refused 1 NoSuchSlot
fail 0 -> degraded
replace 0 -> refused 9 NotInSync
attach 0 -> generation 1
replace 0 -> refused 9 NotInSync
replace 1 -> generation 2
replace 1 -> refused 9 NotInSync
replace 2 -> refused 10 ReplacementBusy
fail 1 -> degraded
replace 2 -> generation 3
fail 2 -> failed
replace 3 -> refused 5 ArrayFailed
",
)];

pub(crate) fn answers() -> &'static [Transcript<'static>] {
    ANSWERS
}
