//! Transcripts of turns: checks, repairs and rebuilds.

use crate::transcripts::Transcript;

const SCRUBS: &[Transcript<'static>] = &[
    (
        0,
        "# a check and a repair take their rows in turn
# Row 2 is read as a whole, and then the write that waits for it has its turn. The repairs have a row of their own.
array 4 1 16 4 2 -> array
turn 2 check -> no such shard
turn 1 check -> started | 1:0 read slot 3 gen 0 row 2 | 1:1 read slot 0 gen 0 row 2 | 1:2 read slot 1 gen 0 row 2 | 1:3 read slot 2 gen 0 row 2
turn 1 repair -> refused 10 NothingToDo
write 4 5a -> op 1:0
do 1:0 -> taken
do 1:1 -> taken
do 1:2 -> taken
do 1:3 -> taken | 1:4 read slot 0 gen 0 row 2
turn 1 check -> started | 1:5 read slot 2 gen 0 row 3 | 1:6 read slot 3 gen 0 row 3 | 1:7 read slot 0 gen 0 row 3 | 1:8 read slot 1 gen 0 row 3
turn 1 check -> refused 10 NothingToDo
do 1:4 -> taken | 1:9 write slot 3 gen 0 row 2 5a | 1:10 write slot 1 gen 0 row 2 5a | 1:11 write slot 2 gen 0 row 2 5a
do 1:9 -> taken
do 1:10 -> taken
do 1:11 -> taken
look 1 -> looked | reply 1:0 done
turn 1 repair -> started | 1:12 read slot 3 gen 0 row 2 | 1:13 read slot 0 gen 0 row 2 | 1:14 read slot 1 gen 0 row 2 | 1:15 read slot 2 gen 0 row 2
do 1:12 -> taken
do 1:13 -> taken
do 1:14 -> taken
do 1:15 -> taken
look 1 -> looked
",
    ),
    (
        1,
        "# a turn passes over a row with a slot out
# The check gives up when the device of its second read fails: nothing more is put out.
array 4 1 16 4 1 -> array
turn 0 check -> started | 0:0 read slot 1 gen 0 row 0 | 0:1 read slot 2 gen 0 row 0 | 0:2 read slot 3 gen 0 row 0 | 0:3 read slot 0 gen 0 row 0
do 0:0 -> taken
answer 0:1 gone -> taken
turn 0 repair -> skipped
do 0:2 -> taken
do 0:3 -> taken
turn 0 check -> skipped
tell 0 -> declare_lost 2 0: degraded
fail 0 -> degraded
fail 1 -> failed
turn 0 check -> skipped
look 0 -> looked
turn 0 check -> refused 5 ArrayFailed
",
    ),
    (
        1,
        "# a stopped shard has no turn
# A third slot is out in the shard before it has seen that the array failed.
array 4 1 16 4 1 -> array
fail 0 -> degraded
fail 2 -> degraded
look 0 -> looked
read 0 -> op 0:0 | 0:0 read slot 1 gen 0 row 0
turn 0 repair -> skipped
answer 0:0 gone -> taken
turn 0 repair -> refused 10 NothingToDo
turn 0 check -> refused 10 NothingToDo
tell 0 -> declare_lost 1 0: failed
look 0 -> looked | reply 0:0 failed
turn 0 repair -> refused 5 ArrayFailed
",
    ),
];

pub(crate) fn scrubs() -> &'static [Transcript<'static>] {
    SCRUBS
}

const REBUILDS: &[Transcript<'static>] = &[
    (
        0,
        "# a write goes to rows that are rebuilt
# Row 0 is rebuilt on slot 1 and row 1 isn't: a write of row 0 writes the new device, one of row 1 leaves it alone.
# A second new device begins with no row.
array 4 1 16 2 1 -> array
turn 0 rebuild -> refused 10 NothingToDo
fail 1 -> degraded
attach 1 -> generation 1
turn 0 rebuild -> refused 10 NothingToDo
look 0 -> looked
turn 0 rebuild -> started | 0:0 read slot 2 gen 0 row 0 | 0:1 read slot 3 gen 0 row 0
turn 0 rebuild -> refused 10 NothingToDo
do 0:0 -> taken
do 0:1 -> taken | 0:2 write slot 1 gen 1 row 0 00
do 0:2 -> taken
write 0 5a -> op 0:0 | 0:3 read slot 2 gen 0 row 0
do 0:3 -> taken | 0:4 write slot 1 gen 1 row 0 5a | 0:5 write slot 3 gen 0 row 0 5a | 0:6 write slot 0 gen 0 row 0 5a
do 0:4 -> taken
do 0:5 -> taken
do 0:6 -> taken
write 2 11 -> op 0:1 | 0:7 read slot 0 gen 0 row 1 | 0:8 read slot 2 gen 0 row 1
do 0:7 -> taken
do 0:8 -> taken | 0:9 write slot 0 gen 0 row 1 11 | 0:10 write slot 2 gen 0 row 1 11 | 0:11 write slot 3 gen 0 row 1 11
do 0:9 -> taken
do 0:10 -> taken
do 0:11 -> taken
fail 1 -> degraded
attach 1 -> generation 2
look 0 -> looked | reply 0:0 done | reply 0:1 done
turn 0 rebuild -> started | 0:12 read slot 2 gen 0 row 0 | 0:13 read slot 3 gen 0 row 0
do 0:12 -> taken
do 0:13 -> taken | 0:14 write slot 1 gen 2 row 0 5a
",
    ),
    (
        0,
        "# a rebuilt slot is reported by each shard
# With its last row the slot is in sync in the shard, which reports it; the array is whole once both shards have.
array 4 1 16 2 2 -> array
fail 1 -> degraded
attach 1 -> generation 1
look 0 -> looked
look 1 -> looked
turn 0 check -> skipped
turn 0 rebuild -> started | 0:0 read slot 2 gen 0 row 0 | 0:1 read slot 3 gen 0 row 0
do 0:0 -> taken
do 0:1 -> taken | 0:2 write slot 1 gen 1 row 0 00
tell 0 -> nothing
do 0:2 -> taken
look 0 -> refused 8 UntoldFirst
tell 0 -> report_rebuilt 1 1: more
turn 0 rebuild -> refused 10 NothingToDo
turn 0 check -> started | 0:3 read slot 1 gen 1 row 0 | 0:4 read slot 2 gen 0 row 0 | 0:5 read slot 3 gen 0 row 0 | 0:6 read slot 0 gen 0 row 0
turn 1 rebuild -> started | 1:0 read slot 0 gen 0 row 1 | 1:1 read slot 2 gen 0 row 1
do 1:0 -> taken
do 1:1 -> taken | 1:2 write slot 1 gen 1 row 1 00
do 1:2 -> taken
tell 1 -> report_rebuilt 1 1: complete
attach 1 -> refused 4 NotLost
",
    ),
    (
        0,
        "# a report of a replaced device is stale
# The device is replaced before the shard reports it: the report is refused, and the next device begins with no row.
array 4 1 16 1 1 -> array
fail 1 -> degraded
attach 1 -> generation 1
look 0 -> looked
turn 0 rebuild -> started | 0:0 read slot 2 gen 0 row 0 | 0:1 read slot 3 gen 0 row 0
do 0:0 -> taken
do 0:1 -> taken | 0:2 write slot 1 gen 1 row 0 00
do 0:2 -> taken
fail 1 -> degraded
attach 1 -> generation 2
tell 0 -> report_rebuilt 1 1: refused 3 Stale
look 0 -> looked
turn 0 rebuild -> started | 0:3 read slot 2 gen 0 row 0 | 0:4 read slot 3 gen 0 row 0
",
    ),
    (
        0,
        "# a rebuild whose device is lost is given up
# The reads of a row whose new device is lost come home, and nothing is written.
array 4 1 16 2 1 -> array
fail 1 -> degraded
attach 1 -> generation 1
look 0 -> looked
turn 0 rebuild -> started | 0:0 read slot 2 gen 0 row 0 | 0:1 read slot 3 gen 0 row 0
do 0:0 -> taken
fail 1 -> degraded
look 0 -> looked
do 0:1 -> taken
turn 0 rebuild -> refused 10 NothingToDo
attach 1 -> generation 2
look 0 -> looked
turn 0 rebuild -> started | 0:2 read slot 2 gen 0 row 0 | 0:3 read slot 3 gen 0 row 0
do 0:2 -> taken
do 0:3 -> taken | 0:4 write slot 1 gen 2 row 0 00
answer 0:4 error -> taken
tell 0 -> declare_lost 1 2: degraded
tell 0 -> nothing
",
    ),
];

pub(crate) fn rebuilds() -> &'static [Transcript<'static>] {
    REBUILDS
}
