//! Transcripts of losses: by errors, and by calls of the register.

use crate::transcripts::Transcript;

const SURVIVED: &[Transcript<'static>] = &[
    (
        0,
        "# a write outlives the device that confirmed it
# The device of block 0 confirms the new block and is failed; P and Q then have it. `examples/loss.script` is this
# course.
array 4 1 16 4 1 -> array
write 0 5a -> op 0:0 | 0:0 read slot 2 gen 0 row 0
do 0:0 -> taken | 0:1 write slot 1 gen 0 row 0 5a | 0:2 write slot 3 gen 0 row 0 5a | 0:3 write slot 0 gen 0 row 0 5a
do 0:1 -> taken
fail 1 -> degraded
look 0 -> looked
do 0:2 -> taken
do 0:3 -> taken
look 0 -> looked | reply 0:0 done
read 0 -> op 0:1 | 0:4 read slot 2 gen 0 row 0 | 0:5 read slot 3 gen 0 row 0
do 0:4 -> taken
do 0:5 -> taken
look 0 -> looked | reply 0:1 data 5a
",
    ),
    (
        0,
        "# a block that can't be read is written anew
# The direct read meets an error, and so does that of the hold. The other block and P give the block, which is written
# and read again. No slot is lost.
array 4 1 16 4 1 -> array
write 0 5a -> op 0:0 | 0:0 read slot 2 gen 0 row 0
do 0:0 -> taken | 0:1 write slot 1 gen 0 row 0 5a | 0:2 write slot 3 gen 0 row 0 5a | 0:3 write slot 0 gen 0 row 0 5a
do 0:1 -> taken
do 0:2 -> taken
do 0:3 -> taken
look 0 -> looked | reply 0:0 done
read 0 -> op 0:1 | 0:4 read slot 1 gen 0 row 0
do 0:4 -> taken
look 0 -> looked | reply 0:1 data 5a
read 0 -> op 0:2 | 0:5 read slot 1 gen 0 row 0
answer 0:5 error -> taken | 0:6 read slot 1 gen 0 row 0
answer 0:6 error -> taken | 0:7 read slot 2 gen 0 row 0 | 0:8 read slot 3 gen 0 row 0
do 0:7 -> taken
do 0:8 -> taken | 0:9 write slot 1 gen 0 row 0 5a
do 0:9 -> taken | 0:10 read slot 1 gen 0 row 0
do 0:10 -> taken
look 0 -> looked | reply 0:2 data 5a
tell 0 -> nothing
",
    ),
    (
        0,
        "# a block that can't be read again loses its slot
# The same up to the second read of the hold. The read has its block without it.
array 4 1 16 4 1 -> array
write 0 5a -> op 0:0 | 0:0 read slot 2 gen 0 row 0
do 0:0 -> taken | 0:1 write slot 1 gen 0 row 0 5a | 0:2 write slot 3 gen 0 row 0 5a | 0:3 write slot 0 gen 0 row 0 5a
do 0:1 -> taken
do 0:2 -> taken
do 0:3 -> taken
look 0 -> looked | reply 0:0 done
read 0 -> op 0:1 | 0:4 read slot 1 gen 0 row 0
answer 0:4 error -> taken | 0:5 read slot 1 gen 0 row 0
answer 0:5 error -> taken | 0:6 read slot 2 gen 0 row 0 | 0:7 read slot 3 gen 0 row 0
do 0:6 -> taken
do 0:7 -> taken | 0:8 write slot 1 gen 0 row 0 5a
do 0:8 -> taken | 0:9 read slot 1 gen 0 row 0
answer 0:9 error -> taken
look 0 -> refused 8 UntoldFirst
tell 0 -> declare_lost 1 0: degraded
look 0 -> looked | reply 0:1 data 5a
",
    ),
    (
        0,
        "# a write that reads what it replaces fixes P
# Of five data blocks one is written, and its old block, P and Q are read. P can't be: it is made anew of the first five
# blocks that are known, as it was before the write. Then it is written with the others. P is 22 + 5a, and Q 02 22 + 5a.
array 7 1 16 7 1 -> array
write 1 22 -> op 0:0 | 0:0 read slot 2 gen 0 row 0 | 0:1 read slot 6 gen 0 row 0 | 0:2 read slot 0 gen 0 row 0
do 0:0 -> taken
do 0:1 -> taken
do 0:2 -> taken | 0:3 write slot 2 gen 0 row 0 22 | 0:4 write slot 6 gen 0 row 0 22 | 0:5 write slot 0 gen 0 row 0 44
do 0:3 -> taken
do 0:4 -> taken
do 0:5 -> taken
look 0 -> looked | reply 0:0 done
write 0 5a -> op 0:1 | 0:6 read slot 1 gen 0 row 0 | 0:7 read slot 6 gen 0 row 0 | 0:8 read slot 0 gen 0 row 0
answer 0:7 error -> taken | 0:9 read slot 2 gen 0 row 0 | 0:10 read slot 3 gen 0 row 0 | 0:11 read slot 4 gen 0 row 0
do 0:6 -> taken
do 0:8 -> taken
do 0:9 -> taken
do 0:10 -> taken
do 0:11 -> taken | 0:12 write slot 6 gen 0 row 0 22
do 0:12 -> taken | 0:13 read slot 6 gen 0 row 0
do 0:13 -> taken | 0:14 write slot 1 gen 0 row 0 5a | 0:15 write slot 6 gen 0 row 0 78 | 0:16 write slot 0 gen 0 row 0 1e
do 0:14 -> taken
do 0:15 -> taken
do 0:16 -> taken
look 0 -> looked | reply 0:1 done
tell 0 -> nothing
",
    ),
    (
        0,
        "# two errors lose no block
# Both data blocks of a row are lost, and P and Q hold it alone. `examples/two_losses.script` is this course. P is
# 5a + a5, and Q 5a + 02 a5, where 02 a5 is 57.
array 4 1 16 4 1 -> array
write 0 5a -> op 0:0 | 0:0 read slot 2 gen 0 row 0
do 0:0 -> taken | 0:1 write slot 1 gen 0 row 0 5a | 0:2 write slot 3 gen 0 row 0 5a | 0:3 write slot 0 gen 0 row 0 5a
do 0:1 -> taken
do 0:2 -> taken
do 0:3 -> taken
look 0 -> looked | reply 0:0 done
read 0 -> op 0:1 | 0:4 read slot 1 gen 0 row 0
answer 0:4 gone -> taken | 0:5 read slot 2 gen 0 row 0 | 0:6 read slot 3 gen 0 row 0
answer 0:5 gone -> taken | 0:7 read slot 0 gen 0 row 0
look 0 -> refused 8 UntoldFirst
tell 0 -> declare_lost 1 0: degraded
tell 0 -> declare_lost 2 0: degraded
tell 0 -> nothing
do 0:6 -> taken
do 0:7 -> taken
look 0 -> looked | reply 0:1 data 5a
write 1 a5 -> op 0:2 | 0:8 read slot 3 gen 0 row 0 | 0:9 read slot 0 gen 0 row 0
do 0:8 -> taken
do 0:9 -> taken | 0:10 write slot 3 gen 0 row 0 ff | 0:11 write slot 0 gen 0 row 0 0d
do 0:10 -> taken
do 0:11 -> taken
look 0 -> looked | reply 0:2 done
read 1 -> op 0:3 | 0:12 read slot 3 gen 0 row 0 | 0:13 read slot 0 gen 0 row 0
do 0:12 -> taken
do 0:13 -> taken
look 0 -> looked | reply 0:3 data a5
",
    ),
    (
        0,
        "# a read waits again for the row when its device is lost
# The read's own device is asked before it has written the block, and lost before it answers: the block is made of
# the others when the write has ended.
array 4 1 16 4 1 -> array
write 0 5a -> op 0:0 | 0:0 read slot 2 gen 0 row 0
read 0 -> op 0:1 | 0:1 read slot 1 gen 0 row 0
perform 0:1 -> performed
do 0:0 -> taken | 0:2 write slot 1 gen 0 row 0 5a | 0:3 write slot 3 gen 0 row 0 5a | 0:4 write slot 0 gen 0 row 0 5a
fail 1 -> degraded
look 0 -> looked
answer 0:1 ok -> late
do 0:2 -> late
do 0:3 -> taken
do 0:4 -> taken | 0:5 read slot 2 gen 0 row 0 | 0:6 read slot 3 gen 0 row 0
do 0:5 -> taken
do 0:6 -> taken
look 0 -> looked | reply 0:0 done | reply 0:1 data 5a
",
    ),
    (
        0,
        "# a device that is gone is lost at a read and at a write
# The write restores block 1 from block 0 and P. Slot 1 has the new block and is gone, and P and Q then have it.
array 4 1 16 4 1 -> array
write 0 5a -> op 0:0 | 0:0 read slot 2 gen 0 row 0
answer 0:0 gone -> taken | 0:1 read slot 1 gen 0 row 0 | 0:2 read slot 3 gen 0 row 0
answer 0:0 gone -> refused 7 UnknownToken
do 0:1 -> taken
do 0:2 -> taken | 0:3 write slot 1 gen 0 row 0 5a | 0:4 write slot 3 gen 0 row 0 5a | 0:5 write slot 0 gen 0 row 0 5a
perform 0:3 -> performed
answer 0:3 gone -> taken
tell 0 -> declare_lost 2 0: degraded
tell 0 -> declare_lost 1 0: degraded
tell 0 -> nothing
do 0:4 -> taken
do 0:5 -> taken
look 0 -> looked | reply 0:0 done
read 0 -> op 0:1 | 0:6 read slot 3 gen 0 row 0 | 0:7 read slot 0 gen 0 row 0
do 0:6 -> taken
do 0:7 -> taken
look 0 -> looked | reply 0:1 data 5a
",
    ),
];

pub(crate) fn survived() -> &'static [Transcript<'static>] {
    SURVIVED
}

const FATAL: &[Transcript<'static>] = &[
    (
        1,
        "# a read beside a write is answered before the array fails
# Block 0 is read when its own device has written it, and P and Q aren't written. Then three slots fail: the read
# was answered, and the write is `failed`. `examples/direct_read.script` is this course.
array 4 1 16 4 1 -> array
write 0 5a -> op 0:0 | 0:0 read slot 2 gen 0 row 0
do 0:0 -> taken | 0:1 write slot 1 gen 0 row 0 5a | 0:2 write slot 3 gen 0 row 0 5a | 0:3 write slot 0 gen 0 row 0 5a
perform 0:1 -> performed
read 0 -> op 0:1 | 0:4 read slot 1 gen 0 row 0
do 0:4 -> taken
look 0 -> looked | reply 0:1 data 5a
fail 0 -> degraded
fail 2 -> degraded
fail 3 -> failed
look 0 -> looked | reply 0:0 failed
read 0 -> refused 5 ArrayFailed
",
    ),
    (
        1,
        "# three losses found by two shards fail the array
# `examples/third_loss.script` is this course.
array 4 1 16 4 2 -> array
read 0 -> op 0:0 | 0:0 read slot 1 gen 0 row 0
answer 0:0 gone -> taken | 0:1 read slot 2 gen 0 row 0 | 0:2 read slot 3 gen 0 row 0
answer 0:1 gone -> taken | 0:3 read slot 0 gen 0 row 0
read 4 -> op 1:0 | 1:0 read slot 3 gen 0 row 2
answer 1:0 gone -> taken | 1:1 read slot 0 gen 0 row 2 | 1:2 read slot 1 gen 0 row 2
look 0 -> refused 8 UntoldFirst
tell 0 -> declare_lost 1 0: degraded
tell 0 -> declare_lost 2 0: degraded
tell 1 -> declare_lost 3 0: failed
look 0 -> looked | reply 0:0 failed
look 1 -> looked | reply 1:0 failed
read 0 -> refused 5 ArrayFailed
",
    ),
    (
        1,
        "# three errors in three requests fail the last
# One error in the first write, one in the second and one in a read. The second write restores the block of slot 3
# from the other data block and Q.
array 4 1 16 4 1 -> array
write 0 5a -> op 0:0 | 0:0 read slot 2 gen 0 row 0
do 0:0 -> taken | 0:1 write slot 1 gen 0 row 0 5a | 0:2 write slot 3 gen 0 row 0 5a | 0:3 write slot 0 gen 0 row 0 5a
answer 0:1 error -> taken
do 0:2 -> taken
do 0:3 -> taken
look 0 -> refused 8 UntoldFirst
tell 0 -> declare_lost 1 0: degraded
look 0 -> looked | reply 0:0 done
write 5 a5 -> op 0:1 | 0:4 read slot 3 gen 0 row 2
answer 0:4 gone -> taken | 0:5 read slot 0 gen 0 row 2 | 0:6 read slot 2 gen 0 row 2
do 0:6 -> taken
do 0:5 -> taken | 0:7 write slot 0 gen 0 row 2 a5 | 0:8 write slot 2 gen 0 row 2 57
do 0:8 -> taken
do 0:7 -> taken
tell 0 -> declare_lost 3 0: degraded
look 0 -> looked | reply 0:1 done
read 0 -> op 0:2 | 0:9 read slot 2 gen 0 row 0 | 0:10 read slot 0 gen 0 row 0
answer 0:9 gone -> taken
do 0:10 -> late
tell 0 -> declare_lost 2 0: failed
look 0 -> looked | reply 0:2 failed
read 5 -> refused 5 ArrayFailed
write 0 5a -> refused 5 ArrayFailed
look 0 -> looked
",
    ),
    (
        1,
        "# three errors in one write fail it
array 4 1 16 4 1 -> array
write 0 5a -> op 0:0 | 0:0 read slot 2 gen 0 row 0
do 0:0 -> taken | 0:1 write slot 1 gen 0 row 0 5a | 0:2 write slot 3 gen 0 row 0 5a | 0:3 write slot 0 gen 0 row 0 5a
answer 0:3 error -> taken
answer 0:2 error -> taken
answer 0:1 error -> taken
read 5 -> op 0:1
tell 0 -> declare_lost 0 0: degraded
tell 0 -> declare_lost 3 0: degraded
tell 0 -> declare_lost 1 0: failed
tell 0 -> nothing
look 0 -> looked | reply 0:0 failed | reply 0:1 failed
write 5 a5 -> refused 5 ArrayFailed
",
    ),
    (
        1,
        "# three errors in two reads fail the second
# Both writes and the first read are answered; two errors find the second read, whose data block and P are lost by
# then.
array 4 1 16 4 1 -> array
write 0 5a -> op 0:0 | 0:0 read slot 2 gen 0 row 0
do 0:0 -> taken | 0:1 write slot 1 gen 0 row 0 5a | 0:2 write slot 3 gen 0 row 0 5a | 0:3 write slot 0 gen 0 row 0 5a
do 0:1 -> taken
do 0:2 -> taken
do 0:3 -> taken
look 0 -> looked | reply 0:0 done
write 5 a5 -> op 0:1 | 0:4 read slot 3 gen 0 row 2
do 0:4 -> taken | 0:5 write slot 0 gen 0 row 2 a5 | 0:6 write slot 1 gen 0 row 2 a5 | 0:7 write slot 2 gen 0 row 2 57
do 0:5 -> taken
do 0:6 -> taken
do 0:7 -> taken
look 0 -> looked | reply 0:1 done
read 0 -> op 0:2 | 0:8 read slot 1 gen 0 row 0
answer 0:8 gone -> taken | 0:9 read slot 2 gen 0 row 0 | 0:10 read slot 3 gen 0 row 0
do 0:9 -> taken
do 0:10 -> taken
tell 0 -> declare_lost 1 0: degraded
look 0 -> looked | reply 0:2 data 5a
read 5 -> op 0:3 | 0:11 read slot 0 gen 0 row 2
answer 0:11 gone -> taken | 0:12 read slot 3 gen 0 row 2 | 0:13 read slot 2 gen 0 row 2
answer 0:12 gone -> taken
tell 0 -> declare_lost 0 0: degraded
tell 0 -> declare_lost 3 0: failed
do 0:13 -> late
look 0 -> looked | reply 0:3 failed
write 0 5a -> refused 5 ArrayFailed
",
    ),
];

pub(crate) fn fatal() -> &'static [Transcript<'static>] {
    FATAL
}

const LATE: &str = "# completions are doubled, of no command and late
# The second read starts again when a look finds its slot lost, and holds the row from then on.
array 4 1 16 4 1 -> array
read 0 -> op 0:0 | 0:0 read slot 1 gen 0 row 0
do 0:0 -> taken
answer 0:0 ok -> refused 7 UnknownToken
answer 0:999999 ok -> refused 7 UnknownToken
read 0 -> op 0:1 | 0:1 read slot 1 gen 0 row 0
perform 0:1 -> performed
fail 1 -> degraded
look 0 -> looked | reply 0:0 data 00 | 0:2 read slot 2 gen 0 row 0 | 0:3 read slot 3 gen 0 row 0
answer 0:1 ok -> late";

pub(crate) fn late() -> &'static str {
    LATE
}

const CALLS: &[Transcript<'static>] = &[
    (
        1,
        "# completions are late doubled or of no command
# A read whose slot a look finds lost starts again, and what the lost device answers then is late.
array 4 1 16 4 1 -> array
read 0 -> op 0:0 | 0:0 read slot 1 gen 0 row 0
do 0:0 -> taken
answer 0:0 ok -> refused 7 UnknownToken
answer 0:0 error -> refused 7 UnknownToken
answer 0:0 gone -> refused 7 UnknownToken
answer 0:999999 ok -> refused 7 UnknownToken
answer 0:999999 error -> refused 7 UnknownToken
answer 0:999999 gone -> refused 7 UnknownToken
read 0 -> op 0:1 | 0:1 read slot 1 gen 0 row 0
perform 0:1 -> performed
fail 1 -> degraded
look 0 -> looked | reply 0:0 data 00 | 0:2 read slot 2 gen 0 row 0 | 0:3 read slot 3 gen 0 row 0
answer 0:1 ok -> late
answer 0:2 gone -> taken | 0:4 read slot 0 gen 0 row 0
fail 3 -> degraded
tell 0 -> declare_lost 2 0: failed
answer 0:3 gone -> taken
tell 0 -> declare_lost 3 0: refused 5 ArrayFailed
answer 0:4 error -> late
look 0 -> looked | reply 0:1 failed
",
    ),
    (
        1,
        "# the register answers each call
# The shard lost the device that has been replaced since. A slot with a new device counts as out until it is
# rebuilt.
array 4 1 16 4 1 -> array
fail 4 -> refused 1 NoSuchSlot
attach 18446744073709551615 -> refused 1 NoSuchSlot
attach 0 -> refused 4 NotLost
read 0 -> op 0:0 | 0:0 read slot 1 gen 0 row 0
answer 0:0 gone -> taken | 0:1 read slot 2 gen 0 row 0 | 0:2 read slot 3 gen 0 row 0
fail 1 -> degraded
fail 1 -> refused 2 AlreadyLost
attach 1 -> generation 1
attach 1 -> refused 4 NotLost
tell 0 -> declare_lost 1 0: refused 3 Stale
tell 0 -> nothing
tell 1 -> no such shard
fail 1 -> degraded
attach 1 -> generation 2
answer 0:1 gone -> taken | 0:3 read slot 0 gen 0 row 0
fail 2 -> degraded
tell 0 -> declare_lost 2 0: refused 2 AlreadyLost
look 0 -> looked
do 0:2 -> taken
do 0:3 -> taken
look 0 -> looked | reply 0:0 data 00
fail 0 -> failed
fail 3 -> refused 5 ArrayFailed
attach 0 -> refused 5 ArrayFailed
",
    ),
];

pub(crate) fn calls() -> &'static [Transcript<'static>] {
    CALLS
}
