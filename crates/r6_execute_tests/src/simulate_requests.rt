//! Transcripts of requests whose devices answer without an error.

use crate::transcripts::Transcript;

const REQUESTS: &[Transcript<'static>] = &[
    (
        0,
        "# a write waits for its last block and is read back
array 4 1 16 4 1 -> array
write 0 5a -> op 0:0 | 0:0 read slot 2 gen 0 row 0
do 0:0 -> taken | 0:1 write slot 1 gen 0 row 0 5a | 0:2 write slot 3 gen 0 row 0 5a | 0:3 write slot 0 gen 0 row 0 5a
do 0:2 -> taken
do 0:1 -> taken
look 0 -> looked
do 0:3 -> taken
look 0 -> looked | reply 0:0 done
read 0 -> op 0:1 | 0:4 read slot 1 gen 0 row 0
do 0:4 -> taken
look 0 -> looked | reply 0:1 data 5a
",
    ),
    (
        0,
        "# a later row may end first
array 4 1 16 4 1 -> array
write 0 5a -> op 0:0 | 0:0 read slot 2 gen 0 row 0
write 2 a5 -> op 0:1 | 0:1 read slot 1 gen 0 row 1
do 0:1 -> taken | 0:2 write slot 0 gen 0 row 1 a5 | 0:3 write slot 2 gen 0 row 1 a5 | 0:4 write slot 3 gen 0 row 1 a5
do 0:2 -> taken
do 0:3 -> taken
do 0:4 -> taken
look 0 -> looked | reply 0:1 done
do 0:0 -> taken | 0:5 write slot 1 gen 0 row 0 5a | 0:6 write slot 3 gen 0 row 0 5a | 0:7 write slot 0 gen 0 row 0 5a
do 0:5 -> taken
do 0:6 -> taken
do 0:7 -> taken
look 0 -> looked | reply 0:0 done
",
    ),
    (
        0,
        "# writes that wait for a row are written together: the second hold takes the oldest write of each block
array 4 1 16 4 1 -> array
write 0 11 -> op 0:0 | 0:0 read slot 2 gen 0 row 0
write 1 22 -> op 0:1
write 0 33 -> op 0:2
write 1 44 -> op 0:3
do 0:0 -> taken | 0:1 write slot 1 gen 0 row 0 11 | 0:2 write slot 3 gen 0 row 0 11 | 0:3 write slot 0 gen 0 row 0 11
do 0:1 -> taken
do 0:2 -> taken
do 0:3 -> taken | 0:4 write slot 1 gen 0 row 0 33 | 0:5 write slot 2 gen 0 row 0 22 | 0:6 write slot 3 gen 0 row 0 11 | 0:7 write slot 0 gen 0 row 0 77
do 0:4 -> taken
do 0:5 -> taken
do 0:6 -> taken
do 0:7 -> taken | 0:8 read slot 1 gen 0 row 0
do 0:8 -> taken | 0:9 write slot 2 gen 0 row 0 44 | 0:10 write slot 3 gen 0 row 0 77 | 0:11 write slot 0 gen 0 row 0 bb
do 0:9 -> taken
do 0:10 -> taken
do 0:11 -> taken
look 0 -> looked | reply 0:0 done | reply 0:1 done | reply 0:2 done | reply 0:3 done
read 0 -> op 0:4 | 0:12 read slot 1 gen 0 row 0
read 1 -> op 0:5 | 0:13 read slot 2 gen 0 row 0
do 0:12 -> taken
do 0:13 -> taken
look 0 -> looked | reply 0:4 data 33 | reply 0:5 data 44
",
    ),
    (
        0,
        "# each shard has its own numbers
# Blocks 0 to 3 stand in the rows of shard 0, blocks 4 to 7 in those of shard 1. The second data block goes into Q
# times 2.
array 4 1 16 4 2 -> array
read 0 -> op 0:0 | 0:0 read slot 1 gen 0 row 0
read 4 -> op 1:0 | 1:0 read slot 3 gen 0 row 2
do 1:0 -> taken
look 0 -> looked
look 1 -> looked | reply 1:0 data 00
do 1:0 -> no such command
do 0:0 -> taken
look 0 -> looked | reply 0:0 data 00
write 5 5a -> op 1:1 | 1:1 read slot 3 gen 0 row 2
do 1:1 -> taken | 1:2 write slot 0 gen 0 row 2 5a | 1:3 write slot 1 gen 0 row 2 5a | 1:4 write slot 2 gen 0 row 2 b4
",
    ),
    (
        0,
        "# what is not there is named
# What was refused got no number.
array 4 1 16 4 1 -> array
look 1 -> no such shard
perform 1:0 -> no such shard
do 18446744073709551615:0 -> no such shard
answer 1:0 ok -> no such shard
read 8 -> refused 1 NoSuchBlock
write 18446744073709551615 ff -> refused 1 NoSuchBlock
read 7 -> op 0:0 | 0:0 read slot 3 gen 0 row 3
",
    ),
];

pub(crate) fn requests() -> &'static [Transcript<'static>] {
    REQUESTS
}

const COMPLETIONS: &[Transcript<'static>] = &[
    (
        0,
        "# a command is performed once and answered once
array 4 1 16 4 1 -> array
read 0 -> op 0:0 | 0:0 read slot 1 gen 0 row 0
answer 0:0 ok -> not performed
perform 0:0 -> performed
perform 0:0 -> performed already
do 0:0 -> performed already
answer 0:0 ok -> taken
perform 0:0 -> no such command
do 0:0 -> no such command
answer 0:0 ok -> refused 7 UnknownToken
answer 0:18446744073709551615 ok -> refused 7 UnknownToken
look 0 -> looked | reply 0:0 data 00
look 0 -> looked
",
    ),
    (
        0,
        "# completions that come in reverse and twice change no reply
# Two writes and the reads of their blocks, each run to its reply; 57 is a5 times 2. What is out at one time is
# answered in reverse order, and every completion comes twice.
array 4 1 16 4 1 -> array
write 0 5a -> op 0:0 | 0:0 read slot 2 gen 0 row 0
do 0:0 -> taken | 0:1 write slot 1 gen 0 row 0 5a | 0:2 write slot 3 gen 0 row 0 5a | 0:3 write slot 0 gen 0 row 0 5a
answer 0:0 ok -> refused 7 UnknownToken
do 0:3 -> taken
answer 0:3 ok -> refused 7 UnknownToken
do 0:2 -> taken
answer 0:2 error -> refused 7 UnknownToken
do 0:1 -> taken
answer 0:1 ok -> refused 7 UnknownToken
tell 0 -> nothing
look 0 -> looked | reply 0:0 done
write 5 a5 -> op 0:1 | 0:4 read slot 3 gen 0 row 2
do 0:4 -> taken | 0:5 write slot 0 gen 0 row 2 a5 | 0:6 write slot 1 gen 0 row 2 a5 | 0:7 write slot 2 gen 0 row 2 57
answer 0:4 error -> refused 7 UnknownToken
do 0:7 -> taken
answer 0:7 ok -> refused 7 UnknownToken
do 0:6 -> taken
answer 0:6 ok -> refused 7 UnknownToken
do 0:5 -> taken
answer 0:5 error -> refused 7 UnknownToken
tell 0 -> nothing
look 0 -> looked | reply 0:1 done
read 0 -> op 0:2 | 0:8 read slot 1 gen 0 row 0
do 0:8 -> taken
answer 0:8 ok -> refused 7 UnknownToken
tell 0 -> nothing
look 0 -> looked | reply 0:2 data 5a
read 5 -> op 0:3 | 0:9 read slot 0 gen 0 row 2
do 0:9 -> taken
answer 0:9 error -> refused 7 UnknownToken
tell 0 -> nothing
look 0 -> looked | reply 0:3 data a5
",
    ),
    (
        0,
        "# a completion that stays away keeps back its row alone
# The last block of the first write is never answered, and the write to its row waits; a read of it doesn't.
array 4 1 16 4 1 -> array
write 0 5a -> op 0:0 | 0:0 read slot 2 gen 0 row 0
do 0:0 -> taken | 0:1 write slot 1 gen 0 row 0 5a | 0:2 write slot 3 gen 0 row 0 5a | 0:3 write slot 0 gen 0 row 0 5a
do 0:1 -> taken
do 0:2 -> taken
perform 0:3 -> performed
look 0 -> looked
write 5 a5 -> op 0:1 | 0:4 read slot 3 gen 0 row 2
do 0:4 -> taken | 0:5 write slot 0 gen 0 row 2 a5 | 0:6 write slot 1 gen 0 row 2 a5 | 0:7 write slot 2 gen 0 row 2 57
do 0:7 -> taken
do 0:6 -> taken
do 0:5 -> taken
look 0 -> looked | reply 0:1 done
write 1 11 -> op 0:2
look 0 -> looked
read 0 -> op 0:3 | 0:8 read slot 1 gen 0 row 0
read 5 -> op 0:4 | 0:9 read slot 0 gen 0 row 2
do 0:9 -> taken
do 0:8 -> taken
look 0 -> looked | reply 0:4 data a5 | reply 0:3 data 5a
tell 0 -> nothing
look 0 -> looked
",
    ),
    (
        0,
        "# a read without its completion has no reply
# A read whose completion stays away has no reply, and the others have theirs.
array 4 1 16 4 1 -> array
read 0 -> op 0:0 | 0:0 read slot 1 gen 0 row 0
read 5 -> op 0:1 | 0:1 read slot 0 gen 0 row 2
write 2 a5 -> op 0:2 | 0:2 read slot 1 gen 0 row 1
do 0:2 -> taken | 0:3 write slot 0 gen 0 row 1 a5 | 0:4 write slot 2 gen 0 row 1 a5 | 0:5 write slot 3 gen 0 row 1 a5
do 0:5 -> taken
do 0:4 -> taken
do 0:3 -> taken
perform 0:0 -> performed
do 0:1 -> taken
look 0 -> looked | reply 0:2 done | reply 0:1 data 00
look 0 -> looked
",
    ),
];

pub(crate) fn completions() -> &'static [Transcript<'static>] {
    COMPLETIONS
}
