//! Whole traces that show what events are told and for what they are refused.

use crate::trial::compare_all;
use std::test::Fail;

// What a trace shows, its further words, its lines, and what is written.
static SCRIPTS: [(&str, &str, &str, &str); 7] = [
    (
        "Each refusal comes before every later one.",
        "--shards 1",
        "advance 0 1\n\
         pin 0 1\n\
         poll 0 1 1\n\
         repart 1 0,1,2,3/4,5,6,7\n\
         build 1 1\n\
         follow 1\n\
         swap 1\n\
         advance 0 0\n\
         pin 0 0\n\
         poll 0 0 1\n\
         give 0\n\
         cancel 0\n\
         build 0 1\n\
         follow 0\n\
         swap 0\n\
         open 1 range 8 00\n\
         poll 0 0 1\n\
         give 0\n\
         cancel 0\n\
         poll 0 1 1\n\
         poll 0 0 1\n\
         advance 0 0\n\
         repart 0 0,2,4,6/1,3,5,7\n\
         repart 1 0,1,2,3/4,5,6,7\n\
         repart 0 0,1,2,3/4,5,6,7\n\
         commit 1 add 1 00\n\
         follow 0\n\
         swap 0\n\
         open 1 range 8 00\n\
         advance 1 0\n\
         swap 0\n\
         swap 0\n",
        "no shard\n\
         no shard\n\
         no shard\n\
         no shard\n\
         no shard\n\
         no shard\n\
         no shard\n\
         no query\n\
         no query\n\
         no query\n\
         no query\n\
         no query\n\
         no build\n\
         no build\n\
         no build\n\
         query 0 at 0\n\
         no pin\n\
         no pin\n\
         cancelled 0 0\n\
         no shard\n\
         closed\n\
         closed\n\
         built 0 left 0\n\
         no shard\n\
         has build\n\
         added 1 at 1\n\
         followed 0 at 1\n\
         moved 0\n\
         query 1 at 1\n\
         shard 0 at 1\n\
         swapped 0 at 1\n\
         no build\n",
    ),
    (
        "Rows that aren't placed are told before the shard's other position.",
        "--shards 1",
        "commit 1 add 1 00\n\
         open 1 range 8 00\n\
         advance 0 0\n\
         repart 0 0,2,4,6/1,3,5,7\n\
         commit 1 add 2 0f\n\
         open 1 range 8 00\n\
         advance 1 0\n\
         swap 0\n\
         follow 0\n\
         build 0 1\n\
         swap 0\n\
         follow 0\n\
         swap 0\n\
         pin 0 0\n\
         poll 0 0 65536\n\
         give 0\n\
         give 0\n",
        "added 1 at 1\n\
         query 0 at 1\n\
         shard 0 at 1\n\
         built 0 left 1\n\
         added 2 at 2\n\
         query 1 at 2\n\
         shard 0 at 2\n\
         unready 1\n\
         unready 1\n\
         built 0 left 0\n\
         moved 2\n\
         followed 0 at 2\n\
         swapped 0 at 2\n\
         pinned 0 left 0\n\
         polled ended\n\
         hit 0 0 1\n\
         end 0 1\n",
    ),
    (
        "No hit goes before every shard was polled, and a tie over shards goes by key.",
        "--shards 2",
        "commit 1 add 2 01\n\
         commit 1 add 3 02\n\
         open 1 range 8 00\n\
         pin 0 1\n\
         poll 0 1 65536\n\
         give 0\n\
         pin 0 1\n\
         advance 0 1\n\
         pin 0 0\n\
         advance 0 0\n\
         give 0\n\
         poll 0 1 65536\n\
         poll 0 1 65536\n\
         give 0\n\
         poll 0 0 65536\n\
         give 0\n\
         give 0\n\
         give 0\n",
        "added 2 at 1\n\
         added 3 at 2\n\
         query 0 at 2\n\
         pinned 0 left 1\n\
         no pin\n\
         no pin\n\
         pinned 0 left 1\n\
         shard 1 at 2\n\
         pinned 0 left 0\n\
         no front\n\
         notyet 0\n\
         polled ended\n\
         polled held\n\
         notyet 0\n\
         polled ended\n\
         hit 0 1 2\n\
         hit 0 1 3\n\
         end 0 2\n",
    ),
    (
        "An older query is cancelled while a later one has pinned one shard of two.",
        "--shards 2",
        "commit 1 add 2 00\n\
         open 1 range 8 00\n\
         commit 1 add 3 00\n\
         open 2 range 8 00\n\
         pin 1 0\n\
         cancel 0\n\
         pin 0 1\n\
         pin 1 1\n\
         poll 1 0 65536\n\
         poll 1 1 65536\n\
         give 1\n\
         give 1\n\
         give 1\n",
        "added 2 at 1\n\
         query 0 at 1\n\
         added 3 at 2\n\
         query 1 at 2\n\
         pinned 1 left 1\n\
         cancelled 0 0\n\
         closed\n\
         pinned 1 left 0\n\
         polled ended\n\
         polled ended\n\
         hit 1 0 2\n\
         hit 1 0 3\n\
         end 1 2\n",
    ),
    (
        "Queries on no rows have ended at their opening.",
        "--shards 1",
        "open 1 near 3 00\n\
         open 1 range 8 00\n\
         pin 0 0\n\
         poll 0 0 5\n\
         give 0\n\
         give 0\n\
         pin 1 0\n\
         poll 1 0 5\n\
         give 1\n\
         cancel 0\n\
         cancel 1\n",
        "query 0 at 0\n\
         query 1 at 0\n\
         pinned 0 left 0\n\
         polled held\n\
         end 0 0\n\
         end 0 0\n\
         pinned 1 left 0\n\
         polled held\n\
         end 1 0\n\
         cancelled 0 0\n\
         cancelled 1 0\n",
    ),
    (
        "Decisions on one history, by whichever session.",
        "--shards 1 --entries 2",
        "commit 1 add 1 00\n\
         commit 2 add 1 ff\n\
         commit 2 del 9\n\
         commit 2 add 2 0f\n\
         commit 1 add 3 ff\n\
         commit 1 del 1\n\
         commit 1 add 1 00\n\
         open 4294967295 range 4 00\n",
        "added 1 at 1\n\
         taken 1 at 1\n\
         absent 9 at 1\n\
         added 2 at 2\n\
         full at 2\n\
         full at 2\n\
         taken 1 at 2\n\
         query 0 at 2\n",
    ),
    (
        "A line that is no event changes nothing; one without a word isn't answered.",
        "--shards 1",
        "quit\n\
         commit 1 add 1\n\
         commit 1 put 1 00\n\
         commit 1 add 1 000\n\
         \n\
         open 1 range 9 00\n\
         open 1 range 8 00\n\
         give 100000\n\
         repart 0 0,1,2,3/4,5,6\n\
         give 1\n",
        "bad 3\n\
         bad 4\n\
         bad 5 3\n\
         bad 5 5\n\
         bad 5 4\n\
         query 0 at 0\n\
         bad 5 2\n\
         bad 5 3\n\
         no query\n",
    ),
];

#[test]
fn each_event_is_told_or_refused_by_the_rules(rt: HostRuntime) -> Result<(), Fail> {
    compare_all(&rt, rt.alloc(), &SCRIPTS)
}
