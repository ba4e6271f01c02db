//! Whole traces in which cancellations, pins, advances and swaps of two queries stand in different orders.

use crate::trial::compare_all;
use std::test::Fail;

// What a trace shows, its further words, its lines, and what is written.
static SCRIPTS: [(&str, &str, &str, &str); 9] = [
    (
        "Two queries on different prefixes, the later pinned first: each answers its own.",
        "--shards 1",
        "commit 1 add 1 00\n\
         commit 1 add 2 0f\n\
         open 1 range 8 00\n\
         commit 1 add 3 ff\n\
         commit 1 add 4 01\n\
         open 2 range 8 00\n\
         give 0\n\
         pin 1 0\n\
         pin 0 0\n\
         advance 0 0\n\
         give 0\n\
         poll 0 0 65536\n\
         give 0\n\
         give 0\n\
         give 0\n\
         poll 1 0 65536\n\
         give 1\n\
         give 1\n\
         cancel 1\n\
         give 1\n\
         give 2\n\
         swap 0\n",
        "added 1 at 1\n\
         added 2 at 2\n\
         query 0 at 2\n\
         added 3 at 3\n\
         added 4 at 4\n\
         query 1 at 4\n\
         no pin\n\
         pinned 1 left 0\n\
         pinned 0 left 0\n\
         no front\n\
         notyet 0\n\
         polled ended\n\
         hit 0 0 1\n\
         hit 0 4 2\n\
         end 0 2\n\
         polled ended\n\
         hit 1 0 1\n\
         hit 1 1 4\n\
         cancelled 1 2\n\
         closed\n\
         no query\n\
         no build\n",
    ),
    (
        "A build is overtaken by its shard's history, follows it, and is overtaken by it as the shard stays behind.",
        "--shards 1",
        "commit 1 add 1 00\n\
         open 1 range 8 00\n\
         advance 0 0\n\
         repart 0 0,2,4,6/1,3,5,7\n\
         swap 0\n\
         commit 1 add 2 0f\n\
         open 1 range 8 00\n\
         build 0 9\n\
         follow 0\n\
         swap 0\n\
         pin 1 0\n\
         swap 0\n\
         pin 0 0\n\
         poll 0 0 65536\n\
         give 0\n\
         give 0\n",
        "added 1 at 1\n\
         query 0 at 1\n\
         shard 0 at 1\n\
         built 0 left 1\n\
         unready 1\n\
         added 2 at 2\n\
         query 1 at 2\n\
         built 0 left 0\n\
         followed 0 at 2\n\
         moved 1\n\
         pinned 1 left 0\n\
         swapped 0 at 2\n\
         pinned 0 left 0\n\
         polled ended\n\
         hit 0 0 1\n\
         end 0 1\n",
    ),
    (
        "A query is cancelled before any pin.",
        "--shards 1",
        "commit 1 add 1 00\n\
         open 1 range 8 00\n\
         cancel 0\n\
         pin 0 0\n\
         advance 0 0\n\
         poll 0 0 1\n\
         give 0\n\
         cancel 0\n\
         open 1 range 8 00\n\
         pin 1 0\n\
         poll 1 0 65536\n\
         give 1\n\
         give 1\n",
        "added 1 at 1\n\
         query 0 at 1\n\
         cancelled 0 0\n\
         closed\n\
         closed\n\
         closed\n\
         closed\n\
         closed\n\
         query 1 at 1\n\
         pinned 1 left 0\n\
         polled ended\n\
         hit 1 0 1\n\
         end 1 1\n",
    ),
    (
        "A query is cancelled between a poll and the hit that waits.",
        "--shards 1",
        "commit 1 add 1 00\n\
         commit 1 add 2 0f\n\
         open 1 range 8 00\n\
         pin 0 0\n\
         poll 0 0 65536\n\
         cancel 0\n\
         give 0\n\
         poll 0 0 65536\n",
        "added 1 at 1\n\
         added 2 at 2\n\
         query 0 at 2\n\
         pinned 0 left 0\n\
         polled ended\n\
         cancelled 0 0\n\
         closed\n\
         closed\n",
    ),
    (
        "A query is cancelled between two hits.",
        "--shards 1",
        "commit 1 add 1 00\n\
         commit 1 add 2 0f\n\
         open 1 range 8 00\n\
         pin 0 0\n\
         poll 0 0 65536\n\
         give 0\n\
         cancel 0\n\
         give 0\n",
        "added 1 at 1\n\
         added 2 at 2\n\
         query 0 at 2\n\
         pinned 0 left 0\n\
         polled ended\n\
         hit 0 0 1\n\
         cancelled 0 1\n\
         closed\n",
    ),
    (
        "A layout is swapped in between the pins of two queries on one prefix.",
        "--shards 1",
        "commit 1 add 1 00\n\
         open 1 range 8 00\n\
         open 2 range 8 00\n\
         pin 0 0\n\
         repart 0 0,2,4,6/1,3,5,7\n\
         build 0 9\n\
         swap 0\n\
         pin 1 0\n\
         poll 0 0 65536\n\
         give 0\n\
         give 0\n\
         poll 1 0 65536\n\
         give 1\n\
         give 1\n",
        "added 1 at 1\n\
         query 0 at 1\n\
         query 1 at 1\n\
         pinned 0 left 0\n\
         built 0 left 1\n\
         built 0 left 0\n\
         swapped 0 at 1\n\
         pinned 1 left 0\n\
         polled ended\n\
         hit 0 0 1\n\
         end 0 1\n\
         polled ended\n\
         hit 1 0 1\n\
         end 1 1\n",
    ),
    (
        "A shard is pinned after the only older front was closed.",
        "--shards 1",
        "commit 1 add 1 00\n\
         open 1 range 8 00\n\
         commit 1 add 2 01\n\
         open 1 range 8 00\n\
         cancel 0\n\
         pin 1 0\n\
         pin 0 0\n\
         poll 1 0 65536\n\
         give 1\n\
         give 1\n\
         give 1\n",
        "added 1 at 1\n\
         query 0 at 1\n\
         added 2 at 2\n\
         query 1 at 2\n\
         cancelled 0 0\n\
         pinned 1 left 0\n\
         closed\n\
         polled ended\n\
         hit 1 0 1\n\
         hit 1 1 2\n\
         end 1 2\n",
    ),
    (
        "A later query brings the shard on over a deletion; the earlier one still has its version.",
        "--shards 1",
        "commit 1 add 1 00\n\
         commit 1 add 2 0f\n\
         open 1 range 8 00\n\
         commit 1 del 1\n\
         open 2 range 8 00\n\
         advance 1 0\n\
         pin 0 0\n\
         poll 0 0 65536\n\
         give 0\n\
         give 0\n\
         give 0\n\
         pin 1 0\n\
         poll 1 0 65536\n\
         give 1\n\
         give 1\n",
        "added 1 at 1\n\
         added 2 at 2\n\
         query 0 at 2\n\
         deleted 1 at 3\n\
         query 1 at 3\n\
         shard 0 at 3\n\
         pinned 0 left 0\n\
         polled ended\n\
         hit 0 0 1\n\
         hit 0 4 2\n\
         end 0 2\n\
         pinned 1 left 0\n\
         polled ended\n\
         hit 1 4 2\n\
         end 1 1\n",
    ),
    (
        "An older query's advance tells where the shard stands; a pin of a pinned shard changes nothing.",
        "--shards 1",
        "commit 1 add 1 00\n\
         open 1 range 0 00\n\
         commit 1 add 2 00\n\
         open 2 range 0 00\n\
         advance 1 0\n\
         advance 0 0\n\
         pin 0 0\n\
         advance 0 0\n\
         pin 0 0\n\
         pin 1 0\n\
         cancel 0\n\
         poll 1 0 65536\n\
         give 1\n\
         give 1\n\
         give 1\n",
        "added 1 at 1\n\
         query 0 at 1\n\
         added 2 at 2\n\
         query 1 at 2\n\
         shard 0 at 2\n\
         shard 0 at 2\n\
         pinned 0 left 0\n\
         no front\n\
         pinned 0 left 0\n\
         pinned 1 left 0\n\
         cancelled 0 0\n\
         polled ended\n\
         hit 1 0 1\n\
         hit 1 0 2\n\
         end 1 2\n",
    ),
];

#[test]
fn each_query_answers_its_own_prefix_in_every_order(rt: HostRuntime) -> Result<(), Fail> {
    compare_all(&rt, rt.alloc(), &SCRIPTS)
}
