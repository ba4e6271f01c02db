//! What a query has read, and its plan.

ghost use Rattle.std.specs.Prelude.{◌≡◌, ◌<◌, [], length};
ghost use Rattle.query_protocol.specs.Replies.{line_of};
ghost use Rattle.open_queries.specs.Queries.{IsSame};
ghost use Rattle.open_queries.specs.Kept.{IsKept};
ghost use Rattle.open_queries.specs.Answers.{IsCost, WritesPlanOf};

use crate::open_query::OpenQuery;
use byte_lines::LineBuf;
use hamming_model::PARTS_MOST;
use hit_source::HitSource;
use query_protocol::{Reply, Tag, write_plan};

/// Tells what a query has read so far, and what it may read for the hits that it gave.
pub(crate) fn cost_query<H: HitSource>(query: &mut OpenQuery<H>, tag: &Tag) -> Reply
    requires kept { IsKept H.asked H.standing query.old }
    ensures cost { IsCost H.asked H.standing tag.now query.old (line_of result) }
    ensures same { IsSame H.asked H.standing query.old query.new }
    ensures kept { IsKept H.asked H.standing query.new }
{
    let (reads, bound) = query.gather.cost();
    Reply::Cost {
        tag: *tag,
        reads,
        bound,
    }
}

/// Writes the threshold vector of a query in a shard, and its cost.
pub(crate) fn plan_query<H: HitSource>(
    query: &mut OpenQuery<H>,
    tag: &Tag,
    shard: u32,
    out: &mut LineBuf,
)
    requires kept { IsKept H.asked H.standing query.old }
    requires within { shard < length query.old.gather.sources }
    requires empty { out.old ≡ [] }
    ensures plan { WritesPlanOf H.asked tag.now shard query.old out.new }
    ensures same { IsSame H.asked H.standing query.old query.new }
    ensures kept { IsKept H.asked H.standing query.new }
{
    let cost = query.gather.plan(shard as usize);
    let thresholds = query.gather.thresholds(shard as usize);
    // A layout has at most so many parts, with a threshold for each.
    let number = thresholds.len().min(PARTS_MOST);
    write_plan(tag, shard, cost, &thresholds[..number], out);
}
