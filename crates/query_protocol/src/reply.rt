ghost use Rattle.std.specs.Prelude.{◌≡◌, ℕ, List, ◌≤◌, ◌+◌, ◌*◌, [], ◌++◌, ◌∷◌, length, decimal, codes};
ghost use Rattle.gph_codes.specs.Allowed.{IsAllowed};
ghost use Rattle.hamming_model.specs.Codes.{StandsFor};
ghost use Rattle.byte_lines.specs.declared.cutter.TheConstants.{LINE_MOST};
ghost use Rattle.query_protocol.specs.Replies.{reply_line, line_of, threshold_text, thresholds_text};
ghost use Rattle.hamming_model.specs.declared.limits.TheConstants.{PARTS_MOST, WORDS_MOST};
ghost use Rattle.query_protocol.specs.Replies as reply;

use crate::Bad;
use byte_lines::LineBuf;
use gph_codes::Code;
use line_forms::Tag;
use part_layout::LayoutText;

// The greatest number of hexadecimal digits of a code.
const DIGITS_MOST: usize = 128;

/// A line of output. A hit, a code, a plan, a layout and what a search found are lines too, and have calls of their own in place of a
/// variant: a hit comes often, and the others are long, so that no other reply has to have room for them.
#[derive(Debug, Drop)]
pub enum Reply {
    /// The entry that adds the key was accepted, as the entry of this number.
    Added { key: u64, at: u64 },
    /// The entry that takes the key's row out was accepted, as the entry of this number.
    Deleted { key: u64, at: u64 },
    /// The key is taken, in the rows of the first `at` entries.
    Taken { key: u64, at: u64 },
    /// No row has the key, in the rows of the first `at` entries.
    Absent { key: u64, at: u64 },
    /// No entry was accepted: the history of `at` entries is as long as it may be.
    Full { at: u64 },
    /// The query stands at the first `at` entries.
    Open { tag: Tag, at: u64 },
    /// The answer has further hits.
    More { tag: Tag },
    /// The answer was given whole; `count` is the number of its hits.
    Done { tag: Tag, count: u64 },
    /// How many postings the query has read, and the bound that its reads stay within.
    Cost { tag: Tag, reads: u64, bound: u64 },
    /// The query ended before its answer was given whole; `count` is the number of hits given.
    Cancelled { tag: Tag, count: u64 },
    /// The query ended after its answer was given whole; `count` is the number of its hits.
    Closed { tag: Tag, count: u64 },
    /// A layout is being built for the shard, from its rows in the first `at` entries, of which `left` are to be placed.
    Building { shard: u32, left: u64, at: u64 },
    /// Rows of the shard were placed, and `left` are to be placed still.
    Built { shard: u32, left: u64 },
    /// The shard has the layout that was built, with its rows in the first `at` entries.
    Swapped { shard: u32, at: u64 },
    /// The build stands at `front` entries and stays, since the shard stands beyond, at `at`.
    Moved { shard: u32, front: u64, at: u64 },
    /// The line is no request, or the request can't be met.
    Bad(Bad),
    /// There was no memory for the request, and it changed nothing.
    NoMemory,
}

impl Reply {
    /// Writes the reply's line, with its line feed.
    pub fn write(&self, out: &mut LineBuf)
        requires { out.old ≡ [] }
        ensures { out.new ≡ reply_line (line_of self.now) }
    {
        match self {
            Reply::Added { key, at } => write_key(b"added ", *key, *at, out),
            Reply::Deleted { key, at } => write_key(b"deleted ", *key, *at, out),
            Reply::Taken { key, at } => write_key(b"taken ", *key, *at, out),
            Reply::Absent { key, at } => write_key(b"absent ", *key, *at, out),
            Reply::Full { at } => write_full(*at, out),
            Reply::Open { tag, at } => write_open(tag, *at, out),
            Reply::More { tag } => write_more(tag, out),
            Reply::Done { tag, count } => write_count(b"done ", tag, *count, out),
            Reply::Cost { tag, reads, bound } => write_cost(tag, *reads, *bound, out),
            Reply::Cancelled { tag, count } => write_count(b"cancelled ", tag, *count, out),
            Reply::Closed { tag, count } => write_count(b"closed ", tag, *count, out),
            Reply::Building { shard, left, at } => write_building(*shard, *left, *at, out),
            Reply::Built { shard, left } => write_built(*shard, *left, out),
            Reply::Swapped { shard, at } => write_swapped(*shard, *at, out),
            Reply::Moved { shard, front, at } => write_moved(*shard, *front, *at, out),
            Reply::Bad(fault) => write_fault(fault, out),
            Reply::NoMemory => out.put(b"nomem\n"),
        }
    }
}

/// Writes the line of a hit.
pub fn write_hit(tag: &Tag, dist: u32, key: u64, out: &mut LineBuf)
    requires { out.old ≡ [] }
    ensures { out.new ≡ reply_line (reply.Hit tag.now dist key) }
{
    out.put(b"hit ");
    out.put(tag.bytes());
    out.put(b" ");
    out.put_number(u64::from(dist));
    out.put(b" ");
    out.put_number(key);
    out.put(b"\n");
}

/// Writes the line of a row's code, in the rows of the first `at` entries.
pub fn write_code<const W: usize>(key: u64, bits: u32, code: &Code<W>, at: u64, out: &mut LineBuf)
    requires few_words { W ≤ WORDS_MOST }
    requires allowed { IsAllowed W bits }
    requires empty { out.old ≡ [] }
    ensures { (own : List ℕ) → StandsFor W bits code.now own →
        out.new ≡ reply_line (reply.Code key own at) }
{
    let mut digits = [0; DIGITS_MOST];
    let digits = &mut digits[..bits as usize / 4];
    code.to_hex(bits, digits);
    out.put(b"code ");
    out.put_number(key);
    out.put(b" ");
    out.put(digits);
    out.put(b" at ");
    out.put_number(at);
    out.put(b"\n");
}

fn write_key(word: &[u8], key: u64, at: u64, out: &mut LineBuf)
    requires empty { out.old ≡ [] }
    requires short { length word.now ≤ 8 }
    ensures { out.new ≡ word.now ++ decimal key ++ codes " at " ++ decimal at ++ 10 ∷ [] }
{
    out.put(word);
    out.put_number(key);
    out.put(b" at ");
    out.put_number(at);
    out.put(b"\n");
}

fn write_full(at: u64, out: &mut LineBuf)
    requires { out.old ≡ [] }
    ensures { out.new ≡ reply_line (reply.Full at) }
{
    out.put(b"full at ");
    out.put_number(at);
    out.put(b"\n");
}

fn write_open(tag: &Tag, at: u64, out: &mut LineBuf)
    requires { out.old ≡ [] }
    ensures { out.new ≡ reply_line (reply.Open tag.now at) }
{
    out.put(b"open ");
    out.put(tag.bytes());
    out.put(b" at ");
    out.put_number(at);
    out.put(b"\n");
}

fn write_more(tag: &Tag, out: &mut LineBuf)
    requires { out.old ≡ [] }
    ensures { out.new ≡ reply_line (reply.More tag.now) }
{
    out.put(b"more ");
    out.put(tag.bytes());
    out.put(b"\n");
}

fn write_count(word: &[u8], tag: &Tag, count: u64, out: &mut LineBuf)
    requires empty { out.old ≡ [] }
    requires short { length word.now ≤ 10 }
    ensures { out.new ≡ word.now ++ tag.now ++ codes " " ++ decimal count ++ 10 ∷ [] }
{
    out.put(word);
    out.put(tag.bytes());
    out.put(b" ");
    out.put_number(count);
    out.put(b"\n");
}

fn write_cost(tag: &Tag, reads: u64, bound: u64, out: &mut LineBuf)
    requires { out.old ≡ [] }
    ensures { out.new ≡ reply_line (reply.Cost tag.now reads bound) }
{
    out.put(b"cost ");
    out.put(tag.bytes());
    out.put(b" reads ");
    out.put_number(reads);
    out.put(b" bound ");
    out.put_number(bound);
    out.put(b"\n");
}

/// Writes the line of a query's thresholds in a shard, one a part, and what they cost.
pub fn write_plan(tag: &Tag, shard: u32, cost: u64, thresholds: &[i32], out: &mut LineBuf)
    requires empty { out.old ≡ [] }
    requires few { length thresholds.now ≤ PARTS_MOST }
    ensures { out.new ≡ reply_line (reply.Plan tag.now shard cost thresholds.now) }
{
    out.put(b"plan ");
    out.put(tag.bytes());
    out.put(b" ");
    out.put_number(u64::from(shard));
    out.put(b" cost ");
    out.put_number(cost);
    write_thresholds(thresholds, out);
    out.put(b"\n");
}

// Each threshold after a space.
fn write_thresholds(thresholds: &[i32], out: &mut LineBuf)
    requires few { length thresholds.now ≤ PARTS_MOST }
    requires room { length out.old + 22 * PARTS_MOST ≤ LINE_MOST }
    ensures value { out.new ≡ out.old ++ thresholds_text thresholds.now }
    ensures longer { length out.new ≤ length out.old + 22 * PARTS_MOST }
{
    for threshold in thresholds {
        write_threshold(*threshold, out);
    }
}

fn write_threshold(threshold: i32, out: &mut LineBuf)
    requires { length out.old + 22 ≤ LINE_MOST }
    ensures value { out.new ≡ out.old ++ threshold_text threshold }
    ensures longer { length out.new ≤ length out.old + 22 }
{
    out.put(b" ");
    if threshold < 0 {
        out.put(b"-");
    }
    out.put_number(u64::from(threshold.unsigned_abs()));
}

/// Writes the line of a shard's layout, by its text.
pub fn write_layout(shard: u32, text: &LayoutText, out: &mut LineBuf)
    requires { out.old ≡ [] }
    ensures { out.new ≡ reply_line (reply.Layout shard text.now) }
{
    out.put(b"layout ");
    out.put_number(u64::from(shard));
    out.put(b" ");
    out.put(text.bytes());
    out.put(b"\n");
}

/// Writes the line of a layout that a search for a shard found, by its text: what the layouts before the search and after it cost, the
/// number of exchanges between them, and in the rows of how many entries they were judged.
pub fn write_searched(
    shard: u32,
    before: u64,
    after: u64,
    swaps: u32,
    at: u64,
    text: &LayoutText,
    out: &mut LineBuf,
)
    requires { out.old ≡ [] }
    ensures { out.new ≡ reply_line (reply.Searched shard before after swaps at text.now) }
{
    out.put(b"searched ");
    out.put_number(u64::from(shard));
    out.put(b" before ");
    out.put_number(before);
    out.put(b" after ");
    out.put_number(after);
    out.put(b" swaps ");
    out.put_number(u64::from(swaps));
    out.put(b" at ");
    out.put_number(at);
    out.put(b" ");
    out.put(text.bytes());
    out.put(b"\n");
}

fn write_building(shard: u32, left: u64, at: u64, out: &mut LineBuf)
    requires { out.old ≡ [] }
    ensures { out.new ≡ reply_line (reply.Building shard left at) }
{
    out.put(b"building ");
    out.put_number(u64::from(shard));
    out.put(b" left ");
    out.put_number(left);
    out.put(b" at ");
    out.put_number(at);
    out.put(b"\n");
}

fn write_built(shard: u32, left: u64, out: &mut LineBuf)
    requires { out.old ≡ [] }
    ensures { out.new ≡ reply_line (reply.Built shard left) }
{
    out.put(b"built ");
    out.put_number(u64::from(shard));
    out.put(b" left ");
    out.put_number(left);
    out.put(b"\n");
}

fn write_swapped(shard: u32, at: u64, out: &mut LineBuf)
    requires { out.old ≡ [] }
    ensures { out.new ≡ reply_line (reply.Swapped shard at) }
{
    out.put(b"swapped ");
    out.put_number(u64::from(shard));
    out.put(b" at ");
    out.put_number(at);
    out.put(b"\n");
}

fn write_moved(shard: u32, front: u64, at: u64, out: &mut LineBuf)
    requires { out.old ≡ [] }
    ensures { out.new ≡ reply_line (reply.Moved shard front at) }
{
    out.put(b"moved ");
    out.put_number(u64::from(shard));
    out.put(b" front ");
    out.put_number(front);
    out.put(b" shard ");
    out.put_number(at);
    out.put(b"\n");
}

fn write_fault(fault: &Bad, out: &mut LineBuf)
    requires { out.old ≡ [] }
    ensures { out.new ≡ reply_line (reply.Bad fault.now) }
{
    out.put(b"bad ");
    out.put_number(u64::from(fault.number));
    if fault.number == 5 {
        out.put(b" ");
        out.put_number(u64::from(fault.word));
    }
    out.put(b"\n");
}
