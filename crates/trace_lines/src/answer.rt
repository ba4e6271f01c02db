//! What an event is answered, as a line.

ghost use Rattle.std.specs.Prelude.{◌≡◌, ◌≤◌, [], ◌∷◌, ◌++◌, length, codes};
ghost use Rattle.trace_lines.specs.AnswerTexts.{answer_line, labelled, polled_text, refused_text};
ghost use Rattle.trace_lines.specs.AnswerTexts.{reply_of, told_text};
ghost use Rattle.query_protocol.specs.Replies.{line_of};

use byte_lines::LineBuf;
use commit_journal::Decided;
use entry_log::Decision;
use hamming_model::Hit;
use hit_source::Polled;
use query_protocol::Reply;
use world_model::{Refused, Told};

/// Writes the line of what an event was answered, with its line feed, by the number of what the event is about.
pub fn write_answer(subject: u64, answer: &Result<Told, Refused>, out: &mut LineBuf)
    requires { out.old ≡ [] }
    ensures { out.new ≡ answer_line subject answer.now }
{
    match answer {
        Ok(said) => write_told(subject, said, out),
        Err(why) => write_refused(why, out),
    }
}

// Writes what an event is told.
fn write_told(subject: u64, said: &Told, out: &mut LineBuf)
    requires { out.old ≡ [] }
    ensures { out.new ≡ told_text subject said.now ++ 10 ∷ [] }
{
    match said {
        Told::Decided(decided) => reply_to(subject, decided).write(out),
        Told::Opened { query, position } => {
            write_both(b"query ", u64::from(*query), b" at ", *position, out)
        }
        Told::Advanced { at } => write_both(b"shard ", subject, b" at ", *at, out),
        Told::Pinned { left } => {
            write_both(b"pinned ", subject, b" left ", u64::from(*left), out)
        }
        Told::Polled(polled) => write_polled(*polled, out),
        Told::Held => out.put(b"polled held\n"),
        Told::Gave(hit) => write_gave(subject, hit, out),
        Told::NotYet => write_one(b"notyet ", subject, out),
        Told::Ended { count } => write_both(b"end ", subject, b" ", *count, out),
        Told::Cancelled { count } => write_both(b"cancelled ", subject, b" ", *count, out),
        Told::Built { left } => write_both(b"built ", subject, b" left ", *left, out),
        Told::Followed { at } => write_both(b"followed ", subject, b" at ", *at, out),
        Told::Swapped { at } => write_both(b"swapped ", subject, b" at ", *at, out),
    }
}

// What a session would be replied to a decision on the row of a key.
fn reply_to(key: u64, decided: &Decided) -> Reply
    ensures { line_of result ≡ reply_of key decided.now.decision decided.now.position }
{
    let at = decided.position;
    match decided.decision {
        Decision::Added => Reply::Added { key, at },
        Decision::Taken => Reply::Taken { key, at },
        Decision::Deleted => Reply::Deleted { key, at },
        Decision::Absent => Reply::Absent { key, at },
        Decision::Full => Reply::Full { at },
    }
}

fn write_polled(polled: Polled, out: &mut LineBuf)
    requires { out.old ≡ [] }
    ensures { out.new ≡ polled_text polled ++ 10 ∷ [] }
{
    match polled {
        Polled::Moved => out.put(b"polled moved\n"),
        Polled::Full => out.put(b"polled full\n"),
        Polled::Ended => out.put(b"polled ended\n"),
    }
}

fn write_gave(query: u64, hit: &Hit, out: &mut LineBuf)
    requires { out.old ≡ [] }
    ensures { out.new ≡ labelled (codes "hit ") query ++ labelled (codes " ") hit.now.dist
        ++ labelled (codes " ") hit.now.key ++ 10 ∷ [] }
{
    out.put(b"hit ");
    out.put_number(query);
    out.put(b" ");
    out.put_number(u64::from(hit.dist));
    out.put(b" ");
    out.put_number(hit.key);
    out.put(b"\n");
}

// Writes two numbers, each after a text.
fn write_both(before: &[u8], first: u64, between: &[u8], second: u64, out: &mut LineBuf)
    requires empty { out.old ≡ [] }
    requires short { length before.now ≤ 10 }
    requires short_between { length between.now ≤ 10 }
    ensures { out.new ≡ labelled before.now first ++ labelled between.now second ++ 10 ∷ [] }
{
    out.put(before);
    out.put_number(first);
    out.put(between);
    out.put_number(second);
    out.put(b"\n");
}

// Writes a number after a text.
fn write_one(before: &[u8], number: u64, out: &mut LineBuf)
    requires empty { out.old ≡ [] }
    requires short { length before.now ≤ 10 }
    ensures { out.new ≡ labelled before.now number ++ 10 ∷ [] }
{
    out.put(before);
    out.put_number(number);
    out.put(b"\n");
}

// Writes why an event is refused.
fn write_refused(why: &Refused, out: &mut LineBuf)
    requires { out.old ≡ [] }
    ensures { out.new ≡ refused_text why.now ++ 10 ∷ [] }
{
    match why {
        Refused::NoShard => out.put(b"no shard\n"),
        Refused::NoQuery => out.put(b"no query\n"),
        Refused::Closed => out.put(b"closed\n"),
        Refused::Many => out.put(b"many\n"),
        Refused::Unfronted => out.put(b"no front\n"),
        Refused::NotPinned => out.put(b"no pin\n"),
        Refused::Building => out.put(b"has build\n"),
        Refused::NoBuild => out.put(b"no build\n"),
        Refused::Unready { left } => write_one(b"unready ", *left, out),
        Refused::Moved { shard_at } => write_one(b"moved ", *shard_at, out),
        Refused::NoMemory => out.put(b"nomem\n"),
    }
}
