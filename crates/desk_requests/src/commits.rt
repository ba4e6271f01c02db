//! `add`, `del` and `get`: the requests on the history.

ghost use Rattle.std.specs.Prelude.{◌≡◌, ◌≤◌, ℕ, List, [], take, IfSome};
ghost use Rattle.gph_codes.specs.Allowed.{IsAllowed};
ghost use Rattle.hamming_model.specs.declared.limits.TheConstants.{WORDS_MOST};
ghost use Rattle.hamming_model.specs.Codes.{StandsFor};
ghost use Rattle.hamming_model.specs.Recoded.{IsStoredOperation};
ghost use Rattle.entry_log.specs.Entries.{kept_operation};
ghost use Rattle.query_protocol.specs.Requests.{Add, Del, Get};
ghost use Rattle.query_protocol.specs.Replies.{line_of, reply_line};
ghost use Rattle.session_model.specs.Entries.{code_reply};
ghost use Rattle.std.specs.Option.{option_map};
ghost use Rattle.open_queries.specs.Writing.{IsCaused};
ghost use Rattle.desk_requests.specs.Commits.{CommitsAs, decided_reply};
ghost use Rattle.open_session.specs.KeptBuild.{KeepsBuilds};
ghost use Rattle.open_session.specs.Pinned.{pinned_in};
ghost use Rattle.open_session.specs.PlainSteps.{AnswersUncounted};

use byte_lines::LineBuf;
use commit_journal::Decided;
use entry_log::{Decision, Op};
use gph_codes::Code;
use line_io::{Failed, Sink};
use open_queries::{say, send};
use open_session::Session;
use part_layout::Config;
use query_protocol::{Reply, write_code};
use session_desk::Desk;

/// Commits an operation that adds a row, and answers what came of it.
pub fn add<const W: usize, D: Desk<W>, K: Sink>(
    config: &Config,
    session: &mut Session<W>,
    desk: &mut D,
    key: u64,
    code: Code<W>,
    sink: &mut K,
) -> Result<(), Failed>
    requires few_words { W ≤ WORDS_MOST }
    requires config { (D.desk desk.old).config ≡ config.now }
    requires code { StandsFor W config.now.bits code (take config.now.bits code) }
    ensures answers { AnswersUncounted (Add key (take config.now.bits code.entry)) result config.now
        (D.desk desk.old) (D.desk desk.new) session.old session.new
        (K.held sink.old) (K.held sink.new) }
    ensures cutter { session.new.cutter ≡ session.old.cutter }
    ensures samples { session.new.samples ≡ session.old.samples }
    ensures requests { session.new.requests ≡ session.old.requests }
    ensures build { session.new.build ≡ session.old.build }
    ensures queries { session.new.queries ≡ session.old.queries }
    ensures config { (D.desk desk.new).config ≡ config.now }
    ensures builds { KeepsBuilds (D.desk desk.old) (D.desk desk.new) }
    ensures cause { IsCaused (K.faults sink.old) (K.faults sink.new) result }
{
    let reply = commit(session, desk, key, Op::Add { key, code });
    say(&mut session.out, sink, &reply)
}

/// Commits an operation that deletes a row, and answers what came of it.
pub fn delete<const W: usize, D: Desk<W>, K: Sink>(
    config: &Config,
    session: &mut Session<W>,
    desk: &mut D,
    key: u64,
    sink: &mut K,
) -> Result<(), Failed>
    requires few_words { W ≤ WORDS_MOST }
    requires config { (D.desk desk.old).config ≡ config.now }
    ensures answers { AnswersUncounted (Del key) result config.now
        (D.desk desk.old) (D.desk desk.new) session.old session.new
        (K.held sink.old) (K.held sink.new) }
    ensures cutter { session.new.cutter ≡ session.old.cutter }
    ensures samples { session.new.samples ≡ session.old.samples }
    ensures requests { session.new.requests ≡ session.old.requests }
    ensures build { session.new.build ≡ session.old.build }
    ensures queries { session.new.queries ≡ session.old.queries }
    ensures config { (D.desk desk.new).config ≡ config.now }
    ensures builds { KeepsBuilds (D.desk desk.old) (D.desk desk.new) }
    ensures cause { IsCaused (K.faults sink.old) (K.faults sink.new) result }
{
    let reply = commit(session, desk, key, Op::Delete { key });
    say(&mut session.out, sink, &reply)
}

/// Answers the code of a key at the present length, or that there is none.
pub fn get<const W: usize, D: Desk<W>, K: Sink>(
    config: &Config,
    session: &mut Session<W>,
    desk: &mut D,
    key: u64,
    sink: &mut K,
) -> Result<(), Failed>
    requires few_words { W ≤ WORDS_MOST }
    requires allowed { IsAllowed W config.now.bits }
    requires config { (D.desk desk.old).config ≡ config.now }
    ensures answers { AnswersUncounted (Get key) result config.now
        (D.desk desk.old) (D.desk desk.new) session.old session.new
        (K.held sink.old) (K.held sink.new) }
    ensures cutter { session.new.cutter ≡ session.old.cutter }
    ensures samples { session.new.samples ≡ session.old.samples }
    ensures requests { session.new.requests ≡ session.old.requests }
    ensures build { session.new.build ≡ session.old.build }
    ensures queries { session.new.queries ≡ session.old.queries }
    ensures config { (D.desk desk.new).config ≡ config.now }
    ensures builds { KeepsBuilds (D.desk desk.old) (D.desk desk.new) }
    ensures cause { IsCaused (K.faults sink.old) (K.faults sink.new) result }
{
    let (code, at) = desk.code_of(key);
    session.position = at;
    session.out.clear();
    write_found(key, config.bits, code, at, &mut session.out);
    send(&session.out, sink)
}

// Writes the code of a key, or that there is none.
fn write_found<const W: usize>(
    key: u64,
    bits: u32,
    code: Option<Code<W>>,
    at: u64,
    out: &mut LineBuf,
)
    requires few_words { W ≤ WORDS_MOST }
    requires allowed { IsAllowed W bits }
    requires stands { IfSome code (λ code. StandsFor W bits code (take bits code)) }
    requires empty { out.old ≡ [] }
    ensures { out.new ≡ reply_line (code_reply key (option_map (take bits) code.entry) at) }
{
    match code {
        None => Reply::Absent { key, at }.write(out),
        Some(code) => write_code(key, bits, &code, at, out),
    }
}

// Commits an operation on the row of a key, takes its position, and tells the reply.
fn commit<const W: usize, D: Desk<W>>(
    session: &mut Session<W>,
    desk: &mut D,
    key: u64,
    op: Op<W>,
) -> Reply
    requires stored { IsStoredOperation W (D.desk desk.old).config.bits (kept_operation op) }
    ensures commits { CommitsAs (D.desk desk.old) (D.desk desk.new) session.old.position
        session.new.position key (kept_operation op.entry) (line_of result) }
    ensures pinned { pinned_in session.new.pinned ≡ pinned_in session.old.pinned }
    ensures queries { session.new.queries ≡ session.old.queries }
    ensures cutter { session.new.cutter ≡ session.old.cutter }
    ensures samples { session.new.samples ≡ session.old.samples }
    ensures requests { session.new.requests ≡ session.old.requests }
    ensures build { session.new.build ≡ session.old.build }
{
    match desk.commit(op) {
        Ok(decided) => {
            session.position = decided.position;
            reply_to(key, decided)
        }
        Err(_) => Reply::NoMemory,
    }
}

// The reply to what became of an operation on the row of a key.
fn reply_to(key: u64, decided: Decided) -> Reply
    ensures { line_of result ≡ decided_reply key decided.decision decided.position }
{
    let at = decided.position;
    match decided.decision {
        Decision::Added => Reply::Added { key, at },
        Decision::Taken => Reply::Taken { key, at },
        Decision::Deleted => Reply::Deleted { key, at },
        Decision::Absent => Reply::Absent { key, at },
        Decision::Full => Reply::Full { at },
    }
}
