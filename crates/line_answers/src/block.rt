//! Bytes as they come.

ghost use Rattle.std.specs.Prelude.{◌≡◌, ℕ, ◌<◌, ◌≤◌, List, Option, length, take};
ghost use Rattle.open_queries.specs.Writing.{IsCaused};
ghost use Rattle.session_model.specs.Ledger.{ledgers};
ghost use Rattle.line_answers.specs.Flow.{AnswersLineCut, EndsAfter, ProceedsBy, progress_of};

use crate::line_answers::LineAnswers;
use byte_lines::{Cut, Cutter, LineBuf};
use line_io::{Failed, Sink};
use open_queries::send;
use read_meter::{Meters, Steps};

/// Answers the lines that end in a block.
pub(crate) fn answer_block<A: LineAnswers, K: Sink, L, M>(
    answers: &mut A,
    cutter: &mut Cutter,
    out: &mut LineBuf,
    block: &[u8],
    sink: &mut K,
    upkeep: &mut Steps<M>,
    meters: &mut Meters<L>,
) -> Result<(), Failed>
    ensures config { A.config answers.new ≡ A.config answers.old }
    ensures flow { ProceedsBy result
        (A.answered answers.old)
        (progress_of (ledgers meters.old upkeep.old) cutter.old.held (K.held sink.old))
        (A.answered answers.new)
        (progress_of (ledgers meters.new upkeep.new) cutter.new.held (K.held sink.new))
        block.now }
    ensures cause { IsCaused (K.faults sink.old) (K.faults sink.new) result }
{
    let mut done = 0;
    while done < block.len() {
        let (taken, answered) = answer_piece(
            answers,
            cutter,
            out,
            &block[done..],
            sink,
            upkeep,
            meters,
        );
        match answered {
            Ok(()) => done += taken,
            Err(Failed) => return Err(Failed),
        }
    }
    Ok(())
}

// Takes the bytes up to and with the next LF, or all, and answers the line that they end: how many bytes, and how it goes on.
fn answer_piece<A: LineAnswers, K: Sink, L, M>(
    answers: &mut A,
    cutter: &mut Cutter,
    out: &mut LineBuf,
    bytes: &[u8],
    sink: &mut K,
    upkeep: &mut Steps<M>,
    meters: &mut Meters<L>,
) -> (usize, Result<(), Failed>)
    requires some { 0 < length bytes.now }
    ensures progress { (0 < result.0) × (result.0 ≤ length bytes.now) }
    ensures config { A.config answers.new ≡ A.config answers.old }
    ensures flow { ProceedsBy result.1
        (A.answered answers.old)
        (progress_of (ledgers meters.old upkeep.old) cutter.old.held (K.held sink.old))
        (A.answered answers.new)
        (progress_of (ledgers meters.new upkeep.new) cutter.new.held (K.held sink.new))
        (take result.0 bytes.now) }
    ensures cause { IsCaused (K.faults sink.old) (K.faults sink.new) result.1 }
{
    let (taken, cut) = cutter.push(bytes);
    match cut {
        None => (taken, Ok(())),
        Some(cut) => (
            taken,
            answer_cut(answers, cutter, out, cut, sink, upkeep, meters),
        ),
    }
}

/// Answers what follows the last LF, where the input has ended.
pub(crate) fn answer_end<A: LineAnswers, K: Sink, L, M>(
    answers: &mut A,
    cutter: &mut Cutter,
    out: &mut LineBuf,
    sink: &mut K,
    upkeep: &mut Steps<M>,
    meters: &mut Meters<L>,
) -> Result<(), Failed>
    ensures config { A.config answers.new ≡ A.config answers.old }
    ensures flow { EndsAfter result
        (A.answered answers.old)
        (progress_of (ledgers meters.old upkeep.old) cutter.old.held (K.held sink.old))
        (A.answered answers.new)
        (progress_of (ledgers meters.new upkeep.new) cutter.new.held (K.held sink.new)) }
    ensures cause { IsCaused (K.faults sink.old) (K.faults sink.new) result }
{
    match cutter.finish() {
        None => Ok(()),
        Some(cut) => answer_cut(answers, cutter, out, cut, sink, upkeep, meters),
    }
}

// Answers the line that was cut last.
fn answer_cut<A: LineAnswers, K: Sink, L, M>(
    answers: &mut A,
    cutter: &Cutter,
    out: &mut LineBuf,
    cut: Cut,
    sink: &mut K,
    upkeep: &mut Steps<M>,
    meters: &mut Meters<L>,
) -> Result<(), Failed>
    ensures config { A.config answers.new ≡ A.config answers.old }
    ensures answers { (begun begun' : Option (List ℕ)) → AnswersLineCut cut cutter.now.line result
        (A.answered answers.old)
        (progress_of (ledgers meters.old upkeep.old) begun (K.held sink.old))
        (A.answered answers.new)
        (progress_of (ledgers meters.new upkeep.new) begun' (K.held sink.new)) }
    ensures cause { IsCaused (K.faults sink.old) (K.faults sink.new) result }
{
    out.clear();
    match cut {
        Cut::Line => answers.answer(cutter.line(), out, upkeep, meters),
        Cut::Long => answers.answer_long(out),
    }
    send(out, sink)
}
