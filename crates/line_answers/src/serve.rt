//! A call from its first read to its end.

ghost use Rattle.std.specs.Prelude.{◌≡◌, [], length};
ghost use Rattle.byte_lines.specs.Cut.{held_of};
ghost use Rattle.session_model.specs.declared.limits.TheConstants.{BLOCK_MOST};
ghost use Rattle.session_model.specs.Ledger.{ledgers};
ghost use Rattle.session_model.specs.Outside.{call};
ghost use Rattle.line_answers.specs.Endings.{EndsAnswered};

use crate::block::{answer_block, answer_end};
use crate::ending::Ending;
use crate::line_answers::LineAnswers;
use byte_lines::{Cutter, LineBuf};
use line_io::{Failed, Sink, Source};
use read_meter::{Meters, Steps};
use session_model::BLOCK_MOST;

/// Reads lines and has each answered, at most `limit` bytes, until the input ends. `cutter` has cut nothing yet, and `block` has room
/// for 4,096 bytes, which is the most that is read at a time.
pub fn answer_lines<A: LineAnswers, S: Source, K: Sink, L, M>(
    limit: u64,
    answers: &mut A,
    cutter: &mut Cutter,
    out: &mut LineBuf,
    block: &mut [u8],
    source: &mut S,
    sink: &mut K,
    upkeep: &mut Steps<M>,
    meters: &mut Meters<L>,
) -> Ending
    requires begun { cutter.old.held ≡ held_of [] }
    requires none { (A.answered answers.old) (ledgers meters.old upkeep.old)
        (ledgers meters.old upkeep.old) [] [] }
    requires room { length block.old ≡ BLOCK_MOST }
    ensures config { A.config answers.new ≡ A.config answers.old }
    ensures ending { EndsAnswered result (A.answered answers.new) limit
        (call S.left S.faults K.held K.faults source.old source.new sink.old sink.new
        meters.old meters.new upkeep.old upkeep.new) }
{
    let mut taken: u64 = 0;
    loop {
        let room = (limit - taken).clamp(1, BLOCK_MOST as u64) as usize;
        match source.read(&mut block[..room]) {
            Err(Failed) => return Ending::ReadFault,
            Ok(0) => {
                return match answer_end(answers, cutter, out, sink, upkeep, meters) {
                    Ok(()) => Ending::Done,
                    Err(Failed) => Ending::WriteFault,
                };
            }
            Ok(count) => {
                if taken == limit {
                    return Ending::InputLimit;
                }
                taken += count as u64;
                let piece = &block[..count];
                match answer_block(answers, cutter, out, piece, sink, upkeep, meters) {
                    Ok(()) => {}
                    Err(Failed) => return Ending::WriteFault,
                }
            }
        }
    }
}
