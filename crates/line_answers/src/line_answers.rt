ghost use Rattle.std.specs.Prelude.{◌≡◌, ℕ, ◌<◌, ◌≤◌, List, [], ◌∷◌, ◌++◌, length};
ghost use Rattle.byte_lines.specs.declared.cutter.TheConstants.{LINE_MOST};
ghost use Rattle.part_layout.specs.declared.config.Config.{Config};
ghost use Rattle.session_model.specs.Ledger.{Ledgers, ledgers};
ghost use Rattle.line_answers.specs.Answered.{Answering, AnswersNext};

use byte_lines::LineBuf;
use read_meter::{Meters, Steps};

/// What answers lines, one after the other, each by at most one line of text.
pub trait LineAnswers {
    /// What the answers were asked for, which no line changes.
    ghost config: { Self → Config };

    /// From which ledgers to which it has answered which lines by which texts.
    ghost answered: { Self → Answering };

    /// Answers a line of at most 4,096 bytes, which comes without its end: the text, with its line feed, stands in `out` then. A line
    /// that asks nothing leaves it empty.
    fn answer<L, M>(
        &mut self,
        line: &[u8],
        out: &mut LineBuf,
        upkeep: &mut Steps<M>,
        meters: &mut Meters<L>,
    )
        requires short { length line.now ≤ LINE_MOST }
        requires empty { out.old ≡ [] }
        ensures config { config self.new ≡ config self.old }
        ensures answers { AnswersNext (answered self.old) (answered self.new)
            (ledgers meters.old upkeep.old) (ledgers meters.new upkeep.new) line.now out.new };

    /// Answers a line of more than 4,096 bytes, whichever it was.
    fn answer_long(&mut self, out: &mut LineBuf)
        requires empty { out.old ≡ [] }
        ensures config { config self.new ≡ config self.old }
        ensures answers { (line : List ℕ) (now : Ledgers) → LINE_MOST < length line →
            AnswersNext (answered self.old) (answered self.new) now now line out.new };
}
