ghost use Rattle.std.specs.Prelude.{◌≡◌, ◌↔◌, ℕ, ◌<◌, ◌≤◌, List, [], ◌++◌, length, take, false};
ghost use Rattle.std.specs.Prelude.{not, IsTrue, IsFalse, IsOk, IsErr, IfOk};
ghost use Rattle.std.specs.Io.KnownBytes.{Keeps, Appends};
ghost use Rattle.byte_lines.specs.declared.cutter.TheConstants.{LINE_MOST};
ghost use Rattle.line_io.specs.Faults.{raised};
ghost use Rattle.line_io.specs.Objects.{told_and_pending};
ghost use Rattle.line_io.specs.GivingOut.{GoesOut};

use crate::write_end::WriteEnd;
use byte_lines::{LINE_MOST, LineBuf};
use std::cell::BorrowMutError;
use std::marker::Model;

/// That what was gathered has been given out. Only a giving-out that succeeded makes one.
#[derive(Drop)]
pub struct Flushed {
    _made_here: (),
}

/// That a giving-out has failed, or that the buffer is in use. Nothing else makes one.
#[derive(Drop)]
pub struct NotFlushed {
    _made_here: (),
}

impl From<BorrowMutError> for NotFlushed {
    fn from(_busy: BorrowMutError) -> NotFlushed {
        NotFlushed { _made_here: () }
    }
}

/// The bytes that were added to what is gathered. Only an addition makes one, and it can't be
/// let go.
pub(crate) struct Added<'p> {
    bytes: &'p [u8],
}

impl<'p> Model for Added<'p> {
    ghost use Rattle.std.specs.Prelude.{ℕ, List};

    ghost Value = { List ℕ };

    ghost view = { λ a. a.bytes.now };
}

/// How many bytes were added, up to the greatest u64. Only additions raise it.
#[derive(Drop)]
pub(crate) struct AddedSoFar {
    count: u64,
}

impl Model for AddedSoFar {
    ghost use Rattle.std.specs.Prelude.{ℕ};

    ghost Value = { ℕ };

    ghost view = { λ a. a.count };
}

impl AddedSoFar {
    pub(crate) fn none() -> AddedSoFar
        ensures { result ≡ 0 }
    {
        AddedSoFar { count: 0 }
    }

    /// Counts bytes that were added, and returns how many they are.
    pub(crate) fn count(&mut self, added: Added<'_>) -> usize
        ensures value { result ≡ length added.entry }
        ensures rise { self.new ≡ raised self.old (length added.entry) }
    {
        let Added { bytes } = added;
        self.count = self.count.saturating_add(bytes.len() as u64);
        bytes.len()
    }
}

/// What is on its way to a writer, in one buffer.
#[derive(Drop)]
pub(crate) struct Gathering<W: WriteEnd> {
    writer: W,
    buffer: LineBuf,
    failed: bool,
}

impl<W: WriteEnd> Model for Gathering<W> {
    ghost use Rattle.line_io.specs.Objects.{Outgoing};

    ghost Value = { Outgoing W };

    ghost view = { λ g. record { writer = g.writer; pending = g.buffer; failed = g.failed } };
}

impl<W: WriteEnd> Gathering<W> {
    pub(crate) fn new(writer: W, buffer: LineBuf) -> Gathering<W>
        requires { buffer ≡ [] }
        ensures { result ≡ record { writer = writer; pending = []; failed = false } }
    {
        Gathering {
            writer,
            buffer,
            failed: false,
        }
    }

    /// Gives the writer all that is gathered, unless that has failed before.
    pub(crate) fn give_out(&mut self) -> Result<Flushed, NotFlushed>
        // What goes out, and that a failure stays.
        ensures out { IsFalse self.old.failed → GoesOut W.whole_write W.one_flush
            self.old.writer self.new.writer self.old.pending (not self.new.failed) }
        ensures stopped { IsTrue self.old.failed → self.new ≡ record self.old { pending = [] } }
        ensures empty { self.new.pending ≡ [] }

        // The answer tells it, and the bytes are on the other side.
        ensures told { IsErr result ↔ IsTrue self.new.failed }
        ensures bytes { IsOk result →
            Keeps (told_and_pending W.held self.old) (told_and_pending W.held self.new) }
    {
        if !self.failed {
            let is_well = self.writer.write_whole(self.buffer.bytes()) && self.writer.flush_once();
            self.failed = !is_well;
        }
        self.buffer.clear();
        if self.failed {
            return Err(NotFlushed { _made_here: () });
        }
        Ok(Flushed { _made_here: () })
    }

    /// Takes the front of a piece. What is gathered is given out first where it fills the buffer.
    pub(crate) fn add<'p>(&mut self, piece: &'p [u8]) -> Result<Added<'p>, NotFlushed>
        // The answer tells what was added.
        ensures front { IfOk result (λ added. added ≡ take (length added) piece.now) }
        ensures takes { IfOk result (λ added. 0 < length piece.now → 0 < length added) }
        ensures told { IsErr result ↔ IsTrue self.new.failed }
        ensures bytes { IfOk result (λ added.
            Appends (told_and_pending W.held self.old) (told_and_pending W.held self.new) added) }

        // With room left it never fails; in a full buffer it comes after a giving-out.
        ensures room { length self.old.pending < LINE_MOST → IsFalse self.old.failed → IsOk result }
        ensures adds { length self.old.pending < LINE_MOST → IfOk result (λ added.
            self.new ≡ record self.old { pending = self.old.pending ++ added }) }
        ensures out { length self.old.pending ≡ LINE_MOST → IsFalse self.old.failed →
            GoesOut W.whole_write W.one_flush
            self.old.writer self.new.writer self.old.pending (not self.new.failed) }
        ensures next { length self.old.pending ≡ LINE_MOST → IfOk result (λ added.
            self.new.pending ≡ added) }
        ensures stopped { IsTrue self.old.failed →
            IsErr result × (self.new.writer ≡ self.old.writer) }
    {
        if self.buffer.bytes().len() == LINE_MOST {
            self.give_out()?;
        }
        if self.failed {
            return Err(NotFlushed { _made_here: () });
        }
        let taken = piece.len().min(LINE_MOST - self.buffer.bytes().len());
        let bytes = &piece[..taken];
        self.buffer.put(bytes);
        Ok(Added { bytes })
    }
}
