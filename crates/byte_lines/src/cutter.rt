ghost use Rattle.std.specs.Prelude.{◌≡◌, ℕ, ◌+◌, ◌<◌, ◌≤◌, List, [], ◌∷◌, ◌++◌, length, take, Some};
ghost use Rattle.std.specs.Prelude.{IfOk, MatchOption};
ghost use Rattle.std.specs.Io.BufRead.{take_through};
ghost use Rattle.byte_lines.specs.Lines.{line_feed, ended_by, ended_lines, unended, last_line};

use crate::buffer::zeroed;
use memchr::memchr;
use read_meter::NoMemory;
use std::alloc::Global;
use std::marker::Model;

/// The most bytes of a line, without its LF and the CR before it.
pub const LINE_MOST: usize = 4096;

/// What was cut off the bytes.
#[derive(Clone, Copy, Debug, PartialEq, Eq)]
pub enum Cut {
    /// A line of at most 4,096 bytes.
    Line,
    /// A line of more than 4,096 bytes, which is not kept.
    Long,
}

/// Cuts bytes that come in pieces into lines, in memory that is taken once.
#[derive(Drop)]
pub struct Cutter {
    bytes: Vec<u8>,
    begun: usize,
    is_long: bool,
    cut: usize,
}

impl Model for Cutter {
    ghost use Rattle.std.specs.Prelude.{◌≡◌, ◌+◌, ◌≤◌, length, take, if◌then◌else◌, Some, None};
    ghost use Rattle.byte_lines.specs.Cut.{CutterState};
    ghost use Rattle.byte_lines.specs.declared.cutter.TheConstants.{LINE_MOST};

    ghost Value = { CutterState };

    ghost view = { λ c. record {
      held = if c.is_long then None else Some (take c.begun c.bytes.items);
      line = take c.cut c.bytes.items;
    } };

    ghost invariant = { λ c. (length c.bytes.items ≡ LINE_MOST + 1) × (c.begun ≤ LINE_MOST + 1)
        × (c.cut ≤ LINE_MOST) };
}

ghost use Rattle.byte_lines.specs.Cut.{held_of, TellsOf};

impl Cutter {
    /// A cutter before the first byte.
    pub fn new(alloc: Global) -> Result<Cutter, NoMemory>
        ensures { IfOk result (λ c. c.held ≡ held_of []) }
    {
        let bytes = zeroed(alloc, LINE_MOST + 1)?;
        Ok(Cutter {
            bytes,
            begun: 0,
            is_long: false,
            cut: 0,
        })
    }

    /// Takes the bytes up to and with the next LF, or all where there is none, and returns how
    /// many it took and what they end.
    pub fn push(&mut self, bytes: &[u8]) -> (usize, Option<Cut>)
        ensures bound { result.0 ≤ length bytes.now }
        ensures taken { take result.0 bytes.now ≡ take_through line_feed bytes.now }
        ensures goes_on { MatchOption result.1 (result.0 ≡ length bytes.now) (λ _. 0 < result.0) }
        ensures cut { (raw : List ℕ) → self.old.held ≡ held_of raw →
            TellsOf result.1 self.new.line (ended_lines raw (take result.0 bytes.now)) }
        ensures held { (raw : List ℕ) → self.old.held ≡ held_of raw →
            self.new.held ≡ held_of (unended raw (take result.0 bytes.now)) }
    {
        match memchr(b'\n', bytes) {
            Some(at) => {
                self.keep(&bytes[..at]);
                (at + 1, Some(self.end(true)))
            }
            None => {
                self.keep(bytes);
                (bytes.len(), None)
            }
        }
    }

    /// Ends the input: what follows the last LF is a line, if there is anything. A cutter that
    /// has finished is as a new one.
    pub fn finish(&mut self) -> Option<Cut>
        ensures cut { (raw : List ℕ) → self.old.held ≡ held_of raw →
            TellsOf result self.new.line (last_line raw) }
        ensures held { self.new.held ≡ held_of [] }
    {
        if self.begun == 0 && !self.is_long {
            return None;
        }
        Some(self.end(false))
    }

    /// The line that the last call cut, where that was a `Line`.
    pub fn line(&self) -> &[u8]
        ensures value { result.now ≡ self.now.line }
        ensures short { length self.now.line ≤ LINE_MOST }
    {
        &self.bytes[..self.cut]
    }

    // Adds bytes to the line that has begun.
    fn keep(&mut self, more: &[u8])
        ensures held { (raw : List ℕ) → self.old.held ≡ held_of raw →
            self.new.held ≡ held_of (raw ++ more.now) }
    {
        self.cut = 0;
        if self.is_long || more.len() > LINE_MOST + 1 - self.begun {
            self.is_long = true;
            return;
        }
        let end = self.begun + more.len();
        self.bytes[self.begun..end].copy_from_slice(more);
        self.begun = end;
    }

    // Ends the line that has begun, and drops its CR where an LF ended it.
    fn end(&mut self, by_feed: bool) -> Cut
        ensures cut { (raw : List ℕ) → self.old.held ≡ held_of raw →
            TellsOf (Some result) self.new.line (ended_by by_feed raw ∷ []) }
        ensures held { self.new.held ≡ held_of [] }
    {
        let is_long = self.is_long;
        let length = ended_length(&self.bytes[..self.begun], by_feed);
        self.begun = 0;
        self.is_long = false;
        if is_long || length > LINE_MOST {
            self.cut = 0;
            return Cut::Long;
        }
        self.cut = length;
        Cut::Line
    }
}

// How many bytes a line has that ended: without the CR at its end, where an LF ended it.
fn ended_length(begun: &[u8], by_feed: bool) -> usize
    ensures bound { result ≤ length begun.now }
    ensures value { take result begun.now ≡ ended_by by_feed begun.now }
{
    match begun.last() {
        Some(b'\r') if by_feed => begun.len() - 1,
        _ => begun.len(),
    }
}
