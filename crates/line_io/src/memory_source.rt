ghost use Rattle.std.specs.Prelude.{◌≡◌, ◌↔◌, ℕ, ◌≤◌, ◌-◌, List, length, min, take, drop, Some};
ghost use Rattle.std.specs.Prelude.{IsErr, IfOk, OnErr, Contains};
ghost use Rattle.std.specs.Io.{ReadsAtMost};
ghost use Rattle.std.specs.Io.KnownBytes.{ReadConsumes};
ghost use Rattle.line_io.specs.Faults.{HasCause, IsSteady, StaysTold, counted};
ghost use Rattle.line_io.specs.Objects.{MemoryInput};

use crate::pieces::give;
use crate::source::{Failed, Source, fault};
use std::marker::Model;

/// A source in memory that gives its bytes in pieces, and fails in chosen calls.
#[derive(Drop)]
pub struct MemorySource {
    bytes: Vec<u8>,
    given: usize,
    piece: usize,
    failing: Vec<u64>,
    calls: u64,
    faults: u64,
}

impl Model for MemorySource {
    ghost Value = { MemoryInput };

    ghost view = { λ s. record {
      left = drop s.given s.bytes.items;
      faults = s.faults;
      calls = s.calls;
      piece = s.piece;
      failing = s.failing.items;
    } };

    ghost invariant = { λ s. (s.given ≤ length s.bytes.items) × (1 ≤ s.piece) };
}

impl MemorySource {
    /// A source of `bytes`, at most `piece` in a read, whose calls fail that `failing` lists.
    /// Calls are numbered from 1.
    pub fn new(bytes: Vec<u8>, piece: usize, failing: Vec<u64>) -> MemorySource
        requires { 1 ≤ piece }
        ensures left { result.left ≡ bytes.items }
        ensures piece { result.piece ≡ piece }
        ensures failing { result.failing ≡ failing.items }
        ensures counts { (result.calls ≡ 0) × (result.faults ≡ 0) }
    {
        MemorySource {
            bytes,
            given: 0,
            piece,
            failing,
            calls: 0,
            faults: 0,
        }
    }
}

impl Source for MemorySource {
    ghost left = { λ s. Some s.left };

    ghost faults = { λ s. s.faults };

    fn read(&mut self, room: &mut [u8]) -> Result<usize, Failed>
        // What every source promises.
        ensures bound { ReadsAtMost result room.new }
        ensures bytes { ReadConsumes (Some self.old.left) (Some self.new.left) result room.new }
        ensures told { StaysTold (Some self.old.left) (Some self.new.left) }
        ensures cause { HasCause self.old.faults self.new.faults result }
        ensures steady { IsSteady self.old.faults self.new.faults result }

        // Which calls fail, and how much the others give.
        ensures fails { IsErr result ↔ Contains self.old.failing (counted self.old.calls) }
        ensures gives { IfOk result (λ n.
            n ≡ min self.old.piece (min (length room.new) (length self.old.left))) }
        ensures count { OnErr result (self.new.faults ≡ counted self.old.faults) }

        // What else stays.
        ensures calls { self.new.calls ≡ counted self.old.calls }
        ensures piece { self.new.piece ≡ self.old.piece }
        ensures failing { self.new.failing ≡ self.old.failing }
    {
        self.calls = self.calls.saturating_add(1);
        if self.failing.contains(&self.calls) {
            return Err(fault(&mut self.faults));
        }
        let read = give(self.bytes.as_slice(), self.given, self.piece, room);
        self.given += read;
        Ok(read)
    }
}
