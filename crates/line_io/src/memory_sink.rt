ghost use Rattle.std.specs.Prelude.{◌≡◌, ◌++◌, ℕ, List, [], length, Some, IsErr, IfOk, OnErr};
ghost use Rattle.std.specs.Prelude.{Contains};
ghost use Rattle.std.specs.Io.{WritesAtMost};
ghost use Rattle.std.specs.Io.KnownBytes.{WriteAppends};
ghost use Rattle.line_io.specs.Faults.{HasCause, IsSteady, TakesSome, counted};
ghost use Rattle.line_io.specs.Objects.{MemoryOutput};

use crate::sink::Sink;
use crate::source::{Failed, fault};
use std::alloc::Global;
use std::marker::Model;

/// A sink in memory that keeps what it takes, and fails in chosen calls.
#[derive(Drop)]
pub struct MemorySink {
    bytes: Vec<u8>,
    failing: Vec<u64>,
    calls: u64,
    faults: u64,
}

impl Model for MemorySink {
    ghost Value = { MemoryOutput };

    ghost view = { λ s. record {
      held = s.bytes.items;
      faults = s.faults;
      calls = s.calls;
      failing = s.failing.items;
    } };
}

impl MemorySink {
    /// An empty sink whose calls fail that `failing` lists. Calls are numbered from 1. It takes
    /// memory as it is written to, and fails where there is none.
    pub fn new(alloc: Global, failing: Vec<u64>) -> MemorySink
        ensures { result ≡ record { held = []; faults = 0; calls = 0; failing = failing.items } }
    {
        MemorySink {
            bytes: Vec::new(alloc),
            failing,
            calls: 0,
            faults: 0,
        }
    }

    /// The bytes that were taken so far.
    pub fn bytes(&self) -> &[u8]
        ensures { result.now ≡ self.now.held }
    {
        self.bytes.as_slice()
    }
}

impl Sink for MemorySink {
    ghost held = { λ s. Some s.held };

    ghost faults = { λ s. s.faults };

    fn write(&mut self, piece: &[u8]) -> Result<usize, Failed>
        // What every sink promises.
        ensures bound { WritesAtMost result piece.now }
        ensures bytes { WriteAppends (Some self.old.held) (Some self.new.held) result piece.now }
        ensures takes { TakesSome result piece.now }
        ensures cause { HasCause self.old.faults self.new.faults result }
        ensures steady { IsSteady self.old.faults self.new.faults result }

        // Which calls fail, and how much the others take.
        ensures fails { Contains self.old.failing (counted self.old.calls) → IsErr result }
        ensures whole { IfOk result (λ n. n ≡ length piece.now) }
        ensures count { OnErr result (self.new.faults ≡ counted self.old.faults) }

        // What else stays.
        ensures calls { self.new.calls ≡ counted self.old.calls }
        ensures failing { self.new.failing ≡ self.old.failing }
    {
        self.calls = self.calls.saturating_add(1);
        if self.failing.contains(&self.calls) || self.bytes.extend_from_slice(piece).is_err() {
            return Err(fault(&mut self.faults));
        }
        Ok(piece.len())
    }
}
