ghost use Rattle.std.specs.Prelude.{◌≡◌, ℕ, length, None, Ok, IsErr, IfOk, OnErr};
ghost use Rattle.std.specs.Io.{WritesAtMost};
ghost use Rattle.std.specs.Io.KnownBytes.{WriteAppends};
ghost use Rattle.line_io.specs.Faults.{HasCause, IsSteady, TakesSome, counted, raised};

use crate::gathered::Gathered;
use crate::gathering::{Added, AddedSoFar, NotFlushed};
use crate::sink::Sink;
use crate::source::{Failed, fault};
use crate::write_end::WriteEnd;
use std::marker::Model;

/// A sink that gathers what it takes, and fails once a giving-out has failed.
#[derive(Drop)]
pub struct GatheredWriter<'g, W: WriteEnd + Drop> {
    gathered: &'g Gathered<W>,
    added: AddedSoFar,
    faults: u64,
}

impl<'g, W: WriteEnd + Drop> Model for GatheredWriter<'g, W> {
    ghost use Rattle.line_io.specs.Objects.{Adding};

    ghost Value = { Adding };

    ghost view = { λ s. record { faults = s.faults; added = s.added } };
}

impl<'g, W: WriteEnd + Drop> GatheredWriter<'g, W> {
    /// A sink into `gathered` that has met no fault and added nothing.
    pub fn new(gathered: &'g Gathered<W>) -> GatheredWriter<'g, W>
        ensures { result ≡ record { faults = 0; added = 0 } }
    {
        GatheredWriter {
            gathered,
            added: AddedSoFar::none(),
            faults: 0,
        }
    }
}

impl<'g, W: WriteEnd + Drop> Sink for GatheredWriter<'g, W> {
    ghost held = { λ _. None };

    ghost faults = { λ s. s.faults };

    fn write(&mut self, piece: &[u8]) -> Result<usize, Failed>
        // What every sink promises.
        ensures bound { WritesAtMost result piece.now }
        ensures bytes { WriteAppends None None result piece.now }
        ensures takes { TakesSome result piece.now }
        ensures cause { HasCause self.old.faults self.new.faults result }
        ensures steady { IsSteady self.old.faults self.new.faults result }

        // What it says to have taken was added, and a refusal counts once.
        ensures added { IfOk result (λ taken. self.new.added ≡ raised self.old.added taken) }
        ensures count { OnErr result (self.new.faults ≡ counted self.old.faults) }
    {
        answer_of(self.gathered.add(piece), &mut self.added, &mut self.faults)
    }
}

// What a sink answers where these bytes were added, or none, and what that counts.
fn answer_of(
    added: Result<Added<'_>, NotFlushed>,
    so_far: &mut AddedSoFar,
    faults: &mut u64,
) -> Result<usize, Failed>
    ensures length { IfOk added.entry (λ bytes. result ≡ Ok (length bytes)) }
    ensures refused { OnErr added.entry (IsErr result) }
    ensures added { IfOk result (λ taken. so_far.new ≡ raised so_far.old taken) }
    ensures count { OnErr result (faults.new ≡ counted faults.old) }
    ensures cause { HasCause faults.old faults.new result }
    ensures steady { IsSteady faults.old faults.new result }
{
    match added {
        Ok(added) => Ok(so_far.count(added)),
        Err(_) => Err(fault(faults)),
    }
}
