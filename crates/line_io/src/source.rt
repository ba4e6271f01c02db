ghost use Rattle.std.specs.Prelude.{◌≡◌, ℕ, ◌≤◌, List};
ghost use Rattle.std.specs.declared.option.Option.{Option};
ghost use Rattle.std.specs.Io.{ReadsAtMost};
ghost use Rattle.std.specs.Io.KnownBytes.{ReadConsumes};
ghost use Rattle.line_io.specs.Faults.{HasCause, IsSteady, Rose, StaysTold, counted};

/// A read or a write failed. Which bytes are left or held is as before.
#[derive(Clone, Copy, Debug, PartialEq, Eq)]
pub struct Failed;

/// Where bytes come from.
pub trait Source {
    /// The bytes left to read, where the source tells them.
    ghost left: { Self → Option (List ℕ) };

    /// The faults met so far, which stop at the greatest u64.
    ghost faults: { Self → ℕ };

    /// Puts the first of the bytes left at the front of `room`, and returns how many. None, in a
    /// room that isn't empty, is the end. Failed takes nothing. A read that succeeds counts no
    /// fault.
    fn read(&mut self, room: &mut [u8]) -> Result<usize, Failed>
        ensures bound { ReadsAtMost result room.new }
        ensures bytes { ReadConsumes (left self.old) (left self.new) result room.new }
        ensures told { StaysTold (left self.old) (left self.new) }
        ensures cause { HasCause (faults self.old) (faults self.new) result }
        ensures steady { IsSteady (faults self.old) (faults self.new) result };
}

/// Counts a fault, and says so.
pub(crate) fn fault(faults: &mut u64) -> Failed
    ensures count { faults.new ≡ counted faults.old }
    ensures never_falls { faults.old ≤ faults.new }
    ensures rose { Rose faults.old faults.new }
{
    *faults = faults.saturating_add(1);
    Failed
}
