ghost use Rattle.std.specs.Prelude.{◌≡◌, ℕ, ◌+◌};

use crate::tally::Tally;
use std::env::Env;
use std::marker::{Model, PhantomData};

/// A counter of steps on the ledger `L`: a number that starts at 0 and that only `tick` changes. At
/// run time it is one byte that nobody reads, so that a slice of counters has elements to lend.
#[derive(Drop)]
pub struct Steps<L> {
    byte: u8,
    tally: Tally,
    of: PhantomData<L>,
}

impl<L> Model for Steps<L> {
    ghost Value = { ℕ };

    ghost view = { λ s. s.tally.count };
}

impl<L> Steps<L> {
    // A counter at 0. Outside this crate, `upkeep` and `Meters::new` alone give one.
    pub(crate) fn zero() -> Steps<L>
        ensures { result ≡ 0 }
    {
        Steps {
            byte: 0,
            tally: Tally::zero(),
            of: PhantomData,
        }
    }

    /// Adds one. It does nothing at run time.
    pub fn tick(&mut self)
        ensures { self.new ≡ self.old + 1 }
    {
        self.tally = Tally::after(&self.tally);
    }
}

/// The ledger of upkeep, at 0. It asks for `Env`, which `main` has and which no call below it is
/// given, so a body below `main` can't count on a ledger of its own.
pub fn upkeep<M, Rt: Env>(_rt: &Rt) -> Steps<M>
    ensures { result ≡ 0 }
{
    Steps::zero()
}
