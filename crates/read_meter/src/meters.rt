ghost use Rattle.std.specs.Prelude.{◌≡◌, ℕ, List, length, replicate, IfOk};
ghost use Rattle.read_meter.specs.declared.meters.TheConstants.{LEDGERS};

use crate::{NoMemory, Steps};
use std::alloc::Global;
use std::env::Env;
use std::marker::Model;

/// How many ledgers there are: one for each shard that there may be.
const LEDGERS: usize = 16;

/// Sixteen ledgers, one for each shard: seen as the list of their sixteen numbers.
#[derive(Drop)]
pub struct Meters<L> {
    all: Vec<Steps<L>>,
}

impl<L> Model for Meters<L> {
    ghost use Rattle.std.specs.Prelude.{◌≡◌, ℕ, List, length};
    ghost use Rattle.read_meter.specs.declared.meters.TheConstants.{LEDGERS};

    ghost Value = { List ℕ };

    ghost view = { λ m. m.all.items };

    ghost invariant = { λ m. length m.all.items ≡ LEDGERS };
}

impl<L> Meters<L> {
    ghost use Rattle.std.specs.Borrow.{sem};
    ghost use Rattle.read_meter.specs.Lending.{LendsAll};

    /// Sixteen ledgers at 0. It asks for `Env`, as `upkeep` does.
    ///
    /// # Errors
    ///
    /// `NoMemory` where there is no memory for sixteen counters.
    pub fn new<Rt: Env>(_rt: &Rt, alloc: Global) -> Result<Meters<L>, NoMemory>
        ensures { IfOk result (λ meters. meters ≡ replicate LEDGERS 0) }
    {
        let mut all = Vec::with_capacity(alloc, LEDGERS)?;
        for _i in 0..LEDGERS {
            all.push(Steps::zero())?;
        }
        Ok(Meters { all })
    }

    /// The sixteen ledgers in order.
    pub fn as_mut(&mut self) -> &mut [Steps<L>]
        ensures* lends { sem 𝓛 (LendsAll L.row self.entry result) }
        ensures value { result.now ≡ self.old }
        ensures sixteen { length result.now ≡ LEDGERS }
    {
        self.all.as_mut_slice()
    }
}
