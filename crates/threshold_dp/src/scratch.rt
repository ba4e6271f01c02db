ghost use Rattle.std.specs.Prelude.{◌≡◌, ◌<◌, ◌≤◌, IfOk};
ghost use Rattle.hamming_model.specs.declared.limits.TheConstants.{PARTS_MOST};

use read_meter::NoMemory;
use std::alloc::Global;
use std::marker::Model;

/// The room in which an allocation works. It is kept between queries, so that an allocation takes
/// no memory.
#[derive(Drop)]
pub struct Scratch {
    parts: usize,
    tau: u32,
    pub(crate) asked: Vec<u32>,
    pub(crate) costs: Vec<u64>,
    pub(crate) picks: Vec<u16>,
}

impl Model for Scratch {
    ghost use Rattle.threshold_dp.specs.Room.{TableRoom};

    ghost Value = { TableRoom };

    ghost use Rattle.threshold_dp.specs.Kept.{HasRoom};

    ghost view = { λ s. record { parts = s.parts; tau = s.tau } };

    ghost invariant = { HasRoom };
}

impl Scratch {
    /// Room for up to so many parts and for radii up to tau: (tau + 2) * (parts * 2 + 12) bytes.
    pub fn reserve(alloc: Global, parts: usize, tau: u32) -> Result<Scratch, NoMemory>
        requires some { 0 < parts }
        requires few { parts ≤ PARTS_MOST }
        requires near { tau ≤ 512 }
        ensures room { IfOk result (λ scratch. scratch ≡ record { parts = parts; tau = tau }) }
    {
        let width = tau as usize + 2;
        let asked = vec![in alloc; 0u32; width]?;
        let costs = vec![in alloc; 0u64; width]?;
        let picks = vec![in alloc; 0u16; parts * width]?;
        Ok(Scratch {
            parts,
            tau,
            asked,
            costs,
            picks,
        })
    }
}
