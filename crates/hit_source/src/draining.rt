//! Taking all hits of a source.

ghost use Rattle.std.specs.Prelude.{◌≡◌, ◌+◌, ◌≤◌, [], OnOk};
ghost use Rattle.hit_source.specs.Sources.{IsLawful};
ghost use Rattle.hit_source.specs.Drains.{TakesHits, Drains, OnlyGives};

use crate::{HitSource, Polled};
use hamming_model::Hit;
use read_meter::{NoMemory, Steps};

/// Takes the hits that a source has left, and pushes them behind those in `out`, in order, up to its end.
///
/// # Errors
///
/// `NoMemory` where there is no memory for one hit more in `out`: that hit still waits.
pub fn drain<H: HitSource, L>(
    source: &mut H,
    budget: u32,
    steps: &mut Steps<L>,
    out: &mut Vec<Hit>,
) -> Result<(), NoMemory>
    requires budget { 1 ≤ budget }
    requires some_room { 1 ≤ (H.asked source.old).room }
    // It ends with every hit.
    ensures ends { OnOk result (Drains (H.asked source.old)
        (H.standing source.old) (H.standing source.new) out.old.items out.new.items) }
    // In any case what was taken are the next hits, and what was read stands on the ledger.
    ensures takes { TakesHits (H.asked source.old)
        (H.standing source.old) (H.standing source.new) out.old.items out.new.items }
    ensures ledger { steps.new + (H.standing source.old).reads
        ≡ steps.old + (H.standing source.new).reads }
    ensures asked { H.asked source.new ≡ H.asked source.old }
    ensures lawful { IsLawful (H.asked source.new) (H.standing source.new) }
{
    take_waiting(source, out)?;
    loop {
        let polled = source.poll(budget, steps);
        take_waiting(source, out)?;
        if let Polled::Ended = polled {
            return Ok(());
        }
    }
}

/// Takes the hits that wait, and pushes them behind those in `out`, in order.
///
/// # Errors
///
/// `NoMemory` where there is no memory for one hit more in `out`: that hit still waits.
pub fn take_waiting<H: HitSource>(source: &mut H, out: &mut Vec<Hit>) -> Result<(), NoMemory>
    ensures empties { OnOk result ((H.standing source.new).waiting ≡ []) }
    ensures takes { TakesHits (H.asked source.old)
        (H.standing source.old) (H.standing source.new) out.old.items out.new.items }
    ensures gives { OnlyGives (H.standing source.old) (H.standing source.new) }
    ensures asked { H.asked source.new ≡ H.asked source.old }
    ensures lawful { IsLawful (H.asked source.new) (H.standing source.new) }
{
    while let Some(hit) = source.head() {
        out.push(hit)?;
        let _given = source.pop();
    }
    Ok(())
}
