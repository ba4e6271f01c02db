//! What many sources show: their least floor, which may have the next hit, the first that waits.

ghost use Rattle.std.specs.Prelude.{◌≡◌, ◌<◌, ◌≤◌, ℕ, length, map};
ghost use Rattle.std.specs.Prelude.{min, sum_by, IfSome, slice_index_or};
ghost use Rattle.std.specs.List.{list_any, list_all};
ghost use Rattle.scatter_gather.specs.Gathering.{source_of, sources_of};
ghost use Rattle.scatter_gather.specs.Due.{lower, least_floor, is_least, may_have_next};
ghost use Rattle.scatter_gather.specs.Due.{any_may_have_next, has_head};
ghost use Rattle.scatter_gather.specs.Heads.{better, empty_floor, has_to_wait, IsReadyHead};

use hamming_model::Hit;
use hit_source::HitSource;

// The least floor of all sources.
pub(crate) fn least_floor<H: HitSource>(sources: &[H]) -> Option<u32>
    ensures { result ≡ least_floor (sources_of H.asked H.standing sources.now) }
{
    let mut least: Option<u32> = None;
    for shard in 0..sources.len() {
        least = lower_floor(least, sources[shard].floor());
    }
    least
}

// The lower of two floors, where none is the highest.
fn lower_floor(floor: Option<u32>, other: Option<u32>) -> Option<u32>
    ensures { result ≡ lower floor other }
{
    match floor {
        None => other,
        Some(low) => match other {
            None => floor,
            Some(high) => Some(low.min(high)),
        },
    }
}

// There is a floor, and it isn't above the least.
fn is_least(floor: Option<u32>, least: Option<u32>) -> bool
    ensures { result ≡ is_least floor least }
{
    match floor {
        None => false,
        Some(floor) => match least {
            None => false,
            Some(least) => floor <= least,
        },
    }
}

// Whether a source may have the next hit: none waits, and its floor is the least.
pub(crate) fn may_have_next<H: HitSource>(source: &H, least: Option<u32>) -> bool
    ensures { result ≡ may_have_next least (source_of H.asked H.standing source.now) }
{
    source.head().is_none() && is_least(source.floor(), least)
}

// Whether some source may have the next hit.
pub(crate) fn any_may_have_next<H: HitSource>(sources: &[H]) -> bool
    ensures { result ≡ any_may_have_next (sources_of H.asked H.standing sources.now) }
{
    let least = least_floor(sources);
    for shard in 0..sources.len() {
        if may_have_next(&sources[shard], least) {
            return true;
        }
    }
    false
}

// The better of the best so far and the head of a source, if one waits.
fn better(best: Option<(usize, Hit)>, shard: usize, head: Option<Hit>) -> Option<(usize, Hit)>
    ensures { result ≡ better best shard head }
{
    match head {
        None => best,
        Some(head) => match best {
            None => Some((shard, head)),
            Some(found) => {
                if found.1 > head {
                    Some((shard, head))
                } else {
                    best
                }
            }
        },
    }
}

// The floor of a source at which no hit waits.
fn empty_floor<H: HitSource>(source: &H) -> Option<u32>
    ensures { result ≡ empty_floor (source_of H.asked H.standing source.now) }
{
    if source.head().is_some() {
        None
    } else {
        source.floor()
    }
}

// Whether the best head has to wait for a source at which none waits: this is their least floor.
fn has_to_wait(best: Option<(usize, Hit)>, floor: Option<u32>) -> bool
    ensures { result ≡ has_to_wait best floor }
{
    match floor {
        None => false,
        Some(floor) => match best {
            None => true,
            Some(found) => floor <= found.1.dist,
        },
    }
}

// The first of the hits that wait, with its source's number, where no other may come before it.
pub(crate) fn ready_head<H: HitSource>(sources: &[H]) -> Option<(usize, Hit)>
    ensures { IsReadyHead (sources_of H.asked H.standing sources.now) result }
{
    let mut best: Option<(usize, Hit)> = None;
    let mut floor: Option<u32> = None;
    for shard in 0..sources.len() {
        best = better(best, shard, sources[shard].head());
        floor = lower_floor(floor, empty_floor(&sources[shard]));
    }
    if has_to_wait(best, floor) {
        return None;
    }
    best
}

// Whether a hit waits at some source.
pub(crate) fn any_waits<H: HitSource>(sources: &[H]) -> bool
    ensures { result ≡ list_any has_head (sources_of H.asked H.standing sources.now) }
{
    for shard in 0..sources.len() {
        if sources[shard].head().is_some() {
            return true;
        }
    }
    false
}

// Whether the hits of each source are all its rows.
pub(crate) fn all_near<H: HitSource>(sources: &[H]) -> bool
    ensures { result ≡ list_all (λ s. s.asked.near) (sources_of H.asked H.standing sources.now) }
{
    for shard in 0..sources.len() {
        if !sources[shard].near() {
            return false;
        }
    }
    true
}

// The sum of the rows of all sources, at most the greatest u64.
pub(crate) fn rows_of<H: HitSource>(sources: &[H]) -> u64
    ensures { result
        ≡ min (sum_by (λ s. s.asked.rows) (sources_of H.asked H.standing sources.now)) u64.MAX }
{
    let mut rows: u64 = 0;
    for shard in 0..sources.len() {
        rows = rows.saturating_add(sources[shard].rows());
    }
    rows
}

// The sum of the reads of all sources, at most the greatest u64.
pub(crate) fn reads_of<H: HitSource>(sources: &[H]) -> u64
    ensures { result ≡ min (sum_by (λ source. (H.standing source).reads) sources.now) u64.MAX }
{
    let mut reads: u64 = 0;
    for shard in 0..sources.len() {
        reads = reads.saturating_add(sources[shard].reads());
    }
    reads
}

// The sum of the bounds of all sources for a radius, at most the greatest u64.
pub(crate) fn bound_of<H: HitSource>(sources: &mut [H], given: Option<u32>) -> u64
    requires { (shard : ℕ) → (d : H) → shard < length sources.old
        → IfSome given
        (λ radius. radius ≤ (H.asked (slice_index_or sources.old shard d)).farthest) }
    ensures bound { result
        ≡ min (sum_by (λ source. (H.asked source).bound given) sources.old) u64.MAX }
    ensures asked { map H.asked sources.new ≡ map H.asked sources.old }
    ensures standing { map H.standing sources.new ≡ map H.standing sources.old }
{
    let mut bound: u64 = 0;
    for shard in 0..sources.len() {
        bound = bound.saturating_add(sources[shard].bound(given));
    }
    bound
}
