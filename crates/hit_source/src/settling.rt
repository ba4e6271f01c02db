//! Hits nearer than a distance, put in front of the others and in order.

ghost use Rattle.hit_source.specs.Settled.{OrdersNearer, Gathers};

use hamming_model::Hit;

// Puts the hits nearer than so many units in front of the others, in order, and answers how many
// they are.
pub(crate) fn order_nearer(hits: &mut [Hit], units: u32) -> usize
    ensures { OrdersNearer units hits.old hits.new result }
{
    let near = gather(hits, units);
    hits[..near].sort_unstable();
    near
}

// Puts the hits nearer than so many units in front of the others, and answers how many they are.
fn gather(hits: &mut [Hit], units: u32) -> usize
    ensures { Gathers units hits.old hits.new result }
{
    let mut near = 0;
    for at in 0..hits.len() {
        if hits[at].dist < units {
            hits.swap(near, at);
            near += 1;
        }
    }
    near
}
