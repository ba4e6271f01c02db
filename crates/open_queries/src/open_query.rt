//! An open query, and where it stands among the others.

ghost use Rattle.std.specs.Prelude.{◌≡◌, ℕ, MatchOption};
ghost use Rattle.open_queries.specs.Queries.{IsFree, IsFirstAt};

use hit_source::HitSource;
use query_protocol::Tag;
use scatter_gather::Gather;

/// The most queries that are open at a time.
pub const MOST_OPEN: usize = 16;

/// An open query: its tag, the gathering of its hits, and whether it was said that all were given.
#[derive(Drop)]
pub struct OpenQuery<H: HitSource> {
    pub(crate) tag: Tag,
    pub(crate) gather: Gather<H>,
    pub(crate) done: bool,
}

/// Where the first query of a tag stands. Looks at every place once.
pub(crate) fn place_of<H: HitSource>(queries: &[OpenQuery<H>], tag: &Tag) -> Option<usize>
    ensures { MatchOption result (IsFree queries.now tag.now)
        (λ place. IsFirstAt queries.now tag.now place) }
{
    for place in 0..queries.len() {
        if queries[place].tag.matches(tag) {
            return Some(place);
        }
    }
    None
}
