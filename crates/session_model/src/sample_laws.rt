ghost use Rattle.std.specs.Prelude.{◌≡◌, ℕ, ◌≤◌, List, [], ◌∷◌, ◌++◌, length, Some};
ghost use Rattle.exchange_model.specs.declared.limits.TheConstants.{SAMPLES_MOST};
ghost use Rattle.session_model.specs.State.{Query, query_of, replaced};
ghost use Rattle.session_model.specs.Searches.{newest_of, sample_of, samples_of};

/// Law: a session has no more samples than a search takes. A query that is opened joins them where it is one, behind the others, and
/// then the oldest may be left out; what is said of a query later on, and that it is closed, changes none.
pub fn samples_follow_the_openings()
    ensures few { (queries : List Query) → length (samples_of queries) ≤ SAMPLES_MOST }
    ensures opened { (queries : List Query) (query : Query) → samples_of (queries ++ query ∷ [])
        ≡ newest_of SAMPLES_MOST (samples_of queries ++ sample_of query.ask) }
    ensures stay { (tag : List ℕ) (queries : List Query) (query this : Query) →
        query_of tag queries ≡ Some query → this.ask ≡ query.ask →
        samples_of (replaced tag this queries) ≡ samples_of queries }
{}
