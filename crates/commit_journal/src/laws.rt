//! How the live fronts change.

ghost use Rattle.std.specs.Prelude.{◌≡◌, ◌⊎◌, ℕ};
ghost use Rattle.std.specs.FinMap.{insert, remove};
ghost use Rattle.commit_journal.specs.Fronts.{FrontState, Live, StandsAt, position_of, positions_of};
ghost use Rattle.commit_journal.specs.Journals.{IsLive, JournalState};

/// Law: a live front stands at its position; where a front comes its position comes, and where one goes no position comes.
pub fn live_fronts_come_and_go()
    ensures live { (state : JournalState) (front : FrontState) →
        IsLive state front → StandsAt (positions_of state.live) (position_of front) }
    ensures comes { (live : Live) (id who position other : ℕ) →
        StandsAt (positions_of (insert live id (who, position))) other →
        (position ≡ other) ⊎ StandsAt (positions_of live) other }
    ensures goes { (live : Live) (id other : ℕ) →
        StandsAt (positions_of (remove live id)) other → StandsAt (positions_of live) other }
{}
