//! Fronts that are held.

ghost use Rattle.std.specs.Prelude.{◌≡◌, ◌≢◌, ◌==◌, ◌↔◌, ℕ, if◌then◌else◌, Option, Some, None};
ghost use Rattle.std.specs.FinMap.{insert, remove};
ghost use Rattle.commit_journal.specs.Fronts.{FrontState, Live, StandsAt, live_at, positions_of};
ghost use Rattle.commit_journal.specs.Journals.{IsLive, JournalState, KeepsFronts, KnowsFront, Opens, without_front};
ghost use Rattle.world_bridge.specs.Held.{HoldsLive, positions_held};

/// Law: where a front comes or goes, the live fronts change at its number alone; one that came and went leaves them as they were.
pub fn live_fronts_change_at_one_number()
    ensures inserted { (live : Live) (id other : ℕ) (pair : ℕ × ℕ) →
        live_at (insert live id pair) other
        ≡ (if other == id then Some pair else live_at live other) }
    ensures removed { (live : Live) (id other : ℕ) →
        live_at (remove live id) other ≡ (if other == id then None else live_at live other) }
    ensures closed_again { (live : Live) (id : ℕ) (pair : ℕ × ℕ) →
        live_at live id ≡ None → remove (insert live id pair) id ≡ live }
{}

/// Law: where the fronts that are held are exactly the live ones of a journal, they stay so as fronts are opened and closed and as the
/// history grows; and they stand where the live ones stand.
pub fn held_fronts_are_the_live_ones()
    ensures opened { (old new : JournalState) (fronts after : ℕ → Option FrontState) →
        (number who : ℕ) (front : FrontState) → HoldsLive old fronts → fronts number ≡ None →
        Opens old new who front → IsLive new front → KnowsFront new front → KeepsFronts old new →
        after number ≡ Some front →
        ((other : ℕ) → other ≢ number → after other ≡ fronts other) → HoldsLive new after }
    ensures closed { (old : JournalState) (fronts after : ℕ → Option FrontState) →
        (number : ℕ) (front : FrontState) → HoldsLive old fronts → fronts number ≡ Some front →
        KeepsFronts old (without_front old front.id) → after number ≡ None →
        ((other : ℕ) → other ≢ number → after other ≡ fronts other) →
        HoldsLive (without_front old front.id) after }
    ensures grown { (old new : JournalState) (fronts : ℕ → Option FrontState) →
        HoldsLive old fronts → new.live ≡ old.live → KeepsFronts old new → HoldsLive new fronts }
    ensures positions { (journal : JournalState) (fronts : ℕ → Option FrontState) →
        (position : ℕ) → HoldsLive journal fronts →
        StandsAt (positions_of journal.live) position ↔ StandsAt (positions_held fronts) position }
{}
