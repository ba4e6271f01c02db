//! How the rule of a shard lasts.

ghost use Rattle.std.specs.Prelude.{◌≡◌, ◌⊎◌, ◌<◌, ◌≤◌, ℕ, List, [], ◌++◌, length, Option};
ghost use Rattle.hamming_model.specs.History.{JournalEntry};
ghost use Rattle.part_layout.specs.Laid.{IsLaid, Laid};
ghost use Rattle.shard_version.specs.Contents.{Contents, empty_of};
ghost use Rattle.commit_journal.specs.Fronts.{FrontState, IsFront, StandsAt, position_of};
ghost use Rattle.commit_journal.specs.Journals.{Commits, IsKnown, JournalState, Opens, without_front};
ghost use Rattle.commit_journal.specs.declared.decided.Decided.{Decided};
ghost use Rattle.versioned_shard.specs.Along.{Follows, version_at};
ghost use Rattle.versioned_shard.specs.Rule.{KeepsJournalRule, KeepsRule};
ghost use Rattle.versioned_shard.specs.Shards.{HasVersion, IsOneOf, MayStandIn, ShardState};
ghost use Rattle.versioned_shard.specs.Shards.{advanced, shard_with, with_layout};

use commit_journal::live_fronts_come_and_go;

/// Law: what a shard does keeps its rule, whichever positions are live; and by the rule a live front finds its version, with the
/// rows of its own prefix.
pub fn shards_keep_the_rule()
    ensures begins { (live : ℕ → Option ℕ) (history : List JournalEntry) (shard shards : ℕ) →
        (layout : Laid) → IsLaid layout →
        KeepsRule live history (shard_with (empty_of shard shards layout) []) }
    ensures follows { (live : ℕ → Option ℕ) (history : List JournalEntry) (shard : ShardState) →
        (front : FrontState) → KeepsRule live history shard → IsKnown live history front →
        shard.current.at < position_of front → Follows front.entries shard.current }
    ensures advanced { (live : ℕ → Option ℕ) (history : List JournalEntry) (shard : ShardState) →
        (front : FrontState) →
        KeepsRule live history shard → IsKnown live history front → IsFront front →
        KeepsRule live history (advanced front shard) }
    ensures has { (live : ℕ → Option ℕ) (history : List JournalEntry) (shard : ShardState) →
        (front : FrontState) → KeepsRule live history shard → StandsAt live (position_of front) →
        HasVersion (advanced front shard) (position_of front) }
    ensures given { (live : ℕ → Option ℕ) (history : List JournalEntry) (shard : ShardState) →
        (position : ℕ) (version : Contents) →
        KeepsRule live history shard → IsOneOf shard position version →
        version ≡ version_at history version position }
    ensures swapped { (live : ℕ → Option ℕ) (history : List JournalEntry) (shard : ShardState) →
        (version : Contents) → KeepsRule live history shard → IsLaid version.layout →
        MayStandIn shard version → version.at ≡ shard.current.at →
        KeepsRule live history (with_layout shard version.layout) }
{}

/// Law: a history that gets longer keeps the rule, and so do live positions that go, and those that come at the length of the history
/// or beyond it.
pub fn rules_follow_fronts()
    ensures longer { (live : ℕ → Option ℕ) (history more : List JournalEntry) (shard : ShardState) →
        KeepsRule live history shard → KeepsRule live (history ++ more) shard }
    ensures live { (old new : ℕ → Option ℕ) (history : List JournalEntry) (shard : ShardState) →
        ((position : ℕ) → StandsAt new position →
        StandsAt old position ⊎ (length history ≤ position)) →
        KeepsRule old history shard → KeepsRule new history shard }
{}

/// Law: what a journal does keeps the rule of a shard.
pub fn journals_keep_the_rule()
    ensures commits { (old new : JournalState) (entry : JournalEntry) (decided : Decided) →
        (shard : ShardState) → KeepsJournalRule old shard → Commits old new entry decided →
        KeepsJournalRule new shard }
    ensures opens { (old new : JournalState) (session : ℕ) (front : FrontState) →
        (shard : ShardState) → KeepsJournalRule old shard → Opens old new session front →
        KeepsJournalRule new shard }
    ensures closes { (journal : JournalState) (id : ℕ) (shard : ShardState) →
        KeepsJournalRule journal shard → KeepsJournalRule (without_front journal id) shard }
{
    live_fronts_come_and_go();
}
