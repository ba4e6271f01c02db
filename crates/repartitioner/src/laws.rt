//! How builds go along a history.

ghost use Rattle.std.specs.Prelude.{◌≡◌, ◌≤◌, ℕ, List, ◌++◌, length, Option};
ghost use Rattle.hamming_model.specs.History.{JournalEntry};
ghost use Rattle.part_layout.specs.Laid.{Laid};
ghost use Rattle.shard_version.specs.Contents.{Contents};
ghost use Rattle.version_draft.specs.Unfinished.{Unfinished, begun};
ghost use Rattle.commit_journal.specs.Fronts.{FrontState};
ghost use Rattle.versioned_shard.specs.Along.{Follows};
ghost use Rattle.versioned_shard.specs.Rule.{KeepsRule};
ghost use Rattle.versioned_shard.specs.Shards.{MayStandIn, ShardState};
ghost use Rattle.repartitioner.specs.Builds.{IsOfShard, followed};

/// Law: a build of a version has the rows of its position in the history, also once it has followed and once the history is longer;
/// so it may stand in for the shard that it is of, wherever that stands.
pub fn builds_follow_the_history()
    ensures begun { (history : List JournalEntry) (version : Contents) (layout : Laid) →
        layout.bits ≡ version.layout.bits → Follows history version →
        Follows history (begun version layout).contents }
    ensures longer { (history more : List JournalEntry) (build : Unfinished) →
        build.contents.at ≤ length history → Follows history build.contents →
        Follows (history ++ more) build.contents }
    ensures followed { (front : FrontState) (build : Unfinished) →
        Follows front.entries (followed front build).contents }
    ensures stands_in { (live : ℕ → Option ℕ) (history : List JournalEntry) (shard : ShardState) →
        (build : Contents) → KeepsRule live history shard → Follows history build →
        IsOfShard shard build → MayStandIn shard build }
{}
