//! How builds stay with their shard.

ghost use Rattle.std.specs.Prelude.{◌≡◌, ℕ};
ghost use Rattle.hamming_model.specs.History.{Operation};
ghost use Rattle.version_draft.specs.Unfinished.{Unfinished, with_placed};
ghost use Rattle.commit_journal.specs.declared.decided.Decided.{Decided};
ghost use Rattle.versioned_shard.specs.Along.{Follows};
ghost use Rattle.session_desk.specs.Calls.{CommitsAt, Learns};
ghost use Rattle.session_desk.specs.Desks.{DeskState};
ghost use Rattle.query_opening.specs.Pinning.{ComesOn};
ghost use Rattle.shard_rebuild.specs.ShardBuilds.{IsBuildOf, SeesMore};

/// Law: a build of a shard stays one while the desk sees more under the same Config, as in each of its calls: a commit appends an
/// entry, and in all others what is learned comes behind. It stays one while rows are placed, and it follows all that is seen.
pub fn builds_stay_with_their_shard()
    ensures more { (old new : DeskState) (shard : ℕ) (build : Unfinished) →
        SeesMore old new → IsBuildOf old shard build → IsBuildOf new shard build }
    ensures placed { (desk : DeskState) (shard number : ℕ) (build : Unfinished) →
        IsBuildOf desk shard build → IsBuildOf desk shard (with_placed build number) }
    ensures follows { (desk : DeskState) (shard : ℕ) (build : Unfinished) →
        IsBuildOf desk shard build → Follows desk.seen build.contents }
    // Where more is seen.
    ensures learns { (old new : DeskState) →
        Learns old new.seen → new.config ≡ old.config → SeesMore old new }
    ensures commits { (old new : DeskState) (operation : Operation) (decided : Decided) →
        CommitsAt old new operation decided → SeesMore old new }
    ensures comes { (old new : DeskState) → ComesOn old new → SeesMore old new }
    ensures both { (old mid new : DeskState) →
        SeesMore old mid → SeesMore mid new → SeesMore old new }
{}
