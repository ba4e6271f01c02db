ghost use Rattle.std.specs.Prelude.{◌≡◌, ℕ, ◌<◌, ◌≤◌, List, length, map, false, true, Some, None, slice_get};
ghost use Rattle.std.specs.List.{AllByRecursion};
ghost use Rattle.part_layout.specs.Laid.{Laid};
ghost use Rattle.shard_version.specs.Contents.{Contents};
ghost use Rattle.scatter_gather.specs.Gathering.{Gathering, answer_of};
ghost use Rattle.versioned_shard.specs.Shards.{HasVersion, IsOneOf, advanced};
ghost use Rattle.world_model.specs.Answering.{HasGathering};
ghost use Rattle.world_model.specs.Asking.{hits_most};
ghost use Rattle.world_model.specs.Answers.{AnswersAll};
ghost use Rattle.world_model.specs.Events.{Setting, Event, Pin, IsFormed, IsLayoutFor};
ghost use Rattle.world_model.specs.Ledgers.{IsSumOfBounds, reads_on, reads_there};
ghost use Rattle.world_model.specs.Refusals.{refusal};
ghost use Rattle.world_model.specs.Runs.{Answer, IsRun, has_ended, hits_given};
ghost use Rattle.world_model.specs.ShardSteps.{Advances, HasFront};
ghost use Rattle.world_model.specs.Sound.{IsSound};
ghost use Rattle.world_model.specs.Worked.{EndsSwapped, halves, worked, worked_setting};
ghost use Rattle.world_model.specs.WorldState.{WorldState, ShardWithBuild, WorldQuery, answer_on, front_on, new_world, pinned_version, unpinned};
ghost use Rattle.world_model.specs.WorldStep.{WorldStep};

/// Law: a new world keeps the rules, and each event keeps them, whatever it is answered: every live front has its version on every
/// shard, every front lists the older ones, and every query is on its own prefix.
pub fn each_event_keeps_the_rules()
    ensures begins { (z : Setting) (layout : Laid) →
        IsLayoutFor z.bits layout → IsSound z (new_world z layout) }
    ensures kept { (z : Setting) (s : WorldState) (event : Event) (answer : Answer)
        (t : WorldState) →
        IsFormed z event → IsSound z s → WorldStep z s event answer t → IsSound z t }
{}

/// Law: whatever events follow one another, each query answers its own prefix, in order, within its bounds; and the hits that a query
/// was given which was opened among the events and has ended are exactly the scan of its prefix.
pub fn every_list_of_events_answers_the_scan()
    ensures all { (z : Setting) (s : WorldState) (events : List Event) (answers : List Answer)
        (t : WorldState) → AllByRecursion (IsFormed z) events → IsSound z s →
        IsRun z s events answers t → AnswersAll z s events answers t }
    ensures ended { (z : Setting) (s : WorldState) (events : List Event) (answers : List Answer)
        (t : WorldState) (number : ℕ) (query : WorldQuery) → AnswersAll z s events answers t →
        slice_get s.queries number ≡ None → slice_get t.queries number ≡ Some query →
        has_ended number events answers ≡ true →
        hits_given number events answers ≡ answer_on z t.history query }
{}

/// Law: no query is refused for being old. A pin of a query that goes on has no cause to be refused; once the shard was brought to its
/// front the version there is at hand; and that has the rows of the query's own prefix.
pub fn no_query_is_too_old()
    ensures not_refused { (z : Setting) (s : WorldState) (number shard : ℕ) (query : WorldQuery) →
        shard < z.shards → slice_get s.queries number ≡ Some query → query.cancelled ≡ false →
        refusal z s (Pin number shard) ≡ None }
    ensures there { (z : Setting) (s : WorldState) (number shard : ℕ) (query : WorldQuery)
        (older : List ℕ) (place : ShardWithBuild) → IsSound z s → HasFront s number query older →
        slice_get s.places shard ≡ Some place →
        HasVersion (advanced (front_on s.history query older) place.shard) query.position }
    ensures own_rows { (z : Setting) (s : WorldState) (number shard : ℕ) (query : WorldQuery)
        (place : ShardWithBuild) (version : Contents) → IsSound z s →
        slice_get s.queries number ≡ Some query → slice_get s.places shard ≡ Some place →
        IsOneOf place.shard query.position version →
        version ≡ pinned_version z s.history query shard version.layout }
{}

/// Law: only a poll reads, and on its own shard alone; and on each shard all queries together have read no more than their bounds.
pub fn reads_are_bounded()
    ensures others { (z : Setting) (s : WorldState) (shard : ℕ) (event : Event) (answer : Answer)
        (t : WorldState) → IsSound z s → reads_there shard event ≡ false →
        WorldStep z s event answer t → reads_on shard t.queries ≡ reads_on shard s.queries }
    ensures within { (z : Setting) (s : WorldState) (shard : ℕ) → IsSound z s →
        (sum : ℕ) × IsSumOfBounds z s.history shard s.queries sum
        × (reads_on shard s.queries ≤ sum) }
{}

/// Law: what the sources of a query ask of all shards, merged by distance and key and cut at the most hits that it gives, is the
/// whole answer on its prefix.
pub fn sources_together_answer()
    ensures { (z : Setting) (s : WorldState) (number : ℕ) (query : WorldQuery) (g : Gathering) →
        IsSound z s → HasGathering z s number query g → 0 < z.shards → unpinned query ≡ 0 →
        length (answer_on z s.history query) ≤ hits_most →
        answer_of g ≡ answer_on z s.history query }
{}

/// Law: a worked list of events. A build isn't ready, places its row, follows the history beyond its shard, is refused for that, and
/// gives the shard its layout once a later query has brought it there; the first query's version is kept in the old layout.
pub fn a_build_is_overtaken()
    ensures { (t : WorldState) × IsRun worked_setting (new_world worked_setting halves)
        (map (λ each. each.0) worked) (map (λ each. each.1) worked) t × EndsSwapped t }
{}
