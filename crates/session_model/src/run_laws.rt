ghost use Rattle.std.specs.Prelude.{◌≡◌, ℕ, List, length};
ghost use Rattle.std.specs.List.{AllByRecursion};
ghost use Rattle.hamming_model.specs.History.{JournalEntry};
ghost use Rattle.part_layout.specs.declared.config.Config.{Config};
ghost use Rattle.session_model.specs.Entries.{Exchange};
ghost use Rattle.session_model.specs.State.{Query, State};
ghost use Rattle.session_model.specs.Run.{Run, IsAlone, IsAmongOthers};
ghost use Rattle.session_model.specs.Later.{AreLater};
ghost use Rattle.session_model.specs.Told.{ArePinnedAsTold};

/// Whatever a session is asked, each query that it opened stays in its place with its question, its rows and its layouts, what it
/// has read never falls, and stays as it is once it was said that all its hits were given.
pub fn queries_only_read_on()
    ensures alone { (config : Config) (history : List JournalEntry) (s t : State)
        (exchanges : List Exchange) →
        Run (IsAlone config) config history s exchanges t → AreLater s.queries t.queries }
    ensures among_others { (config : Config) (history : List JournalEntry) (s t : State)
        (exchanges : List Exchange) →
        Run IsAmongOthers config history s exchanges t → AreLater s.queries t.queries }
{}

/// What a report tells of layouts gives back the layout that each query pinned on each shard: the last one of the shard up to the
/// query, for the first 2^64 - 1 queries.
pub fn layouts_told_are_those_pinned()
    ensures { (shards : ℕ) (queries : List Query) →
        AllByRecursion (λ query. length query.pinned ≡ shards) queries →
        ArePinnedAsTold shards queries }
{}
