use gph_codes::Code;
use line_forms::Tag;
use part_layout::Layout;

/// The first word of a request.
#[derive(Clone, Copy, Debug, PartialEq, Eq)]
pub enum RequestWord {
    AddWord,
    DelWord,
    GetWord,
    RangeWord,
    NearWord,
    NextWord,
    CostWord,
    PlanWord,
    CancelWord,
    LayoutWord,
    RepartWord,
    BuildWord,
    SwapWord,
    SearchWord,
    QuitWord,
}

/// What a line asks.
#[derive(Drop)]
pub enum Request<const W: usize> {
    /// Commits an entry that adds a row.
    Add { key: u64, code: Code<W> },
    /// Commits an entry that takes a row out.
    Del { key: u64 },
    /// Asks for the code of a row, at the present length of the history.
    Get { key: u64 },
    /// Opens a query for all codes at most `tau` positions away.
    Range { tag: Tag, tau: u32, code: Code<W> },
    /// Opens a query for the `k` rows that come first, by distance and then by key, or for all where there are fewer.
    Near { tag: Tag, k: u32, code: Code<W> },
    /// Asks for the next hits of a query, at most `n`.
    Next { tag: Tag, n: u32 },
    /// Asks what a query has cost so far.
    Cost { tag: Tag },
    /// Asks for the thresholds of a query in a shard.
    Plan { tag: Tag, shard: u32 },
    /// Ends a query, so that its tag is free again.
    Cancel { tag: Tag },
    /// Asks for the present layout of a shard.
    Layout { shard: u32 },
    /// Starts to build another layout for a shard.
    Repart { shard: u32, layout: Layout },
    /// Places the build's next rows, at most `n`.
    Build { n: u32 },
    /// Puts the build in the place of its shard's layout.
    Swap,
    /// Searches a cheaper layout for a shard, by at most so many rounds.
    Search { shard: u32, rounds: u32 },
    /// Ends the session.
    Quit,
}
