//! What a query asks beside its code.

ghost use Rattle.std.specs.Prelude.{◌≡◌, ℕ, List};
ghost use Rattle.open_session.specs.Questions.{ask_of, limit_in, wanted_in};

use query_opening::Wanted;

/// What a query asks beside its code.
#[derive(Clone, Copy)]
pub enum Question {
    /// All rows at most so far away, in bits.
    Range(u32),
    /// So many rows, nearest first, or all where there are fewer.
    Near(u32),
}

impl Question {
    /// What it wants of each shard.
    pub fn wanted(self) -> Wanted
        ensures { (code : List ℕ) → result ≡ wanted_in (ask_of self code) }
    {
        match self {
            Question::Range(tau) => Wanted::Within(tau),
            Question::Near(_) => Wanted::Nearest,
        }
    }

    /// The most hits that it gives of so many rows.
    pub fn limit(self, rows: u64) -> u64
        ensures { (code : List ℕ) → result ≡ limit_in (ask_of self code) rows }
    {
        match self {
            Question::Range(_) => u64::MAX,
            Question::Near(number) => rows.min(u64::from(number)),
        }
    }
}
