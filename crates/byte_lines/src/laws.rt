ghost use Rattle.std.specs.Prelude.{◌≡◌, ◌≢◌, ℕ, List, [], ◌∷◌, ◌++◌};
ghost use Rattle.byte_lines.specs.Lines.{ended_lines, unended, without_return, IsSplitAtEnds};
ghost use Rattle.byte_lines.specs.Lines.{AreLinesOf};

/// The lines of two pieces, one after the other, are those of the pieces joined.
pub fn lines_in_pieces()
    ensures lines { (begun a b : List ℕ) →
        ended_lines begun (a ++ b) ≡ ended_lines begun a ++ ended_lines (unended begun a) b }
    ensures rest { (begun a b : List ℕ) → unended begun (a ++ b) ≡ unended (unended begun a) b }
{}

/// The lines of some bytes are what stands between their LFs, each without its CR.
pub fn line_pieces()
    ensures split { (bytes : List ℕ) →
        (pieces : List (List ℕ)) × IsSplitAtEnds bytes pieces (unended [] bytes) }
    ensures only { (bytes : List ℕ) (pieces : List (List ℕ)) (rest : List ℕ) →
        IsSplitAtEnds bytes pieces rest → AreLinesOf bytes pieces rest }
{}

/// One CR at the end of a line that an LF ended is dropped, and nothing else.
pub fn dropped_return()
    ensures none { without_return [] ≡ [] }
    ensures dropped { (line : List ℕ) → without_return (line ++ 13 ∷ []) ≡ line }
    ensures stays { (line : List ℕ) (last : ℕ) → last ≢ 13 →
        without_return (line ++ last ∷ []) ≡ line ++ last ∷ [] }
{}
