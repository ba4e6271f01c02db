ghost use Rattle.std.specs.Prelude.{◌≡◌, ℕ, List};
ghost use Rattle.line_forms.specs.Words.{words, joined};

/// Spaces only part words: the words of a line, joined by single spaces, are the words of a line.
pub fn words_of_joined()
    ensures { (line : List ℕ) → words (joined (words line)) ≡ words line }
{}
