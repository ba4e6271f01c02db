ghost use Rattle.std.specs.Prelude.{ℕ, ℤ, List, length};
ghost use Rattle.hamming_model.specs.Codes.{IsCode};
ghost use Rattle.hamming_model.specs.Layouts.{IsLayout};
ghost use Rattle.threshold_model.specs.Finding.{IsShortVector, FitWidths, missed_code, IsMissed};

/// The sum of a vector can't be one smaller: where no threshold reaches its part's width, a code at
/// the distance tau is then missed by all parts.
pub fn smaller_sum_misses_a_code()
    ensures missed { (bits tau : ℕ) (layout : List (List ℕ)) (thresholds : List ℤ) →
        (query : List ℕ) → IsLayout bits layout → IsCode bits query →
        IsShortVector tau (length layout) thresholds → FitWidths thresholds layout →
        IsMissed bits tau layout thresholds query (missed_code thresholds layout query) }
{}
