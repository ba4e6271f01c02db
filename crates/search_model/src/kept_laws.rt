ghost use Rattle.std.specs.Prelude.{◌≡◌, ℕ, ℤ, List, length};
ghost use Rattle.hamming_model.specs.Codes.{IsCode};
ghost use Rattle.hamming_model.specs.Layouts.{IsLayout};
ghost use Rattle.hamming_model.specs.Scan.{in_order, scan};
ghost use Rattle.hamming_model.specs.Stored.{AreCodeRows};
ghost use Rattle.threshold_model.specs.Vectors.{IsVector, cost, row_counts};
ghost use Rattle.search_model.specs.Reading.{IsReading, number_read};
ghost use Rattle.search_model.specs.Keeping.{hits_of_parts};

/// Law: of what the parts find at the thresholds of a vector, each row within tau is kept exactly once,
/// at the first part that finds it; put in order, these hits are the scan.
pub fn near_rows_are_kept_once()
    ensures { (bits tau : ℕ) (rows : List (ℕ × List ℕ)) (layout : List (List ℕ))
        (thresholds : List ℤ) (query : List ℕ) (read : List (List (ℕ × List ℕ))) →
        IsLayout bits layout → AreCodeRows bits rows → IsCode bits query →
        IsVector tau (length layout) thresholds → IsReading rows layout thresholds query read →
        in_order (hits_of_parts layout thresholds query tau 0 read) ≡ scan rows query tau }
{}

/// Law: as many rows are read as the thresholds cost over the counts of the rows.
pub fn rows_read_are_the_cost()
    ensures { (rows : List (ℕ × List ℕ)) (layout : List (List ℕ)) (thresholds : List ℤ)
        (query : List ℕ) (read : List (List (ℕ × List ℕ))) →
        length thresholds ≡ length layout → IsReading rows layout thresholds query read →
        number_read read ≡ cost (row_counts rows layout query) thresholds }
{}
