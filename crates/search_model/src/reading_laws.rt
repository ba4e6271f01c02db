ghost use Rattle.std.specs.Prelude.{◌≡◌, ◌<◌, ℕ, ℤ, List, [], length, slice_index_or};
ghost use Rattle.hamming_model.specs.Codes.{IsCode};
ghost use Rattle.hamming_model.specs.Layouts.{part_count};
ghost use Rattle.hamming_model.specs.Stored.{AreCodeRows};
ghost use Rattle.search_model.specs.Reading.{HasSame, AreLists, IsReading, rows_found, rows_read, parts_read};

/// Law: the postings of a ball round the query's value at a part are the rows that the part finds, each
/// as often, for any list of positions.
pub fn balls_read_the_rows_found()
    ensures same { (bits units : ℕ) (rows : List (ℕ × List ℕ)) (part query : List ℕ)
        (lists : ℕ → List (ℕ × List ℕ)) →
        AreCodeRows bits rows → IsCode bits query → AreLists rows part lists →
        HasSame (rows_read lists part query units) (rows_found rows part query units) }
    ensures number { (bits units : ℕ) (rows : List (ℕ × List ℕ)) (part query : List ℕ)
        (lists : ℕ → List (ℕ × List ℕ)) →
        AreCodeRows bits rows → IsCode bits query → AreLists rows part lists →
        length (rows_read lists part query units) ≡ part_count rows part query units }
{}

/// Law: where each part has posting lists of the rows, what is read part by part is what the parts find
/// at their thresholds.
pub fn lists_read_by_parts()
    ensures { (bits : ℕ) (rows : List (ℕ × List ℕ)) (layout : List (List ℕ)) (thresholds : List ℤ)
        (query : List ℕ) (lists : ℕ → ℕ → List (ℕ × List ℕ)) →
        AreCodeRows bits rows → IsCode bits query → length thresholds ≡ length layout →
        ((part : ℕ) → part < length layout →
        AreLists rows (slice_index_or layout part []) (lists part)) →
        IsReading rows layout thresholds query (parts_read lists 0 layout thresholds query) }
{}
