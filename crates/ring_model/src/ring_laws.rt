ghost use Rattle.std.specs.Prelude.{◌≡◌, ◌+◌, ◌<◌, ◌≤◌, ℕ, List, [], ◌++◌, length, sum};
ghost use Rattle.std.specs.Prelude.{slice_index, slice_index_or, replicate, map};
ghost use Rattle.std.specs.List.{AllByRecursion};
ghost use Rattle.hamming_model.specs.declared.hit.Hit.{Hit};
ghost use Rattle.hamming_model.specs.Codes.{IsCode};
ghost use Rattle.hamming_model.specs.Layouts.{IsLayout};
ghost use Rattle.hamming_model.specs.Scan.{in_order, scan, hit_of};
ghost use Rattle.hamming_model.specs.Stored.{AreCodeRows};
ghost use Rattle.threshold_model.specs.Vectors.{IsLeast, NeverFalls, row_counts};
ghost use Rattle.search_model.specs.Reading.{HasSame, AreLists};
ghost use Rattle.ring_model.specs.Rings.{hits_met, hits_new, units_raised, rows_apart, ring_read};
ghost use Rattle.ring_model.specs.Rings.{ring_cost, IsCheapest, hits_nearer, hits_from};

/// Law: where the units searched so far add up to the radius, the cheapest next ring costs at most
/// the least cost of a threshold vector for that radius: the vector allows one unit more in all, so
/// it allows more units at some part.
pub fn the_cheapest_ring_is_within_the_least()
    ensures ring { (count : ℕ → ℕ → ℕ) (units : List ℕ) (part radius least : ℕ) →
        ((other : ℕ) → other < length units → NeverFalls (count other)) →
        sum units ≡ radius → IsLeast count radius (length units) least →
        IsCheapest count units part → ring_cost count units part ≤ least }
    ensures sum { (units : List ℕ) (part : ℕ) → part < length units →
        sum (units_raised units part) ≡ sum units + 1 }
    ensures start { (parts : ℕ) → sum (replicate parts 0) ≡ 0 }
{}

/// Law: the postings of a ring are the rows at that distance, each as often; they are as many as
/// the count rises; and the new ones among them are what one unit more at the part finds more.
pub fn a_ring_finds_its_rows()
    ensures same { (bits apart : ℕ) (rows : List (ℕ × List ℕ)) (part query : List ℕ)
        (lists : ℕ → List (ℕ × List ℕ)) →
        AreCodeRows bits rows → IsCode bits query → AreLists rows part lists →
        HasSame (ring_read lists part query apart) (rows_apart rows part query apart) }
    ensures cost { (rows read : List (ℕ × List ℕ)) (layout : List (List ℕ)) (units query : List ℕ)
        (part : ℕ) →
        HasSame read
        (rows_apart rows (slice_index_or layout part []) query (slice_index units part)) →
        length read ≡ ring_cost (row_counts rows layout query) units part }
    ensures finds { (rows read : List (ℕ × List ℕ)) (layout : List (List ℕ)) (units query : List ℕ)
        (part : ℕ) → length units ≡ length layout → part < length layout →
        HasSame read
        (rows_apart rows (slice_index_or layout part []) query (slice_index units part)) →
        HasSame (hits_met rows layout units query ++ hits_new layout units query read)
        (hits_met rows layout (units_raised units part) query) }
    ensures start { (rows : List (ℕ × List ℕ)) (layout : List (List ℕ)) (query : List ℕ) →
        hits_met rows layout (replicate (length layout) 0) query ≡ [] }
{}

/// Law: where the units of the parts add up to so many, every row nearer than so many was found,
/// once; what is new then isn't nearer.
pub fn near_rows_are_met()
    ensures near { (bits : ℕ) (rows : List (ℕ × List ℕ)) (layout : List (List ℕ))
        (units query : List ℕ) →
        IsLayout bits layout → AreCodeRows bits rows → IsCode bits query →
        length units ≡ length layout →
        HasSame (hits_nearer (hits_met rows layout units query) (sum units))
        (hits_nearer (map (hit_of query) rows) (sum units)) }
    ensures new { (bits : ℕ) (read : List (ℕ × List ℕ)) (layout : List (List ℕ))
        (units query : List ℕ) →
        IsLayout bits layout → AreCodeRows bits read → IsCode bits query →
        length units ≡ length layout →
        AllByRecursion (λ hit. sum units ≤ hit.dist) (hits_new layout units query read) }
    ensures few { (rows : List (ℕ × List ℕ)) (layout : List (List ℕ)) (units query : List ℕ) →
        length (hits_met rows layout units query) ≤ length rows }
    ensures all { (rows : List (ℕ × List ℕ)) (layout : List (List ℕ)) (units query : List ℕ) →
        length (hits_met rows layout units query) ≡ length rows →
        hits_met rows layout units query ≡ map (hit_of query) rows }
{}

/// Law: hits in order are those nearer than so many units in order, and then the others.
pub fn hits_split_at_a_distance()
    ensures split { (hits : List Hit) (units : ℕ) →
        in_order hits ≡ in_order (hits_nearer hits units) ++ in_order (hits_from hits units) }
    ensures all { (bits : ℕ) (rows : List (ℕ × List ℕ)) (query : List ℕ) → AreCodeRows bits rows →
        scan rows query bits ≡ in_order (map (hit_of query) rows) }
    ensures within { (bits : ℕ) (rows : List (ℕ × List ℕ)) (query : List ℕ) →
        AreCodeRows bits rows →
        hits_nearer (map (hit_of query) rows) (bits + 1) ≡ map (hit_of query) rows }
{}
