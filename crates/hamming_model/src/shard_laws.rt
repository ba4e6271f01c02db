ghost use Rattle.std.specs.Prelude.{◌≡◌, ℕ, List, length, min, sum, take};
ghost use Rattle.std.specs.List.{flat_map};
ghost use Rattle.hamming_model.specs.Scan.{Near, answer, in_order, scan};
ghost use Rattle.hamming_model.specs.Shards.{AreShardNumbers, AreShardScans};
ghost use Rattle.hamming_model.specs.Stored.{AreCodeRows};
ghost use Rattle.hamming_model.specs.declared.hit.Hit.{Hit};

/// Law: the scans of all shards, put in one order, are the scan of all rows; and each row is of one shard.
pub fn shards_together_answer()
    ensures merged { (shards : ℕ) (rows : List (ℕ × List ℕ)) (query : List ℕ) (radius : ℕ)
        (scans : List (List Hit)) → AreShardScans shards rows query radius scans →
        in_order (flat_map (λ each. each) scans) ≡ scan rows query radius }
    ensures number { (shards : ℕ) (rows : List (ℕ × List ℕ)) (numbers : List ℕ) →
        AreShardNumbers shards rows numbers → sum numbers ≡ length rows }
{}

/// Law: within as many positions as the codes have bits every row is a hit, so a near answer is that scan
/// cut at the lesser of its number and of the rows.
pub fn every_row_is_within_all_bits()
    ensures all { (bits : ℕ) (rows : List (ℕ × List ℕ)) (query : List ℕ) →
        AreCodeRows bits rows → length (scan rows query bits) ≡ length rows }
    ensures nearest { (bits number : ℕ) (rows : List (ℕ × List ℕ)) (query : List ℕ) →
        AreCodeRows bits rows →
        take (min number (length rows)) (scan rows query bits)
        ≡ answer bits rows (Near number query) }
{}
