//! Sources and gatherings of a world's questions.

ghost use Rattle.std.specs.Prelude.{◌≡◌, ◌≤◌, ◌<◌, ◌↔◌, ℕ, true, List, Some, None};
ghost use Rattle.std.specs.List.{AllByRecursion};
ghost use Rattle.hamming_model.specs.Scan.{Range, Near};
ghost use Rattle.hamming_model.specs.declared.hit.Hit.{Hit};
ghost use Rattle.threshold_model.specs.Bounds.{IsUnitsOf};
ghost use Rattle.shard_version.specs.Contents.{Contents};
ghost use Rattle.hit_source.specs.Sources.{Asked, IsFresh, Standing};
ghost use Rattle.shard_query.specs.Opening.{AsksRange, BeginsRange};
ghost use Rattle.knn_task.specs.Opening.{AsksNear, BeginsNear};
ghost use Rattle.scatter_gather.specs.Due.{least_floor};
ghost use Rattle.scatter_gather.specs.Gathering.{Gathering, Source, next_hit, reaches_by_rows};
ghost use Rattle.scatter_gather.specs.Kept.{AreLawful, IsGathering};
ghost use Rattle.world_model.specs.Asking.{AsksOf};

/// Law: a range source and a near one ask what a question asks of a version, and begin as its sources do.
pub fn sources_ask_the_question()
    ensures range { (version : Contents) (code : List ℕ) (tau room : ℕ) (a : Asked) →
        AsksRange version code tau room a → AsksOf room version (Range tau code) a }
    ensures near { (version : Contents) (code : List ℕ) (number room : ℕ) (a : Asked) →
        AsksNear version code room a → AsksOf room version (Near number code) a }
    ensures range_begins { (version : Contents) (a : Asked) (s : Standing) →
        BeginsRange version a s → IsFresh s }
    ensures range_units { (bits : ℕ) (version : Contents) (code : List ℕ) (tau room : ℕ) →
        (a : Asked) (s : Standing) → AsksRange version code tau room a → BeginsRange version a s →
        (most : ℕ) × IsUnitsOf bits (Range tau code) version.rows version.layout.parts most
        × (s.units ≤ most) }
{}

/// Law: where every row is a hit and there are as many as the limit, a hit is left until that is reached; and there is no least floor
/// exactly where no source has one.
pub fn near_gatherings_go_on()
    ensures goes_on { (g : Gathering) → IsGathering g → AreLawful g.sources →
        reaches_by_rows g ≡ true → g.given < g.limit →
        (hit : Hit) × (next_hit g ≡ Some hit) }
    ensures no_floor { (sources : List Source) → (least_floor sources ≡ None)
        ↔ AllByRecursion (λ source. source.standing.floor ≡ None) sources }
{}
