ghost use Rattle.std.specs.Prelude.{◌≡◌, ◌<◌, ℕ, List, sum, length};
ghost use Rattle.threshold_model.specs.Finding.{first_part, IsFirstBelow};

/// Where the distances add up to less than the units, some place has fewer, and `first_part` is the
/// first such place: the pigeonhole principle over two lists of numbers.
pub fn some_place_is_below()
    ensures below { (units distances : List ℕ) → length units ≡ length distances →
        sum distances < sum units → IsFirstBelow units distances (first_part units distances) }
{}
