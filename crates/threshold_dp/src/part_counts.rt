ghost use Rattle.std.specs.Prelude.{◌≡◌, ℕ, ◌<◌, ◌≤◌, pos, negsuc, ◌≤ℤ◌, length, slice_index};
ghost use Rattle.threshold_model.specs.Vectors.{units_of, NeverFalls};

/// The counts of the parts round one query: how many codes are within a radius of the query's part.
pub trait PartCounts {
    /// How many parts there are.
    ghost parts: { Self → ℕ };

    /// How many codes are at one of the first so many distances of a part: of the radius e those at
    /// the distances 0 to e, which are e + 1 units, and of the radius -1 none.
    ghost counts: { Self → ℕ → ℕ → ℕ };

    /// How many codes are within the radius at a part. The radius is -1 to 512.
    fn count(&self, part: usize, radius: i32) -> u32
        requires part { part < parts self.now }
        requires low { negsuc 0 ≤ℤ radius }
        requires high { radius ≤ℤ pos 512 }
        ensures count { result ≡ counts self.now part (units_of radius) };

    /// Leaves how many codes are within each radius at a part, from -1 on, as many radii as there is
    /// room for.
    fn count_levels(&self, part: usize, out: &mut [u32])
        requires part { part < parts self.now }
        requires few { length out.old ≤ 514 }
        ensures counts { (units : ℕ) → units < length out.old →
            slice_index out.new units ≡ counts self.now part units }
    {
        for units in 0..out.len() {
            out[units] = self.count(part, units as i32 - 1);
        }
    }

    /// Within the radius -1 there is no code.
    ghost starts: { (counter : Self) (part : ℕ) → part < parts counter → counts counter part 0 ≡ 0 };

    /// A greater radius never counts fewer.
    ghost rises: { (counter : Self) (part : ℕ) → part < parts counter → NeverFalls (counts counter part) };
}
