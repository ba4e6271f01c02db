ghost use Rattle.std.specs.Prelude.{◌≡◌, ◌+◌, ◌-◌, ◌^◌, ◌<◌, ◌≤◌, ◌++◌, All, IfOk, OnOk, length, take, drop};
ghost use Rattle.hamming_model.specs.declared.limits.TheConstants.{PART_WIDTH_MOST};
ghost use Rattle.ball_walk.specs.Flips.{flips};
ghost use Rattle.ball_walk.specs.FlipTable.{all_flips, flips_below};

use crate::ball::bound_of;
use read_meter::NoMemory;
use std::alloc::Global;
use std::marker::Model;

/// The numbers of a width by how many ones they have: an exclusive or with one of `apart` ones makes
/// of a value one at that distance. Seen as the width.
#[derive(Drop)]
pub struct Flips {
    width: u32,
    // by how many ones they have, and ascending
    numbers: Vec<u16>,
    // where those of each number of ones begin, and at last where all end
    starts: Vec<usize>,
}

impl Model for Flips {
    ghost use Rattle.std.specs.Prelude.{ℕ};
    ghost use Rattle.ball_walk.specs.FlipTable.{IsFlipTable};

    ghost Value = { ℕ };

    ghost view = { λ f. f.width };

    ghost invariant = { λ f. IsFlipTable f.width f.numbers.items f.starts.items };
}

impl Flips {
    /// The numbers of `width` binary digits.
    ///
    /// # Errors
    ///
    /// `NoMemory` where there is no memory for `2^width` numbers and a place for each number of ones.
    pub fn new(alloc: Global, width: u32) -> Result<Flips, NoMemory>
        requires { width ≤ PART_WIDTH_MOST }
        ensures { IfOk result (λ flips. flips ≡ width) }
    {
        let mut numbers = Vec::with_capacity(alloc, 1 << width)?;
        let mut starts = Vec::with_capacity(alloc, width as usize + 2)?;
        for ones in 0..width + 1 {
            starts.push(numbers.as_slice().len())?;
            push_flips(&mut numbers, width, ones)?;
        }
        starts.push(numbers.as_slice().len())?;
        Ok(Flips {
            width,
            numbers,
            starts,
        })
    }

    /// The width.
    pub fn width(&self) -> u32
        ensures width { result ≡ self.now }
        ensures small { result ≤ PART_WIDTH_MOST }
    {
        self.width
    }

    /// The numbers with just so many ones, ascending: none where that is more than the width.
    pub fn ring(&self, apart: usize) -> &[u16]
        ensures flips { result.now ≡ flips self.now apart }
        ensures in_width { All (λ flip. flip < 2 ^ self.now) result.now }
    {
        if apart > self.width as usize {
            return &[];
        }
        let starts = self.starts.as_slice();
        between(self.numbers.as_slice(), starts[apart], starts[apart + 1])
    }

    // All numbers, by how many ones they have.
    pub(crate) fn numbers(&self) -> &[u16]
        ensures { result.now ≡ all_flips self.now }
    {
        self.numbers.as_slice()
    }

    // How many numbers have fewer ones than so many.
    pub(crate) fn start(&self, apart: u32) -> usize
        requires { apart ≤ self.now + 1 }
        ensures { result ≡ length (flips_below self.now apart) }
    {
        self.starts.as_slice()[apart as usize]
    }
}

// Adds the numbers of a width with so many ones, ascending.
fn push_flips(numbers: &mut Vec<u16>, width: u32, ones: u32) -> Result<(), NoMemory>
    requires { width ≤ PART_WIDTH_MOST }
    ensures { OnOk result (numbers.new.items ≡ numbers.old.items ++ flips width ones) }
{
    for number in 0..bound_of(width) {
        if number.count_ones() == ones {
            numbers.push(number)?;
        }
    }
    Ok(())
}

// The numbers from one place up to another.
fn between(numbers: &[u16], from: usize, to: usize) -> &[u16]
    requires order { from ≤ to }
    requires within { to ≤ length numbers.now }
    ensures { result.now ≡ take (to - from) (drop from numbers.now) }
{
    &numbers[from..to]
}
