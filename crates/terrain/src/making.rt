// A lattice is made in two steps: `fits` or `file_fits` looks, and `new` or `from_file` makes it and cannot refuse. Reading a file into a row can lack memory.
ghost use Rattle.std.specs.Prelude.{◌≡◌, pos, IfOk, MatchResult};
ghost use Rattle.refusal.specs.Numbers.{number_of};
ghost use Rattle.lattice.specs.Terrain.{greatest_step};
ghost use Rattle.lattice.specs.Meaning.{SteepBetween};
ghost use Rattle.terrain.specs.Rows.{heights_of, row_refusal, file_refusal, file_heights};

use crate::grid::{Heights, Lattice};
use crate::rows::{HEIGHTS, check, file_row, height_of};
use refusal::Refusal;
use std::alloc::{AllocError, Global};

impl Lattice {
    // Whether a row is a lattice's heights.
    pub fn fits(heights: &[i16]) -> Result<(), Refusal>
        ensures { MatchResult result (λ _. row_refusal heights.now ≡ 0) (λ e. number_of e ≡ row_refusal heights.now) }
    {
        check(heights.len() == HEIGHTS, heights.iter().copied())
    }

    // The lattice of a row that fits.
    pub fn new(heights: Vec<i16>) -> Lattice
        requires { row_refusal heights.items ≡ 0 }
        ensures { result.heights.row ≡ heights }
    {
        let heights = Heights { row: heights };
        let largest = heights.largest_step() as i64;
        Lattice { heights, largest }
    }

    // Whether the bytes of a file are a lattice's heights, two bytes each.
    pub fn file_fits(bytes: &[u8]) -> Result<(), Refusal>
        ensures { MatchResult result (λ _. file_refusal bytes.now ≡ 0) (λ e. number_of e ≡ file_refusal bytes.now) }
    {
        let (pairs, _) = bytes.as_chunks::<2>();
        check(bytes.len() == 2 * HEIGHTS, pairs.iter().map(height_of))
    }

    // The lattice of a file that fits.
    pub fn from_file(heap: Global, bytes: &[u8]) -> Result<Lattice, AllocError>
        requires { file_refusal bytes.now ≡ 0 }
        ensures { IfOk result (λ lattice. lattice.heights.row.items ≡ file_heights bytes.now) }
    {
        Ok(Lattice::new(file_row(heap, bytes)?))
    }

    // The largest difference of heights next to each other in x or y. It bounds the steepness between any two places of a leg.
    pub fn largest_step(&self) -> i64
        ensures value { result ≡ pos (greatest_step (heights_of self.now.heights.row.items)) }
        ensures between { SteepBetween (heights_of self.now.heights.row.items) }
    {
        self.largest
    }
}
