// What heights say: one of them, and the largest difference of two next to each other.
ghost use Rattle.std.specs.Prelude.{◌≡◌, ℕ, ◌<◌, ◌-ℤ◌, unsigned_abs};
ghost use Rattle.lattice.specs.Terrain.{most, greatest_step};
ghost use Rattle.terrain.specs.Rows.{heights_of};
ghost use Rattle.terrain.specs.Moves.{step_to_east, step_to_north, OfCell};

use crate::cell::{Cell, Spot};
use crate::grid::Heights;
use crate::rows::SIDE;

// The largest of f(0), .., f(count - 1), or 0.
fn greatest<F: Fn(usize) -> u64>(count: usize, f: F) -> u64
    requires { (k : ℕ) → k < count → F.pre f k }
    ensures { (g : ℕ → ℕ) → ((k x : ℕ) → F.post f k x → x ≡ g k) → result ≡ most count g }
{
    (0..count).map(f).max().unwrap_or(0)
}

impl Heights {
    // Height (i, j). A type for the two numbers would be made at each call, and be no plainer.
    pub(crate) fn at(&self, i: usize, j: usize) -> i64
        requires { (i < 129) × (j < 129) }
        ensures { result ≡ heights_of self.now.row.items i j }
    {
        i64::from(self.row[SIDE * j + i])
    }

    // The difference of heights (i, j) and (k, n).
    fn step(&self, i: usize, j: usize, k: usize, n: usize) -> u64
        requires { (i < 129) × (j < 129) × (k < 129) × (n < 129) }
        ensures { result ≡ unsigned_abs (heights_of self.now.row.items k n -ℤ heights_of self.now.row.items i j) }
    {
        self.at(k, n).abs_diff(self.at(i, j))
    }

    // The largest difference of heights next to each other in x or y.
    pub(crate) fn largest_step(&self) -> u64
        ensures { result ≡ greatest_step (heights_of self.now.row.items) }
    {
        let to_east = |j: usize| -> u64
            requires { j < 129 }
            ensures { result ≡ most 128 (step_to_east self.entry.now.row.items j) }
        { greatest(SIDE - 1, |i| self.step(i, j, i + 1, j)) };
        let to_north = |j: usize| -> u64
            requires { j < 128 }
            ensures { result ≡ most 129 (step_to_north self.entry.now.row.items j) }
        { greatest(SIDE, |i| self.step(i, j, i, j + 1)) };
        greatest(SIDE, to_east).max(greatest(SIDE - 1, to_north))
    }

    // The coefficients of the cell of two spots. h10 is one further in x than h00, and h01 one further in y.
    pub(crate) fn cell(&self, x: Spot, y: Spot) -> Cell
        ensures { OfCell self.now.row.items x.index y.index result }
    {
        let (i, j) = (x.index, y.index);
        let h00 = self.at(i, j);
        let h10 = self.at(i + 1, j);
        let h01 = self.at(i, j + 1);
        let h11 = self.at(i + 1, j + 1);
        Cell {
            base: h00,
            east: h10 - h00,
            north: h01 - h00,
            twist: h00 - h10 - h01 + h11,
        }
    }
}
