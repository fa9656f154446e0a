// The surface over a cell, by its coefficients and in forms.
ghost use Rattle.std.specs.Prelude.{◌≡◌, pos};
ghost use Rattle.integer.specs.Numbers.{Within};
ghost use Rattle.affine.specs.Fits.{Bounded};
ghost use Rattle.terrain.specs.Moves.{ground_from, form_of_ground};

use crate::cell::{Cell, Spot};
use crate::scale::{CELL, HEIGHT};
use affine::Form;

impl Cell {
    // The ground, as far into the cell as the two spots.
    pub(crate) fn ground(self, x: Spot, y: Spot) -> i64
        ensures value { result ≡ ground_from self x.depth y.depth }
        ensures small { Within result (pos 185542587187200) }
    {
        let east = CELL * (self.east * x.depth);
        let north = CELL * (self.north * y.depth);
        let twist = self.twist * x.depth * y.depth;
        HEIGHT * self.base + east + north + twist
    }

    // The same in forms.
    pub(crate) fn ground_form(self, x: Form, y: Form) -> Form
        requires { (Bounded 0x100_0000 x) × (Bounded 0x100_0000 y) }
        ensures value { result ≡ form_of_ground self x y }
        ensures small { Bounded 0x1d00_0000_0000_0000 result }
    {
        let east = x.scaled(CELL * self.east);
        let north = y.scaled(CELL * self.north);
        let twist = x.product(y).scaled(self.twist);
        let slopes = east.sum(north).sum(twist);
        slopes.shifted(HEIGHT * self.base)
    }
}
