// The bound on a piece that stays in one cell.
ghost use Rattle.std.specs.Prelude.{◌≡◌, pos, ◌-ℤ◌, ◌*ℤ◌};
ghost use Rattle.integer.specs.Numbers.{Within};
ghost use Rattle.affine.specs.Fits.{Bounded};
ghost use Rattle.lattice.specs.Terrain.{even, form_in, cell_x, cell_y};
ghost use Rattle.terrain.specs.Rows.{heights_of};

use crate::cell::Spot;
use crate::grid::Heights;
use crate::scale::LEVEL;
use affine::Form;
use leg::{Coordinate, Leg, Piece};

// The form of a number that is `centre` at the middle of a piece and changes as the coordinate does.
fn even(centre: i64, run: Coordinate, piece: Piece) -> Form
    requires { Within centre (pos 0x100_0000) }
    ensures value { result ≡ even centre ((run.to -ℤ run.from) *ℤ pos piece.half) }
    ensures small { Bounded 0x100_0000 result }
{
    Form {
        u0: centre,
        u1: run.change(piece),
        u2: 0,
    }
}

impl Heights {
    // The bound by the formula of the middle's cell.
    pub(crate) fn bound_in_cell(&self, leg: &Leg, piece: Piece) -> Form
        ensures { result ≡ form_in (heights_of self.now.row.items) leg.now (cell_x leg.now (pos piece.middle) (pos 1)) (cell_y leg.now (pos piece.middle) (pos 1)) (pos piece.middle) (pos piece.half) }
    {
        let (east, north, up) = (leg.x(), leg.y(), leg.z());
        let middle = piece.middle_step();
        let x = Spot::of(east, middle);
        let y = Spot::of(north, middle);
        let f = even(x.depth, east, piece);
        let g = even(y.depth, north, piece);
        let climb = even(up.at(middle), up, piece);
        let ground = self.cell(x, y).ground_form(f, g);
        climb.scaled(LEVEL).sum(ground.opposite())
    }
}
