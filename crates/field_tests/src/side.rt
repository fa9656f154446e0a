// A field with a straight border.
ghost use Rattle.std.specs.Prelude.{◌≡◌, pos, ◌-ℤ◌};
ghost use Rattle.integer.specs.Numbers.{Within};
ghost use Rattle.field_tests.specs.Side.{ahead, side_of, side_laws};

use affine::Form;
use field::Field;
use leg::{HalfStep, Leg, Piece};

// West of `x` is inside.
#[derive(Clone, Copy)]
pub struct Side {
    pub x: i64,
}

impl Side {
    // The value at a half-step of the leg.
    fn ahead(&self, leg: &Leg, step: HalfStep) -> i64
        requires { Within self.now.x (pos 4096) }
        ensures { result ≡ ahead (leg.now.start.x -ℤ self.now.x) (leg.now.end.x -ℤ leg.now.start.x) (pos step.at) (pos 1) }
    {
        leg.x().at(step) - 4096 * self.x
    }
}

impl Field for Side {
    ghost meaning = { λ f. side_of f.x };

    ghost lawful = { λ f. Within f.x (pos 4096) };

    ghost laws = { λ f lawful. side_laws f.x lawful };

    fn value(&self, leg: &Leg, step: HalfStep) -> i64 {
        self.ahead(leg, step)
    }

    fn steepness(&self, leg: &Leg) -> i64 {
        (leg.end.x - leg.start.x).abs()
    }

    fn reach(&self) -> i64 {
        1 << 25
    }

    fn bound(&self, leg: &Leg, piece: Piece) -> Form {
        Form {
            u0: self.ahead(leg, piece.middle_step()),
            u1: leg.x().change(piece),
            u2: 0,
        }
    }
}
