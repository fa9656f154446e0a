// A field with one value everywhere.
ghost use Rattle.std.specs.Prelude.{pos, ◌≤ℤ◌};
ghost use Rattle.integer.specs.Numbers.{absℤ};
ghost use Rattle.field.specs.Meaning.{reach_bound};
ghost use Rattle.field_tests.specs.Level.{level_meaning, level_laws};

use affine::Form;
use field::Field;
use leg::{HalfStep, Leg, Piece};

#[derive(Clone, Copy)]
pub struct Level {
    pub value: i64,
}

impl Field for Level {
    ghost meaning = { λ f. level_meaning f.value };

    ghost lawful = { λ f. absℤ f.value ≤ℤ reach_bound };

    ghost laws = { λ f lawful. level_laws f.value lawful };

    fn value(&self, _leg: &Leg, _step: HalfStep) -> i64 {
        self.value
    }

    fn steepness(&self, _leg: &Leg) -> i64 {
        0
    }

    fn reach(&self) -> i64 {
        self.value.abs()
    }

    fn bound(&self, _leg: &Leg, _piece: Piece) -> Form {
        Form {
            u0: self.value,
            u1: 0,
            u2: 0,
        }
    }
}
