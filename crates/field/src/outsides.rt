ghost use Rattle.std.specs.Prelude.{◌≡◌, MatchResult};
ghost use Rattle.field.specs.Layers.{outside_of, InLimit};
ghost use Rattle.field.specs.Opposing.{outside_laws};

use crate::field::Field;
use crate::limit::in_limit;
use affine::Form;
use leg::{HalfStep, Leg, Piece};
use refusal::Refusal;

// The outside of a field, inside where the field is outside: the opposite value.
#[derive(Drop)]
pub struct Outside<F> {
    pub part: F,
}

impl<F: Field> Outside<F> {
    // Whether the outside is a field. It reaches as far as its part, so it is.
    pub fn fits(part: &F) -> Result<(), Refusal>
        requires { F.lawful part.now }
        ensures { MatchResult result (λ _. InLimit (outside_of (F.meaning part.now))) (λ _. ⊥) }
    {
        in_limit(part.reach())
    }

    pub fn new(part: F) -> Outside<F>
        ensures { result.part ≡ part }
    {
        Outside { part }
    }
}

impl<F: Field> Field for Outside<F> {
    ghost meaning = { λ o. outside_of (F.Field.meaning o.part) };

    ghost lawful = { λ o. F.Field.lawful o.part };

    ghost laws = { λ o lawful. outside_laws (F.Field.meaning o.part) (F.Field.laws o.part lawful) };

    fn value(&self, leg: &Leg, step: HalfStep) -> i64 {
        -self.part.value(leg, step)
    }

    fn steepness(&self, leg: &Leg) -> i64 {
        self.part.steepness(leg)
    }

    fn reach(&self) -> i64 {
        self.part.reach()
    }

    fn bound(&self, leg: &Leg, piece: Piece) -> Form {
        self.part.bound(leg, piece).opposite()
    }
}
