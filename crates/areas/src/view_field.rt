// A view as a field: the constant 2^60, joined by union with the field of each area that is on.
ghost use Rattle.areas.specs.Fields.{field_over};
ghost use Rattle.areas.specs.OverLaws.{at_most_16, over_laws};

use crate::answers::{Extents, Forms, Values};
use crate::joining::unite;
use crate::view::View;
use affine::Form;
use field::Field;
use leg::{HalfStep, Leg, Piece};

// Every view is lawful, by what it keeps to.
impl<'a> Field for View<'a> {
    ghost meaning = { λ v. field_over v.nodes.all.now v.areas.now.slots };

    ghost lawful = { λ _. Unit {0} };

    ghost laws = { λ v _. over_laws v.nodes.all.now v.areas.now.slots (at_most_16 v.sixteen) v.stands v.accepted };

    fn value(&self, leg: &Leg, step: HalfStep) -> i64 {
        let values = Values {
            all: self.nodes.values_at(leg, step),
        };
        unite(&values, 1 << 60, &self.areas.slots)
    }

    fn steepness(&self, leg: &Leg) -> i64 {
        let extents = Extents {
            all: self.nodes.steepnesses(leg),
            margin: 1,
        };
        unite(&extents, 0, &self.areas.slots)
    }

    fn reach(&self) -> i64 {
        let extents = Extents {
            all: self.nodes.reaches(),
            margin: 2048,
        };
        unite(&extents, 1 << 60, &self.areas.slots)
    }

    fn bound(&self, leg: &Leg, piece: Piece) -> Form {
        let forms = Forms {
            all: self.nodes.forms_on(leg, piece),
        };
        let start = Form {
            u0: 1 << 60,
            u1: 0,
            u2: 0,
        };
        unite(&forms, start, &self.areas.slots)
    }
}
