// What a field answers about a leg, and what it means.
ghost use Rattle.std.specs.Prelude.{◌≡◌, pos};
ghost use Rattle.field.specs.Meaning.{Meaning, Laws};

use affine::Form;
use leg::{HalfStep, Leg, Piece};

// Anything that answers four questions about a leg. No question refuses or alters anything.
pub trait Field {
    ghost meaning: { Self → Meaning };

    // Which values of the type are lawful fields. The questions are asked of these alone.
    ghost lawful: { Self → Type 0 };

    // What each `impl` shows: a lawful field keeps the laws.
    ghost laws: { (field : Self) → lawful field → Laws (meaning field) };

    // The value at a half-step of the leg.
    fn value(&self, leg: &Leg, step: HalfStep) -> i64
        requires { lawful self.now }
        ensures { result ≡ (meaning self.now).value leg.now (pos step.at) (pos 1) };

    // How far on a piece the value can be from that at the middle, for each half-step of the half-width.
    fn steepness(&self, leg: &Leg) -> i64
        requires { lawful self.now }
        ensures { result ≡ (meaning self.now).steepness leg.now };

    // A number that no value is above in absolute value, on any leg.
    fn reach(&self) -> i64
        requires { lawful self.now }
        ensures { result ≡ (meaning self.now).reach };

    // A form that holds the value at every place of a piece.
    fn bound(&self, leg: &Leg, piece: Piece) -> Form
        requires { lawful self.now }
        ensures { result ≡ (meaning self.now).bound leg.now piece.middle piece.half };
}

// A field that is lent is a field.
impl<'a, F: Field> Field for &'a F {
    ghost meaning = { λ f. F.Field.meaning f.now };

    ghost lawful = { λ f. F.Field.lawful f.now };

    ghost laws = { λ f lawful. F.Field.laws f.now lawful };

    fn value(&self, leg: &Leg, step: HalfStep) -> i64 {
        (**self).value(leg, step)
    }

    fn steepness(&self, leg: &Leg) -> i64 {
        (**self).steepness(leg)
    }

    fn reach(&self) -> i64 {
        (**self).reach()
    }

    fn bound(&self, leg: &Leg, piece: Piece) -> Form {
        (**self).bound(leg, piece)
    }
}
