// The two ways to join fields: by the lesser value, and by the greater.
ghost use Rattle.std.specs.Prelude.{◌≡◌, ℤ};
ghost use Rattle.std.specs.Int.{int_min, int_max};
ghost use Rattle.affine.specs.declared.Form.{Form};
ghost use Rattle.affine.specs.Forms.{lesser_of, greater_of};
ghost use Rattle.affine.specs.Fits.{EndsWithin, end_limit};
ghost use Rattle.field.specs.Joining.{Picks, lesser_picks, greater_picks};

use affine::Form;

// A choice between two values, with the like for two forms.
pub trait Join {
    ghost pick: { ℤ → ℤ → ℤ };

    ghost join: { Form → Form → Form };

    // What joining takes from the two.
    ghost picks: { Picks pick join };

    fn value(first: i64, second: i64) -> i64
        ensures { result ≡ pick first second };

    fn form(first: Form, second: Form) -> Form
        requires { EndsWithin end_limit first × EndsWithin end_limit second }
        ensures { result ≡ join first second };
}

// Inside either.
pub struct Lesser;

impl Join for Lesser {
    ghost pick = { int_min };

    ghost join = { lesser_of };

    ghost picks = { lesser_picks };

    fn value(first: i64, second: i64) -> i64 {
        first.min(second)
    }

    fn form(first: Form, second: Form) -> Form {
        first.lesser(second)
    }
}

// Inside both.
pub struct Greater;

impl Join for Greater {
    ghost pick = { int_max };

    ghost join = { greater_of };

    ghost picks = { greater_picks };

    fn value(first: i64, second: i64) -> i64 {
        first.max(second)
    }

    fn form(first: Form, second: Form) -> Form {
        first.greater(second)
    }
}
