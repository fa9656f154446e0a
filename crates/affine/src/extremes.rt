// The ends of forms, and the lesser and the greater of two.
ghost use Rattle.std.specs.Prelude.{◌≡◌, ℤ, pos, ◌+ℤ◌, ◌*ℤ◌, ◌≤ℤ◌, int_le};
ghost use Rattle.std.specs.Int.{int_min, int_max};
ghost use Rattle.integer.specs.Numbers.{RoundedUp};
ghost use Rattle.leg.specs.Places.{OnPiece};
ghost use Rattle.affine.specs.Forms.{low_end, high_end, span_of, lesser_of, greater_of};
ghost use Rattle.affine.specs.Holding.{Holds};
ghost use Rattle.affine.specs.Fits.{LowFits, HighFits, SpanFits, LesserFits, GreaterFits};

use crate::Form;

impl Form {
    // The low end over the whole piece. `high` is its mirror, and one text for both would only hide a sign.
    pub fn low(self) -> i64
        requires { LowFits self }
        ensures value { result ≡ low_end self }
        ensures below { (m r p q n d : ℤ) → OnPiece m r p q → Holds m r p q self n d → (result *ℤ d) ≤ℤ n }
    {
        self.u0 - self.u1.abs() - self.u2
    }

    // The high end over the whole piece.
    pub fn high(self) -> i64
        requires { HighFits self }
        ensures value { result ≡ high_end self }
        ensures above { (m r p q n d : ℤ) → OnPiece m r p q → Holds m r p q self n d → n ≤ℤ (result *ℤ d) }
    {
        self.u0 + self.u1.abs() + self.u2
    }

    // That the form ends before the other begins.
    fn ends_before(self, v: Form) -> bool
        requires { (HighFits self) × (LowFits v) }
        ensures { result ≡ int_le (high_end self) (low_end v) }
    {
        self.high() <= v.low()
    }

    // z / 2, rounded up: z without its half rounded down.
    fn half_up(z: i64) -> i64
        ensures { RoundedUp z (pos 2) result }
    {
        z - z.div_euclid(2)
    }

    // All numbers from lo to hi.
    fn span(lo: i64, hi: i64) -> Form
        requires { SpanFits lo hi }
        ensures { result ≡ span_of lo hi }
    {
        let centre = Form::half_up(lo + hi);
        Form {
            u0: centre,
            u1: 0,
            u2: centre - lo,
        }
    }

    // The form of the lesser of two values.
    pub fn lesser(self, v: Form) -> Form
        requires { LesserFits self v }
        ensures value { result ≡ lesser_of self v }
        ensures kept { pos 0 ≤ℤ self.u2 → pos 0 ≤ℤ v.u2 → pos 0 ≤ℤ result.u2 }
        ensures low { pos 0 ≤ℤ self.u2 → pos 0 ≤ℤ v.u2 → low_end result ≡ int_min (low_end self) (low_end v) }
        ensures high { pos 0 ≤ℤ self.u2 → pos 0 ≤ℤ v.u2 → high_end result ≤ℤ (int_min (high_end self) (high_end v) +ℤ pos 1) }
        ensures holds { (m r p q n k d : ℤ) → OnPiece m r p q → Holds m r p q self n d → Holds m r p q v k d → Holds m r p q result (int_min n k) d }
    {
        if self.ends_before(v) {
            self
        } else if v.ends_before(self) {
            v
        } else {
            Form::span(self.low().min(v.low()), self.high().min(v.high()))
        }
    }

    // The form of the greater of two values. It is not `lesser` turned round, since both round the centre up.
    pub fn greater(self, v: Form) -> Form
        requires { GreaterFits self v }
        ensures value { result ≡ greater_of self v }
        ensures kept { pos 0 ≤ℤ self.u2 → pos 0 ≤ℤ v.u2 → pos 0 ≤ℤ result.u2 }
        ensures low { pos 0 ≤ℤ self.u2 → pos 0 ≤ℤ v.u2 → low_end result ≡ int_max (low_end self) (low_end v) }
        ensures high { pos 0 ≤ℤ self.u2 → pos 0 ≤ℤ v.u2 → high_end result ≤ℤ (int_max (high_end self) (high_end v) +ℤ pos 1) }
        ensures holds { (m r p q n k d : ℤ) → OnPiece m r p q → Holds m r p q self n d → Holds m r p q v k d → Holds m r p q result (int_max n k) d }
    {
        if v.ends_before(self) {
            self
        } else if self.ends_before(v) {
            v
        } else {
            Form::span(self.low().max(v.low()), self.high().max(v.high()))
        }
    }
}
