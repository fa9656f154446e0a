// Sum, multiple, shift, opposite and product of forms.
ghost use Rattle.std.specs.Prelude.{◌≡◌, ℤ, pos, ◌+ℤ◌, ◌*ℤ◌, neg_ℤ, ◌≤ℤ◌};
ghost use Rattle.leg.specs.Places.{OnPiece};
ghost use Rattle.affine.specs.Forms.{sum_of, scaled_by, shifted_by, opposite_of, reach_of, product_of};
ghost use Rattle.affine.specs.Holding.{Holds};
ghost use Rattle.affine.specs.Fits.{SumFits, ScaledFits, ShiftedFits, OppositeFits, ReachFits, ProductFits};

use crate::Form;

impl Form {
    // The form of the sum of two values.
    pub fn sum(self, v: Form) -> Form
        requires { SumFits self v }
        ensures value { result ≡ sum_of self v }
        ensures kept { pos 0 ≤ℤ self.u2 → pos 0 ≤ℤ v.u2 → pos 0 ≤ℤ result.u2 }
        ensures holds { (m r p q n k d : ℤ) → Holds m r p q self n d → Holds m r p q v k d → Holds m r p q result (n +ℤ k) d }
    {
        Form {
            u0: self.u0 + v.u0,
            u1: self.u1 + v.u1,
            u2: self.u2 + v.u2,
        }
    }

    // The form of k times a value.
    pub fn scaled(self, k: i64) -> Form
        requires { ScaledFits k self }
        ensures value { result ≡ scaled_by k self }
        ensures kept { pos 0 ≤ℤ self.u2 → pos 0 ≤ℤ result.u2 }
        ensures holds { (m r p q n d : ℤ) → Holds m r p q self n d → Holds m r p q result (k *ℤ n) d }
    {
        Form {
            u0: k * self.u0,
            u1: k * self.u1,
            u2: k.abs() * self.u2,
        }
    }

    // The form of a value plus k.
    pub fn shifted(self, k: i64) -> Form
        requires { ShiftedFits k self }
        ensures value { result ≡ shifted_by k self }
        ensures kept { pos 0 ≤ℤ self.u2 → pos 0 ≤ℤ result.u2 }
        ensures holds { (m r p q n d : ℤ) → Holds m r p q self n d → Holds m r p q result (n +ℤ k *ℤ d) d }
    {
        Form {
            u0: self.u0 + k,
            ..self
        }
    }

    // The form of the opposite of a value.
    pub fn opposite(self) -> Form
        requires { OppositeFits self }
        ensures value { result ≡ opposite_of self }
        ensures kept { pos 0 ≤ℤ self.u2 → pos 0 ≤ℤ result.u2 }
        ensures holds { (m r p q n d : ℤ) → Holds m r p q self n d → Holds m r p q result (neg_ℤ n) d }
    {
        Form {
            u0: -self.u0,
            u1: -self.u1,
            ..self
        }
    }

    // |u1| + |u2|
    fn reach(self) -> i64
        requires { ReachFits self }
        ensures { result ≡ reach_of self }
    {
        self.u1.abs() + self.u2.abs()
    }

    // The form of the product of two values.
    pub fn product(self, v: Form) -> Form
        requires { ProductFits self v }
        ensures value { result ≡ product_of self v }
        ensures kept { pos 0 ≤ℤ self.u2 → pos 0 ≤ℤ v.u2 → pos 0 ≤ℤ result.u2 }
        ensures holds { (m r p q n d k e : ℤ) → OnPiece m r p q → Holds m r p q self n d → Holds m r p q v k e → Holds m r p q result (n *ℤ k) (d *ℤ e) }
    {
        let slack = self.u0.abs() * v.u2 + v.u0.abs() * self.u2;
        let cross = self.reach() * v.reach();
        Form {
            u0: self.u0 * v.u0,
            u1: self.u0 * v.u1 + v.u0 * self.u1,
            u2: slack + cross,
        }
    }
}
