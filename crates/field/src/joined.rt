ghost use Rattle.std.specs.Prelude.{◌≡◌, pos, ◌+ℤ◌, MatchResult};
ghost use Rattle.std.specs.Int.{int_max};
ghost use Rattle.refusal.specs.Numbers.{number_of};
ghost use Rattle.field.specs.Layers.{joined, InLimit};
ghost use Rattle.field.specs.Joining.{joined_laws};

use crate::field::Field;
use crate::join::{Greater, Join, Lesser};
use crate::limit::in_limit;
use affine::Form;
use leg::{HalfStep, Leg, Piece};
use refusal::Refusal;
use std::marker::PhantomData;

// Two fields joined.
#[derive(Drop)]
pub struct Joined<J, A, B> {
    pub first: A,
    pub second: B,
    pub by: PhantomData<J>,
}

// The union of two fields, inside either: the lesser value.
pub type Union<A, B> = Joined<Lesser, A, B>;

// The common part of two fields, inside both: the greater value.
pub type Common<A, B> = Joined<Greater, A, B>;

// The larger reach, and 2048 more since the steepness is greater by 1.
fn joined_reach<A: Field, B: Field>(first: &A, second: &B) -> i64
    requires { (A.Field.lawful first.now) × (B.Field.lawful second.now) }
    ensures { result ≡ int_max (A.Field.meaning first.now).reach (B.Field.meaning second.now).reach +ℤ pos 2048 }
{
    first.reach().max(second.reach()) + 2048
}

impl<J: Join, A: Field, B: Field> Joined<J, A, B> {
    // Whether the two, joined, are a field.
    pub fn fits(first: &A, second: &B) -> Result<(), Refusal>
        requires { (A.Field.lawful first.now) × (B.Field.lawful second.now) }
        ensures { MatchResult result (λ _. InLimit (joined J.pick J.join (A.Field.meaning first.now) (B.Field.meaning second.now))) (λ e. (number_of e ≡ 23) × (InLimit (joined J.pick J.join (A.Field.meaning first.now) (B.Field.meaning second.now)) → ⊥)) }
    {
        in_limit(joined_reach(first, second))
    }

    pub fn new(first: A, second: B) -> Joined<J, A, B>
        ensures { (result.first ≡ first) × (result.second ≡ second) }
    {
        Joined {
            first,
            second,
            by: PhantomData,
        }
    }
}

impl<J: Join, A: Field, B: Field> Field for Joined<J, A, B> {
    ghost meaning = { λ u. joined J.pick J.join (A.Field.meaning u.first) (B.Field.meaning u.second) };

    ghost lawful = { λ u. A.Field.lawful u.first × B.Field.lawful u.second × InLimit (joined J.pick J.join (A.Field.meaning u.first) (B.Field.meaning u.second)) };

    ghost laws = { λ u lawful. joined_laws J.pick J.join J.picks (A.Field.meaning u.first) (B.Field.meaning u.second) (A.Field.laws u.first lawful.0) (B.Field.laws u.second lawful.1) lawful.2 };

    fn value(&self, leg: &Leg, step: HalfStep) -> i64 {
        J::value(self.first.value(leg, step), self.second.value(leg, step))
    }

    // The larger steepness, and 1 more since the centre of a joined form is rounded.
    fn steepness(&self, leg: &Leg) -> i64 {
        self.first.steepness(leg).max(self.second.steepness(leg)) + 1
    }

    fn reach(&self) -> i64 {
        joined_reach(&self.first, &self.second)
    }

    fn bound(&self, leg: &Leg, piece: Piece) -> Form {
        J::form(self.first.bound(leg, piece), self.second.bound(leg, piece))
    }
}
