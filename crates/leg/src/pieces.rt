// Pieces from any numbers, their halves and half-steps, and the numbers of the finest.
ghost use Rattle.std.specs.Prelude.{◌≡◌, ◌+◌, ◌-◌, ◌*◌, ◌/◌, ◌<◌, ◌≤◌, ℤ, pos, ◌+ℤ◌, ◌-ℤ◌, IfOk, MatchOption, MatchResult};
ghost use Rattle.refusal.specs.Numbers.{number_of};
ghost use Rattle.leg.specs.Making.{lies_in_bounds, makes_piece, Shaped};
ghost use Rattle.leg.specs.Places.{OnLeg, On, Halved};

use crate::shapes::{HalfStep, Halves, Piece};
use refusal::Refusal;

fn in_bounds(middle: i64, half: i64) -> bool
    ensures { result ≡ lies_in_bounds middle half }
{
    (1..=2048).contains(&half) && (1..=4095).contains(&middle)
}

fn is_piece(middle: u16, half: u16) -> bool
    requires { (0 < half) × (half ≤ 2048) }
    ensures { result ≡ makes_piece middle half }
{
    2048 % half == 0 && middle % (2 * half) == half
}

impl Piece {
    // The piece with this middle and half-width.
    pub fn new(middle: i64, half: i64) -> Result<Piece, Refusal>
        ensures value { MatchResult result (λ piece. Shaped middle half × (pos piece.middle ≡ middle) × (pos piece.half ≡ half)) (λ e. (number_of e ≡ 25) × (Shaped middle half → ⊥)) }
        ensures inside { IfOk result (λ piece. (p q : ℤ) → On piece p q → OnLeg p q) }
    {
        if !in_bounds(middle, half) {
            return Err(Refusal::PieceShape);
        }
        let middle = middle as u16;
        let half = half as u16;
        if is_piece(middle, half) {
            Ok(Piece { middle, half })
        } else {
            Err(Refusal::PieceShape)
        }
    }

    // The piece that is the whole leg.
    pub fn whole() -> Piece
        ensures value { (result.middle ≡ 2048) × (result.half ≡ 2048) }
        ensures covers { (p q : ℤ) → OnLeg p q → On result p q }
    {
        Piece {
            middle: 2048,
            half: 2048,
        }
    }

    // The half-step at which the piece begins.
    pub fn first_step(self) -> HalfStep
        ensures { pos result.at ≡ pos self.middle -ℤ pos self.half }
    {
        HalfStep {
            at: self.middle - self.half,
        }
    }

    // The half-step in its middle.
    pub fn middle_step(self) -> HalfStep
        ensures { result.at ≡ self.middle }
    {
        HalfStep { at: self.middle }
    }

    // The half-step at which it ends.
    pub fn last_step(self) -> HalfStep
        ensures { pos result.at ≡ pos self.middle +ℤ pos self.half }
    {
        HalfStep {
            at: self.middle + self.half,
        }
    }

    // The two halves, unless the piece is finest.
    pub fn halves(self) -> Option<Halves>
        ensures { MatchOption result (self.half ≡ 1) (λ parts. Halved self parts) }
    {
        if self.half == 1 {
            return None;
        }
        let half = self.half / 2;
        let first = Piece {
            middle: self.middle - half,
            half,
        };
        let second = Piece {
            middle: self.middle + half,
            half,
        };
        Some(Halves { first, second })
    }

    // The number of a finest piece, from 0 at the start of the leg to 2047 at its end.
    pub fn number(self) -> Option<u16>
        ensures { MatchOption result (1 < self.half) (λ n. (self.half ≡ 1) × (n ≡ (self.middle - 1) / 2) × (self.middle ≡ 2 * n + 1) × (n < 2048)) }
    {
        (self.half == 1).then_some((self.middle - 1) / 2)
    }
}
