// The coordinates along a leg. They are scaled: 4096 times those of the points, so that they are whole at each half-step.
ghost use Rattle.std.specs.Prelude.{◌≡◌, pos, ◌-ℤ◌, ◌*ℤ◌};
ghost use Rattle.integer.specs.Numbers.{Within};
ghost use Rattle.leg.specs.Places.{coordinate};

use crate::shapes::{Coordinate, HalfStep, Leg, Piece};

impl Leg {
    pub fn x(&self) -> Coordinate
        ensures from { result.from ≡ self.now.start.x }
        ensures to { result.to ≡ self.now.end.x }
    {
        Coordinate {
            from: self.start.x,
            to: self.end.x,
        }
    }

    pub fn y(&self) -> Coordinate
        ensures from { result.from ≡ self.now.start.y }
        ensures to { result.to ≡ self.now.end.y }
    {
        Coordinate {
            from: self.start.y,
            to: self.end.y,
        }
    }

    pub fn z(&self) -> Coordinate
        ensures from { result.from ≡ self.now.start.z }
        ensures to { result.to ≡ self.now.end.z }
    {
        Coordinate {
            from: self.start.z,
            to: self.end.z,
        }
    }
}

impl Coordinate {
    // The scaled coordinate at a half-step.
    pub fn at(self, step: HalfStep) -> i64
        ensures value { result ≡ coordinate self.from self.to (pos step.at) (pos 1) }
        ensures small { Within result (pos 16777216) }
    {
        4096 * self.from + (self.to - self.from) * i64::from(step.at)
    }

    // How much it changes from the middle of a piece to its end.
    pub fn change(self, piece: Piece) -> i64
        ensures value { result ≡ (self.to -ℤ self.from) *ℤ pos piece.half }
        ensures small { Within result (pos 16777216) }
    {
        (self.to - self.from) * i64::from(piece.half)
    }
}
