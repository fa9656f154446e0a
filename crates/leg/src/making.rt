// Points, legs and half-steps from any numbers.
ghost use Rattle.std.specs.Prelude.{◌≡◌, ℤ, pos, IfOk, MatchResult};
ghost use Rattle.refusal.specs.Numbers.{number_of};
ghost use Rattle.leg.specs.Making.{point_on_map, is_same_point, leg_refusal, Joins, MakesStep};
ghost use Rattle.leg.specs.Places.{OnLeg, CoordinatesWithin};

use crate::shapes::{HalfStep, Leg, Point};
use refusal::Refusal;

impl Point {
    pub fn new(x: i64, y: i64, z: i64) -> Point
        ensures x { result.x ≡ x }
        ensures y { result.y ≡ y }
        ensures z { result.z ≡ z }
    {
        Point { x, y, z }
    }

    // x and y from -4096 to 4096, z from -16 to 660
    fn is_on_map(self) -> bool
        ensures { result ≡ point_on_map self }
    {
        (-4096..=4096).contains(&self.x)
            && (-4096..=4096).contains(&self.y)
            && (-16..=660).contains(&self.z)
    }

    // a function of its own, so that an edit of the comparison is refused for what it says, and not for its shape
    fn is(self, other: Point) -> bool
        ensures { result ≡ is_same_point self other }
    {
        self == other
    }
}

impl Leg {
    // The leg from one point to another.
    pub fn new(start: Point, end: Point) -> Result<Leg, Refusal>
        ensures value { MatchResult result (λ leg. (leg_refusal start end ≡ 0) × Joins leg start end) (λ e. number_of e ≡ leg_refusal start end) }
        ensures scaled { IfOk result (λ leg. (p q : ℤ) → OnLeg p q → CoordinatesWithin leg p q) }
    {
        if !(start.is_on_map() && end.is_on_map()) {
            return Err(Refusal::CoordinateRange);
        }
        if start.is(end) {
            return Err(Refusal::SamePoint);
        }
        Ok(Leg { start, end })
    }
}

// The half-step of a number.
impl TryFrom<i64> for HalfStep {
    type Error = Refusal;

    ghost try_from_gives = { MakesStep };

    fn try_from(at: i64) -> Result<HalfStep, Refusal> {
        if (0..=4096).contains(&at) {
            Ok(HalfStep { at: at as u16 })
        } else {
            Err(Refusal::HalfStepRange)
        }
    }
}
