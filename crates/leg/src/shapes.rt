// Points, legs, half-steps and pieces. Each keeps its ranges as ghost fields, so no caller can hold another.
ghost use Rattle.std.specs.Prelude.{◌≤◌, pos};
ghost use Rattle.integer.specs.Numbers.{Within};
ghost use Rattle.leg.specs.Ranges.{InRange, Apart, IsPiece};

// A point by any numbers: x and y in tenths of a nautical mile, z in hundreds of feet.
#[derive(Clone, Copy, PartialEq, Eq, Debug)]
pub struct Point {
    pub x: i64,
    pub y: i64,
    pub z: i64,
}

// From one point of the map to another.
#[derive(Clone, Copy)]
pub struct Leg {
    pub start: Point,
    pub end: Point,
    ghost start_on_map: { InRange start },
    ghost end_on_map: { InRange end },
    ghost apart: { Apart start end },
}

// One coordinate along a leg, from its start to its end.
#[derive(Clone, Copy)]
pub struct Coordinate {
    pub from: i64,
    pub to: i64,
    ghost from_small: { Within from (pos 4096) },
    ghost to_small: { Within to (pos 4096) },
}

// One of the 4097 ends of half-steps of a leg, counted from its start.
#[derive(Clone, Copy)]
pub struct HalfStep {
    pub at: u16,
    ghost within: { at ≤ 4096 },
}

// The part of a leg from `middle - half` to `middle + half` half-steps, ends included.
#[derive(Clone, Copy)]
pub struct Piece {
    pub middle: u16,
    pub half: u16,
    ghost made: { IsPiece middle half },
}

// The two halves of a piece, in their order on the leg.
#[derive(Clone, Copy)]
pub struct Halves {
    pub first: Piece,
    pub second: Piece,
}
