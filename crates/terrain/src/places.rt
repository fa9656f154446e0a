// Where a half-step of a leg lies on the lattice.
ghost use Rattle.std.specs.Prelude.{◌≡◌, ◌&&◌, pos, ◌-ℤ◌, ◌≤ℤ◌, int_le};
ghost use Rattle.integer.specs.Numbers.{absℤ};
ghost use Rattle.lattice.specs.Terrain.{in_cell, lies_in_one_cell};
ghost use Rattle.terrain.specs.Moves.{edge_at, cell_at, depth_at, stays_along};

use crate::cell::Spot;
use crate::scale::{CELL, EDGE};
use leg::{Coordinate, HalfStep, Leg, Piece};

// The scaled coordinate at a half-step, counted from the lattice's low edge.
fn from_edge(run: Coordinate, step: HalfStep) -> i64
    ensures value { result ≡ edge_at run (pos step.at) }
    ensures low { pos 0 ≤ℤ result }
    ensures high { result ≤ℤ pos 33554432 }
{
    run.at(step) + EDGE
}

// How far a coordinate moves along the leg.
pub(crate) fn distance(run: Coordinate) -> i64
    ensures { result ≡ absℤ (run.to -ℤ run.from) }
{
    (run.to - run.from).abs()
}

// Whether a distance into a cell lies in the closed cell.
fn inside(depth: i64) -> bool
    ensures { result ≡ (int_le (pos 0) depth && int_le depth (pos 262144)) }
{
    (0..=CELL).contains(&depth)
}

impl Spot {
    // Where a half-step lies.
    pub(crate) fn of(run: Coordinate, step: HalfStep) -> Spot
        ensures index { result.index ≡ cell_at run (pos step.at) }
        ensures depth { result.depth ≡ depth_at run (pos step.at) }
    {
        let u = from_edge(run, step);
        let index = ((u / CELL) as usize).min(127);
        Spot {
            index,
            depth: u - CELL * (index as i64),
        }
    }

    // Whether a half-step lies in the same closed cell.
    fn shares_cell(self, run: Coordinate, step: HalfStep) -> bool
        ensures { result ≡ in_cell (pos 262144) self.index (edge_at run (pos step.at)) }
    {
        inside(from_edge(run, step) - CELL * (self.index as i64))
    }
}

// Whether both ends of a piece lie in the closed cell of its middle, in one direction.
fn stays(run: Coordinate, piece: Piece) -> bool
    ensures { result ≡ stays_along run.from run.to piece }
{
    let middle = Spot::of(run, piece.middle_step());
    middle.shares_cell(run, piece.first_step()) && middle.shares_cell(run, piece.last_step())
}

// Whether both ends of a piece lie in the closed cell of its middle.
pub(crate) fn stays_in_cell(leg: &Leg, piece: Piece) -> bool
    ensures { result ≡ lies_in_one_cell leg.now (pos piece.middle) (pos piece.half) }
{
    stays(leg.x(), piece) && stays(leg.y(), piece)
}
