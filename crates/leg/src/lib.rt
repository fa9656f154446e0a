// Legs of a route, their places and coordinates, and the pieces that halving gives.
#![tactic(auto)]

mod coordinates;
mod making;
mod pieces;
mod shapes;

pub use shapes::{Coordinate, HalfStep, Halves, Leg, Piece, Point};
