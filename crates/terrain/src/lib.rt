// Terrain: a lattice of 129 × 129 heights in hundreds of feet, bilinear in each cell, as a field.
#![tactic(auto)]

mod bounds;
mod cell;
mod grid;
mod heights;
mod making;
mod places;
mod rows;
mod scale;
mod surface;
mod terrain;
mod worked;

pub use grid::Lattice;
pub use worked::worked_value;
