// The lattice as a field. Every lattice is lawful.
ghost use Rattle.lattice.specs.Meaning.{terrain_of};
ghost use Rattle.lattice.proofs.Lawful.{terrain_laws};
ghost use Rattle.terrain.specs.Rows.{heights_of};
ghost use Rattle.terrain.specs.Fitting.{row_heights};

use crate::cell::Spot;
use crate::grid::Lattice;
use crate::places::{distance, stays_in_cell};
use crate::scale::{CELL, LEVEL};
use affine::Form;
use field::Field;
use leg::{HalfStep, Leg, Piece};

impl Field for Lattice {
    ghost meaning = { λ lattice. terrain_of (heights_of lattice.heights.row.items) };

    ghost lawful = { λ _. Unit {0} };

    ghost laws = { λ lattice _. terrain_laws (heights_of lattice.heights.row.items) (row_heights lattice.heights.row.items lattice.heights.fit) };

    fn value(&self, leg: &Leg, step: HalfStep) -> i64 {
        let x = Spot::of(leg.x(), step);
        let y = Spot::of(leg.y(), step);
        LEVEL * leg.z().at(step) - self.heights.cell(x, y).ground(x, y)
    }

    fn steepness(&self, leg: &Leg) -> i64 {
        let climb = distance(leg.z());
        let east = distance(leg.x());
        let north = distance(leg.y());
        LEVEL * climb + 3 * CELL * (self.largest * (east + north))
    }

    fn reach(&self) -> i64 {
        1 << 54
    }

    fn bound(&self, leg: &Leg, piece: Piece) -> Form {
        if stays_in_cell(leg, piece) {
            self.heights.bound_in_cell(leg, piece)
        } else {
            Form {
                u0: self.value(leg, piece.middle_step()),
                u1: 0,
                u2: self.steepness(leg) * i64::from(piece.half),
            }
        }
    }
}
