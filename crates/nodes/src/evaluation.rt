// What the nodes of a list are at a half-step and on a piece of a leg.
ghost use Rattle.std.specs.Prelude.{◌≡◌, ℕ, ◌<◌, length, pos, slice_index_or};
ghost use Rattle.nodes.specs.Meanings.{value_of, form_of, zero_form};
ghost use Rattle.nodes.specs.Laws.{NodeLaws};
ghost use Rattle.nodes.specs.Locations.{whole};

use crate::forms::Affine;
use crate::list::Nodes;
use crate::whole::Whole;
use affine::Form;
use leg::{HalfStep, Leg, Piece};

impl Nodes<'_> {
    // The value of each node at a half-step, as the first number of a form whose others are 0.
    pub fn values_at(&self, leg: &Leg, step: HalfStep) -> [Form; 64]
        ensures { (i : ℕ) → i < length self.now.all.now → slice_index_or result i zero_form ≡ whole (value_of leg.now self.now.all.now i (pos step.at) (pos 1)) }
    {
        self.evaluate::<Whole>(leg, &step)
    }

    // The form of each node on a piece. Every node keeps the laws: its form holds its value at every place of the piece, and its ends lie near the value at
    // the middle.
    pub fn forms_on(&self, leg: &Leg, piece: Piece) -> [Form; 64]
        ensures value { (i : ℕ) → i < length self.now.all.now → slice_index_or result i zero_form ≡ form_of leg.now self.now.all.now i (pos piece.middle) (pos piece.half) }
        ensures laws { (i : ℕ) → i < length self.now.all.now → NodeLaws self.now.all.now leg.now i }
    {
        self.evaluate::<Affine>(leg, &piece)
    }
}
