// The one text that works through the node table, in any arithmetic.
ghost use Rattle.std.specs.Prelude.{◌≡◌, ℕ, ◌<◌, List, length, slice_index_or};
ghost use Rattle.leg.specs.declared.shapes.Leg.{Leg};
ghost use Rattle.affine.specs.declared.Form.{Form};
ghost use Rattle.nodes.specs.declared.axes.Axes.{Axes};
ghost use Rattle.nodes.specs.declared.node.Node.{Node};
ghost use Rattle.nodes.specs.Tables.{result_of};
ghost use Rattle.nodes.specs.TablesLemmas.{Related};
ghost use Rattle.nodes.specs.Meanings.{Value, values, value_of, zero_form};
ghost use Rattle.nodes.specs.Formed.{InRange, WellFormed};
ghost use Rattle.nodes.specs.Locations.{AxesBounded, Operations, algebra};

use crate::axes::Axes;
use crate::list::Nodes;
use crate::node::{Node, Shape};
use affine::Form;
use leg::Leg;

// An arithmetic in which the table can be worked through. A number of it is three whole numbers.
pub trait Arithmetic {
    // where it computes
    type Location;

    ghost axes_at: { Leg → Self.Location → Axes };

    ghost operations: { Operations };

    // which numbers are small enough to compute with
    ghost small: { Form → Type 0 };

    // the number holds this value at the location
    ghost holds: { Self.Location → Form → Value → Type 0 };

    fn axes(leg: &Leg, at: &Self::Location) -> Axes
        ensures value { result ≡ axes_at leg.now at.now }
        ensures bounded { AxesBounded result };

    fn quadric(node: &Node, axes: &Axes) -> Form
        requires range { InRange node.now }
        requires bounded { AxesBounded axes.now }
        ensures { result ≡ operations.quadric axes.now node.now };

    fn sum(u: Form, v: Form) -> Form
        requires { (small u) × ((small v) × (small (operations.sum u v))) }
        ensures { result ≡ operations.sum u v };

    fn lesser(u: Form, v: Form) -> Form
        requires { (small u) × (small v) }
        ensures { result ≡ operations.lesser u v };

    fn greater(u: Form, v: Form) -> Form
        requires { (small u) × (small v) }
        ensures { result ≡ operations.greater u v };

    fn opposite(u: Form) -> Form
        requires { small u }
        ensures { result ≡ operations.opposite u };

    // numbers that hold values, combined, hold the combined value
    ghost holding: { (leg : Leg) (at : Self.Location) → Related (algebra operations (axes_at leg at)) (values leg) (holds at) };

    // no number of a well-formed list is too large
    ghost all_small: { (nodes : List Node) → WellFormed nodes → (leg : Leg) (at : Self.Location) (i : ℕ) → i < length nodes → small (result_of (algebra operations (axes_at leg at)) nodes i) };
}

impl Nodes<'_> {
    // The number of each node at a location of a leg, in the node's place. A rule of the project: a check asks for no memory, and these values stand in an array of
    // records of three numbers.
    pub fn evaluate<R: Arithmetic>(&self, leg: &Leg, at: &R::Location) -> [Form; 64]
        ensures value { (i : ℕ) → i < length self.now.all.now → slice_index_or result i zero_form ≡ result_of (algebra R.operations (R.axes_at leg.now at.now)) self.now.all.now i }
        ensures held { (i : ℕ) → i < length self.now.all.now → R.holds at.now (slice_index_or result i zero_form) (value_of leg.now self.now.all.now i) }
    {
        let axes = R::axes(leg, at);
        let mut out = [Form {
            u0: 0,
            u1: 0,
            u2: 0,
        }; 64];
        // a number needs those before it, which an iterator over `out` could not read
        for (i, node) in self.all.iter().enumerate() {
            out[i] = match node.shape() {
                Shape::Quadric => R::quadric(node, &axes),
                Shape::Sum(a, b) => R::sum(out[a], out[b]),
                Shape::Union(a, b) => R::lesser(out[a], out[b]),
                Shape::Common(a, b) => R::greater(out[a], out[b]),
                Shape::Outside(a) => R::opposite(out[a]),
            };
        }
        out
    }
}
