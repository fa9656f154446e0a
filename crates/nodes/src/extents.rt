// Steepness and reach of the nodes of a list, by one text: they add in a sum, and grow by a margin in a union or a common part.
ghost use Rattle.std.specs.Prelude.{◌≡◌, ℕ, ◌<◌, List, length, get_or, ℤ, pos, ◌+ℤ◌, slice_index_or};
ghost use Rattle.std.specs.Int.{int_max};
ghost use Rattle.integer.specs.Numbers.{Within, absℤ};
ghost use Rattle.nodes.specs.declared.node.Node.{Node};
ghost use Rattle.nodes.specs.Tables.{shape_of, given, result_of};
ghost use Rattle.nodes.specs.Quadrics.{moved_by, quadric_steepness, quadric_reach};
ghost use Rattle.nodes.specs.Meanings.{steepness_margin, reach_margin, steepness_of, reach_of};
ghost use Rattle.nodes.specs.Meanings.{extents as extents_by};
ghost use Rattle.nodes.specs.Formed.{InRange, Keeps, WellFormed};
ghost use Rattle.nodes.specs.Sizes.{Ready};
ghost use Rattle.nodes.specs.Validation.{new_reach};
ghost use Rattle.nodes.specs.Every.{steepness_small, reach_small};

use crate::list::Nodes;
use crate::node::{Node, Shape};
use leg::Leg;

// |x| + |y| + |z|
fn size(x: i64, y: i64, z: i64) -> i64
    requires { (Within x (pos 33554432)) × ((Within y (pos 33554432)) × (Within z (pos 33554432))) }
    ensures { result ≡ absℤ x +ℤ absℤ y +ℤ absℤ z }
{
    x.abs() + y.abs() + z.abs()
}

fn widened(a: i64, b: i64, margin: i64) -> i64
    requires { (Within a (pos 1152921504606846976)) × ((Within b (pos 1152921504606846976)) × (Within margin (pos 2048))) }
    ensures { result ≡ int_max a b +ℤ margin }
{
    a.max(b) + margin
}

// A size of a node, steepness or reach.
trait Extent {
    ghost quadric_of: { Self → Node → ℤ };

    ghost MARGIN: { ℤ };

    // what a union or a common part has above the larger of its nodes
    const MARGIN: i64;

    fn quadric(&self, node: &Node) -> i64
        requires { InRange node.now }
        ensures { result ≡ quadric_of self.now node.now };

    ghost margin_small: { Within MARGIN (pos 2048) };

    ghost all_small: { (extent : Self) (nodes : List Node) → WellFormed nodes → (i : ℕ) → i < length nodes → Within (result_of (extents_by (λ node. quadric_of extent node) MARGIN) nodes i) (pos 1152921504606846976) };
}

// What a node has, where `done` holds what the nodes before it have.
fn extent_of<E: Extent>(extent: &E, node: &Node, done: &[i64; 64]) -> i64
    requires { Ready node.now done.now (shape_of node.now) }
    ensures { result ≡ given (extents_by (λ n. E.quadric_of extent.now n) E.MARGIN) (λ k. get_or done.now k (pos 0)) node.now }
{
    match node.shape() {
        Shape::Quadric => extent.quadric(node),
        Shape::Sum(a, b) => done[a] + done[b],
        Shape::Union(a, b) | Shape::Common(a, b) => widened(done[a], done[b], E::MARGIN),
        Shape::Outside(a) => done[a],
    }
}

// What each node has, in its place: in an array, since a check asks for no memory. One text with `evaluate` would need one trait for both, with the laws of each,
// and be no plainer.
fn extents<E: Extent>(extent: &E, nodes: &Nodes<'_>) -> [i64; 64]
    ensures { (i : ℕ) → i < length nodes.now.all.now → slice_index_or result i (pos 0) ≡ result_of (extents_by (λ n. E.quadric_of extent.now n) E.MARGIN) nodes.now.all.now i }
{
    let mut out = [0; 64];
    // an entry needs those before it, which an iterator over `out` could not read
    for (i, node) in nodes.all.iter().enumerate() {
        out[i] = extent_of(extent, node, &out);
    }
    out
}

#[derive(Clone, Copy)]
struct Steepness {
    leg: Leg,
}

impl Steepness {
    // |x dx| + |y dy| + |z dz|, where the leg moves by dx, dy, dz.
    fn moved(&self, x: i64, y: i64, z: i64) -> i64
        requires { (Within x (pos 4096)) × ((Within y (pos 4096)) × (Within z (pos 4096))) }
        ensures value { result ≡ moved_by self.now.leg x y z }
        ensures small { Within result (pos 100663296) }
    {
        let dx = self.leg.end.x - self.leg.start.x;
        let dy = self.leg.end.y - self.leg.start.y;
        let dz = self.leg.end.z - self.leg.start.z;
        size(x * dx, y * dy, z * dz)
    }
}

impl Extent for Steepness {
    ghost quadric_of = { λ s node. quadric_steepness s.leg node };

    ghost MARGIN = { steepness_margin };

    const MARGIN: i64 = 1;

    ghost margin_small = { record { above = record { le = tt }; below = record { le = tt } } };

    ghost all_small = { λ extent nodes formed i i<. steepness_small nodes formed extent.leg i i< };

    fn quadric(&self, node: &Node) -> i64 {
        let bent = self.moved(node.sx, node.sy, node.sz);
        let straight = self.moved(node.lx, node.ly, node.lz);
        67108864 * bent + 4096 * straight
    }
}

#[derive(Drop)]
struct Reach;

impl Extent for Reach {
    ghost quadric_of = { λ _ node. quadric_reach node };

    ghost MARGIN = { reach_margin };

    const MARGIN: i64 = 2048;

    ghost margin_small = { record { above = record { le = tt }; below = record { le = tt } } };

    ghost all_small = { λ extent nodes formed i i<. reach_small nodes formed i i< };

    fn quadric(&self, node: &Node) -> i64 {
        let bent = size(node.sx, node.sy, node.sz);
        let straight = size(node.lx, node.ly, node.lz);
        1125899906842624 * bent + 137438953472 * straight + 16777216 * node.k.abs()
    }
}

impl Nodes<'_> {
    // The steepness of each node on a leg: how far its value can change over one half-step.
    pub fn steepnesses(&self, leg: &Leg) -> [i64; 64]
        ensures { (i : ℕ) → i < length self.now.all.now → slice_index_or result i (pos 0) ≡ steepness_of leg.now self.now.all.now i }
    {
        extents(&Steepness { leg: *leg }, self)
    }

    // The reach of each node: on no leg is a value above it.
    pub fn reaches(&self) -> [i64; 64]
        ensures { (i : ℕ) → i < length self.now.all.now → slice_index_or result i (pos 0) ≡ reach_of self.now.all.now i }
    {
        extents(&Reach, self)
    }

    // The reach of a node that is to follow the list.
    pub(crate) fn reach_after(&self, node: &Node) -> i64
        requires { Keeps (length self.now.all.now) node.now (shape_of node.now) }
        ensures { result ≡ new_reach self.now.all.now node.now }
    {
        let done = self.reaches();
        extent_of(&Reach, node, &done)
    }
}
