// Whether a node can follow a list.
ghost use Rattle.std.specs.Prelude.{◌≡◌, ℕ, List, [], ◌∷◌, ◌++◌, length, MatchResult};
ghost use Rattle.std.specs.List.{list_all};
ghost use Rattle.refusal.specs.Numbers.{number_of};
ghost use Rattle.nodes.specs.Tables.{equals, shape_of};
ghost use Rattle.nodes.specs.Formed.{WellFormed};
ghost use Rattle.nodes.specs.Validation.{refers, references, no_quadric, unused, centre_lies_on_map, quadric_lies_in_range, in_range, node_refusal};
ghost use Rattle.nodes.specs.Validation.{between, known as known_of};

use crate::list::Nodes;
use crate::node::{Node, Shape};
use refusal::Refusal;

// 2^60
const REACH_LIMIT: i64 = 1152921504606846976;

// `z` is the number of one of `n` nodes.
pub fn refers_to(n: usize, z: i64) -> bool
    ensures { result ≡ refers n z }
{
    usize::try_from(z).is_ok_and(|z| z < n)
}

// Each number is 0.
fn zeros(numbers: &[i64]) -> bool
    ensures { result ≡ list_all (λ z. equals z 0) numbers.now }
{
    numbers.iter().all(|z| *z == 0)
}

// Each number is from `low` to `high`.
fn all_between(low: i64, high: i64, numbers: &[i64]) -> bool
    ensures { result ≡ list_all (λ z. between low z high) numbers.now }
{
    // the proof did not close with `contains` of a range with these ends
    numbers.iter().all(|z| low <= *z && *z <= high)
}

impl Node {
    fn known(&self) -> bool
        ensures { result ≡ known_of self.now.kind }
    {
        (1..=5).contains(&self.kind)
    }

    // Each reference that the node needs is to one of `n` nodes.
    fn refers_below(&self, n: usize) -> bool
        ensures { result ≡ references n self.now (shape_of self.now) }
    {
        match self.shape() {
            Shape::Quadric => true,
            Shape::Sum(_, _) | Shape::Union(_, _) | Shape::Common(_, _) => refers_to(n, self.a)
                && refers_to(n, self.b),
            Shape::Outside(_) => refers_to(n, self.a),
        }
    }

    // The columns of a quadric are 0.
    fn without_quadric(&self) -> bool
        ensures { result ≡ no_quadric self.now }
    {
        zeros(&[
            self.px, self.py, self.pz, self.sx, self.sy, self.sz, self.lx, self.ly, self.lz, self.k,
        ])
    }

    // The columns that the node does not use are 0.
    fn rest_is_zero(&self) -> bool
        ensures { result ≡ unused self.now (shape_of self.now) }
    {
        match self.shape() {
            Shape::Quadric => self.a == 0 && self.b == 0,
            Shape::Sum(_, _) | Shape::Union(_, _) | Shape::Common(_, _) => self.without_quadric(),
            Shape::Outside(_) => self.b == 0 && self.without_quadric(),
        }
    }

    // The same range as that of the ends of a leg; a point made of three columns to ask it would be no plainer.
    fn centre_on_map(&self) -> bool
        ensures { result ≡ centre_lies_on_map self.now }
    {
        all_between(-4096, 4096, &[self.px, self.py]) && (-16..=660).contains(&self.pz)
    }

    // The numbers of a quadric are in range.
    fn quadric_in_range(&self) -> bool
        ensures { result ≡ quadric_lies_in_range self.now }
    {
        let scales = all_between(-16, 16, &[self.sx, self.sy, self.sz]);
        let slopes = all_between(-4096, 4096, &[self.lx, self.ly, self.lz]);
        let level = (-1073741824..=1073741824).contains(&self.k);
        self.centre_on_map() & scales & slopes & level
    }

    fn in_range(&self) -> bool
        ensures { result ≡ in_range self.now (shape_of self.now) }
    {
        match self.shape() {
            Shape::Quadric => self.quadric_in_range(),
            _ => true,
        }
    }
}

impl Nodes<'_> {
    // Whether a node with any numbers can follow the list. It is refused by the first number that fits, and none fits exactly if the longer list is
    // well-formed.
    #[tactic(auto, using(crate::proofs::Testing::longer_accepted))]
    pub fn validate(&self, node: &Node) -> Result<(), Refusal>
        ensures value { MatchResult result (λ _. (node_refusal self.now.all.now node.now ≡ 0) × WellFormed (self.now.all.now ++ (node.now ∷ []))) (λ e. number_of e ≡ node_refusal self.now.all.now node.now) }
        ensures exact { WellFormed (self.now.all.now ++ (node.now ∷ [])) → node_refusal self.now.all.now node.now ≡ 0 }
    {
        if !node.known() {
            return Err(Refusal::NodeKind);
        }
        if !node.refers_below(self.all.len()) {
            return Err(Refusal::NodeReference);
        }
        if !node.rest_is_zero() {
            return Err(Refusal::UnusedColumn);
        }
        if !node.in_range() {
            return Err(Refusal::QuadricRange);
        }
        if self.reach_after(node) > REACH_LIMIT {
            return Err(Refusal::NodeReach);
        }
        Ok(())
    }
}
