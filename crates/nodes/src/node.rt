// Nodes, by their columns.
ghost use Rattle.std.specs.Prelude.{◌≡◌};
ghost use Rattle.nodes.specs.Tables.{shape_of};

// One row of the node table: its kind, the numbers of the nodes that it combines, and the numbers of a quadric. A row has any number as its kind, and an enum of
// the kinds would only repeat `Shape`.
#[derive(Clone, Copy)]
pub struct Node {
    pub kind: i64,
    pub a: i64,
    pub b: i64,
    pub px: i64,
    pub py: i64,
    pub pz: i64,
    pub sx: i64,
    pub sy: i64,
    pub sz: i64,
    pub lx: i64,
    pub ly: i64,
    pub lz: i64,
    pub k: i64,
}

// What a node is: a quadric, or one or two nodes combined. It names them by their numbers, not by boxes, since they are earlier rows of the table, which several
// nodes may name, and since a check asks for no memory.
#[derive(Clone, Copy)]
pub enum Shape {
    Quadric,
    Sum(usize, usize),
    Union(usize, usize),
    Common(usize, usize),
    Outside(usize),
}

impl Node {
    // Kind 1 is a quadric, 2 a sum, 3 a union, 4 a common part, and any other an outside.
    pub fn shape(&self) -> Shape
        ensures { result ≡ shape_of self.now }
    {
        let a = self.a.unsigned_abs() as usize;
        let b = self.b.unsigned_abs() as usize;
        match self.kind {
            1 => Shape::Quadric,
            2 => Shape::Sum(a, b),
            3 => Shape::Union(a, b),
            4 => Shape::Common(a, b),
            _ => Shape::Outside(a),
        }
    }
}
