// The list of nodes that is evaluated.
ghost use Rattle.std.specs.Prelude.{◌≡◌, ◌≤◌, length};
ghost use Rattle.nodes.specs.Formed.{WellFormed, well_formed_prop};

use crate::node::Node;

// A well-formed list of at most 64 nodes, lent.
#[derive(Clone, Copy)]
pub struct Nodes<'a> {
    pub(crate) all: &'a [Node],
    ghost few: { length all.now ≤ 64 },
    ghost formed: { WellFormed all.now } by { well_formed_prop all.now },
}

impl<'a> Nodes<'a> {
    pub fn new(all: &'a [Node]) -> Nodes<'a>
        requires few { length all.now ≤ 64 }
        requires formed { WellFormed all.now }
        ensures { result.all.now ≡ all.now }
    {
        Nodes { all }
    }
}
