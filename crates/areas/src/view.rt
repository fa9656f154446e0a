// The nodes and the areas of a sheet, lent together.
ghost use Rattle.std.specs.Prelude.{◌≡◌, ◌≤◌, length};
ghost use Rattle.areas.specs.Table.{AllStand, Accepted};

use crate::area::Areas;
use nodes::{Node, Nodes};

// What it lends keeps to what a sheet keeps to, so no caller can hold another.
#[derive(Clone, Copy)]
pub struct View<'a> {
    pub(crate) nodes: Nodes<'a>,
    pub(crate) areas: &'a Areas,
    ghost sixteen: { length areas.now.slots ≡ 16 },
    ghost stands: { AllStand (length nodes.all.now) areas.now.slots },
    ghost accepted: { Accepted nodes.all.now },
}

impl<'a> View<'a> {
    #[tactic(auto, using(crate::specs::Forming::accepted_well_formed))]
    pub fn new(nodes: &'a [Node], areas: &'a Areas) -> View<'a>
        requires few { length nodes.now ≤ 64 }
        requires sixteen { length areas.now.slots ≡ 16 }
        requires stands { AllStand (length nodes.now) areas.now.slots }
        requires accepted { Accepted nodes.now }
        ensures nodes { result.nodes.all.now ≡ nodes.now }
        ensures areas { result.areas.now ≡ areas.now }
    {
        View {
            nodes: Nodes::new(nodes),
            areas,
        }
    }
}
