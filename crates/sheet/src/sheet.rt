// The sheet, and what it keeps to.
ghost use Rattle.std.specs.Prelude.{◌≡◌, ◌≤◌, length, vec_capacity};
ghost use Rattle.areas.specs.Table.{AllStand, Accepted};

use areas::Areas;
use nodes::Node;

// The closed areas in force: at most 64 nodes in the order added, and the areas by their numbers. Room for 64 nodes is reserved when it is opened.
#[derive(Drop)]
pub struct Sheet {
    pub(crate) nodes: Vec<Node>,
    pub(crate) areas: Areas,
    ghost few: { length nodes.items ≤ 64 },
    ghost room: { 64 ≤ vec_capacity nodes },
    ghost sixteen: { length areas.slots ≡ 16 },
    // the node of each area is in the list
    ghost stands: { AllStand (length nodes.items) areas.slots },
    // each node can follow those before it
    ghost accepted: { Accepted nodes.items },
}
