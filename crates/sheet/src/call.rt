// The calls of a sheet as values, and what is answered to one. The numbers of a call may be any.
use leg::Point;
use leg_check::Verdict;
use nodes::Node;
use refusal::Refusal;

#[derive(Clone, Copy)]
pub enum Call {
    // puts a node at the end of the list
    Add { node: Node },
    // removes the last node of the list
    TakeBack,
    // enters an area under its number, with its node, on (1) or off (0)
    Publish { area: i64, node: i64, on: i64 },
    // sets a published area on or off
    Switch { area: i64, on: i64 },
    // removes an area
    Strike { area: i64 },
    // checks the leg from one point to the other
    Check { start: Point, end: Point },
}

// What is answered to a call that is not refused.
#[derive(Clone, Copy)]
pub enum Success {
    // the number of the node or of the area
    Taken(usize),
    Checked(Verdict),
}

pub type Reply = Result<Success, Refusal>;
