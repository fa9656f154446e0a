#![tactic(auto)]

mod arithmetic;
mod axes;
mod evaluation;
mod extents;
mod forms;
mod list;
mod node;
mod validation;
mod whole;

pub use arithmetic::Arithmetic;
pub use axes::Axes;
pub use forms::Affine;
pub use list::Nodes;
pub use node::{Node, Shape};
pub use validation::refers_to;
pub use whole::Whole;
