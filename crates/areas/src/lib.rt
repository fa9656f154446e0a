// Closed areas over the nodes of a list, and the field that those which are on make.
#![tactic(auto)]

mod answers;
mod area;
mod joining;
mod view;
mod view_field;

pub use area::{Area, Areas};
pub use view::View;
