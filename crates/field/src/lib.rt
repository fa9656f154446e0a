// What a field is, and the layers: fields that are made of fields. A layer is made in two steps: `fits` says whether its reach is one that a field may have, and
// `new` makes it and cannot refuse.
#![tactic(auto)]

mod field;
mod join;
mod joined;
mod limit;
mod outsides;

pub use field::Field;
pub use join::{Greater, Join, Lesser};
pub use joined::{Common, Joined, Union};
pub use outsides::Outside;
