#![tactic(auto)]

mod combining;
mod extremes;
mod limits;
mod worked;

pub use limits::ends_limit;
pub use worked::worked_product;

// An affine form: u0 + u1 · (place − middle) / half-width, give or take u2.
#[derive(Clone, Copy, PartialEq, Eq, Debug)]
pub struct Form {
    pub u0: i64,
    pub u1: i64,
    pub u2: i64,
}
