// The scaled coordinates of a leg.
use affine::Form;

// The three scaled coordinates at a location of a leg, as numbers of an arithmetic.
#[derive(Clone, Copy)]
pub struct Axes {
    pub x: Form,
    pub y: Form,
    pub z: Form,
}
