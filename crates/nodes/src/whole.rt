// Whole numbers at a half-step.
ghost use Rattle.std.specs.Prelude.{◌≡◌, ℤ, pos};
ghost use Rattle.integer.specs.Numbers.{Within};
ghost use Rattle.leg.specs.Places.{coordinate as coordinate_value};
ghost use Rattle.affine.specs.Fits.{Bounded};
ghost use Rattle.nodes.specs.Locations.{whole, whole_axes, whole_axis, whole_operations, WholeFits, WholeHolds};
ghost use Rattle.nodes.specs.WholeNumbers.{whole_related, whole_small};

use crate::arithmetic::Arithmetic;
use crate::axes::Axes;
use crate::node::Node;
use affine::Form;
use leg::{Coordinate, HalfStep, Leg};

// The arithmetic of whole numbers: the second and third number of a form are 0.
#[derive(Drop)]
pub struct Whole;

fn number(z: i64) -> Form
    ensures { result ≡ whole z }
{
    Form {
        u0: z,
        u1: 0,
        u2: 0,
    }
}

// A scaled coordinate at a half-step.
fn along(coordinate: Coordinate, step: HalfStep) -> Form
    ensures value { result ≡ whole (coordinate_value coordinate.from coordinate.to (pos step.at) (pos 1)) }
    ensures bounded { Bounded 16777216 result }
{
    number(coordinate.at(step))
}

// s D² + 4096 l D, where D is the coordinate `x` from the centre's, `p`, on. A type for the three columns of one axis would have to be made of each node, and be
// no plainer.
fn axis(x: i64, p: i64, s: i64, l: i64) -> i64
    requires { (Within x (pos 16777216)) × ((Within p (pos 4096)) × ((Within s (pos 16)) × (Within l (pos 4096)))) }
    ensures value { result ≡ whole_axis x p s l }
    ensures small { Within result (pos 18577348462903296) }
{
    let d = x - 4096 * p;
    s * (d * d) + 4096 * l * d
}

impl Arithmetic for Whole {
    type Location = HalfStep;

    ghost axes_at = { whole_axes };

    ghost operations = { whole_operations };

    ghost small = { WholeFits };

    ghost holds = { WholeHolds };

    ghost holding = { λ leg at. whole_related leg at };

    ghost all_small = { λ nodes formed leg at i i<. whole_small nodes formed leg at i i< };

    fn axes(leg: &Leg, at: &HalfStep) -> Axes {
        Axes {
            x: along(leg.x(), *at),
            y: along(leg.y(), *at),
            z: along(leg.z(), *at),
        }
    }

    fn quadric(node: &Node, axes: &Axes) -> Form {
        let x = axis(axes.x.u0, node.px, node.sx, node.lx);
        let y = axis(axes.y.u0, node.py, node.sy, node.ly);
        let z = axis(axes.z.u0, node.pz, node.sz, node.lz);
        number(x + y + z + 16777216 * node.k)
    }

    fn sum(u: Form, v: Form) -> Form {
        number(u.u0 + v.u0)
    }

    fn lesser(u: Form, v: Form) -> Form {
        number(u.u0.min(v.u0))
    }

    fn greater(u: Form, v: Form) -> Form {
        number(u.u0.max(v.u0))
    }

    fn opposite(u: Form) -> Form {
        number(-u.u0)
    }
}
