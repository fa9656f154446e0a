// Affine forms on a piece.
ghost use Rattle.std.specs.Prelude.{◌≡◌, ℤ, pos, negsuc, ◌-ℤ◌, ◌*ℤ◌};
ghost use Rattle.integer.specs.Numbers.{Within};
ghost use Rattle.leg.specs.Places.{coordinate as coordinate_value};
ghost use Rattle.affine.specs.Forms.{shifted_by};
ghost use Rattle.affine.specs.Fits.{Bounded};
ghost use Rattle.nodes.specs.Quadrics.{square_of, line_of};
ghost use Rattle.nodes.specs.Locations.{affine_axes, affine_axis, affine_operations, AffineFits, AffineHolds};
ghost use Rattle.nodes.specs.AffineForms.{affine_related, affine_small};

use crate::arithmetic::Arithmetic;
use crate::axes::Axes;
use crate::node::Node;
use affine::Form;
use leg::{Coordinate, Leg, Piece};

// The arithmetic of affine forms.
#[derive(Drop)]
pub struct Affine;

// A scaled coordinate on a piece: it changes evenly.
fn along(coordinate: Coordinate, piece: Piece) -> Form
    ensures value { result ≡ line_of (coordinate_value coordinate.from coordinate.to (pos piece.middle) (pos 1)) ((coordinate.to -ℤ coordinate.from) *ℤ pos piece.half) }
    ensures bounded { Bounded 16777216 result }
{
    Form {
        u0: coordinate.at(piece.middle_step()),
        u1: coordinate.change(piece),
        u2: 0,
    }
}

fn square(d: Form) -> Form
    requires { Bounded 33554432 d }
    ensures value { result ≡ square_of d }
    ensures bounded { Bounded 6755399441055744 result }
{
    d.product(d)
}

// The coordinate from the centre's, `p`, on.
fn offset(x: Form, p: i64) -> Form
    requires { (Bounded 16777216 x) × (Within p (pos 4096)) }
    ensures value { result ≡ shifted_by (negsuc 4095 *ℤ p) x }
    ensures bounded { Bounded 33554432 result }
{
    x.shifted(-4096 * p)
}

// s D² + 4096 l D, where D is the coordinate `x` from the centre's, `p`, on. whole.rt has it in whole numbers: one text would need products of both kinds and
// their bounds in `Arithmetic`, and be no plainer.
fn axis(x: Form, p: i64, s: i64, l: i64) -> Form
    requires { (Bounded 16777216 x) × ((Within p (pos 4096)) × ((Within s (pos 16)) × (Within l (pos 4096)))) }
    ensures value { result ≡ affine_axis x p s l }
    ensures bounded { Bounded 108649341010313216 result }
{
    let d = offset(x, p);
    let bent = square(d).scaled(s);
    let straight = d.scaled(4096 * l);
    bent.sum(straight)
}

impl Arithmetic for Affine {
    type Location = Piece;

    ghost axes_at = { affine_axes };

    ghost operations = { affine_operations };

    ghost small = { AffineFits };

    ghost holds = { AffineHolds };

    ghost holding = { λ leg at. affine_related leg at };

    ghost all_small = { λ nodes formed leg at i i<. affine_small leg at nodes formed i i< };

    fn axes(leg: &Leg, at: &Piece) -> Axes {
        Axes {
            x: along(leg.x(), *at),
            y: along(leg.y(), *at),
            z: along(leg.z(), *at),
        }
    }

    fn quadric(node: &Node, axes: &Axes) -> Form {
        let x = axis(axes.x, node.px, node.sx, node.lx);
        let y = axis(axes.y, node.py, node.sy, node.ly);
        let z = axis(axes.z, node.pz, node.sz, node.lz);
        x.sum(y).sum(z).shifted(16777216 * node.k)
    }

    fn sum(u: Form, v: Form) -> Form {
        u.sum(v)
    }

    fn lesser(u: Form, v: Form) -> Form {
        u.lesser(v)
    }

    fn greater(u: Form, v: Form) -> Form {
        u.greater(v)
    }

    fn opposite(u: Form) -> Form {
        u.opposite()
    }
}
