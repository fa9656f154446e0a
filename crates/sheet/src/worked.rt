// The worked calls. The contract has what is answered to them.
ghost use Rattle.std.specs.Prelude.{◌≡◌, pos};
ghost use Rattle.sheet.specs.Worked.{calls_worked, WorkedSheet};
ghost use Rattle.sheet.specs.Worked.{cylinder as cylinder_of, along as along_of};

use crate::call::Call;
use leg::Point;
use nodes::Node;

// An upright cylinder about x = 0, y = 0.
fn cylinder(k: i64) -> Node
    ensures { result ≡ cylinder_of k }
{
    Node {
        kind: 1,
        a: 0,
        b: 0,
        px: 0,
        py: 0,
        pz: 0,
        sx: 1,
        sy: 1,
        sz: 0,
        lx: 0,
        ly: 0,
        lz: 0,
        k,
    }
}

// A level leg at z = 100 along x.
fn along(x1: i64, x2: i64, y: i64) -> Call
    ensures { result ≡ along_of x1 x2 y }
{
    Call::Check {
        start: Point::new(x1, y, 100),
        end: Point::new(x2, y, 100),
    }
}

// No area; a cylinder of radius 10, on the leg and beside it; and one of radius 2 beside a leg of the whole width.
pub fn worked_calls() -> [Call; 10]
    ensures value { result ≡ calls_worked }
    ensures worked { WorkedSheet }
{
    let area = Call::Publish {
        area: 0,
        node: 0,
        on: 1,
    };
    [
        along(-100, 100, 10),
        Call::Add {
            node: cylinder(-100),
        },
        area,
        along(-100, 100, 10),
        along(-100, 100, 11),
        Call::Strike { area: 0 },
        Call::TakeBack,
        Call::Add { node: cylinder(-4) },
        area,
        along(-4096, 4096, 3),
    ]
}
