// A day of a dispatcher: legs are checked while areas are published, switched and struck, and a report says which may be filed.
#![tactic(auto)]

use dispatching::report;
use leg::Point;
use nodes::Node;
use sheet::Call;
use std::io;

// An upright cylinder about x = 0, y = 0: of radius 10 with k = -100, of radius 2 with k = -4.
fn cylinder(k: i64) -> Node {
    Node {
        kind: 1,
        a: 0,
        b: 0,
        px: 0,
        py: 0,
        pz: 0,
        sx: 1,
        sy: 1,
        sz: 0,
        lx: 0,
        ly: 0,
        lz: 0,
        k,
    }
}

// The union of two nodes.
fn union(a: i64, b: i64) -> Node {
    Node {
        kind: 3,
        a,
        b,
        sx: 0,
        sy: 0,
        ..cylinder(0)
    }
}

// A level leg at z = 100 along x.
fn along(x1: i64, x2: i64, y: i64) -> Call {
    Call::Check {
        start: Point::new(x1, y, 100),
        end: Point::new(x2, y, 100),
    }
}

fn publish(area: i64, node: i64) -> Call {
    Call::Publish { area, node, on: 1 }
}

fn day() -> [Call; 18] {
    [
        // nothing is closed yet
        along(-100, 100, 10),
        // area 3 is closed: the leg goes in, and one beside it does not
        Call::Add {
            node: cylinder(-100),
        },
        publish(3, 0),
        along(-100, 100, 10),
        along(-100, 100, 11),
        along(0, 100, 0),
        // no such area, a node that is a part of itself, and a node in use
        publish(16, 0),
        Call::Add { node: union(0, 1) },
        Call::TakeBack,
        // open for a while, then closed again
        Call::Switch { area: 3, on: 0 },
        along(-100, 100, 10),
        Call::Switch { area: 3, on: 1 },
        along(-100, 100, 10),
        // a smaller area in its place, which a long leg passes by too near to tell
        Call::Strike { area: 3 },
        Call::Add { node: cylinder(-4) },
        publish(4, 1),
        along(-4096, 4096, 3),
        // a leg of no length
        along(7, 7, 7),
    ]
}

fn main(rt: HostRuntime) -> io::Result<()> {
    let text = report(rt.alloc(), &day())?;
    print!(rt; "{text}")
}
