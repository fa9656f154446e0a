// What the tests share: nodes, a sheet with an area, and answers with the numbers of refusals.
use leg::Point;
use leg_check::Verdict;
use nodes::Node;
use refusal::Refusal;
use sheet::Sheet;
use std::alloc::Global;
use std::test::Fail;

pub(crate) const NONE: Node = Node {
    kind: 0,
    a: 0,
    b: 0,
    px: 0,
    py: 0,
    pz: 0,
    sx: 0,
    sy: 0,
    sz: 0,
    lx: 0,
    ly: 0,
    lz: 0,
    k: 0,
};

// A cylinder of radius 10 around the origin.
pub(crate) const CYLINDER: Node = Node {
    kind: 1,
    sx: 1,
    sy: 1,
    k: -100,
    ..NONE
};

// A cylinder of radius 2 around the origin.
pub(crate) const NARROW: Node = Node { k: -4, ..CYLINDER };

pub(crate) fn combined(kind: i64, a: i64, b: i64) -> Node {
    Node { kind, a, b, ..NONE }
}

// An answer with the number of the refusal.
pub(crate) fn answer<T>(res: Result<T, Refusal>) -> Result<T, u8> {
    res.map_err(|refusal| refusal.number())
}

// The leg that the cylinder touches at x = 0.
pub(crate) fn touching(sheet: &Sheet) -> Result<Verdict, u8> {
    answer(sheet.check(Point::new(-100, 10, 100), Point::new(100, 10, 100)))
}

// What is said of that leg, by what is on: the cylinder, the narrow one alone, nothing.
pub(crate) const TOUCHED: Verdict = Verdict::Entered {
    piece: 1023,
    bounds: 22,
};

pub(crate) const PASSED: Verdict = Verdict::Clear { bounds: 15 };

pub(crate) const FREE: Verdict = Verdict::Clear { bounds: 1 };

// A sheet with the cylinder as its only node, in area 0, which is on.
pub(crate) fn with_cylinder(heap: Global) -> Result<Sheet, Fail> {
    let mut sheet = Sheet::new(heap)?;
    sheet.add(CYLINDER)?;
    sheet.publish(0, 0, 1)?;
    Ok(sheet)
}
