// Checks of legs at the edges of what is allowed. The verdicts were worked out by another program.
use crate::shared::{TOUCHED, answer, touching, with_cylinder};
use leg::Point;
use leg_check::Verdict;
use std::test::Fail;

// From a point beside the cylinder to each edge, and back.
#[test]
fn coordinates_at_their_edges(rt: HostRuntime) -> Result<(), Fail> {
    let sheet = with_cylinder(rt.alloc())?;
    let beside = Point::new(50, 50, 100);
    let within = [
        (Point::new(4096, 0, 0), 13),
        (Point::new(-4096, 0, 0), 13),
        (Point::new(0, 4096, 0), 13),
        (Point::new(0, -4096, 0), 13),
        (Point::new(60, 50, 660), 1),
        (Point::new(60, 50, -16), 1),
    ];
    for (point, bounds) in within {
        assert_eq!(rt;
            answer(sheet.check(beside, point)),
            Ok(Verdict::Clear { bounds })
        );
        assert_eq!(rt;
            answer(sheet.check(point, beside)),
            Ok(Verdict::Clear { bounds })
        );
    }
    let corner = Point::new(-4096, -4096, -16);
    let opposite = Point::new(4096, 4096, 660);
    let entered = Verdict::Entered {
        piece: 1022,
        bounds: 23,
    };
    assert_eq!(rt; answer(sheet.check(corner, opposite)), Ok(entered));
    let past = [
        Point::new(4097, 0, 0),
        Point::new(-4097, 0, 0),
        Point::new(0, 4097, 0),
        Point::new(0, -4097, 0),
        Point::new(0, 0, 661),
        Point::new(0, 0, -17),
        Point::new(i64::MIN, i64::MAX, 0),
    ];
    for point in past {
        assert_eq!(rt; answer(sheet.check(beside, point)), Err(19));
        assert_eq!(rt; answer(sheet.check(point, beside)), Err(19));
        // before it is seen that they are the same
        assert_eq!(rt; answer(sheet.check(point, point)), Err(19));
        assert_eq!(rt; touching(&sheet), Ok(TOUCHED));
    }
    Ok(())
}

#[test]
fn into_the_cylinder_and_out(rt: HostRuntime) -> Result<(), Fail> {
    let sheet = with_cylinder(rt.alloc())?;
    let outside = Point::new(100, 0, 100);
    let axis = Point::new(0, 0, 100);
    let entered = Verdict::Entered {
        piece: 1843,
        bounds: 21,
    };
    assert_eq!(rt; answer(sheet.check(outside, axis)), Ok(entered));
    assert_eq!(rt; answer(sheet.check(axis, outside)), Ok(Verdict::Inside));
    Ok(())
}

#[test]
fn a_start_that_is_the_end(rt: HostRuntime) -> Result<(), Fail> {
    let sheet = with_cylinder(rt.alloc())?;
    for point in [Point::new(7, 7, 7), Point::new(4096, -4096, 660)] {
        assert_eq!(rt; answer(sheet.check(point, point)), Err(20));
        assert_eq!(rt; touching(&sheet), Ok(TOUCHED));
    }
    Ok(())
}
