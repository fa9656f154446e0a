// The check of fields, alone and in layers.
use crate::level::Level;
use crate::side::Side;
use field::{Common, Outside, Union};
use leg::Point;
use leg_check::{Verdict, check as check_leg};
use refusal::Refusal;
use std::test::Fail;

#[test]
fn clear_at_once(rt: HostRuntime) -> Result<(), Fail> {
    let field = Level { value: 1 };
    assert_eq!(rt;
        check_leg(&field, Point::new(0, 0, 0), Point::new(1, 0, 0))?,
        Verdict::Clear { bounds: 1 }
    );
    Ok(())
}

#[test]
fn inside_at_zero(rt: HostRuntime) -> Result<(), Fail> {
    let field = Level { value: 0 };
    assert_eq!(rt;
        check_leg(&field, Point::new(0, 0, 0), Point::new(1, 0, 0))?,
        Verdict::Inside
    );
    Ok(())
}

#[test]
fn entered(rt: HostRuntime) -> Result<(), Fail> {
    let field = Side { x: 0 };
    assert_eq!(rt;
        check_leg(&field, Point::new(100, 0, 100), Point::new(-100, 0, 100))?,
        Verdict::Entered {
            piece: 1023,
            bounds: 22,
        }
    );
    Ok(())
}

// A piece that ends on the border is not cleared, so the last piece of a leg that ends there is entered.
#[test]
fn entered_at_the_end(rt: HostRuntime) -> Result<(), Fail> {
    let field = Side { x: 0 };
    assert_eq!(rt;
        check_leg(&field, Point::new(1, 0, 0), Point::new(0, 0, 0))?,
        Verdict::Entered {
            piece: 2047,
            bounds: 23,
        }
    );
    Ok(())
}

#[test]
fn refused(rt: HostRuntime) {
    let field = Side { x: 0 };
    assert_eq!(rt;
        check_leg(&field, Point::new(4097, 0, 0), Point::new(4097, 0, 0)),
        Err(Refusal::CoordinateRange)
    );
    assert_eq!(rt;
        check_leg(&field, Point::new(7, 7, 7), Point::new(7, 7, 7)),
        Err(Refusal::SamePoint)
    );
}

#[test]
fn in_a_union_on_either_side(rt: HostRuntime) -> Result<(), Fail> {
    let side = Side { x: 0 };
    let level = Level { value: 1 << 40 };
    let entered = Verdict::Entered {
        piece: 1023,
        bounds: 22,
    };
    Union::fits(&side, &level)?;
    assert_eq!(rt;
        check_leg(
            &Union::new(side, level),
            Point::new(100, 0, 100),
            Point::new(-100, 0, 100)
        )?,
        entered
    );
    Union::fits(&level, &side)?;
    assert_eq!(rt;
        check_leg(
            &Union::new(level, side),
            Point::new(100, 0, 100),
            Point::new(-100, 0, 100)
        )?,
        entered
    );
    Ok(())
}

// Either side of a border is inside but for the border, which the leg passes between two half-steps.
#[test]
fn near(rt: HostRuntime) -> Result<(), Fail> {
    let east = Side { x: 0 };
    let west = Outside::new(east);
    Common::fits(&east, &west)?;
    assert_eq!(rt;
        check_leg(
            &Common::new(east, west),
            Point::new(-1, 0, 0),
            Point::new(2, 0, 0)
        )?,
        Verdict::Near {
            piece: 682,
            bounds: 17,
        }
    );
    Ok(())
}

#[test]
fn outside(rt: HostRuntime) -> Result<(), Fail> {
    let side = Side { x: 0 };
    Outside::fits(&side)?;
    let outside = Outside::new(side);
    assert_eq!(rt;
        check_leg(&outside, Point::new(1, 0, 0), Point::new(2, 0, 0))?,
        Verdict::Inside
    );
    assert_eq!(rt;
        check_leg(&outside, Point::new(-2, 0, 0), Point::new(-1, 0, 0))?,
        Verdict::Clear { bounds: 1 }
    );
    Ok(())
}

// A strip between two borders, and all but the strip, of lent fields.
#[test]
fn layers_of_layers(rt: HostRuntime) -> Result<(), Fail> {
    let left = Side { x: -10 };
    let right = Side { x: 10 };
    let right_of_left = Outside::new(&left);
    Common::fits(&right, &right_of_left)?;
    let strip = Common::new(&right, right_of_left);
    assert_eq!(rt;
        check_leg(&strip, Point::new(0, 0, 0), Point::new(100, 0, 0))?,
        Verdict::Inside
    );
    assert_eq!(rt;
        check_leg(
            &Outside::new(&strip),
            Point::new(0, 0, 0),
            Point::new(9, 0, 0)
        )?,
        Verdict::Clear { bounds: 1 }
    );
    Ok(())
}

// The greatest reach that a field may have.
const REACH_LIMIT: i64 = (1 << 60) + (1 << 20);

#[test]
fn reach_limit(rt: HostRuntime) {
    let zero = Level { value: 0 };
    let most = Level {
        value: REACH_LIMIT - 2048,
    };
    let more = Level {
        value: REACH_LIMIT - 2047,
    };
    assert_eq!(rt; Union::fits(&most, &zero), Ok(()));
    assert_eq!(rt; Union::fits(&zero, &more), Err(Refusal::LayerReach));
    assert_eq!(rt; Common::fits(&zero, &most), Ok(()));
    assert_eq!(rt; Common::fits(&more, &zero), Err(Refusal::LayerReach));
}
