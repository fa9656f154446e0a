// The check of a sheet joined with a further field, as the first part and as the second. The verdicts were worked out by another program.
use crate::shared::{TOUCHED, answer, touching, with_cylinder};
use field::Field;
use field_tests::{Level, Side};
use leg::Point;
use leg_check::Verdict;
use sheet::Sheet;
use std::test::Fail;

// The greatest reach that a field may have.
const REACH_LIMIT: i64 = (1 << 60) + (1 << 20);

// What is said of a leg with the field as the first part, and as the second.
fn joined<F: Field>(sheet: &Sheet, field: &F, start: Point, end: Point) -> [Result<Verdict, u8>; 2]
    requires { F.Field.lawful field.now }
{
    [
        answer(sheet.check_with_first(field, start, end)),
        answer(sheet.check_with_second(field, start, end)),
    ]
}

#[test]
fn a_side_with_nothing_on(rt: HostRuntime) -> Result<(), Fail> {
    let sheet = Sheet::new(rt.alloc())?;
    let side = Side { x: 0 };
    let east = Point::new(100, 0, 100);
    let west = Point::new(-100, 0, 100);
    let entered = Verdict::Entered {
        piece: 1023,
        bounds: 22,
    };
    assert_eq!(rt; joined(&sheet, &side, east, west), [Ok(entered); 2]);
    assert_eq!(rt; joined(&sheet, &side, west, east), [Ok(Verdict::Inside); 2]);
    Ok(())
}

// Whichever comes first on the leg.
#[test]
fn sides_before_and_behind_a_cylinder(rt: HostRuntime) -> Result<(), Fail> {
    let sheet = with_cylinder(rt.alloc())?;
    let start = Point::new(100, 0, 100);
    let end = Point::new(-100, 0, 100);
    let cylinder = Verdict::Entered {
        piece: 921,
        bounds: 20,
    };
    let side = Verdict::Entered {
        piece: 819,
        bounds: 18,
    };
    assert_eq!(rt; answer(sheet.check(start, end)), Ok(cylinder));
    assert_eq!(rt;
        joined(&sheet, &Side { x: -50 }, start, end),
        [Ok(cylinder); 2]
    );
    assert_eq!(rt; joined(&sheet, &Side { x: 20 }, start, end), [Ok(side); 2]);
    assert_eq!(rt;
        joined(&sheet, &Level { value: 0 }, start, end),
        [Ok(Verdict::Inside); 2]
    );
    Ok(())
}

// The reach is looked at before the leg.
#[test]
fn reaches_at_their_edge(rt: HostRuntime) -> Result<(), Fail> {
    let sheet = with_cylinder(rt.alloc())?;
    let most = Level {
        value: REACH_LIMIT - 2048,
    };
    let more = Level {
        value: REACH_LIMIT - 2047,
    };
    let start = Point::new(-100, 10, 100);
    let end = Point::new(100, 10, 100);
    let past = Point::new(4097, 10, 100);
    assert_eq!(rt; joined(&sheet, &most, start, end), [Ok(TOUCHED); 2]);
    assert_eq!(rt; joined(&sheet, &most, start, past), [Err(19); 2]);
    assert_eq!(rt; joined(&sheet, &most, start, start), [Err(20); 2]);
    assert_eq!(rt; joined(&sheet, &more, start, end), [Err(23); 2]);
    assert_eq!(rt; joined(&sheet, &more, start, past), [Err(23); 2]);
    assert_eq!(rt; joined(&sheet, &more, start, start), [Err(23); 2]);
    assert_eq!(rt; touching(&sheet), Ok(TOUCHED));
    Ok(())
}
