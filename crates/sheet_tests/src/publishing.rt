// Publish, switch and strike.
use crate::shared::{FREE, NARROW, PASSED, TOUCHED, answer, touching, with_cylinder};
use std::test::Fail;

// The number is looked at before all else.
#[test]
fn area_numbers(rt: HostRuntime) -> Result<(), Fail> {
    let mut sheet = with_cylinder(rt.alloc())?;
    for area in [-1, 16, i64::MIN, i64::MAX] {
        assert_eq!(rt; answer(sheet.publish(area, 9, 2)), Err(14), "at {area}");
        assert_eq!(rt; answer(sheet.switch(area, 2)), Err(14), "at {area}");
        assert_eq!(rt; answer(sheet.strike(area)), Err(14), "at {area}");
        assert_eq!(rt; touching(&sheet), Ok(TOUCHED), "at {area}");
    }
    assert_eq!(rt; answer(sheet.publish(15, 0, 1)), Ok(15));
    assert_eq!(rt; answer(sheet.strike(0)), Ok(0));
    assert_eq!(rt; touching(&sheet), Ok(TOUCHED));
    Ok(())
}

#[test]
fn published_already(rt: HostRuntime) -> Result<(), Fail> {
    let mut sheet = with_cylinder(rt.alloc())?;
    assert_eq!(rt; answer(sheet.add(NARROW)), Ok(1));
    assert_eq!(rt; answer(sheet.publish(0, 1, 1)), Err(15));
    assert_eq!(rt; answer(sheet.publish(0, 9, 2)), Err(15));
    assert_eq!(rt; touching(&sheet), Ok(TOUCHED));
    assert_eq!(rt; answer(sheet.switch(0, 0)), Ok(0));
    assert_eq!(rt; answer(sheet.publish(0, 1, 1)), Err(15));
    assert_eq!(rt; touching(&sheet), Ok(FREE));
    Ok(())
}

#[test]
fn not_published(rt: HostRuntime) -> Result<(), Fail> {
    let mut sheet = with_cylinder(rt.alloc())?;
    assert_eq!(rt; answer(sheet.switch(1, 1)), Err(16));
    assert_eq!(rt; answer(sheet.switch(1, 2)), Err(16));
    assert_eq!(rt; answer(sheet.strike(1)), Err(16));
    assert_eq!(rt; touching(&sheet), Ok(TOUCHED));
    assert_eq!(rt; answer(sheet.strike(0)), Ok(0));
    assert_eq!(rt; answer(sheet.switch(0, 1)), Err(16));
    assert_eq!(rt; answer(sheet.strike(0)), Err(16));
    assert_eq!(rt; touching(&sheet), Ok(FREE));
    Ok(())
}

// The node is looked at before on. After each refusal the area is not published.
#[test]
fn nodes_that_are_not_in_the_sheet(rt: HostRuntime) -> Result<(), Fail> {
    let mut sheet = with_cylinder(rt.alloc())?;
    for node in [-1, 1, i64::MIN, i64::MAX] {
        assert_eq!(rt; answer(sheet.publish(1, node, 2)), Err(17), "at {node}");
        assert_eq!(rt; answer(sheet.strike(1)), Err(16), "at {node}");
        assert_eq!(rt; touching(&sheet), Ok(TOUCHED), "at {node}");
    }
    assert_eq!(rt; answer(sheet.add(NARROW)), Ok(1));
    assert_eq!(rt; answer(sheet.publish(1, 1, 1)), Ok(1));
    assert_eq!(rt; answer(sheet.strike(0)), Ok(0));
    assert_eq!(rt; touching(&sheet), Ok(PASSED));
    Ok(())
}

#[test]
fn neither_on_nor_off(rt: HostRuntime) -> Result<(), Fail> {
    let mut sheet = with_cylinder(rt.alloc())?;
    for (position, verdict) in [(1, TOUCHED), (0, FREE)] {
        assert_eq!(rt; answer(sheet.switch(0, position)), Ok(0));
        for on in [-1, 2, i64::MIN, i64::MAX] {
            assert_eq!(rt; answer(sheet.publish(1, 0, on)), Err(18), "at {on}");
            assert_eq!(rt; answer(sheet.strike(1)), Err(16), "at {on}");
            assert_eq!(rt; answer(sheet.switch(0, on)), Err(18), "at {on}");
            assert_eq!(rt; touching(&sheet), Ok(verdict), "at {on}");
        }
    }
    Ok(())
}

#[test]
fn struck_and_published_again(rt: HostRuntime) -> Result<(), Fail> {
    let mut sheet = with_cylinder(rt.alloc())?;
    assert_eq!(rt; answer(sheet.add(NARROW)), Ok(1));
    assert_eq!(rt; answer(sheet.strike(0)), Ok(0));
    assert_eq!(rt; touching(&sheet), Ok(FREE));
    assert_eq!(rt; answer(sheet.publish(0, 1, 1)), Ok(0));
    assert_eq!(rt; touching(&sheet), Ok(PASSED));
    assert_eq!(rt; answer(sheet.strike(0)), Ok(0));
    assert_eq!(rt; answer(sheet.publish(0, 0, 1)), Ok(0));
    assert_eq!(rt; touching(&sheet), Ok(TOUCHED));
    Ok(())
}

#[test]
fn switched_off_and_on(rt: HostRuntime) -> Result<(), Fail> {
    let mut sheet = with_cylinder(rt.alloc())?;
    assert_eq!(rt; answer(sheet.add(NARROW)), Ok(1));
    assert_eq!(rt; answer(sheet.publish(1, 1, 1)), Ok(1));
    assert_eq!(rt; touching(&sheet), Ok(TOUCHED));
    let steps = [
        // again what it is already
        (0, 1, TOUCHED),
        (0, 0, PASSED),
        (0, 0, PASSED),
        (1, 0, FREE),
        (0, 1, TOUCHED),
    ];
    for (area, on, verdict) in steps {
        assert_eq!(rt; answer(sheet.switch(area, on)), Ok(area as usize));
        assert_eq!(rt; touching(&sheet), Ok(verdict), "area {area} to {on}");
    }
    Ok(())
}
