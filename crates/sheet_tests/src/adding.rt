// Add and take back.
use crate::shared::{
    CYLINDER, FREE, NARROW, NONE, TOUCHED, answer, combined, touching, with_cylinder,
};
use leg_check::Verdict;
use nodes::Node;
use sheet::Sheet;
use std::test::Fail;

#[test]
fn a_node_more_than_64(rt: HostRuntime) -> Result<(), Fail> {
    let mut sheet = with_cylinder(rt.alloc())?;
    for number in 1..64 {
        assert_eq!(rt; answer(sheet.add(NARROW)), Ok(number));
    }
    // also of a kind that there is not
    for node in [NARROW, NONE] {
        assert_eq!(rt; answer(sheet.add(node)), Err(6));
    }
    assert_eq!(rt; answer(sheet.publish(1, 64, 1)), Err(17));
    assert_eq!(rt; touching(&sheet), Ok(TOUCHED));
    assert_eq!(rt; answer(sheet.take_back()), Ok(63));
    assert_eq!(rt; answer(sheet.add(NONE)), Err(7));
    assert_eq!(rt; answer(sheet.add(NARROW)), Ok(63));
    assert_eq!(rt; answer(sheet.add(NARROW)), Err(6));
    Ok(())
}

// After each of them there is still no node 1.
#[test]
fn nodes_that_are_refused(rt: HostRuntime) -> Result<(), Fail> {
    let mut sheet = with_cylinder(rt.alloc())?;
    let refused = [
        (NONE, 7),
        (combined(6, 0, 0), 7),
        (combined(5, 1, 0), 8),
        (combined(2, 0, 1), 8),
        (combined(3, -1, 0), 8),
        (combined(5, 0, 1), 9),
        (Node { b: 1, ..CYLINDER }, 9),
        (
            Node {
                k: 1,
                ..combined(4, 0, 0)
            },
            9,
        ),
        (Node { sz: 17, ..CYLINDER }, 10),
        (
            Node {
                py: -4097,
                ..CYLINDER
            },
            10,
        ),
    ];
    for (node, number) in refused {
        assert_eq!(rt; answer(sheet.add(node)), Err(number));
        assert_eq!(rt; answer(sheet.publish(1, 1, 1)), Err(17), "after {number}");
        assert_eq!(rt; touching(&sheet), Ok(TOUCHED), "after {number}");
    }
    assert_eq!(rt; answer(sheet.add(combined(5, 0, 0))), Ok(1));
    Ok(())
}

// 2^30 either way, and one more.
#[test]
fn constants_at_their_edges(rt: HostRuntime) -> Result<(), Fail> {
    let mut sheet = with_cylinder(rt.alloc())?;
    let of = |k: i64| Node { k, ..CYLINDER };
    assert_eq!(rt; answer(sheet.add(of(1073741824))), Ok(1));
    assert_eq!(rt; answer(sheet.add(of(1073741825))), Err(10));
    assert_eq!(rt; answer(sheet.add(of(-1073741824))), Ok(2));
    assert_eq!(rt; answer(sheet.add(of(-1073741825))), Err(10));
    // node 1 is nowhere inside, node 2 everywhere
    assert_eq!(rt; answer(sheet.publish(1, 1, 1)), Ok(1));
    assert_eq!(rt; touching(&sheet), Ok(TOUCHED));
    assert_eq!(rt; answer(sheet.publish(2, 2, 1)), Ok(2));
    assert_eq!(rt; touching(&sheet), Ok(Verdict::Inside));
    Ok(())
}

// The reach 2^54 doubled six times is 2^60.
#[test]
fn a_reach_over_the_limit(rt: HostRuntime) -> Result<(), Fail> {
    let mut sheet = Sheet::new(rt.alloc())?;
    let wide = Node {
        kind: 1,
        sx: 16,
        ..NONE
    };
    assert_eq!(rt; answer(sheet.add(wide)), Ok(0));
    for (number, part) in [(1, 0), (2, 1), (3, 2), (4, 3), (5, 4), (6, 5)] {
        assert_eq!(rt; answer(sheet.add(combined(2, part, part))), Ok(number));
    }
    for node in [combined(2, 6, 0), combined(3, 6, 6)] {
        assert_eq!(rt; answer(sheet.add(node)), Err(11));
    }
    assert_eq!(rt; answer(sheet.add(combined(5, 6, 0))), Ok(7));
    assert_eq!(rt; answer(sheet.publish(0, 7, 1)), Ok(0));
    assert_eq!(rt; touching(&sheet), Ok(Verdict::Inside));
    Ok(())
}

#[test]
fn no_node_to_take_back(rt: HostRuntime) -> Result<(), Fail> {
    let mut sheet = Sheet::new(rt.alloc())?;
    assert_eq!(rt; answer(sheet.take_back()), Err(12));
    assert_eq!(rt; touching(&sheet), Ok(FREE));
    assert_eq!(rt; answer(sheet.add(CYLINDER)), Ok(0));
    assert_eq!(rt; answer(sheet.take_back()), Ok(0));
    assert_eq!(rt; answer(sheet.take_back()), Err(12));
    assert_eq!(rt; answer(sheet.publish(0, 0, 1)), Err(17));
    assert_eq!(rt; answer(sheet.add(CYLINDER)), Ok(0));
    Ok(())
}

// Two areas have the last node: the one is on, the other off.
#[test]
fn a_last_node_in_use(rt: HostRuntime) -> Result<(), Fail> {
    let mut sheet = with_cylinder(rt.alloc())?;
    assert_eq!(rt; answer(sheet.publish(5, 0, 0)), Ok(5));
    assert_eq!(rt; answer(sheet.add(NARROW)), Ok(1));
    assert_eq!(rt; answer(sheet.take_back()), Ok(1));
    assert_eq!(rt; answer(sheet.take_back()), Err(13));
    assert_eq!(rt; touching(&sheet), Ok(TOUCHED));
    assert_eq!(rt; answer(sheet.strike(0)), Ok(0));
    assert_eq!(rt; answer(sheet.take_back()), Err(13));
    assert_eq!(rt; answer(sheet.switch(5, 1)), Ok(5));
    assert_eq!(rt; touching(&sheet), Ok(TOUCHED));
    assert_eq!(rt; answer(sheet.take_back()), Err(13));
    assert_eq!(rt; answer(sheet.strike(5)), Ok(5));
    assert_eq!(rt; answer(sheet.take_back()), Ok(0));
    Ok(())
}
