use leg::{HalfStep, Leg, Piece, Point};
use refusal::Refusal;
use std::test::Fail;

// The number of the refusal, if there is one.
fn refused<T: Copy>(made: Result<T, Refusal>) -> Option<u8> {
    made.err().map(Refusal::number)
}

#[test]
fn legs_at_the_edges(rt: HostRuntime) {
    let cases = [
        ([-4096, -4096, -16, 4096, 4096, 660], None),
        ([0, 0, 0, 0, 0, 1], None),
        ([4097, 0, 0, 0, 0, 0], Some(19)),
        ([0, -4097, 0, 0, 0, 0], Some(19)),
        ([0, 0, -17, 0, 0, 0], Some(19)),
        ([0, 0, 0, -4097, 0, 0], Some(19)),
        ([0, 0, 0, 0, 4097, 0], Some(19)),
        ([0, 0, 0, 0, 0, 661], Some(19)),
        ([i64::MIN, 0, 0, 0, 0, i64::MAX], Some(19)),
        ([7, 7, 7, 7, 7, 7], Some(20)),
        ([4097, 7, 7, 4097, 7, 7], Some(19)),
    ];
    for (c, number) in cases {
        assert_eq!(rt;
            refused(Leg::new(Point::new(c[0], c[1], c[2]), Point::new(c[3], c[4], c[5]))),
            number
        );
    }
}

#[test]
fn half_steps_at_the_edges(rt: HostRuntime) {
    let cases = [
        (0, None),
        (4096, None),
        (-1, Some(24)),
        (4097, Some(24)),
        (65536, Some(24)),
        (i64::MIN, Some(24)),
    ];
    for (at, number) in cases {
        assert_eq!(rt; refused(HalfStep::try_from(at)), number);
    }
}

#[test]
fn pieces_at_the_edges(rt: HostRuntime) {
    let cases = [
        (2048, 2048, None),
        (1024, 1024, None),
        (3072, 1024, None),
        (1, 1, None),
        (4095, 1, None),
        (2, 1, Some(25)),
        (0, 1, Some(25)),
        (4097, 1, Some(25)),
        (3, 3, Some(25)),
        (2048, 1024, Some(25)),
        (4096, 4096, Some(25)),
        (1, 0, Some(25)),
        (-1, 1, Some(25)),
        (1, -1, Some(25)),
        (65537, 1, Some(25)),
        (i64::MAX, i64::MIN, Some(25)),
    ];
    for (middle, half, number) in cases {
        assert_eq!(rt; refused(Piece::new(middle, half)), number);
    }
}

#[test]
fn the_whole_leg_is_halved(rt: HostRuntime) -> Result<(), Fail> {
    let parts = Piece::whole()
        .halves()
        .ok_or_else(|| Fail::new("the whole leg has halves"))?;
    assert_eq!(rt; parts.first.middle, 1024);
    assert_eq!(rt; parts.first.half, 1024);
    assert_eq!(rt; parts.second.middle, 3072);
    assert_eq!(rt; parts.second.half, 1024);
    assert_eq!(rt; parts.first.number(), None);
    Ok(())
}

#[test]
fn finest_pieces_are_numbered(rt: HostRuntime) -> Result<(), Fail> {
    let cases = [
        (1, 1, Some(0)),
        (3, 1, Some(1)),
        (4095, 1, Some(2047)),
        (2, 2, None),
    ];
    for (middle, half, number) in cases {
        let piece = Piece::new(middle, half)?;
        assert_eq!(rt; piece.number(), number);
        assert_eq!(rt; piece.halves().is_none(), half == 1);
    }
    Ok(())
}
