// Lists of calls, run on a sheet from its opening on.
use crate::shared::{CYLINDER, FREE, NONE, TOUCHED, combined, touching};
use leg::Point;
use leg_check::Verdict;
use nodes::Node;
use sheet::{Call, Reply, Success, run, worked_calls};
use std::test::Fail;

// What a check found.
fn verdict_of(reply: &Reply) -> Option<Verdict> {
    match reply {
        Ok(Success::Checked(verdict)) => Some(*verdict),
        _ => None,
    }
}

// The number that another call answered.
fn number_of(reply: &Reply) -> Option<usize> {
    match reply {
        Ok(Success::Taken(number)) => Some(*number),
        _ => None,
    }
}

fn refusal_of(reply: &Reply) -> Option<u8> {
    reply.err().map(|refusal| refusal.number())
}

#[test]
fn the_worked_calls(rt: HostRuntime) -> Result<(), Fail> {
    let transcript = run(rt.alloc(), &worked_calls())?;
    let verdicts: Vec<_> = transcript
        .replies
        .iter()
        .map(verdict_of)
        .collect(rt.alloc())?;
    let numbers: Vec<_> = transcript
        .replies
        .iter()
        .map(number_of)
        .collect(rt.alloc())?;
    let beside = Verdict::Clear { bounds: 19 };
    let near = Verdict::Near {
        piece: 1023,
        bounds: 22,
    };
    assert_eq!(rt;
        verdicts.as_slice(),
        [
            Some(FREE),
            None,
            None,
            Some(TOUCHED),
            Some(beside),
            None,
            None,
            None,
            None,
            Some(near)
        ]
        .as_slice()
    );
    assert_eq!(rt;
        numbers.as_slice(),
        [
            None,
            Some(0),
            Some(0),
            None,
            None,
            Some(0),
            Some(0),
            Some(0),
            Some(0),
            None
        ]
        .as_slice()
    );
    Ok(())
}

// The same leg is checked before the refused calls, after each of them, and on the sheet that is left.
#[test]
fn refused_calls(rt: HostRuntime) -> Result<(), Fail> {
    let start = Point::new(-100, 10, 100);
    let end = Point::new(100, 10, 100);
    let refused = [
        Call::Add { node: NONE },
        Call::Add {
            node: combined(2, 0, 1),
        },
        Call::Add {
            node: combined(5, 0, 1),
        },
        Call::Add {
            node: Node { sz: 17, ..CYLINDER },
        },
        Call::TakeBack,
        Call::Strike { area: 16 },
        Call::Publish {
            area: 0,
            node: 0,
            on: 0,
        },
        Call::Switch { area: 1, on: 1 },
        Call::Publish {
            area: 1,
            node: 1,
            on: 1,
        },
        Call::Switch { area: 0, on: 2 },
        Call::Check {
            start,
            end: Point::new(4097, 10, 100),
        },
        Call::Check { start, end: start },
    ];
    let mut calls = Vec::new(rt.alloc());
    calls.push(Call::TakeBack)?;
    calls.push(Call::Add { node: CYLINDER })?;
    calls.push(Call::Publish {
        area: 0,
        node: 0,
        on: 1,
    })?;
    calls.push(Call::Check { start, end })?;
    for call in refused {
        calls.push(call)?;
        calls.push(Call::Check { start, end })?;
    }
    let transcript = run(rt.alloc(), &calls)?;
    let refusals: Vec<_> = transcript
        .replies
        .iter()
        .filter_map(refusal_of)
        .collect(rt.alloc())?;
    assert_eq!(rt;
        refusals.as_slice(),
        [12, 7, 8, 9, 10, 13, 14, 15, 16, 17, 18, 19, 20].as_slice()
    );
    let numbers: Vec<_> = transcript
        .replies
        .iter()
        .filter_map(number_of)
        .collect(rt.alloc())?;
    assert_eq!(rt; numbers.as_slice(), [0, 0].as_slice());
    let verdicts: Vec<_> = transcript
        .replies
        .iter()
        .filter_map(verdict_of)
        .collect(rt.alloc())?;
    assert_eq!(rt; verdicts.as_slice(), [TOUCHED; 13].as_slice());
    assert_eq!(rt; touching(&transcript.sheet), Ok(TOUCHED));
    Ok(())
}

#[test]
fn no_calls(rt: HostRuntime) -> Result<(), Fail> {
    let transcript = run(rt.alloc(), &[])?;
    assert_eq!(rt; transcript.replies.len(), 0);
    assert_eq!(rt; touching(&transcript.sheet), Ok(FREE));
    Ok(())
}
