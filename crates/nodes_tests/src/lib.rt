// Lists of nodes, validated row by row, and what their nodes are.
#![tactic(auto)]

ghost use Rattle.std.specs.Prelude.{◌≡◌, ◌≤◌, length, IfOk};
ghost use Rattle.nodes.specs.Formed.{WellFormed};

use nodes::{Node, Nodes};
use refusal::Refusal;

// Validates each node after those before it.
#[tactic(auto, using(nodes::proofs::Growing::empty_well_formed))]
fn build(nodes: &[Node]) -> Result<Nodes<'_>, Refusal>
    ensures { IfOk result (λ built. (built.all.now ≡ nodes.now) × (length nodes.now ≤ 64) × WellFormed nodes.now) }
{
    if nodes.len() > 64 {
        return Err(Refusal::SheetFull);
    }
    // the index ends the slice of the nodes before
    for (i, node) in nodes.iter().enumerate() {
        Nodes::new(&nodes[..i]).validate(node)?;
    }
    Ok(Nodes::new(nodes))
}

// The number of the first refusal, if there is one.
fn refusal_of(nodes: &[Node]) -> Option<u8> {
    build(nodes).err().map(|refusal| refusal.number())
}

#[cfg(test)]
mod tests {
    use super::*;
    use affine::Form;
    use leg::{HalfStep, Leg, Piece, Point};
    use std::test::Fail;

    const NONE: Node = Node {
        kind: 0,
        a: 0,
        b: 0,
        px: 0,
        py: 0,
        pz: 0,
        sx: 0,
        sy: 0,
        sz: 0,
        lx: 0,
        ly: 0,
        lz: 0,
        k: 0,
    };

    // A cylinder of radius 10 around the origin.
    const CYLINDER: Node = Node {
        kind: 1,
        sx: 1,
        sy: 1,
        k: -100,
        ..NONE
    };

    fn combined(kind: i64, a: i64, b: i64) -> Node {
        Node { kind, a, b, ..NONE }
    }

    #[test]
    fn level_edge(rt: HostRuntime) {
        let edge = Node {
            k: 1073741824,
            ..CYLINDER
        };
        let past = Node {
            k: 1073741825,
            ..CYLINDER
        };
        assert_eq!(rt; refusal_of(&[edge]), None);
        assert_eq!(rt; refusal_of(&[past]), Some(10));
    }

    #[test]
    fn kinds(rt: HostRuntime) {
        assert_eq!(rt; refusal_of(&[NONE]), Some(7));
        assert_eq!(rt; refusal_of(&[CYLINDER, combined(6, 0, 0)]), Some(7));
        assert_eq!(rt; refusal_of(&[CYLINDER, combined(5, 0, 0)]), None);
    }

    #[test]
    fn references(rt: HostRuntime) {
        assert_eq!(rt; refusal_of(&[combined(5, 0, 0)]), Some(8));
        assert_eq!(rt; refusal_of(&[CYLINDER, combined(2, 0, 1)]), Some(8));
        assert_eq!(rt; refusal_of(&[CYLINDER, combined(3, -1, 0)]), Some(8));
        assert_eq!(rt; refusal_of(&[CYLINDER, combined(4, 0, 0)]), None);
    }

    #[test]
    fn unused_columns(rt: HostRuntime) {
        let named = Node { b: 1, ..CYLINDER };
        let level = Node {
            kind: 2,
            k: 1,
            ..NONE
        };
        assert_eq!(rt; refusal_of(&[named]), Some(9));
        assert_eq!(rt; refusal_of(&[CYLINDER, level]), Some(9));
        assert_eq!(rt; refusal_of(&[CYLINDER, combined(5, 0, 1)]), Some(9));
    }

    #[test]
    fn ranges(rt: HostRuntime) {
        let bent = Node { sz: 17, ..CYLINDER };
        let slant = Node {
            lx: -4097,
            ..CYLINDER
        };
        let high = Node {
            pz: 661,
            ..CYLINDER
        };
        assert_eq!(rt; refusal_of(&[bent]), Some(10));
        assert_eq!(rt; refusal_of(&[slant]), Some(10));
        assert_eq!(rt; refusal_of(&[high]), Some(10));
    }

    // The reach 2^54 doubled six times is 2^60.
    #[test]
    fn reach_limit(rt: HostRuntime) {
        let wide = Node {
            kind: 1,
            sx: 16,
            ..NONE
        };
        let mut list = [
            wide,
            combined(2, 0, 0),
            combined(2, 1, 1),
            combined(2, 2, 2),
            combined(2, 3, 3),
            combined(2, 4, 4),
            combined(2, 5, 5),
            combined(5, 6, 0),
        ];
        assert_eq!(rt; refusal_of(&list), None);
        list[7] = combined(2, 6, 0);
        assert_eq!(rt; refusal_of(&list), Some(11));
        list[7] = combined(3, 6, 6);
        assert_eq!(rt; refusal_of(&list), Some(11));
    }

    #[test]
    fn both_arithmetics(rt: HostRuntime) -> Result<(), Fail> {
        let list = [
            CYLINDER,
            combined(5, 0, 0),
            combined(3, 0, 1),
            combined(4, 0, 1),
            combined(2, 0, 1),
        ];
        let nodes = build(&list)?;
        let leg = Leg::new(Point::new(-100, 10, 100), Point::new(100, 10, 100))?;
        let start = nodes.values_at(&leg, HalfStep::try_from(0)?);
        assert_eq!(rt; start[0].u0, 167772160000);
        assert_eq!(rt; start[1].u0, -167772160000);
        assert_eq!(rt; start[2].u0, -167772160000);
        assert_eq!(rt; start[3].u0, 167772160000);
        assert_eq!(rt; start[4].u0, 0);
        let middle = nodes.values_at(&leg, HalfStep::try_from(2048)?);
        assert_eq!(rt; middle[0].u0, 0);
        let form = Form {
            u0: 0,
            u1: 0,
            u2: 167772160000,
        };
        let whole = nodes.forms_on(&leg, Piece::new(2048, 2048)?);
        assert_eq!(rt; whole[0], form);
        assert_eq!(rt; whole[1], form);
        assert_eq!(rt; whole[2], form);
        assert_eq!(rt; whole[3], form);
        Ok(())
    }

    // A reach of 2^51 + 100 * 2^24, a steepness of 200 * 2^26.
    #[test]
    fn sizes(rt: HostRuntime) -> Result<(), Fail> {
        let list = [
            CYLINDER,
            combined(3, 0, 0),
            combined(2, 0, 1),
            combined(5, 2, 0),
        ];
        let nodes = build(&list)?;
        let reach = nodes.reaches();
        assert_eq!(rt; reach[0], 2251801491406848);
        assert_eq!(rt; reach[1], 2251801491408896);
        assert_eq!(rt; reach[3], 4503602982815744);
        let leg = Leg::new(Point::new(-100, 10, 100), Point::new(100, 10, 100))?;
        let steepness = nodes.steepnesses(&leg);
        assert_eq!(rt; steepness[0], 13421772800);
        assert_eq!(rt; steepness[1], 13421772801);
        assert_eq!(rt; steepness[3], 26843545601);
        Ok(())
    }
}
