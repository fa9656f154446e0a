#![tactic(auto)]

#[cfg(test)]
mod tests {
    use leg::Point;
    use leg_check::Verdict;
    use loading::{LoadError, load};
    use refusal::Fault;
    use std::alloc::Global;
    use std::process::Abort;
    use std::test::Fail;

    const NODES: &[u8] = b"kind a b px py pz sx sy sz lx ly lz k\n";

    // A cylinder of radius 10 around the origin.
    const CYLINDER: &[u8] = b"1 0 0 0 0 0 1 1 0 0 0 0 -100\n";

    const ONE_NODE: &[u8] =
        b"kind a b px py pz sx sy sz lx ly lz k\n1 0 0 0 0 0 1 1 0 0 0 0 -100\n";

    const AREAS: &[u8] = b"area node on\n";

    // The numbers of a fault: refusal, layer, line and column.
    fn numbers_of(fault: Fault) -> (u8, u8, usize, usize) {
        (
            fault.number(),
            fault.layer().number(),
            fault.line,
            fault.column,
        )
    }

    fn check_fault(
        rt: &impl Abort,
        heap: Global,
        nodes: &[u8],
        areas: &[u8],
        file: u8,
        numbers: (u8, u8, usize, usize),
    ) -> Result<(), Fail> {
        match load(heap, nodes, areas) {
            Err(LoadError::Fault(found)) => {
                assert_eq!(rt; found.file.number(), file);
                assert_eq!(rt; numbers_of(found.fault), numbers);
                Ok(())
            }
            _ => Err(Fail::new("a fault")),
        }
    }

    #[test]
    fn refused_rows(rt: HostRuntime) -> Result<(), Fail> {
        let bad_node =
            b"kind a b px py pz sx sy sz lx ly lz k\n1 0 0 0 0 0 1 1 0 0 0 0 -100\n1 0 0 0 0 0 1 1 0 0 0 0 1073741825\n";
        let outside = (10, 3, 3, 0);
        check_fault(&rt, rt.alloc(), bad_node, AREAS, 1, outside)?;
        let no_node = (17, 3, 2, 0);
        check_fault(&rt, rt.alloc(), NODES, b"area node on\n3 0 1\n", 2, no_node)
    }

    #[test]
    fn sixty_five_nodes(rt: HostRuntime) -> Result<(), Fail> {
        let mut nodes = Vec::new(rt.alloc());
        nodes.extend_from_slice(NODES)?;
        for _ in 0..65 {
            nodes.extend_from_slice(CYLINDER)?;
        }
        let full = (6, 3, 66, 0);
        check_fault(&rt, rt.alloc(), &nodes, AREAS, 1, full)
    }

    #[test]
    fn text_fault_of_areas(rt: HostRuntime) -> Result<(), Fail> {
        let no_number = (5, 2, 3, 3);
        let areas = b"area node on\n3 0 1\n4 0 yes\n";
        check_fault(&rt, rt.alloc(), ONE_NODE, areas, 2, no_number)
    }

    #[test]
    fn good_tables(rt: HostRuntime) -> Result<(), Fail> {
        let loaded = load(rt.alloc(), ONE_NODE, b"on area node\n1 3 0\n");
        let Ok(sheet) = loaded else {
            assert!(rt; false);
            return Ok(());
        };
        let through = sheet.check(Point::new(-40, 0, 0), Point::new(40, 0, 0));
        assert!(rt; matches!(through, Ok(Verdict::Entered { .. })));
        let past = sheet.check(Point::new(-40, 40, 0), Point::new(40, 40, 0));
        assert!(rt; matches!(past, Ok(Verdict::Clear { .. })));
        Ok(())
    }
}
