#![tactic(auto)]

#[cfg(test)]
mod tests {
    use files::Files;
    use report::report;
    use std::test::Fail;

    const NODES: &[u8] = b"kind a b px py pz sx sy sz lx ly lz k\n";

    const AREAS: &[u8] = b"area node on\n";

    const LEGS: &[u8] = b"x1 y1 z1 x2 y2 z2\n";

    // The bytes of nodes, areas and legs, and the second line of the fault.
    struct Case {
        nodes: &'static [u8],
        areas: &'static [u8],
        legs: &'static [u8],
        text: &'static [u8],
    }

    const FAULTS: [Case; 7] = [
        Case {
            nodes: b"",
            areas: b"",
            legs: b"",
            text: b"file number layer line column\n1 1 1 1 0\n",
        },
        Case {
            nodes: NODES,
            areas: b"",
            legs: b"",
            text: b"file number layer line column\n2 1 1 1 0\n",
        },
        Case {
            nodes: NODES,
            areas: AREAS,
            legs: b"",
            text: b"file number layer line column\n4 1 1 1 0\n",
        },
        Case {
            nodes: b"kind\n",
            areas: b"area\n",
            legs: LEGS,
            text: b"file number layer line column\n1 3 1 1 0\n",
        },
        Case {
            nodes: NODES,
            areas: b"area node off\n",
            legs: b"x\n",
            text: b"file number layer line column\n2 4 1 1 3\n",
        },
        Case {
            nodes: NODES,
            areas: AREAS,
            legs: b"x1 y1 z1 x2 y2 z2\n0 0 0 0 0 0\n0 0 0 0 00 1\n",
            text: b"file number layer line column\n4 5 2 3 5\n",
        },
        Case {
            nodes: NODES,
            areas: AREAS,
            legs: b"x1 y1 z1 x2 y2 z2\n0 0 0 0 0 0",
            text: b"file number layer line column\n4 2 1 2 0\n",
        },
    ];

    #[test]
    fn first_fault_alone(rt: HostRuntime) -> Result<(), Fail> {
        for case in &FAULTS {
            let output = report(
                rt.alloc(),
                Files {
                    nodes: case.nodes,
                    areas: case.areas,
                    terrain: b"",
                    legs: case.legs,
                },
            )?;
            assert!(rt; output.fault.is_some());
            assert!(rt; output.text.as_slice() == case.text);
        }
        Ok(())
    }

    #[test]
    fn what_was_read(rt: HostRuntime) -> Result<(), Fail> {
        let areas = b"on area node\n1 3 -7\n0 4 2147483647\n";
        let output = report(
            rt.alloc(),
            Files {
                nodes: NODES,
                areas,
                terrain: b"\x00\x0a\x00",
                legs: LEGS,
            },
        )?;
        let told =
            b"nodes.txt\ncolumns as written: kind a b px py pz sx sy sz lx ly lz k\nkind a b px py pz sx sy sz lx ly lz k\nareas.txt\ncolumns as written: on area node\narea node on\n3 -7 1\n4 2147483647 0\nterrain.bin\n3 bytes\nlegs.txt\ncolumns as written: x1 y1 z1 x2 y2 z2\nx1 y1 z1 x2 y2 z2\n";
        assert!(rt; output.fault.is_none());
        assert!(rt; output.text.as_slice() == told.as_slice());
        Ok(())
    }
}
