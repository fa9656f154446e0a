#![tactic(auto)]

#[cfg(test)]
mod tests {
    use refusal::Fault;
    use std::alloc::{AllocError, Global};
    use std::test::Fail;
    use table::number::number;
    use table::reader::{Opened, row};
    use table::table::Table;

    // Further than any table of a test has rows, so that its first fault comes before.
    const FAR: usize = 20000;

    // The numbers of a fault: refusal, layer, line and column.
    fn numbers_of(fault: Fault) -> (u8, u8, usize, usize) {
        (
            fault.number(),
            fault.layer().number(),
            fault.line,
            fault.column,
        )
    }

    // The numbers of a text's first fault.
    fn fault_of(table: Table, text: &[u8]) -> Option<(u8, u8, usize, usize)> {
        row(table, text, FAR).err().map(numbers_of)
    }

    // A text of the areas table, and its first fault.
    struct Case {
        text: &'static [u8],
        fault: Option<(u8, u8, usize, usize)>,
    }

    const CASES: [Case; 40] = [
        // accepted
        Case {
            text: b"area node on\n",
            fault: None,
        },
        Case {
            text: b"area node on\n3 0 1\n",
            fault: None,
        },
        Case {
            text: b"on area node\n1 3 0\n0 4 1\n",
            fault: None,
        },
        Case {
            text: b"area node on\n2147483647 -2147483647 0\n",
            fault: None,
        },
        Case {
            text: b"area node on\n1234567890 -1 9\n",
            fault: None,
        },
        // the text
        Case {
            text: b"",
            fault: Some((1, 1, 1, 0)),
        },
        Case {
            text: b"3 0 1\n",
            fault: Some((1, 1, 1, 0)),
        },
        Case {
            text: b"\narea node on\n",
            fault: Some((1, 1, 1, 0)),
        },
        Case {
            text: b" area node on\n",
            fault: Some((1, 1, 1, 0)),
        },
        Case {
            text: b"Area node on\n",
            fault: Some((1, 1, 1, 0)),
        },
        Case {
            text: b"\x00area node on\n",
            fault: Some((1, 1, 1, 0)),
        },
        Case {
            text: b"\xffarea node on\n",
            fault: Some((1, 1, 1, 0)),
        },
        // the line feed
        Case {
            text: b"area node on",
            fault: Some((2, 1, 1, 0)),
        },
        Case {
            text: b"area node on\n3 0 1",
            fault: Some((2, 1, 2, 0)),
        },
        Case {
            text: b"area node on\n3 0 1\n4 0 1",
            fault: Some((2, 1, 3, 0)),
        },
        // the number of fields
        Case {
            text: b"area node\n",
            fault: Some((3, 1, 1, 0)),
        },
        Case {
            text: b"area node on \n",
            fault: Some((3, 1, 1, 0)),
        },
        Case {
            text: b"area node on\n\n",
            fault: Some((3, 1, 2, 0)),
        },
        Case {
            text: b"area node on\n3 0\n",
            fault: Some((3, 1, 2, 0)),
        },
        Case {
            text: b"area node on\n3 0 1 \n",
            fault: Some((3, 1, 2, 0)),
        },
        Case {
            text: b"area node on\n3  0 1\n",
            fault: Some((3, 1, 2, 0)),
        },
        // the names
        Case {
            text: b"area Node on\n",
            fault: Some((4, 1, 1, 2)),
        },
        Case {
            text: b"area area on\n",
            fault: Some((4, 1, 1, 2)),
        },
        Case {
            text: b"area node off\n",
            fault: Some((4, 1, 1, 3)),
        },
        Case {
            text: b"area  on\n",
            fault: Some((4, 1, 1, 2)),
        },
        Case {
            text: b"area node on\r\n",
            fault: Some((4, 1, 1, 3)),
        },
        Case {
            text: b"x y on\n",
            fault: Some((4, 1, 1, 1)),
        },
        Case {
            text: b"area nod\xe9 on\n",
            fault: Some((4, 1, 1, 2)),
        },
        // the values
        Case {
            text: b"area node on\n3 -0 007\n",
            fault: Some((5, 2, 2, 2)),
        },
        Case {
            text: b"area node on\n3 0 007\n",
            fault: Some((5, 2, 2, 3)),
        },
        Case {
            text: b"area node on\n+1 0 1\n",
            fault: Some((5, 2, 2, 1)),
        },
        Case {
            text: b"area node on\n3 0 2147483648\n",
            fault: Some((5, 2, 2, 3)),
        },
        Case {
            text: b"area node on\n-2147483648 0 1\n",
            fault: Some((5, 2, 2, 1)),
        },
        Case {
            text: b"area node on\n3 12345678901 1\n",
            fault: Some((5, 2, 2, 2)),
        },
        Case {
            text: b"area node on\n3  1\n",
            fault: Some((5, 2, 2, 2)),
        },
        Case {
            text: b"area node on\n3 0 1\r\n",
            fault: Some((5, 2, 2, 3)),
        },
        Case {
            text: b"area node on\n3 - 1\n",
            fault: Some((5, 2, 2, 2)),
        },
        Case {
            text: b"area node on\n3 0 1\n3 0 \x00\n",
            fault: Some((5, 2, 3, 3)),
        },
        Case {
            text: b"area node on\n3 \xb2 1\n",
            fault: Some((5, 2, 2, 2)),
        },
        Case {
            text: b"area node on\n3 0 x\n3 0\n",
            fault: Some((5, 2, 2, 3)),
        },
    ];

    #[test]
    fn first_faults(rt: HostRuntime) {
        for case in &CASES {
            assert_eq!(rt; fault_of(Table::Areas, case.text), case.fault);
        }
    }

    #[test]
    fn numbers(rt: HostRuntime) {
        assert_eq!(rt; number(b"0"), Some(0));
        assert_eq!(rt; number(b"-1"), Some(-1));
        assert_eq!(rt; number(b"2147483647"), Some(2147483647));
        assert_eq!(rt; number(b"-2147483647"), Some(-2147483647));
        assert_eq!(rt; number(b"2147483648"), None);
        assert_eq!(rt; number(b"9999999999"), None);
        assert_eq!(rt; number(b"00000000000"), None);
        assert_eq!(rt; number(b""), None);
        assert_eq!(rt; number(b"-"), None);
        assert_eq!(rt; number(b"--1"), None);
        assert_eq!(rt; number(b"1-"), None);
    }

    // The same rows, whatever the order of the columns.
    #[test]
    fn column_order(rt: HostRuntime) -> Result<(), Fail> {
        let plain = row(Table::Areas, b"area node on\n3 0 1\n4 -7 0\n", 1)?;
        let moved = row(Table::Areas, b"on area node\n1 3 0\n0 4 -7\n", 1)?;
        assert_eq!(rt; plain, Some([4, -7, 0, 0, 0, 0, 0, 0, 0, 0, 0, 0, 0]));
        assert_eq!(rt; moved, plain);
        Ok(())
    }

    #[test]
    fn all_columns(rt: HostRuntime) -> Result<(), Fail> {
        let nodes = b"k kind a b px py pz sx sy sz lx ly lz\n13 1 2 3 4 5 6 7 8 9 10 11 12\n";
        assert_eq!(rt;
            row(Table::Nodes, nodes, 0)?,
            Some([1, 2, 3, 4, 5, 6, 7, 8, 9, 10, 11, 12, 13])
        );
        let legs = b"z2 y2 x2 z1 y1 x1\n6 5 4 3 2 1\n";
        assert_eq!(rt;
            row(Table::Legs, legs, 0)?,
            Some([1, 2, 3, 4, 5, 6, 0, 0, 0, 0, 0, 0, 0])
        );
        assert_eq!(rt; row(Table::Legs, legs, 1)?, None);
        Ok(())
    }

    // A refused line is answered again, and after the last row there is none, every time.
    #[test]
    fn asked_again(rt: HostRuntime) -> Result<(), Fail> {
        let refused = Opened::new(Table::Areas, b"area node on\n3 0 1\nx 0 1\n")?;
        let names = refused.names()?;
        let mut rows = refused.rows(names);
        assert!(rt; rows.next()?.is_some());
        assert_eq!(rt; rows.next().map_err(numbers_of), Err((5, 2, 3, 1)));
        assert_eq!(rt; rows.next().map_err(numbers_of), Err((5, 2, 3, 1)));
        let ended = Opened::new(Table::Areas, b"area node on\n3 0 1\n")?;
        let names = ended.names()?;
        let mut rows = ended.rows(names);
        assert!(rt; rows.next()?.is_some());
        assert_eq!(rt; rows.next()?, None);
        assert_eq!(rt; rows.next()?, None);
        Ok(())
    }

    // A line is handed out as it stands.
    #[test]
    fn lines(rt: HostRuntime) -> Result<(), Fail> {
        let opened = Opened::new(Table::Areas, b"on area node\n1 3 0\n")?;
        assert!(rt; opened.line()? == b"on area node".as_slice());
        let names = opened.names()?;
        let mut rows = opened.rows(names);
        assert!(rt; rows.line()? == Some(b"1 3 0"));
        assert!(rt; rows.next()?.is_some());
        assert!(rt; rows.line()? == None);
        Ok(())
    }

    // The names of the areas table, and then a line of so many bytes.
    fn with_line(heap: Global, bytes: usize) -> Result<Vec<u8>, AllocError> {
        let mut text = Vec::from_slice(heap, b"area node on\n")?;
        for _ in 0..bytes {
            text.push(b'7')?;
        }
        text.push(b'\n')?;
        Ok(text)
    }

    #[test]
    fn line_of_200_bytes(rt: HostRuntime) -> Result<(), Fail> {
        let shorter = with_line(rt.alloc(), 200)?;
        assert_eq!(rt; fault_of(Table::Areas, &shorter), Some((3, 1, 2, 0)));
        let longer = with_line(rt.alloc(), 201)?;
        assert_eq!(rt; fault_of(Table::Areas, &longer), Some((2, 1, 2, 0)));
        Ok(())
    }

    // A table of 10920 rows, whose first row is given.
    fn full(heap: Global, first: &[u8]) -> Result<Vec<u8>, AllocError> {
        let mut text = Vec::from_slice(heap, b"area node on\n")?;
        text.extend_from_slice(first)?;
        for _ in 0..10919 {
            text.extend_from_slice(b"0 0 0\n")?;
        }
        Ok(text)
    }

    #[test]
    fn text_of_65536_bytes(rt: HostRuntime) -> Result<(), Fail> {
        let whole = full(rt.alloc(), b"10 10 10\n")?;
        assert_eq!(rt; whole.len(), 65536);
        assert_eq!(rt; fault_of(Table::Areas, &whole), None);
        assert!(rt; row(Table::Areas, &whole, 10919)?.is_some());
        assert_eq!(rt; row(Table::Areas, &whole, 10920)?, None);
        let longer = full(rt.alloc(), b"10 10 100\n")?;
        assert_eq!(rt; longer.len(), 65537);
        assert_eq!(rt; fault_of(Table::Areas, &longer), Some((1, 1, 1, 0)));
        Ok(())
    }
}
