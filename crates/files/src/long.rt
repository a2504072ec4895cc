// Files that loops build: many lines and leaves, each byte in a name, each reserved word, and the
// largest length.

mod tests {
    use crate::said::Said::{Refused, Taken};
    use crate::said::{Said, judged};
    use std::alloc::{AllocError, Global};
    use std::process::Abort;
    use std::test::Fail;

    fn joined(heap: Global, parts: &[&[u8]]) -> Result<Vec<u8>, AllocError> {
        parts.concat(heap)
    }

    // How many events, named by letters from a on, then rules of eight leaves, then rules of one leaf;
    // the bytes behind them; and what is said of the whole.
    type Row = (u8, u8, u8, &'static [u8], Said);

    static FULL: [Row; 47] = [
        // Twelve events, and what may be said of a thirteenth.
        (11, 0, 0, b"", Taken(11, 0, 0)),
        (12, 0, 0, b"", Taken(12, 0, 0)),
        (13, 0, 0, b"", Refused(7, 13)),
        (12, 0, 0, b"(event m immediate forcible)\n", Refused(7, 13)),
        (12, 0, 0, b"(event a flexible)\n", Refused(5, 13)),
        (12, 0, 0, b"(event l flexible)\n", Refused(5, 13)),
        (12, 0, 0, b"(event no flexible)\n", Refused(4, 13)),
        (12, 0, 0, b"(event 1 flexible)\n", Refused(4, 13)),
        (12, 0, 0, b"(event m flexible )\n", Refused(3, 13)),
        (12, 0, 0, b"(event m flexible)", Refused(3, 13)),
        (12, 0, 0, b"(event M flexible)\n", Refused(2, 13)),
        (13, 0, 0, b"(event M flexible)\n", Refused(7, 13)),
        (12, 0, 1, b"(event m flexible)\n", Refused(3, 14)),
        (12, 0, 1, b"(rule (all a l))\n", Taken(12, 2, 3)),
        (12, 0, 1, b"(rule (all a m))\n", Refused(6, 14)),
        // Sixteen rules, and what may be said of a seventeenth.
        (1, 0, 16, b"", Taken(1, 16, 16)),
        (12, 0, 16, b"", Taken(12, 16, 16)),
        (1, 0, 17, b"", Refused(7, 18)),
        (2, 0, 17, b"", Refused(7, 19)),
        (12, 0, 17, b"", Refused(7, 29)),
        (1, 0, 16, b"(rule yes)\n", Refused(7, 18)),
        (1, 0, 16, b"(rule b)\n", Refused(6, 18)),
        (1, 0, 16, b"(rule ~yes)\n", Refused(4, 18)),
        (1, 0, 16, b"(rule (alt b 1))\n", Refused(4, 18)),
        (1, 0, 16, b"(rule (alt a))\n", Refused(3, 18)),
        (1, 0, 16, b"(rule a)", Refused(3, 18)),
        (1, 0, 16, b"(event a flexible)\n", Refused(3, 18)),
        (1, 0, 16, b"\n", Refused(3, 18)),
        (1, 0, 16, b"(rule A)\n", Refused(2, 18)),
        (1, 0, 17, b"(rule A)\n", Refused(7, 18)),
        // 64 leaves, and what may be said of a 65th.
        (1, 8, 0, b"", Taken(1, 8, 64)),
        (12, 7, 8, b"", Taken(12, 15, 64)),
        (1, 8, 1, b"", Refused(7, 10)),
        (12, 7, 9, b"", Refused(7, 28)),
        (1, 8, 0, b"(rule ~a)\n", Refused(7, 10)),
        (1, 8, 0, b"(rule no)\n", Refused(7, 10)),
        (1, 8, 0, b"(rule b)\n", Refused(6, 10)),
        (1, 8, 0, b"(rule yes-)\n", Refused(6, 10)),
        (1, 8, 0, b"(rule ~no)\n", Refused(4, 10)),
        (1, 8, 0, b"(rule (alt a))\n", Refused(3, 10)),
        (1, 8, 0, b"(rule A)\n", Refused(2, 10)),
        (
            1,
            7,
            0,
            b"(rule (all a yes no a a a (seq a ~a)))\n",
            Taken(1, 8, 64),
        ),
        (
            1,
            7,
            0,
            b"(rule (all a a a a a a (seq a yes no)))\n",
            Refused(7, 9),
        ),
        (
            1,
            7,
            0,
            b"(rule (all a a a a a a (seq a b no)))\n",
            Refused(6, 9),
        ),
        (
            1,
            7,
            0,
            b"(rule (all a a a a a a (seq b 9 no)))\n",
            Refused(4, 9),
        ),
        (1, 7, 7, b"(rule a)\n(rule a)\n", Refused(7, 17)),
        (2, 8, 8, b"(rule b)\n", Refused(7, 11)),
    ];

    fn full(heap: Global, row: &Row) -> Result<Vec<u8>, AllocError> {
        let (events, wide, narrow, end, _) = *row;
        let mut file = Vec::new(heap);
        for number in 0..events {
            let name = [b'a'.saturating_add(number)];
            file.extend_from_slice(b"(event ")?;
            file.extend_from_slice(&name)?;
            file.extend_from_slice(b" flexible)\n")?;
        }
        for _ in 0..wide {
            file.extend_from_slice(b"(rule (all a a a a a a a a))\n")?;
        }
        for _ in 0..narrow {
            file.extend_from_slice(b"(rule a)\n")?;
        }
        file.extend_from_slice(end)?;
        Ok(file)
    }

    #[test]
    fn there_are_bounds(rt: HostRuntime) -> Result<(), Fail> {
        for (number, row) in FULL.iter().enumerate() {
            let file = full(rt.alloc(), row)?;
            assert_eq!(rt; judged(&rt, file.as_slice())?, row.4, "row {number}");
        }
        Ok(())
    }

    // What is said of a file where this byte stands inside the name of the event, or begins it.
    fn said_inside(byte: u8) -> Said {
        match byte {
            b'a'..=b'z' | b'0'..=b'9' | b'-' => Taken(1, 0, 0),
            b'~' | b'(' | b')' | b' ' | b'\n' => Refused(3, 1),
            _ => Refused(2, 1),
        }
    }

    fn said_first(byte: u8) -> Said {
        match byte {
            b'0'..=b'9' | b'-' => Refused(4, 1),
            _ => said_inside(byte),
        }
    }

    #[test]
    fn each_byte_has_its_place(rt: HostRuntime) -> Result<(), Fail> {
        for byte in 0..=255u8 {
            let one = [byte];
            let inside = joined(rt.alloc(), &[b"(event a", &one, b"a flexible)\n"])?;
            assert_eq!(rt;
                judged(&rt, inside.as_slice())?,
                said_inside(byte),
                "byte {byte} inside"
            );
            let first = joined(rt.alloc(), &[b"(event ", &one, b"a flexible)\n"])?;
            assert_eq!(rt;
                judged(&rt, first.as_slice())?,
                said_first(byte),
                "byte {byte} first"
            );
        }
        Ok(())
    }

    // The words that are no names, with what is said of rules where one is a leaf, and where it is a head.
    static RESERVED: [(&'static [u8], Said, Said); 11] = [
        (b"event", Refused(4, 2), Refused(3, 2)),
        (b"rule", Refused(4, 2), Refused(3, 2)),
        (b"alt", Refused(4, 2), Taken(1, 1, 2)),
        (b"all", Refused(4, 2), Taken(1, 1, 2)),
        (b"seq", Refused(4, 2), Taken(1, 1, 2)),
        (b"yes", Taken(1, 1, 1), Refused(3, 2)),
        (b"no", Taken(1, 1, 1), Refused(3, 2)),
        (b"flexible", Refused(4, 2), Refused(3, 2)),
        (b"inevitable", Refused(4, 2), Refused(3, 2)),
        (b"immediate", Refused(4, 2), Refused(3, 2)),
        (b"forcible", Refused(4, 2), Refused(3, 2)),
    ];

    #[test]
    fn reserved_words_name_no_event(rt: HostRuntime) -> Result<(), Fail> {
        let heap = rt.alloc();
        let start: &[u8] = b"(event a flexible)\n(rule ";
        for (word, leaf, head) in RESERVED.iter() {
            let file = joined(heap, &[b"(event ", word, b" flexible)\n"])?;
            assert_eq!(rt; judged(&rt, file.as_slice())?, Refused(4, 1));
            let file = joined(heap, &[start, word, b")\n"])?;
            assert_eq!(rt; judged(&rt, file.as_slice())?, *leaf);
            let file = joined(heap, &[start, b"~", word, b")\n"])?;
            assert_eq!(rt; judged(&rt, file.as_slice())?, Refused(4, 2));
            let file = joined(heap, &[start, b"(", word, b" a a))\n"])?;
            assert_eq!(rt; judged(&rt, file.as_slice())?, *head);
        }
        Ok(())
    }

    // The start of a file, a byte that fills it, its end, and what is said of it where it has no more than
    // 16,384 bytes.
    type Filled = (&'static [u8], u8, &'static [u8], Said);

    static FILLED: [Filled; 17] = [
        (b"", 255, b"", Refused(2, 1)),
        (b"", b'\n', b"", Refused(3, 1)),
        (b"", b'(', b"", Refused(3, 1)),
        (b"", b')', b"\n", Refused(3, 1)),
        (b"", b' ', b"", Refused(3, 1)),
        (b"", b'a', b"\n", Refused(3, 1)),
        (b"", b'a', b"\xff", Refused(2, 1)),
        (b"(event ", b'a', b" flexible)\n", Refused(4, 1)),
        (b"(event ", b'a', b" flexible)", Refused(3, 1)),
        (b"(event a flexible)\n", b' ', b"\n", Refused(3, 2)),
        (b"(event a flexible)\n", b'a', b"\xff", Refused(2, 2)),
        (b"(event a flexible)\n(rule ", b'a', b")\n", Refused(4, 2)),
        (b"(event a flexible)\n(rule ", b'~', b"a)\n", Refused(3, 2)),
        (
            b"(event a flexible)\n(rule (alt ",
            b'(',
            b"\n",
            Refused(3, 2),
        ),
        (b"(event a flexible)\n(rule a)\n", b'\n', b"", Refused(3, 3)),
        (
            b"(event a flexible)\n(event a flexible)\n",
            255,
            b"",
            Refused(5, 2),
        ),
        (b"(event a flexible)\n(rule b)\n", 255, b"\n", Refused(6, 2)),
    ];

    // The file of a row that has so many bytes.
    fn filled(heap: Global, row: &Filled, length: usize) -> Result<Vec<u8>, AllocError> {
        let (start, byte, end, _) = *row;
        let mut file = Vec::from_slice(heap, start)?;
        file.resize(length.saturating_sub(end.len()), byte)?;
        file.extend_from_slice(end)?;
        Ok(file)
    }

    fn length_counts(
        rt: &impl Abort,
        heap: Global,
        row: &Filled,
        length: usize,
        number: usize,
    ) -> Result<(), Fail> {
        let file = filled(heap, row, length)?;
        assert_eq!(rt; file.len(), length, "{length} bytes of row {number}");
        let said = if length > 16_384 {
            Refused(1, 0)
        } else {
            row.3
        };
        assert_eq!(rt;
            judged(rt, file.as_slice())?,
            said,
            "{length} bytes of row {number}"
        );
        Ok(())
    }

    #[test]
    fn a_file_has_16384_bytes_at_most(rt: HostRuntime) -> Result<(), Fail> {
        for (number, row) in FILLED.iter().enumerate() {
            for length in [16_383, 16_384, 16_385, 70_000] {
                length_counts(&rt, rt.alloc(), row, length, number)?;
            }
        }
        Ok(())
    }

    // A form with eight members, each the same.
    fn eightfold(heap: Global, member: &[u8]) -> Result<Vec<u8>, AllocError> {
        let mut form = Vec::new(heap);
        form.extend_from_slice(b"(all")?;
        for _ in 0..8 {
            form.push(b' ')?;
            form.extend_from_slice(member)?;
        }
        form.push(b')')?;
        Ok(form)
    }

    // What is said of a rule whose members are nested so deep, eight by eight.
    fn said_of_depth(rt: &impl Abort, heap: Global, depth: u8) -> Result<Said, Fail> {
        let mut form = Vec::from_slice(heap, b"a")?;
        for _ in 0..depth {
            form = eightfold(heap, form.as_slice())?;
        }
        let file = joined(
            heap,
            &[b"(event a flexible)\n(rule ", form.as_slice(), b")\n"],
        )?;
        judged(rt, file.as_slice())
    }

    #[test]
    fn leaves_are_counted_however_many(rt: HostRuntime) -> Result<(), Fail> {
        let heap = rt.alloc();
        assert_eq!(rt; said_of_depth(&rt, heap, 1)?, Taken(1, 1, 8));
        assert_eq!(rt; said_of_depth(&rt, heap, 2)?, Taken(1, 1, 64));
        assert_eq!(rt; said_of_depth(&rt, heap, 3)?, Refused(7, 2));
        assert_eq!(rt; said_of_depth(&rt, heap, 4)?, Refused(7, 2));
        assert_eq!(rt; said_of_depth(&rt, heap, 5)?, Refused(1, 0));
        Ok(())
    }
}
