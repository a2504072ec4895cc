// Small files, and what is said of them.

mod tests {
    use crate::said::Said::{Refused, Taken};
    use crate::said::{Said, judged};
    use std::process::Abort;
    use std::test::Fail;

    type Row = (&'static [u8], Said);

    static FLOWS: [Row; 26] = [
        // Files of flows.
        (b"(event a flexible)\n", Taken(1, 0, 0)),
        (
            b"(event a inevitable)\n(event b immediate)\n",
            Taken(2, 0, 0),
        ),
        (
            b"(event a flexible forcible)\n(event b inevitable forcible)\n(event c immediate forcible)\n",
            Taken(3, 0, 0),
        ),
        (b"(event a flexible)\n(rule a)\n", Taken(1, 1, 1)),
        (
            b"(event a flexible)\n(rule ~a)\n(rule yes)\n(rule no)\n",
            Taken(1, 3, 3),
        ),
        (
            b"(event approve flexible)\n(event plate immediate forcible)\n(rule (alt ~plate (seq approve plate)))\n",
            Taken(2, 1, 3),
        ),
        (
            b"(event a-1 flexible)\n(event b flexible)\n(rule (all a-1 ~b yes no))\n(rule a-1)\n",
            Taken(2, 2, 5),
        ),
        (
            b"(event a flexible)\n(event aa flexible)\n(event a-a flexible)\n(event a- flexible)\n(event a9 flexible)\n",
            Taken(5, 0, 0),
        ),
        (
            b"(event events flexible)\n(event rule-1 flexible)\n(event al flexible)\n(rule (all events (seq rule-1 al)))\n",
            Taken(3, 1, 3),
        ),
        (
            b"(event abcdefghijklmnop flexible)\n(event a234567890123456 flexible)\n(rule (alt abcdefghijklmnop ~a234567890123456))\n",
            Taken(2, 1, 2),
        ),
        (
            b"(event a flexible)\n(rule (seq a a))\n(rule (alt yes no))\n",
            Taken(1, 2, 4),
        ),
        (
            b"(event a flexible)\n(event b flexible)\n(event c flexible)\n(event d flexible)\n(rule (seq a (all b c) d))\n",
            Taken(4, 1, 4),
        ),
        (
            b"(event a flexible)\n(event b flexible)\n(rule (alt (all a b) (seq b a)))\n",
            Taken(2, 1, 4),
        ),
        // The number of members, and the depth of heads.
        (b"(event a flexible)\n(rule (all a a))\n", Taken(1, 1, 2)),
        (
            b"(event a flexible)\n(rule (all a a a a a a a a))\n",
            Taken(1, 1, 8),
        ),
        (
            b"(event a flexible)\n(rule (all a a a a a a a a a))\n",
            Refused(3, 2),
        ),
        (
            b"(event a flexible)\n(rule (all a (seq a a a a a a a a a)))\n",
            Refused(3, 2),
        ),
        (b"(event a flexible)\n(rule (all a))\n", Refused(3, 2)),
        (
            b"(event a flexible)\n(rule (all (seq a a)))\n",
            Refused(3, 2),
        ),
        (
            b"(event a flexible)\n(rule (all a (seq a)))\n",
            Refused(3, 2),
        ),
        (b"(event a flexible)\n(rule (all))\n", Refused(3, 2)),
        (
            b"(event a flexible)\n(rule (alt a (alt a (alt a (alt a (alt a (alt a (alt a (alt a a)))))))))\n",
            Taken(1, 1, 9),
        ),
        (
            b"(event a flexible)\n(rule (alt a (alt a (alt a (alt a (alt a (alt a (alt a (alt a (alt a a))))))))))\n",
            Refused(3, 2),
        ),
        (
            b"(event a flexible)\n(rule (seq (seq (seq (seq (seq (seq (seq (seq a a) a) a) a) a) a) a) a))\n",
            Taken(1, 1, 9),
        ),
        (
            b"(event a flexible)\n(rule (seq (seq (seq (seq (seq (seq (seq (seq (seq a a) a) a) a) a) a) a) a) a))\n",
            Refused(3, 2),
        ),
        (
            b"(event a flexible)\n(rule (all (all a a a a a a a a) (all a a a a a a a a) (all a a a a a a a a) (all a a a a a a a a) (all a a a a a a a a) (all a a a a a a a a) (all a a a a a a a a) (all a a a a a a a a)))\n",
            Taken(1, 1, 64),
        ),
    ];

    static BYTES: [Row; 12] = [
        // Bytes that stand in no flow file, on each line.
        (b"(event A flexible)\n", Refused(2, 1)),
        (b"(Event a flexible)\n", Refused(2, 1)),
        (b"(event\ta flexible)\n", Refused(2, 1)),
        (b"(event a flexible)\r\n", Refused(2, 1)),
        (b"\0\n", Refused(2, 1)),
        (b"\xff", Refused(2, 1)),
        (b"(event a_b flexible)\n", Refused(2, 1)),
        (b"(event a flexible)\n\xc3\xa9\n", Refused(2, 2)),
        (b"(event a flexible)\n(rule (alt a, a))\n", Refused(2, 2)),
        (b"(event a flexible)\n(rule a)\n; a\n", Refused(2, 3)),
        (
            b"(event a flexible)\n(event b flexible)\n(rule a)\n(rule a+b)\n",
            Refused(2, 4),
        ),
        (b"(event a flexible)\n(rule a)\n\x7f", Refused(2, 3)),
    ];

    static EVENTS: [Row; 38] = [
        // Event lines that are no forms.
        (b"", Refused(3, 1)),
        (b"\n", Refused(3, 1)),
        (b"\n\n", Refused(3, 1)),
        (b" \n", Refused(3, 1)),
        (b"(\n", Refused(3, 1)),
        (b")\n", Refused(3, 1)),
        (b"()\n", Refused(3, 1)),
        (b"a\n", Refused(3, 1)),
        (b"~a\n", Refused(3, 1)),
        (b"(a)\n", Refused(3, 1)),
        (b"(event)\n", Refused(3, 1)),
        (b"(event a)\n", Refused(3, 1)),
        (b"(event flexible)\n", Refused(3, 1)),
        (b"event a flexible\n", Refused(3, 1)),
        (b"(event a flexible\n", Refused(3, 1)),
        (b"(event a flexible))\n", Refused(3, 1)),
        (b"((event a flexible))\n", Refused(3, 1)),
        (b"(events a flexible)\n", Refused(3, 1)),
        (b"(flexible a event)\n", Refused(3, 1)),
        (b"(event a b flexible)\n", Refused(3, 1)),
        (b"(event a flexibl)\n", Refused(3, 1)),
        (b"(event a flexibles)\n", Refused(3, 1)),
        (b"(event a yes)\n", Refused(3, 1)),
        (b"(event a forcible)\n", Refused(3, 1)),
        (b"(event a forcible flexible)\n", Refused(3, 1)),
        (b"(event a flexible immediate)\n", Refused(3, 1)),
        (b"(event a flexible forcible forcible)\n", Refused(3, 1)),
        (b"(event a flexible ~forcible)\n", Refused(3, 1)),
        (b"(event a ~flexible)\n", Refused(3, 1)),
        (b"(event ~a flexible)\n", Refused(3, 1)),
        (b"(~event a flexible)\n", Refused(3, 1)),
        (b"~(event a flexible)\n", Refused(3, 1)),
        (b"(event (a) flexible)\n", Refused(3, 1)),
        (b"(event a (flexible))\n", Refused(3, 1)),
        (b"(event a flexible) (event b flexible)\n", Refused(3, 1)),
        (b"(event a flexible)(event b flexible)\n", Refused(3, 1)),
        (b"(event a flexible)\n(event b)\n", Refused(3, 2)),
        (
            b"(event a flexible)\n(event b flexible)\n(event c forcible)\n",
            Refused(3, 3),
        ),
    ];

    static SPACES: [Row; 24] = [
        // Spaces that are wanting or too many.
        (b" (event a flexible)\n", Refused(3, 1)),
        (b"( event a flexible)\n", Refused(3, 1)),
        (b"(event  a flexible)\n", Refused(3, 1)),
        (b"(event a  flexible)\n", Refused(3, 1)),
        (b"(event a flexible )\n", Refused(3, 1)),
        (b"(event a flexible) \n", Refused(3, 1)),
        (b"(event a flexible  forcible)\n", Refused(3, 1)),
        (b"(event a flexible forcible )\n", Refused(3, 1)),
        (b"(eventa flexible)\n", Refused(3, 1)),
        (b"(event a flexibleforcible)\n", Refused(3, 1)),
        (b"(event a flexible)\n(rule  a)\n", Refused(3, 2)),
        (b"(event a flexible)\n(rule a )\n", Refused(3, 2)),
        (b"(event a flexible)\n( rule a)\n", Refused(3, 2)),
        (b"(event a flexible)\n(rule (alt  a a))\n", Refused(3, 2)),
        (b"(event a flexible)\n(rule ( alt a a))\n", Refused(3, 2)),
        (b"(event a flexible)\n(rule (alt a a ))\n", Refused(3, 2)),
        (b"(event a flexible)\n(rule (alt a a) )\n", Refused(3, 2)),
        (b"(event a flexible)\n(rule(alt a a))\n", Refused(3, 2)),
        (
            b"(event a flexible)\n(rule (alt(all a a) a))\n",
            Refused(3, 2),
        ),
        (
            b"(event a flexible)\n(rule (alt a(all a a)))\n",
            Refused(3, 2),
        ),
        (
            b"(event a flexible)\n(rule (alt (all a a)a))\n",
            Refused(3, 2),
        ),
        (
            b"(event a flexible)\n(rule (alt (all a a)(all a a)))\n",
            Refused(3, 2),
        ),
        (b"(event a flexible)\n(rule~a)\n", Refused(3, 2)),
        (b"(event a flexible)\n(rule (alt a~a a))\n", Refused(3, 2)),
    ];

    static RULES: [Row; 24] = [
        // Rule lines that are no forms.
        (b"(event a flexible)\n(rule)\n", Refused(3, 2)),
        (b"(event a flexible)\n(rules a)\n", Refused(3, 2)),
        (b"(event a flexible)\n(rule a a)\n", Refused(3, 2)),
        (b"(event a flexible)\n(rule (a))\n", Refused(3, 2)),
        (b"(event a flexible)\n(rule ())\n", Refused(3, 2)),
        (b"(event a flexible)\n(rule (a a a))\n", Refused(3, 2)),
        (b"(event a flexible)\n(rule (any a a))\n", Refused(3, 2)),
        (b"(event a flexible)\n(rule (yes a a))\n", Refused(3, 2)),
        (b"(event a flexible)\n(rule (rule a a))\n", Refused(3, 2)),
        (b"(event a flexible)\n(rule (~alt a a))\n", Refused(3, 2)),
        (b"(event a flexible)\n(rule ((alt a a) a))\n", Refused(3, 2)),
        (b"(event a flexible)\n(rule alt a a)\n", Refused(3, 2)),
        (b"(event a flexible)\n(rule (alt a a)\n", Refused(3, 2)),
        (b"(event a flexible)\n(rule (alt a a)))\n", Refused(3, 2)),
        (
            b"(event a flexible)\n(rule (alt a (all a a))\n",
            Refused(3, 2),
        ),
        (b"(event a flexible)\n(rule ~)\n", Refused(3, 2)),
        (b"(event a flexible)\n(rule ~~a)\n", Refused(3, 2)),
        (b"(event a flexible)\n(rule ~ a)\n", Refused(3, 2)),
        (b"(event a flexible)\n(rule a~)\n", Refused(3, 2)),
        (b"(event a flexible)\n(rule ~(alt a a))\n", Refused(3, 2)),
        (b"(event a flexible)\n(rule (alt ~ a a))\n", Refused(3, 2)),
        (b"(event a flexible)\n(rule (alt a ~))\n", Refused(3, 2)),
        (
            b"(event a flexible)\n(event b flexible)\n(rule (alt a b)\n",
            Refused(3, 3),
        ),
        (
            b"(event a flexible)\n(event b flexible)\n(rule a)\n(rule (seq a))\n(rule b)\n",
            Refused(3, 4),
        ),
    ];

    static PLACES: [Row; 21] = [
        // Lines that may not come there: a rule first, an event behind a rule, an empty line.
        (b"(rule a)\n", Refused(3, 1)),
        (b"(rule yes)\n", Refused(3, 1)),
        (b"(rule a)\n(event a flexible)\n", Refused(3, 1)),
        (
            b"(event a flexible)\n(rule a)\n(event b flexible)\n",
            Refused(3, 3),
        ),
        (
            b"(event a flexible)\n(rule a)\n(event a flexible)\n",
            Refused(3, 3),
        ),
        (
            b"(event a flexible)\n(rule a)\n(rule a)\n(event b flexible)\n(rule b)\n",
            Refused(3, 4),
        ),
        (b"\n(event a flexible)\n", Refused(3, 1)),
        (b"(event a flexible)\n\n", Refused(3, 2)),
        (b"(event a flexible)\n\n(event b flexible)\n", Refused(3, 2)),
        (
            b"(event a flexible)\n(event b flexible)\n(rule a)\n\n(rule b)\n",
            Refused(3, 4),
        ),
        (b"(event a flexible)\n(rule a)\n\n", Refused(3, 3)),
        // A last line that no line feed ends.
        (b"(event a flexible)", Refused(3, 1)),
        (b"(event yes flexible)", Refused(3, 1)),
        (b"(event A flexible)", Refused(2, 1)),
        (b"(event a flexible", Refused(3, 1)),
        (b"(event a flexible)\n(event a flexible)", Refused(3, 2)),
        (b"(event a flexible)\n(rule a)", Refused(3, 2)),
        (b"(event a flexible)\n(rule b)", Refused(3, 2)),
        (b"(event a flexible)\n(rule 1)", Refused(3, 2)),
        (b"(event a flexible)\n(rule A)", Refused(2, 2)),
        (b"(event a flexible)\n(rule a)\n ", Refused(3, 3)),
    ];

    static NAMES: [Row; 46] = [
        // Names that are none.
        (b"(event event flexible)\n", Refused(4, 1)),
        (b"(event rule flexible)\n", Refused(4, 1)),
        (b"(event alt flexible)\n", Refused(4, 1)),
        (b"(event all flexible)\n", Refused(4, 1)),
        (b"(event seq flexible)\n", Refused(4, 1)),
        (b"(event yes flexible)\n", Refused(4, 1)),
        (b"(event no flexible)\n", Refused(4, 1)),
        (b"(event flexible flexible)\n", Refused(4, 1)),
        (b"(event inevitable flexible)\n", Refused(4, 1)),
        (b"(event immediate flexible)\n", Refused(4, 1)),
        (b"(event forcible flexible)\n", Refused(4, 1)),
        (b"(event forcible flexible forcible)\n", Refused(4, 1)),
        (b"(event abcdefghijklmnopq flexible)\n", Refused(4, 1)),
        (b"(event 1 flexible)\n", Refused(4, 1)),
        (b"(event 1a flexible)\n", Refused(4, 1)),
        (b"(event - flexible)\n", Refused(4, 1)),
        (b"(event -a flexible)\n", Refused(4, 1)),
        (b"(event a flexible)\n(event 9-9 flexible)\n", Refused(4, 2)),
        (
            b"(event a flexible)\n(event b flexible)\n(event seq flexible)\n",
            Refused(4, 3),
        ),
        (b"(event a flexible)\n(rule ~yes)\n", Refused(4, 2)),
        (b"(event a flexible)\n(rule ~no)\n", Refused(4, 2)),
        (b"(event a flexible)\n(rule alt)\n", Refused(4, 2)),
        (b"(event a flexible)\n(rule ~all)\n", Refused(4, 2)),
        (b"(event a flexible)\n(rule rule)\n", Refused(4, 2)),
        (b"(event a flexible)\n(rule (alt seq a))\n", Refused(4, 2)),
        (
            b"(event a flexible)\n(rule (alt a (all a forcible)))\n",
            Refused(4, 2),
        ),
        (b"(event a flexible)\n(rule 1a)\n", Refused(4, 2)),
        (b"(event a flexible)\n(rule ~-a)\n", Refused(4, 2)),
        (
            b"(event a flexible)\n(rule abcdefghijklmnopq)\n",
            Refused(4, 2),
        ),
        (
            b"(event a flexible)\n(event b flexible)\n(rule (all ~yes b))\n",
            Refused(4, 3),
        ),
        (
            b"(event a flexible)\n(event b flexible)\n(rule (all a b))\n(rule (seq 0 a))\n",
            Refused(4, 4),
        ),
        // Events that are declared twice.
        (b"(event a flexible)\n(event a flexible)\n", Refused(5, 2)),
        (
            b"(event a flexible)\n(event a immediate forcible)\n",
            Refused(5, 2),
        ),
        (
            b"(event a flexible)\n(event b flexible)\n(event a flexible)\n",
            Refused(5, 3),
        ),
        (
            b"(event a flexible)\n(event b flexible)\n(event b flexible)\n",
            Refused(5, 3),
        ),
        (
            b"(event a flexible)\n(event b flexible)\n(event c flexible)\n(event a flexible)\n(rule a)\n",
            Refused(5, 4),
        ),
        (
            b"(event abcdefghijklmnop flexible)\n(event abcdefghijklmnop flexible)\n",
            Refused(5, 2),
        ),
        // Names that are not declared above.
        (b"(event a flexible)\n(rule b)\n", Refused(6, 2)),
        (b"(event a flexible)\n(rule ~b)\n", Refused(6, 2)),
        (b"(event a flexible)\n(rule (alt a b))\n", Refused(6, 2)),
        (
            b"(event a flexible)\n(rule (all a (seq yes ~b)))\n",
            Refused(6, 2),
        ),
        (b"(event ab flexible)\n(rule a)\n", Refused(6, 2)),
        (b"(event ab flexible)\n(rule abc)\n", Refused(6, 2)),
        (b"(event a flexible)\n(rule a)\n(rule b)\n", Refused(6, 3)),
        (
            b"(event a flexible)\n(event b flexible)\n(rule c)\n",
            Refused(6, 3),
        ),
        (
            b"(event a flexible)\n(event b flexible)\n(rule a)\n(rule (seq b c))\n",
            Refused(6, 4),
        ),
    ];

    static SEVERAL: [Row; 27] = [
        // Leaf 65.
        (
            b"(event a flexible)\n(rule (all (all a a a a a a a a) (all a a a a a a a a) (all a a a a a a a a) (all a a a a a a a a) (all a a a a a a a a) (all a a a a a a a a) (all a a a a a a a a) (all a a a a a a a (seq a a))))\n",
            Refused(7, 2),
        ),
        (
            b"(event a flexible)\n(rule (all (all a a a a a a a a) (all a a a a a a a a) (all a a a a a a a a) (all a a a a a a a a) (all a a a a a a a a) (all a a a a a a a a) (all a a a a a a a a) (all a a a a a a a a)))\n(rule a)\n",
            Refused(7, 3),
        ),
        (
            b"(event a flexible)\n(event b flexible)\n(rule (all (all a a a a a a a a) (all a a a a a a a a) (all a a a a a a a a) (all a a a a a a a a) (all a a a a a a a a) (all a a a a a a a a) (all a a a a a a a a) (all a a a a a a a a)))\n(rule yes)\n",
            Refused(7, 4),
        ),
        // Two faults on one line: the lowest number counts.
        (b"(event A)\n", Refused(2, 1)),
        (b"(event yes Flexible)\n", Refused(2, 1)),
        (b"(event a flexible)\n(event a flexible)!\n", Refused(2, 2)),
        (b"(event a flexible)\n(rule (alt b C))\n", Refused(2, 2)),
        (b"(event a flexible)\n(rule (alt a\t))\n", Refused(2, 2)),
        (b"(event yes flexible\n", Refused(3, 1)),
        (b"(event 1 flexible )\n", Refused(3, 1)),
        (b"(event a flexible)\n(rule (alt 1a))\n", Refused(3, 2)),
        (b"(event a flexible)\n(event a flexible \n", Refused(3, 2)),
        (b"(event a flexible)\n(rule (any b b))\n", Refused(3, 2)),
        (b"(event a flexible)\n(rule (alt b 1))\n", Refused(4, 2)),
        (b"(event a flexible)\n(rule (alt 1 b))\n", Refused(4, 2)),
        (b"(event a flexible)\n(rule (alt b ~yes))\n", Refused(4, 2)),
        (
            b"(event a flexible)\n(rule (all (all a a a a a a a a) (all a a a a a a a a) (all a a a a a a a a) (all a a a a a a a a) (all a a a a a a a a) (all a a a a a a a a) (all a a a a a a a a) (all a a a a a a a a)))\n(rule b)\n",
            Refused(6, 3),
        ),
        (
            b"(event a flexible)\n(rule (all (all a a a a a a a a) (all a a a a a a a a) (all a a a a a a a a) (all a a a a a a a a) (all a a a a a a a a) (all a a a a a a a a) (all a a a a a a a a) (all a a a a a a a a)))\n(rule ~no)\n",
            Refused(4, 3),
        ),
        // Faults on two lines: the first line counts.
        (b"(event yes flexible)\n(event A flexible)\n", Refused(4, 1)),
        (
            b"(event a flexible)\n(event yes flexible)\n(event yes flexible)\n",
            Refused(4, 2),
        ),
        (
            b"(event a flexible)\n(event a flexible)\n(rule A)\n",
            Refused(5, 2),
        ),
        (b"(event a flexible)\n(rule b)\n\n", Refused(6, 2)),
        (b"(event a flexible)\n(rule b)\n(rule A)", Refused(6, 2)),
        (b"(event a flexible)\n(rule a a)\n(rule A)\n", Refused(3, 2)),
        (b"\n\t\n", Refused(3, 1)),
        (
            b"(event a flexible)\n(rule (all (all a a a a a a a a) (all a a a a a a a a) (all a a a a a a a a) (all a a a a a a a a) (all a a a a a a a a) (all a a a a a a a a) (all a a a a a a a a) (all a a a a a a a a)))\n(rule a)\n(event A",
            Refused(7, 3),
        ),
        (b"(event a flexible)\n(rule c)\n(rule 1)\n", Refused(6, 2)),
    ];

    fn hold(rt: &impl Abort, table: &str, rows: &[Row]) -> Result<(), Fail> {
        for (row, (file, said)) in rows.iter().enumerate() {
            assert_eq!(rt; judged(rt, file)?, *said, "row {row} of {table}");
        }
        Ok(())
    }

    #[test]
    fn small_files_are_judged(rt: HostRuntime) -> Result<(), Fail> {
        hold(&rt, "FLOWS", &FLOWS)?;
        hold(&rt, "BYTES", &BYTES)?;
        hold(&rt, "EVENTS", &EVENTS)?;
        hold(&rt, "SPACES", &SPACES)?;
        hold(&rt, "RULES", &RULES)?;
        hold(&rt, "PLACES", &PLACES)?;
        hold(&rt, "NAMES", &NAMES)?;
        hold(&rt, "SEVERAL", &SEVERAL)
    }
}
