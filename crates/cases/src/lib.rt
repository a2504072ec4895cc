// The known values of rules and positions, as tests over tables.
#![tactic(auto)]

#[cfg(test)]
mod build;
mod digit;

#[cfg(test)]
mod tests {
    use super::build;
    use super::digit::LastDigit;
    use algebra::Rules;
    use forms::expr_end;
    use report::{left, refusal, settle};
    use sheet::{Status, StatusWord};
    use slots::{Entry, InsertError, Slot, clear, find, insert};
    use std::alloc::Global;
    use std::process::Abort;
    use std::test::Fail;

    // Rules in prefix form (`|` alt, `&` all, `;` seq, `1` yes, `0` no, events a to l, `~` never), a
    // trace, the status word, the met word and the struck word after it, and for each rule `1` if it is
    // fulfilled then.
    type Row = (&'static [u8], &'static [u8], u32, u64, u64, &'static [u8]);

    static ROWS: [Row; 22] = [
        // The plate only after its approval, with the approval as a and the plate as b.
        (b"|~b;ab", b"", 0, 0, 0, b"0"),
        (b"|~b;ab", b"b", 8, 0, 5, b"0"),
        (b"|~b;ab", b"a", 2, 2, 0, b"0"),
        (b"|~b;ab", b"ab", 10, 6, 1, b"1"),
        (b"|~b;ab", b"ba", 10, 2, 5, b"0"),
        (b"|~b;ab", b"~b", 12, 1, 4, b"1"),
        (b"|~b;ab", b"~ab", 11, 0, 7, b"0"),
        // A sequence of one event twice is met by no trace.
        (b";aa", b"a", 2, 1, 2, b"0"),
        // What came too early is struck under both signs.
        (b";a~b", b"b", 8, 0, 2, b"0"),
        (b";a~b", b"~b", 12, 0, 2, b"0"),
        (b";a~b", b"a~b", 14, 3, 0, b"1"),
        // Yes begins met, and no begins struck.
        (b"|10", b"", 0, 1, 2, b"1"),
        (b"&10", b"a", 2, 1, 2, b"0"),
        (b";1a", b"a", 2, 3, 0, b"1"),
        // Both parts of all, in either order.
        (b"&ab", b"ba", 10, 3, 0, b"1"),
        (b"&ab", b"b~a", 11, 2, 1, b"0"),
        // Three in sequence, as pairs to the right.
        (b";a;bc", b"abc", 42, 7, 0, b"1"),
        (b";a;bc", b"acb", 42, 3, 4, b"0"),
        // Rules that share the two words: no a without b, and no b without a.
        (b"|~ab|~ba", b"a", 2, 8, 1, b"01"),
        (b"|~ab|~ba", b"ab", 10, 10, 5, b"11"),
        // No rules at all, and the highest event.
        (b"", b"a~b", 14, 0, 0, b""),
        (b"|l~l", b"~l", 12_582_912, 2, 1, b"1"),
    ];

    fn row_holds(rt: &impl Abort, heap: Global, row: &Row) -> Result<(), Fail> {
        let (rules, trace, status, met, struck, fulfilled) = *row;
        let rules = build::rules(heap, rules)?;
        let trace = build::trace(heap, trace)?;
        let mut word = StatusWord::all_open();
        let mut marks = rules.fresh();
        for literal in trace.literals() {
            word = settle(word, *literal);
            marks = rules.apply(*literal, marks);
        }
        assert_eq!(rt; word.bits, status);
        assert_eq!(rt; marks.met, met);
        assert_eq!(rt; marks.struck, struck);
        assert_eq!(rt; rules.len(), fulfilled.len());
        for number in 0..rules.len() {
            assert_eq!(rt;
                rules.fulfilled_by(number, &trace),
                build::verdict(fulfilled, number)
            );
        }
        assert_eq!(rt; rules.fulfilled_by(rules.len(), &trace), None);
        Ok(())
    }

    #[test]
    fn positions_have_their_numbers(rt: HostRuntime) -> Result<(), Fail> {
        for row in ROWS.iter() {
            row_holds(&rt, rt.alloc(), row)?;
        }
        Ok(())
    }

    // Words over the events approve and plate under one rule, what is printed of them, and what is said
    // of the first that is refused.
    type Told = (&'static [&'static str], &'static str, Option<&'static str>);

    static TOLD: [Told; 6] = [
        (
            &["approve", "plate"],
            "(left approve 2 2 0)\n(left plate 10 6 1)\n(rule 0 fulfilled)\n",
            None,
        ),
        (
            &["plate"],
            "(left plate 8 0 5)\n(rule 0 unfulfilled)\n",
            None,
        ),
        (&[], "(rule 0 unfulfilled)\n", None),
        (
            &["approve", "print"],
            "(left approve 2 2 0)\n",
            Some("line 2: there is no event for 'print'"),
        ),
        (
            &["~plate", "approve", "plate"],
            "(left ~plate 12 1 4)\n(left approve 14 3 4)\n",
            Some("line 3: the event of 'plate' came before"),
        ),
        (
            &["~~plate"],
            "",
            Some("line 1: there is no event for '~~plate'"),
        ),
    ];

    fn told_holds(rt: &impl Abort, heap: Global, told: &Told) -> Result<(), Fail> {
        let (words, printed, refused) = *told;
        let rules = build::rules(heap, b"|~b;ab")?;
        let words = build::words(heap, words)?;
        let report = left(heap, &[b"approve", b"plate"], &rules, words.as_slice())?;
        assert!(rt; report.text.as_str() == printed);
        let said = refusal(heap, report.outcome, words.as_slice())?;
        assert_eq!(rt; said.as_deref(), refused);
        Ok(())
    }

    #[test]
    fn words_are_printed_or_refused(rt: HostRuntime) -> Result<(), Fail> {
        for told in TOLD.iter() {
            told_holds(&rt, rt.alloc(), told)?;
        }
        Ok(())
    }

    fn bits(word: Option<StatusWord>) -> Option<u32> {
        word.map(|word| word.bits)
    }

    #[test]
    fn the_word_has_twelve_events(rt: HostRuntime) -> Result<(), Fail> {
        assert_eq!(rt; bits(StatusWord::try_from(0x100_0000).ok()), None);
        let full = StatusWord::try_from(0xff_ffff).map_err(|_| Fail::new(
            "the largest word is refused",
        ))?;
        assert_eq!(rt; full.bits, 0xff_ffff);
        assert_eq!(rt; full.get(11).map(u8::from), Some(3));
        assert_eq!(rt; full.get(12), None);
        assert_eq!(rt; bits(full.with(0, Status::Open)), Some(0xff_fffc));
        assert_eq!(rt; bits(full.with(11, Status::Waiting)), Some(0x7f_ffff));
        assert_eq!(rt; bits(full.with(12, Status::Open)), None);
        Ok(())
    }

    #[test]
    fn leaves_number_on_to_63(rt: HostRuntime) -> Result<(), Fail> {
        let heap = rt.alloc();
        let mut rules = Rules::new(heap);
        for number in 0..64u8 {
            assert!(rt; rules.push(build::yes(number)?).is_ok());
        }
        assert_eq!(rt; rules.len(), 64);
        assert!(rt; rules.push(build::yes(63)?).is_err());
        assert_eq!(rt; rules.len(), 64);
        assert!(rt; rules.get(63).is_some());
        assert!(rt; rules.get(64).is_none());
        assert!(rt; build::yes(64).is_err());
        Ok(())
    }

    fn digit(number: u32) -> LastDigit {
        LastDigit { number }
    }

    fn taken(key: LastDigit, value: u32) -> Slot<LastDigit> {
        Some(Entry { key, value })
    }

    #[test]
    fn keys_are_inserted_once_and_found(rt: HostRuntime) {
        let mut slots = [taken(digit(7), 9), None, taken(digit(8), 9)];
        clear(&mut slots);
        assert_eq!(rt; find(&slots, &digit(7)), None);
        assert_eq!(rt; insert(&mut slots, digit(7), 1), Ok(()));
        assert_eq!(rt; insert(&mut slots, digit(9), 2), Ok(()));
        assert_eq!(rt;
            insert(&mut slots, digit(17), 3),
            Err(InsertError::Present(1))
        );
        assert_eq!(rt; insert(&mut slots, digit(4), 4), Ok(()));
        assert_eq!(rt; insert(&mut slots, digit(5), 5), Err(InsertError::Full));
        assert_eq!(rt; find(&slots, &digit(27)), Some(1));
        assert_eq!(rt; find(&slots, &digit(39)), Some(2));
        assert_eq!(rt; find(&slots, &digit(14)), Some(4));
        assert_eq!(rt; find(&slots, &digit(15)), None);
    }

    #[test]
    fn no_slots_are_full(rt: HostRuntime) {
        let mut slots: [Slot<LastDigit>; 0] = [];
        clear(&mut slots);
        assert_eq!(rt; insert(&mut slots, digit(1), 1), Err(InsertError::Full));
        assert_eq!(rt; find(&slots, &digit(1)), None);
    }

    // Texts, and where the expression at their start ends; absent where there is none.
    static EXPRESSIONS: [(&'static [u8], Option<usize>); 20] = [
        (b"a", Some(1)),
        (b"a-1 b", Some(3)),
        (b"~plate)", Some(6)),
        (b"1a", Some(2)),
        (b"(alt a ~b)", Some(10)),
        (b"(seq a (all b c) d) e", Some(19)),
        (b"(all a b c d e f g h)", Some(21)),
        (b"(all a b c d e f g h i)", None),
        (b"(alt a)", None),
        (b"(alt)", None),
        (b"(any a b)", None),
        (b"(alt  a b)", None),
        (b"( alt a b)", None),
        (b"(alt a b )", None),
        (b"(alt a b", None),
        (b"~", None),
        (b"~~a", None),
        (b"", None),
        (
            b"(alt a (alt a (alt a (alt a (alt a (alt a (alt a (alt a a))))))))",
            Some(65),
        ),
        (
            b"(alt a (alt a (alt a (alt a (alt a (alt a (alt a (alt a (alt a a)))))))))",
            None,
        ),
    ];

    #[test]
    fn expressions_end_where_they_end(rt: HostRuntime) {
        for (text, end) in EXPRESSIONS.iter() {
            assert_eq!(rt; expr_end(text, 0, true).ok(), *end);
        }
    }
}
