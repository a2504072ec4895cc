// What is printed of flow files, of words over the flow of an approval and a plate, and what is said of
// what is refused.

mod tests {
    use flow::Flow;
    use outcomes::{checked, explain_file, explain_words, left, refused};
    use std::alloc::{AllocError, Global};
    use std::process::Abort;
    use std::test::Fail;

    // The words, what is printed of them, and what is said of the first that is refused.
    type Told = (&'static [&'static str], &'static str, Option<&'static str>);

    static PLATE: [u8; 90] =
        *b"(event approve inevitable)\n(event plate flexible)\n(rule (alt ~plate (seq approve plate)))\n";

    static TOLD: [Told; 6] = [
        (
            &["approve", "plate"],
            "(left 2 2 0)\n(left 10 6 1)\n(rule 0 fulfilled)\n",
            None,
        ),
        (&["plate"], "(left 8 0 5)\n(rule 0 unfulfilled)\n", None),
        (&[], "(rule 0 unfulfilled)\n", None),
        (
            &["approve", "print"],
            "(left 2 2 0)\n(refused print)\n",
            Some("the flow has no event for 'print'"),
        ),
        (
            &["~plate", "approve", "plate"],
            "(left 12 1 4)\n(left 14 3 4)\n(refused plate)\n",
            Some("the event of 'plate' came before"),
        ),
        (
            &["~~plate"],
            "(refused ~~plate)\n",
            Some("the flow has no event for '~~plate'"),
        ),
    ];

    fn words_of(heap: Global, texts: &[&str]) -> Result<Vec<String>, AllocError> {
        texts
            .iter()
            .map(|text| String::from_str(heap, text))
            .try_collect(heap)
    }

    fn told_holds(rt: &impl Abort, heap: Global, told: &Told) -> Result<(), Fail> {
        let (words, printed, refused) = *told;
        let mut flow = Flow::new(heap);
        assert!(rt; flow.read(heap, PLATE.as_slice()).is_ok());
        let words = words_of(heap, words)?;
        let report = left(heap, &flow, words.as_slice())?;
        assert!(rt; report.text.as_str() == printed);
        let said = explain_words(heap, report.outcome, words.as_slice())?;
        assert_eq!(rt; said.as_deref(), refused);
        Ok(())
    }

    #[test]
    fn words_are_printed_or_refused(rt: HostRuntime) -> Result<(), Fail> {
        for told in TOLD.iter() {
            told_holds(&rt, rt.alloc(), told)?;
        }
        Ok(())
    }

    // A file, what is printed of it, and what is said of it if it is refused.
    type Checked = (&'static [u8], &'static str, Option<&'static str>);

    static CHECKED: [Checked; 5] = [
        (
            b"(event approve inevitable)\n(event plate flexible)\n(rule (alt ~plate (seq approve plate)))\n",
            "(flow 2 1 3)\n",
            None,
        ),
        (
            b"(event Plate flexible)\n",
            "(refused 2 1 bytes)\n",
            Some("line 1: it has a byte that stands in no flow file: (event Plate flexible)"),
        ),
        (
            b"(event plate)\n",
            "(refused 3 1 forms)\n",
            Some(
                "line 1: it has not the form of an event or a rule that may come there: (event plate)",
            ),
        ),
        (
            b"(event plate flexible)\n(rule approve)\n",
            "(refused 6 2 flow)\n",
            Some("line 2: a name in it is not declared above: (rule approve)"),
        ),
        (
            b"(event \xff flexible)\n",
            "(refused 2 1 bytes)\n",
            Some("line 1: it has a byte that stands in no flow file: (event ? flexible)"),
        ),
    ];

    fn checked_holds(
        rt: &impl Abort,
        heap: Global,
        file: &[u8],
        printed: &str,
        said: Option<&str>,
    ) -> Result<(), Fail> {
        let outcome = accept::check(file);
        assert!(rt; checked(heap, outcome)?.as_str() == printed);
        let Err(refusal) = outcome else {
            assert!(rt; said.is_none());
            return Ok(());
        };
        assert!(rt; refused(heap, refusal)?.as_str() == printed);
        assert_eq!(rt; Some(explain_file(heap, refusal, file)?.as_str()), said);
        Ok(())
    }

    #[test]
    fn files_are_told(rt: HostRuntime) -> Result<(), Fail> {
        for (file, printed, said) in CHECKED.iter() {
            checked_holds(&rt, rt.alloc(), file, printed, *said)?;
        }
        let long = vec![in rt.alloc(); b'a'; 16_385]?;
        checked_holds(
            &rt,
            rt.alloc(),
            long.as_slice(),
            "(refused 1 0 flow)\n",
            Some("the flow file is longer than 16384 bytes"),
        )
    }
}
