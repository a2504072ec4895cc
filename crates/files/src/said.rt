// What is said of a file.
use Said::{Refused, Taken};
use refusals::{Reader, Refusal};
use std::process::Abort;
use std::test::Fail;

#[derive(Clone, Copy, PartialEq, Eq, Debug)]
pub enum Said {
    // It is a flow's, with so many events, rules and leaves.
    Taken(usize, usize, usize),
    // It is refused, with this number, at this line.
    Refused(u8, usize),
}

// Whether a reader is the one that finds faults of a number.
fn is_reader_of(reader: Reader, number: u8) -> bool {
    match reader {
        Reader::Bytes => number == 2,
        Reader::Forms => number == 3,
        Reader::Flow => matches!(number, 1 | 4..=7),
    }
}

// The word of the reader that finds faults of a number.
fn word_of(number: u8) -> &'static str {
    match number {
        2 => "bytes",
        3 => "forms",
        _ => "flow",
    }
}

fn reader_fits(rt: &impl Abort, refusal: Refusal) {
    let number = refusal.number();
    assert!(rt; is_reader_of(refusal.reader(), number));
    assert!(rt; refusal.reader().text() == word_of(number));
}

// What `accept::check` says of a file. The reader that it names has to be that of the number.
pub fn judged(rt: &impl Abort, file: &[u8]) -> Result<Said, Fail> {
    match accept::check(file) {
        Ok(summary) => Ok(Taken(
            usize::from(summary.events),
            usize::from(summary.rules),
            usize::from(summary.leaves),
        )),
        Err(refusal) => {
            reader_fits(rt, refusal);
            Ok(Refused(refusal.number(), refusal.line()))
        }
    }
}
