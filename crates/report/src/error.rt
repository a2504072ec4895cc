// Words that are refused.
ghost use Rattle.std.specs.Prelude.{◌≡◌, ◌+◌, [], map, IfOk, string_bytes, slice_index_or};
ghost use Rattle.std.specs.Option.{option_map};
ghost use Rattle.report.specs.Refusals.{refusal_of};

use std::alloc::{AllocError, Global};

// Why not all of a list of words was read as literals: the number of the first that is refused, counted
// from 0 and below the number of words.
#[derive(Clone, Copy, Debug, PartialEq, Eq)]
pub enum WordError {
    // The word is no literal.
    Unknown(usize),
    // The event of the word came before.
    Twice(usize),
}

// What is said to people where not all words were read: the line of the first that was not, counted
// from 1, and why; absent where all were read.
pub fn refusal(
    heap: Global,
    outcome: Result<(), WordError>,
    words: &[String],
) -> Result<Option<String>, AllocError>
    ensures { IfOk result (λ m. option_map string_bytes m ≡ refusal_of (map string_bytes words.now) outcome) }
{
    match outcome {
        Ok(()) => Ok(None),
        Err(WordError::Unknown(number)) => {
            let line = line_of(number);
            let word = word_at(words, number);
            Ok(Some(format!(in heap; "line {line}: there is no event for '{word}'")?))
        }
        Err(WordError::Twice(number)) => {
            let line = line_of(number);
            let word = word_at(words, number);
            Ok(Some(format!(in heap; "line {line}: the event of '{word}' came before")?))
        }
    }
}

// The line of the word of a number.
fn line_of(number: usize) -> u128
    ensures { result ≡ number + 1 }
{
    number as u128 + 1
}

// The word of a number; empty past the last.
pub fn word_at(words: &[String], number: usize) -> &str
    ensures { result.now ≡ slice_index_or (map string_bytes words.now) number [] }
{
    match words.get(number) {
        Some(word) => word.as_str(),
        None => "",
    }
}
