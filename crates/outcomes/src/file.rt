// What is said of a flow file.
ghost use Rattle.std.specs.Prelude.{◌≡◌, map, IfOk, string_bytes};
ghost use Rattle.refusals.specs.Refusals.{reader_text};
ghost use Rattle.outcomes.specs.Files.{refusal_line, refused_line, checked_line, visible, line_text, explained};

use refusals::{Reader, Refusal, Summary};
use std::alloc::{AllocError, Global};

// The line of a flow file that is refused.
pub fn refused(heap: Global, refusal: Refusal) -> Result<String, AllocError>
    ensures { IfOk result (λ s. string_bytes s ≡ refused_line refusal) }
{
    refusal_line(heap, refusal.number(), refusal.line(), refusal.reader())
}

// The line of a refusal: its number, its line and its reader's word.
fn refusal_line(heap: Global, number: u8, line: usize, reader: Reader) -> Result<String, AllocError>
    ensures { IfOk result (λ s. string_bytes s ≡ refusal_line number line (reader_text reader)) }
{
    format!(in heap; "(refused {number} {line} {reader})\n")
}

// The line of a flow file that was checked: what it declares and states, or why it is refused.
pub fn checked(heap: Global, outcome: Result<Summary, Refusal>) -> Result<String, AllocError>
    ensures { IfOk result (λ s. string_bytes s ≡ checked_line outcome) }
{
    match outcome {
        Ok(summary) => {
            let events = summary.events;
            let rules = summary.rules;
            let leaves = summary.leaves;
            format!(in heap; "(flow {events} {rules} {leaves})\n")
        }
        Err(refusal) => refused(heap, refusal),
    }
}

// What is said to people of a flow file that is refused: why, and the text of the line.
pub fn explain_file(heap: Global, refusal: Refusal, file: &[u8]) -> Result<String, AllocError>
    ensures { IfOk result (λ s. string_bytes s ≡ explained file.now refusal) }
{
    match refusal {
        Refusal::TooLong => String::from_str(heap, "the flow file is longer than 16384 bytes"),
        Refusal::Line(line, fault) => {
            let text = shown_line(heap, file, line.saturating_sub(1))?;
            let text = text.as_str();
            format!(in heap; "line {line}: {fault}: {text}")
        }
    }
}

// The text of a line of a file, counted from 0, as it is shown; empty past the last line.
fn shown_line(heap: Global, file: &[u8], number: usize) -> Result<String, AllocError>
    ensures { IfOk result (λ s. string_bytes s ≡ map visible (line_text number file.now)) }
{
    let mut text = String::new(heap);
    for byte in line_at(file, number) {
        text.push(shown(*byte))?;
    }
    Ok(text)
}

// The bytes of a line of a file, counted from 0, without its line feed; empty past the last line.
fn line_at(file: &[u8], number: usize) -> &[u8]
    ensures { result.now ≡ line_text number file.now }
{
    file.split(|byte| *byte == b'\n').nth(number).unwrap_or(b"")
}

// A byte as it is shown: `?` where it is not printable ASCII.
fn shown(byte: u8) -> char
    ensures { result ≡ visible byte }
{
    match byte {
        b' '..=b'~' => char::from(byte),
        _ => '?',
    }
}
