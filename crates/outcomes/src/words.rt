// What is left of the rules of a flow, printed literal by literal, and what is said of refused words.
ghost use Rattle.std.specs.Prelude.{◌≡◌, map, IfOk, string_bytes};
ghost use Rattle.std.specs.Option.{option_map};
ghost use Rattle.flow.specs.Of.{names_of, rules_of};
ghost use Rattle.report.specs.Walks.{Told};
ghost use Rattle.outcomes.specs.Lines.{of_flow};
ghost use Rattle.outcomes.specs.Words.{explained_word};

use super::subject::OfFlow;
use flow::Flow;
use report::{Report, WordError, tell, word_at};
use std::alloc::{AllocError, Global};

// Reads words as literals of the events of a flow, as far as they are a trace, and prints them; then,
// if all were read, what each rule came to, and otherwise the word that is refused.
pub fn left(heap: Global, flow: &Flow, words: &[String]) -> Result<Report, AllocError>
    ensures { IfOk result (λ p. Told of_flow (names_of flow.now) (rules_of flow.now) (map string_bytes words.now) (string_bytes p.text) p.outcome) }
{
    tell(heap, &OfFlow { flow }, words)
}

// What is said to people where not all words were read: why the first that was not is refused; absent
// where all were read.
pub fn explain_words(
    heap: Global,
    outcome: Result<(), WordError>,
    words: &[String],
) -> Result<Option<String>, AllocError>
    ensures { IfOk result (λ m. option_map string_bytes m ≡ explained_word (map string_bytes words.now) outcome) }
{
    match outcome {
        Ok(()) => Ok(None),
        Err(WordError::Unknown(number)) => {
            let word = word_at(words, number);
            Ok(Some(format!(in heap; "the flow has no event for '{word}'")?))
        }
        Err(WordError::Twice(number)) => {
            let word = word_at(words, number);
            Ok(Some(format!(in heap; "the event of '{word}' came before")?))
        }
    }
}
