// What is left of rules, printed literal by literal.
ghost use Rattle.std.specs.Prelude.{◌≡◌, ◌++◌, map, IfOk, string_bytes};
ghost use Rattle.algebra.specs.Of.{rules_of};
ghost use Rattle.report.specs.Lines.{by_name};
ghost use Rattle.report.specs.Texts.{first_twelve};
ghost use Rattle.report.specs.Walks.{Begun, Took, Told};
ghost use Rattle.report.specs.declared.walk.TakeError.TheVariants.{Memory};
ghost use Rattle.report.specs.Takes.{Becomes};

use super::error::WordError;
pub use super::error::refusal;
use super::lines::{rule_lines, settle};
use super::literal::read_literal;
use super::named::NamedRules;
use super::subject::Subject;
use algebra::{Marks, Rules, Trace, TraceError};
use sheet::StatusWord;
use std::alloc::{AllocError, Global};

// The bytes to print, and whether all words were read, or why not.
#[derive(Drop)]
pub struct Report {
    pub text: String,
    pub outcome: Result<(), WordError>,
}

// The literals taken so far, the position after them, and what is printed of them.
#[derive(Drop)]
pub(crate) struct Walk {
    trace: Trace,
    word: StatusWord,
    marks: Marks,
    text: String,
}

// Why a word is not taken.
#[derive(Clone, Copy, Debug, PartialEq, Eq)]
pub(crate) enum TakeError {
    // It is no literal.
    Unknown,
    // Its event came before.
    Twice,
    Memory(AllocError),
}

impl From<TraceError> for TakeError {
    ghost from_gives = { Becomes };

    fn from(error: TraceError) -> TakeError {
        match error {
            TraceError::Twice => TakeError::Twice,
            TraceError::Memory => TakeError::Memory(AllocError),
        }
    }
}

impl From<AllocError> for TakeError {
    ghost from_gives = { λ error taken. taken ≡ Memory error };

    fn from(error: AllocError) -> TakeError {
        TakeError::Memory(error)
    }
}

impl Walk {
    fn begin<S: Subject>(heap: Global, subject: &S) -> Walk
        ensures { Begun (S.rules subject.now) result }
    {
        Walk {
            trace: Trace::new(heap),
            word: StatusWord::all_open(),
            marks: subject.rules().fresh(),
            text: String::new(heap),
        }
    }

    // Takes one word more, and prints its line; a word that is refused changes nothing.
    fn take<S: Subject>(&mut self, heap: Global, subject: &S, word: &str) -> Result<(), TakeError>
        ensures { Took S.wording (S.names subject.now) (S.rules subject.now) self.old word.now self.new result }
    {
        let literal = read_literal(subject, word.as_bytes()).ok_or(TakeError::Unknown)?;
        self.trace.push(literal)?;
        self.word = settle(self.word, literal);
        self.marks = subject.rules().apply(literal, self.marks);
        let line = subject.left_line(heap, word, self.word, self.marks)?;
        self.text.push_str(line.as_str())?;
        Ok(())
    }

    // Prints the line of a word that is refused, and ends there.
    fn refuse<S: Subject>(
        mut self,
        heap: Global,
        subject: &S,
        word: &str,
        error: WordError,
    ) -> Result<Report, AllocError>
        ensures { IfOk result (λ p. (string_bytes p.text ≡ string_bytes self.text ++ S.wording.refused word.now) × (p.outcome ≡ Err error)) }
    {
        let line = subject.refused_line(heap, word)?;
        self.text.push_str(line.as_str())?;
        Ok(self.report(Err(error)))
    }

    fn report(self, outcome: Result<(), WordError>) -> Report
        ensures { (string_bytes result.text ≡ string_bytes self.text) × (result.outcome ≡ outcome) }
    {
        let Walk { text, .. } = self;
        Report { text, outcome }
    }
}

// Reads words as literals, as far as they are a trace, and prints them; then, if all were read, what
// each rule came to, and otherwise the word that is refused.
pub fn tell<S: Subject>(heap: Global, subject: &S, words: &[String]) -> Result<Report, AllocError>
    ensures { IfOk result (λ p. Told S.wording (S.names subject.now) (S.rules subject.now) (map string_bytes words.now) (string_bytes p.text) p.outcome) }
{
    let mut walk = Walk::begin(heap, subject);
    for (number, word) in words.iter().enumerate() {
        let word = word.as_str();
        match walk.take(heap, subject, word) {
            Ok(()) => {}
            Err(TakeError::Unknown) => {
                return walk.refuse(heap, subject, word, WordError::Unknown(number));
            }
            Err(TakeError::Twice) => {
                return walk.refuse(heap, subject, word, WordError::Twice(number));
            }
            Err(TakeError::Memory(error)) => return Err(error),
        }
    }
    let lines = rule_lines(heap, subject.rules(), &walk.trace)?;
    walk.text.push_str(lines.as_str())?;
    Ok(walk.report(Ok(())))
}

// The report of words over a list of names, whose lines show the words.
pub fn left(
    heap: Global,
    names: &[&[u8]],
    rules: &Rules,
    words: &[String],
) -> Result<Report, AllocError>
    ensures { IfOk result (λ p. Told by_name (first_twelve names.now) (rules_of rules.now) (map string_bytes words.now) (string_bytes p.text) p.outcome) }
{
    tell(heap, &NamedRules { names, rules }, words)
}
