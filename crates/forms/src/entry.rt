// Reading whole lines.
ghost use Rattle.std.specs.Prelude.{◌≡◌, false, [], ◌∷◌, MatchBool};
ghost use Rattle.text.specs.Words.{closes};
ghost use Rattle.forms.specs.Items.{grade_text};
ghost use Rattle.forms.specs.Entries.{EntryAt};
ghost use Rattle.forms.specs.Reads.{Left};
ghost use Rattle.forms.specs.Tails.{ForciblyAt, EventAt, RuleAt, ItemOf, takes, LineSays};

use super::expr::{close_at, expr_end, name_at};
use super::line::{Declaration, Entry, FormFault, Passage, Read, Section};
use super::worded::{Worded, case_at};
use sheet::{Event, Grade};
use text::{Line, Word, is_word, line_at, next_word};

// The word that says a grade.
pub fn grade_text(grade: Grade) -> &'static [u8]
    ensures { result.now ≡ grade_text grade }
{
    match grade {
        Grade::Flexible => b"flexible",
        Grade::Inevitable => b"inevitable",
        Grade::Immediate => b"immediate",
    }
}

impl Worded for Grade {
    ghost word_of = { grade_text };

    fn cases() -> &'static [Grade] {
        &[Grade::Flexible, Grade::Inevitable, Grade::Immediate]
    }

    fn word(self) -> &'static [u8] {
        grade_text(self)
    }
}

// Whether a closing bracket at a place ends the text.
#[tactic(auto, using(crate::proofs::Ending::ends_line))]
fn closes_at(text: &[u8], at: usize) -> bool
    ensures { MatchBool result (Left text.now at false (closes ∷ []) []) (Left text.now at false (closes ∷ []) [] → ⊥) }
{
    close_at(text, at) == Some(text.len())
}

// Whether an event whose grade ends at a place is forcible; absent if the text does not end so.
#[tactic(auto, using(crate::proofs::Ending::forcible_none))]
fn forcible_at(text: &[u8], at: usize) -> Option<bool>
    ensures { ForciblyAt text.now at result }
{
    if closes_at(text, at) {
        return Some(false);
    }
    let (name, end) = name_at(text, at, false)?;
    (is_word(name.bytes, b"forcible") && closes_at(text, end)).then_some(true)
}

// The event that is declared from a place on, behind the word `event`; absent if none is.
fn event_at<'a>(text: &'a [u8], at: usize) -> Option<Declaration<'a>>
    ensures { EventAt text.now at result }
{
    let (name, name_end) = name_at(text, at, false)?;
    let (grade, grade_end) = case_at(text, name_end, false)?;
    let forcible = forcible_at(text, grade_end)?;
    Some(Declaration {
        name,
        event: Event { grade, forcible },
    })
}

// The rule that is stated from a place on, behind the word `rule`; absent if none is.
fn rule_at<'a>(line: Line<'a>, at: usize) -> Option<Passage<'a>>
    ensures { RuleAt line.entry at result }
{
    let end = expr_end(line.text, at, false).ok()?;
    closes_at(line.text, end).then_some(Passage { line, at })
}

// The event or rule that the words of a line say; absent if they say none.
#[tactic(auto, using(crate::proofs::Saying::no_head, crate::proofs::Saying::no_event))]
fn item_of<'a>(line: Line<'a>) -> Option<Entry<'a>>
    ensures { ItemOf line.entry result }
{
    let first = next_word(line.text, line.start, true)?;
    let Word::Open = first.word else {
        return None;
    };
    let (head, end) = name_at(line.text, first.end, true)?;
    if is_word(head.bytes, b"event") {
        Some(Entry::Event(event_at(line.text, end)?))
    } else if is_word(head.bytes, b"rule") {
        Some(Entry::Rule(rule_at(line, end)?))
    } else {
        None
    }
}

impl Section {
    // Whether an entry may come next.
    fn takes(self, entry: &Entry) -> bool
        ensures { result ≡ takes self entry.now }
    {
        !matches!(
            (self, entry),
            (Section::Start, Entry::Rule(_)) | (Section::Rules, Entry::Event(_))
        )
    }
}

// What a line says that may come next; absent if it says nothing such, or no line feed ends it.
fn says<'a>(line: Line<'a>, section: Section) -> Option<Entry<'a>>
    ensures { LineSays section line.entry result }
{
    if !line.ended {
        return None;
    }
    item_of(line).filter(|entry| section.takes(entry))
}

// What the line says that begins at a place of a file and has this number.
pub fn read_line<'a>(
    file: &'a [u8],
    start: usize,
    number: usize,
    section: Section,
) -> Result<Read<'a>, FormFault>
    ensures { EntryAt file.now start number section result }
{
    let line = line_at(file, start, number)?;
    let entry = says(line, section).ok_or(FormFault::Shape(number))?;
    Ok(Read {
        entry,
        next: line.text.len() + 1,
    })
}
