// Whole lines of a flow file: events and rules.
ghost use Rattle.std.specs.Prelude.{◌≡◌};
ghost use Rattle.forms.specs.declared.line.FormFault.TheVariants.{Bytes};

use sheet::Event;
use text::{ByteFault, Line, NameRun};

// How far a file has come: an event comes first, and no event behind a rule.
#[derive(Clone, Copy)]
pub enum Section {
    // No line was read yet.
    Start,
    // Event lines alone.
    Events,
    // Rule lines too.
    Rules,
}

// An event as a line declares it.
#[derive(Clone, Copy)]
pub struct Declaration<'a> {
    pub name: NameRun<'a>,
    pub event: Event,
}

// A rule's expression: it stands at the place `at` of its line, behind a space, at most the line's end.
#[derive(Clone, Copy)]
pub struct Passage<'a> {
    pub line: Line<'a>,
    pub at: usize,
}

// What a line says.
#[derive(Clone, Copy)]
pub enum Entry<'a> {
    Event(Declaration<'a>),
    Rule(Passage<'a>),
}

// What a line says, and where the next one begins: at most the length of the file.
#[derive(Clone, Copy)]
pub struct Read<'a> {
    pub entry: Entry<'a>,
    pub next: usize,
}

// Why a line is not read, with its number, counted from 1: at most one more than the file has line feeds.
#[derive(Clone, Copy, Debug, PartialEq, Eq)]
pub enum FormFault {
    // The byte reader's fault.
    Bytes(ByteFault),
    // It says nothing that may come there.
    Shape(usize),
}

impl From<ByteFault> for FormFault {
    ghost from_gives = { λ f r. r ≡ Bytes f };

    fn from(fault: ByteFault) -> FormFault {
        FormFault::Bytes(fault)
    }
}
