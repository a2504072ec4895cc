// Counts that the flow reader keeps.
ghost use Rattle.std.specs.Prelude.{◌≡◌, ◌+◌, ◌≤◌};

use forms::{Entry, Section};

// What the leaves of a rule come to, as far as they were looked at.
#[derive(Clone, Copy)]
pub(crate) struct Tally {
    // How many there are: at most the length of the file.
    pub(crate) leaves: usize,
    // Whether one names what is no name.
    pub(crate) misnamed: bool,
    // Whether one names an event that is not declared.
    pub(crate) undeclared: bool,
}

// How far a file was read.
#[derive(Clone, Copy)]
pub struct Progress {
    // Where the next line begins: at most 16,384.
    pub at: usize,
    // Its number, counted from 1: at most 29.
    pub line: usize,
    pub section: Section,
    // How many events were declared: at most 12.
    pub events: u8,
    // How many rules were stated: at most 16.
    pub rules: u8,
    // How many leaves they have: at most 64.
    pub leaves: u8,
    ghost few_events: { events ≤ 12 },
    ghost few_rules: { rules ≤ 16 },
    ghost few_leaves: { leaves ≤ 64 },
    // One line for each event and each rule comes before.
    ghost counted: { line ≡ events + rules + 1 },
}

// What a line says, and how far the file was read with it.
#[derive(Clone, Copy)]
pub struct Step<'a> {
    pub entry: Entry<'a>,
    pub progress: Progress,
}
