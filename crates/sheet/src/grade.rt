// What is told of an event before anything happened.

// How far an event can be put off.
#[derive(Clone, Copy, Debug, PartialEq, Eq)]
pub enum Grade {
    // It may be delayed and rejected.
    Flexible,
    // It may be delayed, and not rejected.
    Inevitable,
    // It can be neither delayed nor rejected.
    Immediate,
}

// An event as a sheet tells it: its grade, and whether the scheduler may force it.
#[derive(Clone, Copy, Debug, PartialEq, Eq)]
pub struct Event {
    pub grade: Grade,
    pub forcible: bool,
}
