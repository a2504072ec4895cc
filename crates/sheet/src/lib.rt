// What is told of events: their grades and statuses, sheets of events, and the statuses of all events
// in one number.
#![tactic(auto)]

pub mod compare;
pub mod grade;
pub mod sheet;
pub mod status;
pub mod word;

pub use compare::same_events;
pub use grade::{Event, Grade};
pub use sheet::Sheet;
pub use status::{Status, UnknownStatus};
pub use word::{StatusWord, TooManyBits};
