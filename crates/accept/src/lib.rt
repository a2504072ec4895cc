// Whether a file is a flow's, found without memory: names, the faults of lines, and whole files.
#![tactic(auto)]

pub mod counts;
pub mod declare;
pub mod key;
mod name;
pub mod names;
pub mod step;
mod tally;
pub mod walk;

pub use counts::{Progress, Step};
pub use declare::event_of;
pub use key::NameKey;
pub use names::EventNames;
pub use step::step_line;
pub use walk::check;
