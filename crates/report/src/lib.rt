// The bytes that the programs print of words that are read as literals.
#![tactic(auto)]

pub mod error;
pub mod lines;
pub mod literal;
pub mod named;
pub mod subject;
pub mod walk;

pub use error::{WordError, refusal, word_at};
pub use lines::{rule_lines, settle};
pub use subject::Subject;
pub use walk::{Report, left, tell};
