// The shape of lines and expressions, as text: the form reader.
#![tactic(auto)]

pub mod entry;
pub mod expr;
pub mod line;
mod worded;

pub use entry::{grade_text, read_line};
pub use expr::{NotForm, close_at, expr_end, head_at, head_text};
pub use line::{Declaration, Entry, FormFault, Passage, Read, Section};
