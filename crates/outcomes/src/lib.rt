// The bytes that the program over flow files prints.
#![tactic(auto)]

pub mod file;
pub mod subject;
pub mod walk;
pub mod words;

pub use file::{checked, explain_file, refused};
pub use report::{Report, WordError};
pub use words::{explain_words, left};
