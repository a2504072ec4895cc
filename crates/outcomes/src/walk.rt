// The walk over words, and what is said of it.
pub use super::words::{explain_words, left};
pub use report::Report;
