// Bytes, lines and words of a text file: the byte reader.
#![tactic(auto)]

pub mod kind;
pub mod line;
pub mod name;
pub mod placed;
pub mod word;

pub use kind::Kind;
pub use line::{ByteFault, Line, line_at, line_end};
pub use name::NameRun;
pub use placed::Placed;
pub use word::{Next, Word, is_word, next_word};
