// Why flow files are refused: the numbers, lines and readers of refusals.
#![tactic(auto)]

pub mod refusal;

pub use refusal::{Fault, ReadError, Reader, Refusal, Summary};
