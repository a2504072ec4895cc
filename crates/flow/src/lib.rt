// The compiled flow, and reading flow files into it: the flow reader.
#![tactic(auto)]

mod build;
mod built;
mod compile;
pub mod event;
pub mod flow;
pub mod questions;
pub mod reader;

pub use event::NamedEvent;
pub use flow::Flow;
