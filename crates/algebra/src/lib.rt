// Events, traces and rules: what a trace meets, and what is left of a rule after part of a trace.
#![tactic(auto)]

pub mod expr;
pub mod leaf;
pub mod literal;
pub mod marks;
pub mod rules;
pub mod trace;

pub use expr::{Atom, Expr, Head};
pub use leaf::LeafNumber;
pub use literal::Literal;
pub use marks::Marks;
pub use rules::{Rules, RulesError};
pub use trace::{Trace, TraceError};
