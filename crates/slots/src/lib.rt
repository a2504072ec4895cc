// A map over slots that its caller lends: open addressing, for any key with a sameness and a hash.
#![tactic(auto)]

pub mod key;
pub mod map;
pub mod slot;

pub use key::Key;
pub use map::{clear, find, insert, vacancy};
pub use slot::{Entry, InsertError, Slot};
