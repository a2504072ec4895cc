// Marks on leaves: which are met and which are struck.
ghost use Rattle.std.specs.Prelude.{◌≡◌};
ghost use Rattle.algebra.specs.Marks.{none, met_at, struck_at, union, has_bit, is_met, is_open};

use super::leaf::LeafNumber;

// A set of leaves that are met and a set of leaves that are struck: bit i stands for leaf i.
// Each word may be any number of 64 bits. A leaf that is in both sets counts as met; where leaves
// have distinct numbers, none comes to be.
#[derive(Clone, Copy, Debug, PartialEq, Eq)]
pub struct Marks {
    pub met: u64,
    pub struck: u64,
}

impl Marks {
    // No leaf is met or struck.
    pub(crate) fn none() -> Marks
        ensures { result ≡ none }
    {
        Marks { met: 0, struck: 0 }
    }

    // One leaf alone is met.
    pub(crate) fn met_at(leaf: LeafNumber) -> Marks
        ensures { result ≡ met_at leaf.value }
    {
        Marks {
            met: 1 << leaf.value(),
            struck: 0,
        }
    }

    // One leaf alone is struck.
    pub(crate) fn struck_at(leaf: LeafNumber) -> Marks
        ensures { result ≡ struck_at leaf.value }
    {
        Marks {
            met: 0,
            struck: 1 << leaf.value(),
        }
    }

    // What is met or struck in either.
    pub(crate) fn union(self, other: Marks) -> Marks
        ensures { result ≡ union self other }
    {
        Marks {
            met: self.met | other.met,
            struck: self.struck | other.struck,
        }
    }

    pub(crate) fn is_met(self, leaf: LeafNumber) -> bool
        ensures { result ≡ is_met self leaf.value }
    {
        has(self.met, leaf)
    }

    // Neither met nor struck.
    pub(crate) fn is_open(self, leaf: LeafNumber) -> bool
        ensures { result ≡ is_open self leaf.value }
    {
        !has(self.met, leaf) && !has(self.struck, leaf)
    }
}

fn has(word: u64, leaf: LeafNumber) -> bool
    ensures { result ≡ has_bit word leaf.value }
{
    (word >> leaf.value()) & 1 == 1
}
