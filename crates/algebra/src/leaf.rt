// The number of a leaf.
ghost use Rattle.std.specs.Prelude.{◌≡◌, ◌<◌, ◌≤◌, MatchOption};

// Leaves are numbered from 0 through a list of rules: at most 63.
#[derive(Clone, Copy, Debug, PartialEq, Eq)]
pub struct LeafNumber {
    value: u8,
    ghost below: { value < 64 },
}

impl LeafNumber {
    // Absent above 63.
    pub fn new(value: u8) -> Option<LeafNumber>
        ensures { MatchOption result (64 ≤ value) (λ n. n.value ≡ value) }
    {
        if value < 64 {
            Some(LeafNumber { value })
        } else {
            None
        }
    }

    pub(crate) fn value(self) -> u8
        ensures { result ≡ self.value }
    {
        self.value
    }
}
