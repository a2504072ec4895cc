// What a map asks of its keys.
ghost use Rattle.std.specs.Prelude.{◌≡◌, ℕ, Bool};
ghost use Rattle.slots.specs.Keys.{Laws};

// A key has a sameness, and a hash that same keys share. Keys that are the same stand for one entry.
pub trait Key {
    ghost same: { Self → Self → Bool };

    ghost hash: { Self → ℕ };

    ghost laws: { Laws same hash };

    fn same(&self, other: &Self) -> bool
        ensures { result ≡ same self.now other.now };

    // Any number of 64 bits.
    fn hash(&self) -> u64
        ensures { result ≡ hash self.now };
}
