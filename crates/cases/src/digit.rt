// A key for the tests of maps: numbers that end in one digit are the same, and hashes often collide.
ghost use Rattle.std.specs.Prelude.{◌≡◌};
ghost use Rattle.cases.specs.Digits.{same_digit, parity, digit_laws};

use slots::Key;

// Any number of 32 bits.
#[derive(Clone, Copy)]
pub struct LastDigit {
    pub number: u32,
}

impl Key for LastDigit {
    ghost same = { same_digit };

    ghost hash = { parity };

    ghost laws = { digit_laws };

    fn same(&self, other: &LastDigit) -> bool {
        self.number % 10 == other.number % 10
    }

    fn hash(&self) -> u64 {
        u64::from(self.number % 2)
    }
}
