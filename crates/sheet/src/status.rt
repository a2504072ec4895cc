// The status of one event.
ghost use Rattle.std.specs.Prelude.{◌≡◌, ◌≤◌, MatchResult};
ghost use Rattle.sheet.specs.Statuses.{number};

#[derive(Clone, Copy, Debug, PartialEq, Eq)]
pub enum Status {
    // Neither tried nor settled.
    Open,
    // Tried, and not settled yet.
    Waiting,
    Happened,
    // It did not happen, and never will.
    Never,
}

// A number that no status has.
#[derive(Clone, Copy, Debug, PartialEq, Eq)]
pub struct UnknownStatus(pub u8);

// The status's number: at most 3.
impl From<Status> for u8 {
    ghost from_gives = { λ s n. n ≡ number s };

    fn from(status: Status) -> u8 {
        match status {
            Status::Open => 0,
            Status::Waiting => 1,
            Status::Happened => 2,
            Status::Never => 3,
        }
    }
}

// The status of a number; refused above 3.
impl TryFrom<u8> for Status {
    type Error = UnknownStatus;

    ghost try_from_gives = { λ n r. MatchResult r (λ s. number s ≡ n) (λ e. (e.0 ≡ n) × (4 ≤ n)) };

    fn try_from(number: u8) -> Result<Status, UnknownStatus> {
        match number {
            0 => Ok(Status::Open),
            1 => Ok(Status::Waiting),
            2 => Ok(Status::Happened),
            3 => Ok(Status::Never),
            _ => Err(UnknownStatus(number)),
        }
    }
}
