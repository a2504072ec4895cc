// The status word: the statuses of events 0 to 11 in one number.
ghost use Rattle.std.specs.Prelude.{◌≡◌, ◌^◌, ◌<◌, ◌≤◌, replicate, Some, MatchOption, MatchResult, slice_set};
ghost use Rattle.std.specs.List.{slice_get};
ghost use Rattle.sheet.specs.declared.status.Status.TheVariants.{Open};
ghost use Rattle.sheet.specs.Statuses.{packed, statuses, Packing};

use super::status::Status;

// Event e has bits 2e and 2e + 1, which hold the number of its status.
#[derive(Clone, Copy, Debug, PartialEq, Eq)]
pub struct StatusWord {
    // At most 2^24 - 1.
    pub bits: u32,
    ghost few: { bits < 2 ^ 24 },
}

// A number that is no status word, since it is above 2^24 - 1.
#[derive(Clone, Copy, Debug, PartialEq, Eq)]
pub struct TooManyBits(pub u32);

// The word with these bits; refused above 2^24 - 1.
impl TryFrom<u32> for StatusWord {
    type Error = TooManyBits;

    ghost try_from_gives = { λ bits r. MatchResult r (λ w. w.bits ≡ bits) (λ e. (e.0 ≡ bits) × (2 ^ 24 ≤ bits)) };

    fn try_from(bits: u32) -> Result<StatusWord, TooManyBits> {
        if bits < 1 << 24 {
            Ok(StatusWord { bits })
        } else {
            Err(TooManyBits(bits))
        }
    }
}

impl StatusWord {
    // Every event is open.
    pub fn all_open() -> StatusWord
        ensures { result.bits ≡ packed (replicate 12 Open) }
    {
        StatusWord { bits: 0 }
    }

    // The status of an event; absent above event 11.
    #[tactic(auto, using(crate::proofs::Words::nth_absent))]
    pub fn get(self, event: u8) -> Option<Status>
        ensures { result ≡ slice_get (statuses self.bits) event }
    {
        (event < 12).then(|| self.status(event))
    }

    // The word in which one event has another status, and all others have theirs; absent above event 11.
    pub fn with(self, event: u8, status: Status) -> Option<StatusWord>
        ensures value { MatchOption result (12 ≤ event) (λ w. (event < 12) × (w.bits ≡ packed (slice_set (statuses self.bits) event status))) }
        ensures packing { Packing }
    {
        (event < 12).then(|| self.replaced(event, status))
    }

    fn status(self, event: u8) -> Status
        requires { event < 12 }
        ensures { slice_get (statuses self.bits) event ≡ Some result }
    {
        Status::try_from(((self.bits >> (2 * event)) & 3) as u8).unwrap()
    }

    // The old status is taken out of its two bits, and the new one put in.
    #[tactic(auto, using(crate::proofs::Words::old_taken, crate::proofs::Words::with_shifted))]
    fn replaced(self, event: u8, status: Status) -> StatusWord
        requires { event < 12 }
        ensures value { result.bits ≡ packed (slice_set (statuses self.bits) event status) }
        ensures packing { Packing }
    {
        let shift = 2 * event;
        let old = (self.bits >> shift) & 3;
        let new = u32::from(u8::from(status));
        StatusWord {
            bits: self.bits - (old << shift) + (new << shift),
        }
    }
}
