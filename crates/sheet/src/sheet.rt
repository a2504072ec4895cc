// Sheets, which tell the events that are scheduled together.
ghost use Rattle.std.specs.Prelude.{◌≡◌, List, length};
ghost use Rattle.std.specs.List.{slice_get};
ghost use Rattle.sheet.specs.declared.grade.Event.{Event as EventOf};
ghost use Rattle.sheet.specs.Sheets.{IsSheet};

use super::grade::Event;

// A sheet tells its events, at most twelve, numbered from 0.
pub trait Sheet {
    ghost events: { Self → List EventOf };

    ghost lawful: { (s : Self) → IsSheet (events s) };

    // How many events there are: at most 12.
    fn count(&self) -> u8
        ensures { result ≡ length (events self.now) };

    // The event of a number; absent past the last.
    fn event(&self, number: u8) -> Option<Event>
        ensures { result ≡ slice_get (events self.now) number };
}
