// Comparing what two sheets tell.
ghost use Rattle.std.specs.Prelude.{◌≡◌, true, ◌↔◌};
ghost use Rattle.std.specs.List.{slice_get};
ghost use Rattle.sheet.specs.Sameness.{Sameness};

use super::sheet::Sheet;

// Whether two sheets tell the same events.
#[tactic(auto, using(crate::proofs::Equality::sameness))]
pub fn same_events<S: Sheet, U: Sheet>(left: &S, right: &U) -> bool
    ensures same { (result ≡ true) ↔ (S.Sheet.events left.now ≡ U.Sheet.events right.now) }
    ensures equality { Sameness }
{
    let count = left.count();
    count == right.count() && (0..count).all(|number| same_event(left, right, number))
}

// Whether two sheets tell the same of one event, which may be absent on either.
fn same_event<S: Sheet, U: Sheet>(left: &S, right: &U, number: u8) -> bool
    ensures { (result ≡ true) ↔ (slice_get (S.Sheet.events left.now) number ≡ slice_get (U.Sheet.events right.now) number) }
{
    left.event(number) == right.event(number)
}
