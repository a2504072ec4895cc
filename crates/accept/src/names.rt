// The names of a flow's events.
ghost use Rattle.std.specs.Prelude.{◌≡◌, length};
ghost use Rattle.slots.specs.Maps.{Valid};
ghost use Rattle.accept.specs.Keys.{same_name, name_hash};
ghost use Rattle.accept.specs.Numbers.{Few};

use super::key::NameKey;
use slots::Slot;

// The names of a flow's events, at most 12, each with the number of its event, at most 11.
#[derive(Drop)]
pub struct EventNames<'a> {
    pub(crate) slots: [Slot<NameKey<'a>>; 12],
    ghost twelve: { length slots ≡ 12 },
    ghost valid: { Valid same_name name_hash slots },
    ghost few: { Few slots },
}
