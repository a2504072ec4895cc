// Declaring events, and finding them by their names.
ghost use Rattle.std.specs.Prelude.{◌≡◌, Some, None, ◌≢◌, []};
ghost use Rattle.slots.specs.Maps.{Valid};
ghost use Rattle.accept.specs.Keys.{same_name, name_hash};
ghost use Rattle.accept.specs.Numbers.{numbered, Few};
ghost use Rattle.accept.specs.Tallies.{known};
ghost use Rattle.accept.specs.Naming.{entered, Entering, Declaring};
ghost use Rattle.accept.specs.Steps.{Knows};

use super::key::NameKey;
use super::name::is_name;
use super::names::EventNames;
use refusals::Fault;
use slots::{Entry, InsertError, Slot, find, vacancy};
use text::NameRun;

// The event of a name that the slots have: at most 11.
#[tactic(auto, using(crate::proofs::Entries::at_numbered))]
pub fn event_of<'a>(name: &'a [u8], slots: &[Slot<NameKey<'a>>]) -> u8
    requires valid { Valid same_name name_hash slots.now }
    requires few { Few slots.now }
    requires name_known { numbered slots.now name.now ≢ None }
    ensures { numbered slots.now name.now ≡ Some result }
{
    find(slots, &NameKey { bytes: name }).unwrap() as u8
}

impl<'a> EventNames<'a> {
    // No names.
    #[tactic(auto, using(crate::proofs::Walking::no_numbers))]
    pub fn new() -> EventNames<'a>
        ensures { Knows result [] }
    {
        EventNames { slots: [None; 12] }
    }

    // The names that some slots have.
    pub fn of(slots: [Slot<NameKey<'a>>; 12]) -> EventNames<'a>
        requires valid { Valid same_name name_hash slots }
        requires few { Few slots }
        ensures { result.slots ≡ slots.entry }
    {
        EventNames { slots }
    }

    // The number of the event with a name, at most 11; absent if the name was not entered.
    #[tactic(auto, using(crate::proofs::Entries::at_numbered))]
    pub fn find(&self, name: &'a [u8]) -> Option<u8>
        ensures { result ≡ known self.now name.now }
    {
        let number = find(&self.slots, &NameKey { bytes: name })?;
        Some(number as u8)
    }

    // The event of a name that was entered: at most 11.
    pub fn event_of(&self, name: &'a [u8]) -> u8
        requires { known self.now name.now ≢ None }
        ensures { known self.now name.now ≡ Some result }
    {
        event_of(name, &self.slots)
    }

    // Enters a name with the number of its event, which is how many names there were.
    #[tactic(auto, using(crate::proofs::Entries::not_entered))]
    fn enter(&mut self, name: &'a [u8], number: u8) -> Result<(), InsertError>
        requires { number ≡ entered self.old }
        ensures { Entering self.old name.now number self.new result }
    {
        let key = NameKey { bytes: name };
        let place = vacancy(&self.slots, &key)?;
        self.slots[place] = Some(Entry {
            key,
            value: u32::from(number),
        });
        Ok(())
    }

    // Declares the event of a number, which is how many names there were, or says the fault of the lowest
    // number that its name has.
    pub(crate) fn declare(&mut self, name: NameRun<'a>, number: u8) -> Result<(), Fault>
        requires { number ≡ entered self.old }
        ensures { Declaring self.old name.entry.bytes.now number self.new result }
    {
        if !is_name(name) {
            return Err(Fault::Name);
        }
        match self.enter(name.bytes, number) {
            Ok(()) => Ok(()),
            Err(InsertError::Present(_)) => Err(Fault::Twice),
            Err(InsertError::Full) => Err(Fault::TooMany),
        }
    }
}
