// What a flow tells.
ghost use Rattle.std.specs.Prelude.{◌≡◌, ◌<◌, length, position, IfSome};
ghost use Rattle.std.specs.List.{slice_get};
ghost use Rattle.std.specs.Option.{option_map};
ghost use Rattle.std.specs.Str.{bytes_eq};
ghost use Rattle.algebra.specs.Of.{rules_of as rules_in};
ghost use Rattle.flow.specs.Events.{name_of};
ghost use Rattle.flow.specs.Of.{events_of, names_of, rules_of, IsEmpty, few_told};
ghost use Rattle.accept.specs.Drafts.{Found};

use super::event::NamedEvent;
use super::flow::Flow;
use algebra::Rules;
use sheet::{Event, Sheet};
use std::alloc::Global;

impl Flow {
    // The empty flow.
    pub fn new(heap: Global) -> Flow
        ensures { IsEmpty result }
    {
        Flow {
            events: Vec::new(heap),
            rules: Rules::new(heap),
        }
    }

    pub fn rules(&self) -> &Rules
        ensures { rules_in result.now ≡ rules_of self.now }
    {
        &self.rules
    }

    // The name of an event, 1 to 16 bytes if it was read from a file; absent past the last event.
    pub fn name(&self, event: u8) -> Option<&[u8]>
        ensures { option_map (λ x. x.now) result ≡ slice_get (names_of self.now) event }
    {
        let named = self.named(event)?;
        Some(named.name.as_slice())
    }

    // The number of the event with a name, at most 11; absent if there is none.
    pub fn find(&self, name: &[u8]) -> Option<u8>
        ensures { Found (names_of self.now) name.now result }
    {
        let number = self.place(name)?;
        Some(number as u8)
    }

    // The event of a number; absent past the last.
    fn named(&self, number: u8) -> Option<&NamedEvent>
        ensures named { option_map (λ x. name_of x.now) result ≡ slice_get (names_of self.now) number }
        ensures told { option_map (λ x. x.now.event) result ≡ slice_get (events_of self.now) number }
    {
        self.events.get(usize::from(number))
    }

    // The place of the event with a name; absent if there is none.
    #[tactic(auto, using(crate::proofs::Places::found_when))]
    fn place(&self, name: &[u8]) -> Option<usize>
        ensures { Found (names_of self.now) name.now result × IfSome result (λ i. i < 12) }
    {
        self.first(name)
    }

    // The same, as the first of the events' names that is this one.
    fn first(&self, name: &[u8]) -> Option<usize>
        ensures { result ≡ position (λ e. bytes_eq (name_of e) name.now) self.now.events.items }
    {
        self.events
            .iter()
            .position(|named| named.name.as_slice() == name)
    }

    fn len(&self) -> u8
        ensures { result ≡ length (events_of self.now) }
    {
        self.events.len() as u8
    }
}

impl Sheet for Flow {
    ghost events = { events_of };

    ghost lawful = { few_told };

    fn count(&self) -> u8 {
        self.len()
    }

    fn event(&self, number: u8) -> Option<Event> {
        let named = self.named(number)?;
        Some(named.event)
    }
}
