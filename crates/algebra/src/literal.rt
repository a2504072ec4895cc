// A literal says of one event that it happened, or that it never will.
ghost use Rattle.std.specs.Prelude.{◌≡◌};
ghost use Rattle.algebra.specs.Literals.{event_of};

// Holds the event's number: at most 11, since no more than twelve events are ever scheduled
// together; rules ask no bound of it.
#[derive(Clone, Copy, Debug, PartialEq, Eq)]
pub enum Literal {
    Happened(u8),
    Never(u8),
}

impl Literal {
    // The event that the literal speaks of.
    pub fn event(self) -> u8
        ensures { result ≡ event_of self }
    {
        match self {
            Literal::Happened(event) | Literal::Never(event) => event,
        }
    }
}
