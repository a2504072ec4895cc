// Traces.
ghost use Rattle.std.specs.Prelude.{◌≡◌, ◌≤◌, true, ◌↔◌, [], ◌∷◌, ◌++◌, map, IfErr, vec_len, vec_capacity, MatchBool};
ghost use mathlib.Core.List.{Memᴰ};
ghost use Rattle.std.proofs.Props.{props};
ghost use Rattle.algebra.specs.declared.trace.TraceError.TheVariants.{Memory};
ghost use Rattle.algebra.specs.Literals.{event_of, IsTrace, Taken};

use super::literal::Literal;
use std::alloc::{AllocFailed, Global};

// A list of literals in which no event stands twice, under either sign: at most 256 literals, one for each event number.
#[derive(Drop)]
pub struct Trace {
    literals: Vec<Literal>,
    ghost once: { IsTrace literals.items } by { Prim.hlevel props },
}

// Why a trace does not take a literal.
#[derive(Clone, Copy, Debug, PartialEq, Eq)]
pub enum TraceError {
    // The literal's event stands in the trace already.
    Twice,
    // There is no memory for one literal more.
    Memory,
}

impl<T: Drop> From<AllocFailed<T>> for TraceError {
    ghost from_gives = { λ _ e. e ≡ Memory };

    fn from(_refused: AllocFailed<T>) -> TraceError {
        TraceError::Memory
    }
}

impl Trace {
    #[tactic(auto, using(crate::proofs::Members::once_nil))]
    pub fn new(heap: Global) -> Trace
        ensures { result.literals.items ≡ [] }
    {
        Trace {
            literals: Vec::new(heap),
        }
    }

    pub fn literals(&self) -> &[Literal]
        ensures { result.now ≡ self.now.literals.items }
    {
        self.literals.as_slice()
    }

    // Whether the event stands in the trace, under either sign.
    fn settles(&self, event: u8) -> bool
        ensures { (result ≡ true) ↔ Memᴰ event (map event_of self.now.literals.items) }
    {
        self.literals.iter().any(|literal| literal.event() == event)
    }

    // Whether the trace with one literal more is a trace: the literal's event does not stand in it yet.
    #[tactic(auto, using(crate::proofs::Members::takes_from_settles))]
    fn takes(&self, literal: Literal) -> bool
        ensures { MatchBool result (IsTrace (self.now.literals.items ++ (literal ∷ [])) × (Memᴰ (event_of literal) (map event_of self.now.literals.items) → ⊥)) (Memᴰ (event_of literal) (map event_of self.now.literals.items)) }
    {
        !self.settles(literal.event())
    }

    // Takes one literal more, or refuses it and stays as it was.
    pub fn push(&mut self, literal: Literal) -> Result<(), TraceError>
        ensures taken { Taken self.old.literals.items literal self.new.literals.items result }
        ensures same { IfErr result (λ e. e ≡ TraceError.Twice → self.new ≡ self.old) }
        ensures full { IfErr result (λ e. e ≡ TraceError.Memory → vec_capacity self.old.literals ≤ vec_len self.old.literals) }
    {
        if !self.takes(literal) {
            return Err(TraceError::Twice);
        }
        self.literals.push(literal)?;
        Ok(())
    }
}
