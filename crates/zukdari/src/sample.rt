// A small flow, built in code: a plate is made only after its approval.
ghost use Rattle.std.specs.Prelude.{◌<◌, IfOk};
ghost use Rattle.algebra.specs.Of.{rules_of};
ghost use Rattle.zukdari.specs.Sample.{Holds, Sample};

use algebra::{Atom, Expr, Head, LeafNumber, Literal, Rules, RulesError};
use std::alloc::{AllocError, Global};

// The names of the events, by their numbers.
pub const NAMES: [&[u8]; 2] = [b"approve", b"plate"];

const APPROVE: u8 = 0;

const PLATE: u8 = 1;

// A leaf in a box.
fn leaf(heap: Global, literal: Literal, number: u8) -> Result<Box<Expr>, AllocError>
    requires { number < 64 }
    ensures { IfOk result (λ b. Holds literal number b.value) }
{
    let number = LeafNumber::new(number).unwrap();
    Ok(Box::new(heap, Expr::Leaf(Atom::Lit(literal), number))?)
}

// (alt ~plate (seq approve plate))
pub fn rules(heap: Global) -> Result<Rules, AllocError>
    ensures { IfOk result (λ x. Sample (rules_of x)) }
{
    let no_plate = leaf(heap, Literal::Never(PLATE), 0)?;
    let approve = leaf(heap, Literal::Happened(APPROVE), 1)?;
    let plate = leaf(heap, Literal::Happened(PLATE), 2)?;
    let in_order = Box::new(heap, Expr::Binary(Head::Seq, approve, plate))?;
    let mut rules = Rules::new(heap);
    match rules.push(Expr::Binary(Head::Alt, no_plate, in_order)) {
        Ok(()) => Ok(rules),
        Err(RulesError::Memory(_)) => Err(AllocError),
        Err(RulesError::Misnumbered(_)) => unreachable(),
    }
}
