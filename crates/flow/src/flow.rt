// The compiled flow.
ghost use Rattle.std.specs.Prelude.{◌≤◌, length};
ghost use Rattle.std.proofs.Props.{props};
ghost use Rattle.algebra.specs.Of.{rules_of};
ghost use Rattle.flow.specs.Events.{names_in, Distinct, Within};

use super::event::NamedEvent;
use algebra::Rules;

// The events of a flow, numbered from 0 in their order, and the rules between them. The leaves of the
// rules are numbered from 0 through all of them, 64 at most, which `Rules` keeps.
#[derive(Drop)]
pub struct Flow {
    // At most 12.
    pub(crate) events: Vec<NamedEvent>,
    // At most 16.
    pub(crate) rules: Rules,
    ghost few_events: { length events.items ≤ 12 },
    ghost few_rules: { length (rules_of rules) ≤ 16 },
    ghost apart: { Distinct (names_in events.items) } by { Prim.hlevel props },
    ghost declared: { Within (length events.items) (rules_of rules) },
}
