// Building the flow of a file that was accepted.
ghost use Rattle.std.specs.Prelude.{◌≡◌, ℕ, ◌<◌, [], ◌∷◌, ◌++◌, length, OnOk};
ghost use mathlib.Core.List.{Memᴰ};
ghost use Rattle.algebra.specs.Expressions.{events_in};
ghost use Rattle.algebra.specs.Rules.{NumberedOn};
ghost use Rattle.forms.specs.Items.{Item};
ghost use Rattle.accept.specs.Drafts.{Draft};
ghost use Rattle.accept.specs.Steps.{grown};
ghost use Rattle.flow.specs.Compiles.{Compiled};
ghost use Rattle.flow.specs.Of.{events_of, names_of, rules_of};
ghost use Rattle.flow.specs.Gains.{EventGained, RuleGained, Gaining};

use super::compile::Source;
use super::event::NamedEvent;
use super::flow::Flow;
use accept::EventNames;
use algebra::{Expr, RulesError};
use forms::{Declaration, Entry};
use std::alloc::{AllocError, Global};

impl Flow {
    // Adds an event behind the others.
    fn add_event(&mut self, heap: Global, declaration: Declaration) -> Result<(), AllocError>
        requires few { length self.old.events.items < 12 }
        requires undeclared { Memᴰ declaration.name.bytes.now (names_of self.old) → ⊥ }
        ensures { OnOk result (EventGained self.old declaration.entry.name.bytes.now declaration.entry.event self.new) }
    {
        let name = declaration.name.bytes.to_vec(heap)?;
        self.events.push(NamedEvent {
            name,
            event: declaration.event,
        })?;
        Ok(())
    }

    // Adds a rule behind the others.
    fn add_rule(&mut self, rule: Expr) -> Result<(), AllocError>
        requires few { length (rules_of self.old) < 16 }
        requires numbered_on { NumberedOn (rules_of self.old ++ (rule ∷ [])) }
        requires declared { (e : ℕ) → Memᴰ e (events_in rule) → e < length self.old.events.items }
        ensures { OnOk result (RuleGained self.old rule self.new) }
    {
        match self.rules.push(rule) {
            Ok(()) => Ok(()),
            Err(RulesError::Memory(_)) => Err(AllocError),
            Err(RulesError::Misnumbered(_)) => unreachable(),
        }
    }

    // Adds what a line says.
    pub(crate) fn gain<'a>(
        &mut self,
        heap: Global,
        entry: Entry<'a>,
        names: &EventNames<'a>,
    ) -> Result<(), AllocError>
        requires { (d : Draft) × (i : Item) × Gaining d i entry names.now self.old }
        ensures { (d : Draft) (i : Item) → Gaining d i entry.entry names.now self.old → OnOk result (Compiled (grown d i) self.new) }
    {
        match entry {
            Entry::Event(declaration) => self.add_event(heap, declaration),
            Entry::Rule(rule) => {
                let first = self.rules.leaf_count();
                let source = Source {
                    line: rule.line,
                    names,
                };
                let built = source.form(heap, rule.at, false, 8, first)?;
                self.add_rule(built.expr)
            }
        }
    }
}
