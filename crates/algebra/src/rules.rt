// Lists of rules that share one pair of mark words.
ghost use Rattle.std.specs.Prelude.{◌≡◌, ◌≤◌, true, ◌↔◌, [], length, IfErr, vec_len, vec_capacity, fold};
ghost use mathlib.Core.List.{Memᴰ};
ghost use Rattle.std.specs.List.{flat_map};
ghost use Rattle.std.specs.Option.{option_map};
ghost use Rattle.algebra.specs.Expressions.{leaves, Meets};
ghost use Rattle.algebra.specs.Left.{fresh_all, applied_all};
ghost use Rattle.algebra.specs.Laws.{LeftOfOne, LeftOfRules};
ghost use Rattle.algebra.specs.Rules.{NumberedOn, Next, Added, RuleAt, Answers};

use super::expr::Expr;
use super::literal::Literal;
use super::marks::Marks;
use super::trace::Trace;
use std::alloc::Global;

// Rules whose leaves are numbered from 0 through all of them, as written; 64 leaves at most.
#[derive(Drop)]
pub struct Rules {
    list: Vec<Expr>,
    // The number that the next leaf has: at most 64, where no further leaf fits.
    next: u8,
    ghost numbered: { NumberedOn list.items },
    ghost ends: { next ≡ length (flat_map leaves list.items) },
    ghost few: { next ≤ 64 },
}

// Why a rule is not added; the rule is handed back.
#[derive(Drop)]
pub enum RulesError {
    // Its leaves are not numbered on from those of the rules before it.
    Misnumbered(Expr),
    // There is no memory for one rule more.
    Memory(Expr),
}

impl Rules {
    pub fn new(heap: Global) -> Rules
        ensures { result.list.items ≡ [] }
    {
        Rules {
            list: Vec::new(heap),
            next: 0,
        }
    }

    // Adds a rule behind the others, or hands it back and stays as it was.
    pub fn push(&mut self, rule: Expr) -> Result<(), RulesError>
        ensures added { Added self.old.list.items rule self.new.list.items result }
        ensures same { IfErr result (λ e. e ≡ RulesError.Misnumbered rule → self.new ≡ self.old) }
        ensures full { IfErr result (λ e. e ≡ RulesError.Memory rule → vec_capacity self.old.list ≤ vec_len self.old.list) }
    {
        let Some(next) = self.next_after(&rule) else {
            return Err(RulesError::Misnumbered(rule));
        };
        self.list
            .push(rule)
            .map_err(|refused| RulesError::Memory(refused.value))?;
        self.next = next;
        Ok(())
    }

    // The number that the next leaf has once a rule is added; absent if its leaves are not numbered on.
    #[tactic(auto, using(crate::proofs::Counts::next_from_said))]
    fn next_after(&self, rule: &Expr) -> Option<u8>
        ensures { Next self.now.list.items rule.now result }
    {
        rule.numbers_on(self.next)
    }

    // How many rules there are: at most 64, since each has a leaf.
    pub fn len(&self) -> usize
        ensures { result ≡ length self.now.list.items }
    {
        self.list.len()
    }

    // How many leaves the rules have together, which is the number that the next leaf has: at most 64.
    pub fn leaf_count(&self) -> u8
        ensures { (result ≡ length (flat_map leaves self.now.list.items)) × (result ≤ 64) }
    {
        self.next
    }

    // The rule of a number, counted from 0; absent past the last.
    #[tactic(auto, using(crate::proofs::Laws::rule_at))]
    pub fn get(&self, number: usize) -> Option<&Expr>
        ensures { RuleAt self.now.list.items number (option_map (λ x. x.now) result) }
    {
        self.list.get(number)
    }

    // The marks before any literal.
    pub fn fresh(&self) -> Marks
        ensures { result ≡ fresh_all self.now.list.items }
    {
        self.list
            .iter()
            .fold(Marks::none(), |sum, rule| sum.union(rule.fresh()))
    }

    // Applies a literal to every rule: the marks afterwards. Each rule reads the marks before it.
    pub fn apply(&self, literal: Literal, before: Marks) -> Marks
        ensures { result ≡ applied_all self.now.list.items before literal }
    {
        self.list.iter().fold(
            before,
            |after, rule| after.union(rule.gains(literal, before)),
        )
    }

    // The marks after a trace.
    fn after(&self, trace: &Trace) -> Marks
        ensures { result ≡ fold (applied_all self.now.list.items) (fresh_all self.now.list.items) trace.now.literals.items }
    {
        trace
            .literals()
            .iter()
            .fold(self.fresh(), |marks, &literal| self.apply(literal, marks))
    }

    // Applies a trace to the rules, and says whether the rule of a number is fulfilled then: that is,
    // whether the trace meets it. Absent past the last rule.
    pub fn fulfilled_by(&self, number: usize, trace: &Trace) -> Option<bool>
        ensures answer { Answers self.now.list.items trace.now.literals.items number result }
        ensures one { LeftOfOne }
        ensures each { LeftOfRules }
    {
        let rule = self.get(number)?;
        Some(self.judge(rule, trace))
    }

    // Whether an expression is fulfilled after a trace; of a rule of the list, whether the trace meets it.
    fn judge(&self, rule: &Expr, trace: &Trace) -> bool
        ensures judged { Memᴰ rule.now self.now.list.items → (result ≡ true) ↔ Meets rule.now trace.now.literals.items }
        ensures one { LeftOfOne }
        ensures each { LeftOfRules }
    {
        rule.fulfilled(self.after(trace))
    }
}
