// Compiling the expression of a rule, once its line has been recognised.
ghost use Rattle.std.specs.Prelude.{◌≡◌, ℕ, ◌+◌, ◌<◌, true, false, List, ◌∷◌, IfOk, Some as SomeOf, None as NoneOf};
ghost use Rattle.algebra.specs.declared.expr.Head.{Head as HeadOf};
ghost use Rattle.text.specs.Words.{Token, named};
ghost use Rattle.forms.specs.Forms.{head_text, Form, group as group_of, Chain, words, chain, Fine, Fines};
ghost use Rattle.forms.specs.Reads.{Left};
ghost use Rattle.accept.specs.Tallies.{known};
ghost use Rattle.flow.specs.Builds.{AtomAt, AtomOf, LeafBuilt, FormAt, GroupAt, MembersAt, FormBuilt, ChainBuilt, Paired};

use super::built::Built;
use accept::EventNames;
use algebra::{Atom, Expr, Head, LeafNumber, Literal};
use forms::{close_at, head_at};
use std::alloc::{AllocError, Global};
use text::{Line, Word, is_word};

// What a leaf without `~` says.
fn atom<'a>(name: &'a [u8], names: &EventNames<'a>) -> Atom
    requires { AtomAt names.now name.now }
    ensures { AtomOf names.now name.now result }
{
    if is_word(name, b"yes") {
        Atom::Yes
    } else if is_word(name, b"no") {
        Atom::No
    } else {
        Atom::Lit(Literal::Happened(names.event_of(name)))
    }
}

// The leaf of a number, whose text ends at `end`.
fn leaf(atom: Atom, number: u8, end: usize) -> Built
    requires { number < 64 }
    ensures { LeafBuilt atom number end result }
{
    let leaf = LeafNumber::new(number).unwrap();
    Built {
        expr: Expr::Leaf(atom, leaf),
        end,
        next: number + 1,
    }
}

// A line whose rule is compiled, and the names of the events above it.
#[derive(Clone, Copy)]
pub(crate) struct Source<'a, 's> {
    pub(crate) line: Line<'a>,
    pub(crate) names: &'s EventNames<'a>,
}

impl Source<'_, '_> {
    // The expression at a place of the line, its heads at most `depth` deep and its leaves numbered from
    // `first` on.
    #[cycle(form_group_members)]
    pub(crate) fn form(
        self,
        heap: Global,
        at: usize,
        tight: bool,
        depth: u8,
        first: u8,
    ) -> Result<Built, AllocError>
        requires { FormAt self.names.now self.line.text.now at depth first tight }
        ensures { (f : Form) (ts : List Token) (o : List ℕ) → Fine f depth → Left self.entry.line.text.now at tight (words f ts) o → FormBuilt self.entry.names.now first self.entry.line.text.now f ts o result }
    {
        let next = self.line.word_at(at, tight).unwrap();
        match next.word {
            Word::Close => unreachable(),
            Word::Name(name) => Ok(leaf(atom(name.bytes, self.names), first, next.end)),
            Word::Never(name) => {
                let literal = Literal::Never(self.names.event_of(name.bytes));
                Ok(leaf(Atom::Lit(literal), first, next.end))
            }
            Word::Open => self.group(heap, next.end, depth, first),
        }
    }

    // The group whose opening bracket ends at a place.
    #[cycle(form_group_members)]
    fn group(self, heap: Global, at: usize, depth: u8, first: u8) -> Result<Built, AllocError>
        requires { GroupAt self.names.now self.line.text.now at depth first }
        ensures { (h : HeadOf) (f : Form) (c : Chain) (ts : List Token) (o : List ℕ) → Fine (group_of h f c) depth → Left self.entry.line.text.now at true (named (head_text h) ∷ words f (chain c ts)) o → FormBuilt self.entry.names.now first self.entry.line.text.now (group_of h f c) ts o result }
    {
        let (head, end) = head_at(self.line.text, at).unwrap();
        let one = self.form(heap, end, false, depth - 1, first)?;
        let others = self.members(heap, head, one.end, depth - 1, 7, one.next)?;
        pair(heap, head, one, others)
    }

    // The further members of a group, at most `left`, with the closing bracket.
    #[cycle(form_group_members)]
    fn members(
        self,
        heap: Global,
        head: Head,
        at: usize,
        depth: u8,
        left: u8,
        first: u8,
    ) -> Result<Built, AllocError>
        requires { MembersAt self.names.now self.line.text.now at depth first left }
        ensures { (c : Chain) (ts : List Token) (o : List ℕ) → Fines c depth left → Left self.entry.line.text.now at false (chain c ts) o → ChainBuilt self.entry.names.now first self.entry.line.text.now head c ts o result }
    {
        let one = self.form(heap, at, false, depth, first)?;
        match close_at(self.line.text, one.end) {
            Some(end) => Ok(Built { end, ..one }),
            None => {
                let others = self.members(heap, head, one.end, depth, left - 1, one.next)?;
                pair(heap, head, one, others)
            }
        }
    }
}

// Two expressions under a head, one behind the other.
fn pair(heap: Global, head: Head, one: Built, two: Built) -> Result<Built, AllocError>
    ensures { IfOk result (λ b. Paired head one two b) }
{
    let left = Box::new(heap, one.expr)?;
    let right = Box::new(heap, two.expr)?;
    Ok(Built {
        expr: Expr::Binary(head, left, right),
        end: two.end,
        next: two.next,
    })
}
