// Expressions over literals, and what is left of them.
ghost use Rattle.std.specs.Prelude.{◌≡◌, ◌+◌, ◌≤◌, length, MatchOption};
ghost use Rattle.algebra.specs.Expressions.{leaves};
ghost use Rattle.algebra.specs.Left.{fresh, fulfilled, strikes, gains, applied};
ghost use Rattle.algebra.specs.Rules.{Counts};

use super::leaf::LeafNumber;
use super::literal::Literal;
use super::marks::Marks;

// What a leaf says: a literal, `yes`, which every trace meets, or `no`, which none meets.
#[derive(Clone, Copy, Debug, PartialEq, Eq)]
pub enum Atom {
    Lit(Literal),
    Yes,
    No,
}

// `alt` is met by meeting either part, `all` by meeting both, and `seq` by a front that meets the
// first part and a rest that meets the second; front or rest may be empty.
#[derive(Clone, Copy, Debug, PartialEq, Eq)]
pub enum Head {
    Alt,
    All,
    Seq,
}

// A head of more than two members stands as pairs to the right: (seq E F G) is (seq E (seq F G)).
#[derive(Drop)]
pub enum Expr {
    Leaf(Atom, LeafNumber),
    Binary(Head, Box<Expr>, Box<Expr>),
}

impl Expr {
    // The marks before any literal.
    pub fn fresh(&self) -> Marks
        ensures { result ≡ fresh self.now }
    {
        match self {
            Expr::Leaf(Atom::Lit(_), _) => Marks::none(),
            Expr::Leaf(Atom::Yes, leaf) => Marks::met_at(*leaf),
            Expr::Leaf(Atom::No, leaf) => Marks::struck_at(*leaf),
            Expr::Binary(_, a, b) => a.fresh().union(b.fresh()),
        }
    }

    // A leaf is fulfilled if it is met, an `alt` if either part is, an `all` or a `seq` if both are.
    pub fn fulfilled(&self, marks: Marks) -> bool
        ensures { result ≡ fulfilled self.now marks }
    {
        match self {
            Expr::Leaf(_, leaf) => marks.is_met(*leaf),
            Expr::Binary(Head::Alt, a, b) => a.fulfilled(marks) || b.fulfilled(marks),
            Expr::Binary(Head::All | Head::Seq, a, b) => a.fulfilled(marks) && b.fulfilled(marks),
        }
    }

    // Applies a literal: the marks afterwards.
    pub fn apply(&self, literal: Literal, marks: Marks) -> Marks
        ensures { result ≡ applied self.now marks literal }
    {
        marks.union(self.gains(literal, marks))
    }

    // The leaves that a literal meets and those that it strikes, where `before` has the marks before it.
    // In a `seq` it reaches the second part only if the first was fulfilled before it.
    pub(crate) fn gains(&self, literal: Literal, before: Marks) -> Marks
        ensures { result ≡ gains self.now literal before }
    {
        match self {
            Expr::Leaf(Atom::Lit(own), leaf) if before.is_open(*leaf) && *own == literal => {
                Marks::met_at(*leaf)
            }
            Expr::Leaf(_, _) => self.strikes(literal.event(), before),
            Expr::Binary(Head::Alt | Head::All, a, b) => {
                a.gains(literal, before).union(b.gains(literal, before))
            }
            Expr::Binary(Head::Seq, a, b) => {
                let second = if a.fulfilled(before) {
                    b.gains(literal, before)
                } else {
                    b.strikes(literal.event(), before)
                };
                a.gains(literal, before).union(second)
            }
        }
    }

    // The leaves of an event that are open in `before`, under either sign, as struck.
    pub(crate) fn strikes(&self, event: u8, before: Marks) -> Marks
        ensures { result ≡ strikes self.now event before }
    {
        match self {
            Expr::Leaf(Atom::Lit(own), leaf) if before.is_open(*leaf) && own.event() == event => {
                Marks::struck_at(*leaf)
            }
            Expr::Leaf(_, _) => Marks::none(),
            Expr::Binary(_, a, b) => a.strikes(event, before).union(b.strikes(event, before)),
        }
    }

    // Whether the leaves are numbered from `first` on, as written: the number that comes next then.
    pub(crate) fn numbers_on(&self, first: u8) -> Option<u8>
        ensures { MatchOption result (Counts first (leaves self.now) → ⊥) (λ next. Counts first (leaves self.now) × (next ≡ first + length (leaves self.now)) × (next ≤ 64)) }
    {
        match self {
            Expr::Leaf(_, leaf) => (leaf.value() == first).then(|| first + 1),
            Expr::Binary(_, a, b) => b.numbers_on(a.numbers_on(first)?),
        }
    }
}
