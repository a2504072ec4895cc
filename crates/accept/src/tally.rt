// What the leaves of a rule come to.
ghost use Rattle.std.specs.Prelude.{◌≡◌, ◌+◌, ◌^◌, ◌<◌, ◌≤◌, false, ◌⊎◌, List, [], ◌∷◌, ◌++◌, MatchBool, IfOk};
ghost use Rattle.text.specs.Words.{closes, token_of, is_open};
ghost use Rattle.forms.specs.Forms.{Form, words};
ghost use Rattle.forms.specs.Reads.{Left};
ghost use Rattle.accept.specs.Drafts.{Leaf as LeafOf, leaves as leaves_of};
ghost use Rattle.accept.specs.Tallies.{Constant, leaf_of, Naming, Tallied, Lowest, Judged};

use super::counts::{Progress, Tally};
use super::name::is_name;
use super::names::EventNames;
use forms::Passage;
use refusals::Fault;
use text::{NameRun, Word, is_word};

// Whether a word is `yes` or `no`, which name no event.
fn is_constant(name: &[u8]) -> bool
    ensures { MatchBool result (Constant name.now) (Constant name.now → ⊥) }
{
    is_word(name, b"yes") || is_word(name, b"no")
}

impl Tally {
    // With one leaf more, which names an event.
    fn naming<'a>(self, name: NameRun<'a>, names: &EventNames<'a>) -> Tally
        requires { self.leaves < 2 ^ 63 }
        ensures { Naming names.now name.entry.bytes.now self result }
    {
        let undeclared = names.find(name.bytes).is_none();
        let misnamed = !is_name(name);
        Tally {
            leaves: self.leaves + 1,
            misnamed: self.misnamed | misnamed,
            undeclared: self.undeclared | undeclared,
        }
    }

    // With a word of a rule: a name behind an opening bracket is a head, and `yes` and `no` name no event.
    fn with<'a>(self, word: Word<'a>, tight: bool, names: &EventNames<'a>) -> Tally
        requires { self.leaves < 2 ^ 63 }
        ensures tally { (ls : List LeafOf) → Tallied names.now ls self → Tallied names.now (ls ++ leaf_of tight (token_of word.entry)) result }
        ensures few { result.leaves ≤ self.leaves + 1 }
    {
        match word {
            Word::Open | Word::Close => self,
            Word::Never(name) => self.naming(name, names),
            Word::Name(_) if tight => self,
            Word::Name(name) if is_constant(name.bytes) => Tally {
                leaves: self.leaves + 1,
                ..self
            },
            Word::Name(name) => self.naming(name, names),
        }
    }

    // The fault of the lowest number that the names have.
    fn lowest(self) -> Result<(), Fault>
        ensures { Lowest self result }
    {
        if self.misnamed {
            return Err(Fault::Name);
        }
        if self.undeclared {
            return Err(Fault::Undeclared);
        }
        Ok(())
    }
}

// What the leaves of a rule come to.
fn survey<'a>(rule: Passage<'a>, names: &EventNames<'a>) -> Tally
    ensures { (f : Form) → Left rule.entry.line.text.now rule.entry.at false (words f (closes ∷ [])) [] → Tallied names.now (leaves_of f) result }
{
    let line = rule.line;
    let mut at = rule.at;
    let mut tight = false;
    let mut tally = Tally {
        leaves: 0,
        misnamed: false,
        undeclared: false,
    };
    while at < line.text.len() {
        let Some(next) = line.word_at(at, tight) else {
            return tally;
        };
        tally = tally.with(next.word, tight, names);
        tight = is_open(next.word);
        at = next.end;
    }
    tally
}

impl Progress {
    // Whether one rule more with so many leaves is too much.
    fn is_crowded(self, more: usize) -> bool
        ensures { MatchBool result ((16 ≤ self.rules) ⊎ (64 < self.leaves + more)) ((self.rules < 16) × (self.leaves + more ≤ 64)) }
    {
        self.rules >= 16 || more > usize::from(64 - self.leaves)
    }

    // The number of leaves with those of one rule more; or the fault of the lowest number that it has.
    pub(crate) fn judge<'a>(self, rule: Passage<'a>, names: &EventNames<'a>) -> Result<u8, Fault>
        ensures judged { (f : Form) → Left rule.entry.line.text.now rule.entry.at false (words f (closes ∷ [])) [] → Judged names.now f self.rules self.leaves result }
        ensures few { IfOk result (λ k. (self.rules < 16) × (k ≤ 64)) }
    {
        let tally = survey(rule, names);
        tally.lowest()?;
        if self.is_crowded(tally.leaves) {
            return Err(Fault::TooMany);
        }
        Ok(self.leaves + tally.leaves as u8)
    }
}

// Whether a word is an opening bracket.
fn is_open(word: Word) -> bool
    ensures { result ≡ is_open (token_of word.entry) }
{
    matches!(word, Word::Open)
}
