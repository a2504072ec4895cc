// Words of a line: brackets, names, and names behind `~`.
ghost use Rattle.std.specs.Prelude.{◌≡◌, ◌≤◌, true, false, length, MatchBool, ◌≢◌};
ghost use Rattle.text.specs.Names.{in_name};
ghost use Rattle.text.specs.Words.{OneSpelling};
ghost use Rattle.text.specs.Runs.{EndOfRun, NameAt, InnerAt, NextAt};

use super::kind::Kind;
use super::name::NameRun;

#[derive(Clone, Copy)]
pub enum Word<'a> {
    Open,
    Close,
    Name(NameRun<'a>),
    // A name behind `~`, which is not among the bytes.
    Never(NameRun<'a>),
}

// A word, and the place where it ends: at most the length of its line.
#[derive(Clone, Copy)]
pub struct Next<'a> {
    pub word: Word<'a>,
    pub end: usize,
}

impl Kind {
    // Whether bytes of this kind stand in names.
    pub fn in_name(self) -> bool
        ensures { result ≡ in_name self }
    {
        matches!(self, Kind::Letter | Kind::Digit | Kind::Hyphen)
    }
}

// Whether a name is a word.
pub fn is_word(name: &[u8], word: &[u8]) -> bool
    ensures { MatchBool result (name.now ≡ word.now) (name.now ≢ word.now) }
{
    name == word
}

// Where the bytes end that stand in a name, from a place on.
fn run_end(text: &[u8], from: usize) -> usize
    requires { from ≤ length text.now }
    ensures { EndOfRun text.now from result }
{
    text[from..]
        .iter()
        .position(|byte| !Kind::of(*byte).in_name())
        .map_or(text.len(), |run| from + run)
}

// The name that stands at a place, and where it ends; absent if none does.
fn name_at<'a>(text: &'a [u8], at: usize) -> Option<(NameRun<'a>, usize)>
    requires { at ≤ length text.now }
    ensures { NameAt text.now at result }
{
    let end = run_end(text, at);
    if at < end {
        let bytes = &text[at..end];
        Some((NameRun { bytes }, end))
    } else {
        None
    }
}

// The word other than a closing bracket that stands at a place; absent if none does.
fn inner_at<'a>(text: &'a [u8], at: usize) -> Option<Next<'a>>
    ensures { InnerAt text.now at result }
{
    match Kind::of(*text.get(at)?) {
        Kind::Open => Some(Next {
            word: Word::Open,
            end: at + 1,
        }),
        Kind::Tilde => {
            let (name, end) = name_at(text, at + 1)?;
            Some(Next {
                word: Word::Never(name),
                end,
            })
        }
        _ => {
            let (name, end) = name_at(text, at)?;
            Some(Next {
                word: Word::Name(name),
                end,
            })
        }
    }
}

// The word that stands at a place of a line, after its gap; absent if none does. Behind an opening
// bracket and at the line's start, which are tight, there is no gap, and before a closing bracket
// there is none; elsewhere it is one space.
#[tactic(auto, using(crate::proofs::Spelling::one_spelling))]
pub fn next_word<'a>(text: &'a [u8], at: usize, tight: bool) -> Option<Next<'a>>
    ensures word { NextAt tight text.now at result }
    ensures spelling { OneSpelling }
{
    let kind = Kind::of(*text.get(at)?);
    if kind == Kind::Close {
        Some(Next {
            word: Word::Close,
            end: at + 1,
        })
    } else if tight {
        inner_at(text, at)
    } else if kind == Kind::Space {
        inner_at(text, at + 1)
    } else {
        None
    }
}
