// Words with their places in a file.
ghost use Rattle.std.specs.Prelude.{◌≡◌, length};
ghost use Rattle.text.specs.Words.{token_of, gap, OneSpelling};
ghost use Rattle.text.specs.Places.{PlacedAt};

use super::line::Line;
use super::word::{Word, next_word};

// A word with its place and its line.
#[derive(Clone, Copy)]
pub struct Placed<'a> {
    pub word: Word<'a>,
    // Where the word begins in the file, and where it ends: at most the place of the line's end.
    pub place: usize,
    pub end: usize,
    // The number of the line, counted from 1: at most one more than the file has line feeds.
    pub line: usize,
}

impl<'a> Line<'a> {
    // The word that stands at a place of the line, after its gap; absent if none does. Behind an opening
    // bracket and at the line's start, which are tight, there is no gap, and before a closing bracket
    // there is none; elsewhere it is one space.
    pub fn word_at(self, at: usize, tight: bool) -> Option<Placed<'a>>
        ensures word { PlacedAt tight self.entry.text.now at self.entry.number result }
        ensures spelling { OneSpelling }
    {
        let next = next_word(self.text, at, tight)?;
        Some(Placed {
            word: next.word,
            place: at + gap_len(tight, next.word),
            end: next.end,
            line: self.number,
        })
    }
}

// How many bytes stand between a word and the one before it.
fn gap_len(tight: bool, word: Word) -> usize
    ensures { result ≡ length (gap tight (token_of word.entry)) }
{
    match word {
        Word::Close => 0,
        _ => if tight { 0 } else { 1 },
    }
}
