// The lines of a file.
ghost use Rattle.std.specs.Prelude.{◌≡◌, ◌<◌, ◌==◌, length, drop, position, IfSome, MatchBool};
ghost use Rattle.text.specs.Lines.{EndsAt, Strange};
ghost use Rattle.text.specs.Files.{bytes_of, CutAt, LineAt};

use super::kind::Kind;

// A line of a file.
#[derive(Clone, Copy)]
pub struct Line<'a> {
    // The file's bytes up to the line's end, so that a place in them is a place in the file.
    pub text: &'a [u8],
    // Where the line begins in the file: at most the length of `text`, if the file reaches so far.
    pub start: usize,
    // Counted from 1: at most one more than the file has line feeds.
    pub number: usize,
    // Whether a line feed ends the line, and not the end of the file.
    pub ended: bool,
}

// Says that a line has a byte that stands in no flow file.
#[derive(Clone, Copy, Debug, PartialEq, Eq)]
pub struct ByteFault {
    // Counted from 1: at most one more than the file has line feeds.
    pub line: usize,
}

// The place of the first line feed from a place on; absent if there is none.
#[tactic(auto, using(crate::proofs::Cutting::feed_at))]
pub fn line_end(bytes: &[u8], from: usize) -> Option<usize>
    ensures { EndsAt bytes.now from result }
{
    first_feed(bytes.get(from..)?).map(|ahead| from + ahead)
}

// The place of the first line feed; absent if there is none.
fn first_feed(bytes: &[u8]) -> Option<usize>
    ensures first { result ≡ position (λ b. b == 10) bytes.now }
    ensures within { IfSome result (λ i. i < length bytes.now) }
{
    bytes.iter().position(|byte| *byte == b'\n')
}

impl Line<'_> {
    // Whether a byte of the line stands in no flow file.
    fn is_strange(self) -> bool
        ensures { MatchBool result (Strange (bytes_of self.entry)) (Strange (bytes_of self.entry) → ⊥) }
    {
        let Some(bytes) = self.text.get(self.start..) else {
            return false;
        };
        bytes.iter().any(|byte| Kind::of(*byte) == Kind::Other)
    }
}

// The line that begins at a place of a file and has this number.
pub fn line_at<'a>(file: &'a [u8], start: usize, number: usize) -> Result<Line<'a>, ByteFault>
    ensures { LineAt file.now start number result }
{
    let line = cut(file, start, number);
    if line.is_strange() {
        return Err(ByteFault { line: number });
    }
    Ok(line)
}

// The line that begins at a place, whatever its bytes are.
fn cut<'a>(file: &'a [u8], start: usize, number: usize) -> Line<'a>
    ensures { CutAt file.now start number result }
{
    let (text, ended) = match line_end(file, start) {
        Some(end) => (&file[..end], true),
        None => (file, false),
    };
    Line {
        text,
        start,
        number,
        ended,
    }
}
