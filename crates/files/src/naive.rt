// A second reader of flow files, for comparison. It is written from what a flow file is alone, shares no
// code with the readers that it is compared with, and goes another way: a line is cut into words at spaces
// and brackets, has to be what these words give when they are written out again, and is then judged by
// its words.
use super::said::Said;
use std::alloc::{AllocError, AllocFailed, Global};

type Words = Vec<Vec<u8>>;

const OPEN: &[u8] = b"(";

const CLOSE: &[u8] = b")";

// What is wrong with a line, by its number.
#[derive(Clone, Copy)]
enum Fault {
    Byte = 2,
    Shape = 3,
    Name = 4,
    Twice = 5,
    Undeclared = 6,
    TooMany = 7,
}

// Why a line is not taken: it is faulty, or there is no memory for it.
#[derive(Drop)]
enum Stop {
    Faulty(Fault),
    Memory(AllocError),
}

impl From<Fault> for Stop {
    fn from(fault: Fault) -> Stop {
        Stop::Faulty(fault)
    }
}

impl From<AllocError> for Stop {
    fn from(error: AllocError) -> Stop {
        Stop::Memory(error)
    }
}

impl<T: Drop> From<AllocFailed<T>> for Stop {
    fn from(error: AllocFailed<T>) -> Stop {
        Stop::Memory(error.into())
    }
}

// What the lines before declare and state.
#[derive(Drop)]
struct Seen {
    names: Words,
    // At most 16.
    rules: usize,
    // At most 64.
    leaves: usize,
}

fn is_run_byte(byte: u8) -> bool {
    matches!(byte, b'a'..=b'z' | b'0'..=b'9' | b'-')
}

fn is_bracket(byte: u8) -> bool {
    matches!(byte, b'(' | b')')
}

fn is_flow_byte(byte: u8) -> bool {
    is_run_byte(byte) || is_bracket(byte) || matches!(byte, b'~' | b' ')
}

// Whether a word is a run of letters, digits and hyphens.
fn is_run(word: &[u8]) -> bool {
    !word.is_empty() && word.iter().all(|byte| is_run_byte(*byte))
}

fn is_leaf(word: &[u8]) -> bool {
    is_run(word.strip_prefix(b"~").unwrap_or(word))
}

fn is_in(word: &[u8], words: &[&[u8]]) -> bool {
    words.iter().any(|other| *other == word)
}

// The name in a leaf; absent if the leaf is `yes` or `no`.
fn name_in(leaf: &[u8]) -> Option<&[u8]> {
    if is_in(leaf, &[b"yes", b"no"]) {
        return None;
    }
    Some(leaf.strip_prefix(b"~").unwrap_or(leaf))
}

fn is_reserved(word: &[u8]) -> bool {
    is_in(
        word,
        &[
            b"event",
            b"rule",
            b"alt",
            b"all",
            b"seq",
            b"yes",
            b"no",
            b"flexible",
            b"inevitable",
            b"immediate",
            b"forcible",
        ],
    )
}

fn is_name(word: &[u8]) -> bool {
    matches!(word.first(), Some(b'a'..=b'z'))
        && word.len() <= 16
        && is_run(word)
        && !is_reserved(word)
}

fn add(words: &mut Words, heap: Global, word: &[u8]) -> Result<(), AllocError> {
    if !word.is_empty() {
        words.push(Vec::from_slice(heap, word)?)?;
    }
    Ok(())
}

// The brackets of a line, and what stands between brackets and spaces.
fn words_in(heap: Global, line: &[u8]) -> Result<Words, AllocError> {
    let mut words = Vec::new(heap);
    let mut word = Vec::new(heap);
    for byte in line {
        if is_bracket(*byte) || *byte == b' ' {
            add(&mut words, heap, word.as_slice())?;
            word.clear();
        }
        if is_bracket(*byte) {
            add(&mut words, heap, &[*byte])?;
        } else if *byte != b' ' {
            word.push(*byte)?;
        }
    }
    add(&mut words, heap, word.as_slice())?;
    Ok(words)
}

// The line of some words: a space between two, but none behind `(` and before `)`.
fn line_of(heap: Global, words: &[Vec<u8>]) -> Result<Vec<u8>, AllocError> {
    let mut line = Vec::new(heap);
    let mut tight = true;
    for word in words {
        let word = word.as_slice();
        if !tight && word != CLOSE {
            line.push(b' ')?;
        }
        line.extend_from_slice(word)?;
        tight = word == OPEN;
    }
    Ok(line)
}

// The name of the event that some words declare; absent if they declare none.
fn declared(words: &[Vec<u8>]) -> Option<&[u8]> {
    let (open, event, name, grade, end) = match words {
        [open, event, name, grade, close] => (open, event, name, grade, close),
        [open, event, name, grade, forcible, close]
            if forcible.as_slice() == b"forcible".as_slice() => {
            (open, event, name, grade, close)
        }
        _ => return None,
    };
    let name = name.as_slice();
    let is_event = open.as_slice() == OPEN
        && event.as_slice() == b"event".as_slice()
        && is_run(name)
        && is_in(
            grade.as_slice(),
            &[b"flexible", b"inevitable", b"immediate"],
        )
        && end.as_slice() == CLOSE;
    is_event.then_some(name)
}

// Counts one member more in the innermost of the open forms.
pub fn count(open: &mut Vec<u8>) -> Result<(), AllocError> {
    if let Some(members) = open.pop() {
        open.push(members.saturating_add(1))?;
    }
    Ok(())
}

// The leaves of a rule's line, in their order. The open forms are kept with the number of their members so
// far, the line's own first, which has one.
fn leaves_in(heap: Global, words: &[Vec<u8>]) -> Result<Words, Stop> {
    let [bracket, rule, inner @ ..] = words else {
        return Err(Fault::Shape.into());
    };
    if bracket.as_slice() != OPEN || rule.as_slice() != b"rule".as_slice() {
        return Err(Fault::Shape.into());
    }
    let mut leaves = Vec::new(heap);
    let mut open = Vec::new(heap);
    open.push(0)?;
    let mut before = rule.as_slice();
    for word in inner {
        let word = word.as_slice();
        if open.is_empty() {
            return Err(Fault::Shape.into());
        }
        if before == OPEN {
            if !is_in(word, &[b"alt", b"all", b"seq"]) {
                return Err(Fault::Shape.into());
            }
        } else if word == OPEN {
            open.push(0)?;
            if open.len() > 9 {
                return Err(Fault::Shape.into());
            }
        } else if word == CLOSE {
            let members = open.pop().unwrap_or(0);
            let fits = if open.is_empty() {
                members == 1
            } else {
                matches!(members, 2..=8)
            };
            if !fits {
                return Err(Fault::Shape.into());
            }
            count(&mut open)?;
        } else if is_leaf(word) {
            add(&mut leaves, heap, word)?;
            count(&mut open)?;
        } else {
            return Err(Fault::Shape.into());
        }
        before = word;
    }
    if !open.is_empty() {
        return Err(Fault::Shape.into());
    }
    Ok(leaves)
}

impl Seen {
    fn nothing(heap: Global) -> Seen {
        Seen {
            names: Vec::new(heap),
            rules: 0,
            leaves: 0,
        }
    }

    fn has(&self, name: &[u8]) -> bool {
        self.names.iter().any(|other| other.as_slice() == name)
    }

    // Declares an event.
    fn declare(&mut self, heap: Global, name: &[u8]) -> Result<(), Stop> {
        if self.rules > 0 {
            return Err(Fault::Shape.into());
        }
        if !is_name(name) {
            return Err(Fault::Name.into());
        }
        if self.has(name) {
            return Err(Fault::Twice.into());
        }
        if self.names.len() >= 12 {
            return Err(Fault::TooMany.into());
        }
        add(&mut self.names, heap, name)?;
        Ok(())
    }

    // States a rule with these leaves.
    fn state(&mut self, leaves: &[Vec<u8>]) -> Result<(), Fault> {
        if self.names.is_empty() {
            return Err(Fault::Shape);
        }
        let mut names = leaves.iter().filter_map(|leaf| name_in(leaf.as_slice()));
        if !names.all(is_name) {
            return Err(Fault::Name);
        }
        let mut names = leaves.iter().filter_map(|leaf| name_in(leaf.as_slice()));
        if !names.all(|name| self.has(name)) {
            return Err(Fault::Undeclared);
        }
        let sum = self.leaves.saturating_add(leaves.len());
        if self.rules >= 16 || sum > 64 {
            return Err(Fault::TooMany);
        }
        self.rules = self.rules.saturating_add(1);
        self.leaves = sum;
        Ok(())
    }

    // Takes a line, with its line feed if it has one; gives the fault of the lowest number.
    fn take(&mut self, heap: Global, line: &[u8]) -> Result<(), Stop> {
        let ended = line.strip_suffix(b"\n");
        let text = ended.unwrap_or(line);
        if !text.iter().all(|byte| is_flow_byte(*byte)) {
            return Err(Fault::Byte.into());
        }
        let words = words_in(heap, text)?;
        let again = line_of(heap, words.as_slice())?;
        if ended.is_none() || again.as_slice() != text {
            return Err(Fault::Shape.into());
        }
        match declared(words.as_slice()) {
            Some(name) => self.declare(heap, name),
            None => Ok(self.state(leaves_in(heap, words.as_slice())?.as_slice())?),
        }
    }
}

// What is to be said of a file.
pub fn judged_again(heap: Global, file: &[u8]) -> Result<Said, AllocError> {
    if file.len() > 16_384 {
        return Ok(Said::Refused(1, 0));
    }
    // An empty file has one line, which is empty.
    if file.is_empty() {
        return Ok(Said::Refused(3, 1));
    }
    let mut seen = Seen::nothing(heap);
    for (above, line) in file.split_inclusive(|byte| *byte == b'\n').enumerate() {
        match seen.take(heap, line) {
            Ok(()) => {}
            Err(Stop::Faulty(fault)) => {
                return Ok(Said::Refused(fault as u8, above.saturating_add(1)));
            }
            Err(Stop::Memory(error)) => return Err(error),
        }
    }
    Ok(Said::Taken(seen.names.len(), seen.rules, seen.leaves))
}
