// Rules and traces from short texts, for the tables of the tests.
use algebra::{Atom, Expr, Head, LeafNumber, Literal, Rules, Trace};
use std::alloc::{AllocError, AllocFailed, Global};

// Why a text gives no value.
#[derive(Debug, Drop)]
pub enum Bad {
    Text,
    Memory,
}

impl From<AllocError> for Bad {
    fn from(_e: AllocError) -> Bad {
        Bad::Memory
    }
}

impl<T: Drop> From<AllocFailed<T>> for Bad {
    fn from(_e: AllocFailed<T>) -> Bad {
        Bad::Memory
    }
}

// What is left of a text.
#[derive(Drop)]
struct Reader<'a> {
    rest: &'a [u8],
    // The number that the next leaf has: at most 64.
    next: u8,
}

impl<'a> Reader<'a> {
    fn of(text: &'a [u8]) -> Reader<'a> {
        Reader {
            rest: text,
            next: 0,
        }
    }

    fn byte(&mut self) -> Result<u8, Bad> {
        let (byte, rest) = self.rest.split_first().ok_or(Bad::Text)?;
        self.rest = rest;
        Ok(*byte)
    }

    // The event of a letter from a to l.
    fn event(&mut self, letter: u8) -> Result<u8, Bad> {
        match letter {
            b'a'..=b'l' => Ok(letter - b'a'),
            _ => Err(Bad::Text),
        }
    }

    fn literal(&mut self, first: u8) -> Result<Literal, Bad> {
        if first == b'~' {
            let letter = self.byte()?;
            Ok(Literal::Never(self.event(letter)?))
        } else {
            Ok(Literal::Happened(self.event(first)?))
        }
    }

    fn leaf(&mut self, atom: Atom) -> Result<Expr, Bad> {
        let number = LeafNumber::new(self.next).ok_or(Bad::Text)?;
        self.next = self.next.saturating_add(1);
        Ok(Expr::Leaf(atom, number))
    }

    // An expression in prefix form, at most `depth` heads deep.
    #[cycle(binary_expr)]
    fn expr(&mut self, heap: Global, depth: u8) -> Result<Expr, Bad> {
        let first = self.byte()?;
        match first {
            b'|' => self.binary(heap, depth, Head::Alt),
            b'&' => self.binary(heap, depth, Head::All),
            b';' => self.binary(heap, depth, Head::Seq),
            b'1' => self.leaf(Atom::Yes),
            b'0' => self.leaf(Atom::No),
            _ => {
                let literal = self.literal(first)?;
                self.leaf(Atom::Lit(literal))
            }
        }
    }

    #[cycle(binary_expr)]
    fn binary(&mut self, heap: Global, depth: u8, head: Head) -> Result<Expr, Bad> {
        if depth == 0 {
            return Err(Bad::Text);
        }
        let a = Box::new(heap, self.expr(heap, depth - 1)?)?;
        let b = Box::new(heap, self.expr(heap, depth - 1)?)?;
        Ok(Expr::Binary(head, a, b))
    }
}

pub fn rules(heap: Global, text: &[u8]) -> Result<Rules, Bad> {
    let mut reader = Reader::of(text);
    let mut rules = Rules::new(heap);
    for _ in 0..64 {
        if reader.rest.is_empty() {
            return Ok(rules);
        }
        let rule = reader.expr(heap, 8)?;
        rules.push(rule).map_err(|_| Bad::Memory)?;
    }
    Err(Bad::Text)
}

pub fn trace(heap: Global, text: &[u8]) -> Result<Trace, Bad> {
    let mut reader = Reader::of(text);
    let mut trace = Trace::new(heap);
    for _ in 0..256 {
        if reader.rest.is_empty() {
            return Ok(trace);
        }
        let first = reader.byte()?;
        let literal = reader.literal(first)?;
        trace.push(literal).map_err(|_| Bad::Text)?;
    }
    Err(Bad::Text)
}

// What the row says of a rule: `1` for fulfilled, `0` for not.
pub fn verdict(text: &[u8], number: usize) -> Option<bool> {
    match text.get(number) {
        Some(b'1') => Some(true),
        Some(b'0') => Some(false),
        _ => None,
    }
}

pub fn words(heap: Global, texts: &[&str]) -> Result<Vec<String>, Bad> {
    texts
        .iter()
        .map(|text| -> Result<String, Bad> { Ok(String::from_str(heap, text)?) })
        .try_collect(heap)
}

// The leaf of a number, which every trace meets.
pub fn yes(number: u8) -> Result<Expr, Bad> {
    let number = LeafNumber::new(number).ok_or(Bad::Text)?;
    Ok(Expr::Leaf(Atom::Yes, number))
}
