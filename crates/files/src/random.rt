// Random files, which two readers judge.
use super::naive::count;
use std::alloc::{AllocError, Global};

// A generator of numbers: xorshift over 64 bits, which are never all 0.
#[derive(Drop)]
struct Dice {
    state: u64,
}

static NAMES: [&'static [u8]; 16] = [
    b"a",
    b"b",
    b"c",
    b"ab",
    b"a-b",
    b"a1",
    b"approve",
    b"plate",
    b"yes-",
    b"noon",
    b"rules",
    b"z9",
    b"abcdefghijklmnop",
    b"abcdefghijklmnoq",
    b"e--",
    b"seq2",
];

// Runs that are no names, and one that is.
static OTHERS: [&'static [u8]; 12] = [
    b"yes",
    b"no",
    b"alt",
    b"event",
    b"rule",
    b"forcible",
    b"flexible",
    b"1",
    b"9a",
    b"-a",
    b"abcdefghijklmnopq",
    b"other",
];

static GRADES: [&'static [u8]; 3] = [b" flexible", b" inevitable", b" immediate"];

static HEADS: [&'static [u8]; 3] = [b" (alt", b" (all", b" (seq"];

static PIECES: [&'static [u8]; 16] = [
    b"(event a flexible)\n",
    b"(event b flexible)\n",
    b"(rule a)\n",
    b"(event ",
    b"(rule ",
    b"(alt ",
    b"(",
    b")",
    b")\n",
    b" ",
    b" flexible",
    b" forcible",
    b"a",
    b"~b",
    b"yes",
    b"\n",
];

static BYTES: &'static [u8] = b"abcabzlo019--~~(()) \n A\t\xff";

// The events of a file: so many names from the one of this number on, around the end.
#[derive(Clone, Copy)]
struct Cast {
    // At most 15.
    first: usize,
    // At most 13.
    events: usize,
}

impl Cast {
    fn name(self, event: usize) -> &'static [u8] {
        NAMES[self.first.saturating_add(event) % 16]
    }
}

impl Dice {
    fn roll(&mut self) -> u64 {
        let mut x = self.state;
        x ^= x << 13;
        x ^= x >> 7;
        x ^= x << 17;
        self.state = x;
        x
    }

    // A number below this one, or 0.
    fn below(&mut self, count: usize) -> usize {
        let rolled = self.roll();
        if count == 0 {
            return 0;
        }
        (rolled % count as u64) as usize
    }

    // True once in so many calls.
    fn once_in(&mut self, count: usize) -> bool {
        self.below(count) == 0
    }

    fn pick<'a>(&mut self, words: &[&'a [u8]]) -> &'a [u8] {
        let number = self.below(words.len());
        words.get(number).copied().unwrap_or(b"a")
    }

    fn byte(&mut self) -> u8 {
        let number = self.below(BYTES.len());
        BYTES.get(number).copied().unwrap_or(b'a')
    }

    // The name of an event of a file; now and then another.
    fn name(&mut self, cast: Cast) -> &'static [u8] {
        if self.once_in(120) {
            return self.pick(&OTHERS);
        }
        cast.name(self.below(cast.events))
    }

    fn leaf(&mut self, file: &mut Vec<u8>, cast: Cast) -> Result<(), AllocError> {
        if self.once_in(8) {
            let constant: &[u8] = if self.once_in(2) { b" yes" } else { b" no" };
            return file.extend_from_slice(constant);
        }
        let tilde: &[u8] = if self.once_in(3) { b" ~" } else { b" " };
        file.extend_from_slice(tilde)?;
        file.extend_from_slice(self.name(cast))
    }

    // Whether to close a form that has so many members, where so many leaves are still wanted.
    fn closes(&mut self, members: u8, left: usize, closing: usize) -> bool {
        if members >= 8 {
            return !self.once_in(30);
        }
        (members >= 2 && (left == 0 || self.once_in(closing))) || self.once_in(300)
    }

    // Adds an expression behind a space.
    fn expression(
        &mut self,
        heap: Global,
        file: &mut Vec<u8>,
        cast: Cast,
    ) -> Result<(), AllocError> {
        let mut left = self.below(18);
        let closing = self.below(12).saturating_add(2);
        let opening = self.below(4).saturating_add(1);
        let deepest = if self.once_in(12) { 9 } else { 8 };
        let mut open: Vec<u8> = Vec::new(heap);
        for step in 0..160 {
            if step > 0 && open.is_empty() {
                return Ok(());
            }
            let members = open.as_slice().last().copied().unwrap_or(0);
            if step > 0 && self.closes(members, left, closing) {
                let _ = open.pop();
                file.push(b')')?;
                count(&mut open)?;
            } else if left > 0 && open.len() < deepest && self.once_in(opening) {
                let head = self.pick(&HEADS);
                file.extend_from_slice(head)?;
                open.push(0)?;
            } else {
                self.leaf(file, cast)?;
                count(&mut open)?;
                left = left.saturating_sub(1);
            }
        }
        Ok(())
    }

    // Adds an event line, which is mostly right.
    fn event(&mut self, file: &mut Vec<u8>, own: &[u8]) -> Result<(), AllocError> {
        let name = if self.once_in(150) {
            self.pick(&OTHERS)
        } else if self.once_in(60) {
            self.pick(&NAMES)
        } else {
            own
        };
        let grade = self.pick(&GRADES);
        let end: &[u8] = if self.once_in(3) {
            b" forcible)\n"
        } else {
            b")\n"
        };
        file.extend_from_slice(b"(event ")?;
        file.extend_from_slice(name)?;
        file.extend_from_slice(grade)?;
        file.extend_from_slice(end)
    }

    // A file that mostly is a flow's.
    fn good(&mut self, heap: Global) -> Result<Vec<u8>, AllocError> {
        let mut file = Vec::new(heap);
        let most = if self.once_in(4) { 13 } else { 8 };
        let events = if self.once_in(40) {
            0
        } else {
            self.below(most).saturating_add(1)
        };
        let first = self.below(16);
        let cast = Cast { first, events };
        for event in 0..events {
            self.event(&mut file, cast.name(event))?;
        }
        let is_full = self.once_in(8);
        let rules = if is_full {
            self.below(24)
        } else {
            self.below(8)
        };
        for _ in 0..rules {
            file.extend_from_slice(b"(rule")?;
            if is_full {
                self.leaf(&mut file, cast)?;
            } else {
                self.expression(heap, &mut file, cast)?;
            }
            file.extend_from_slice(b")\n")?;
        }
        Ok(file)
    }

    // Changes, drops, doubles, moves or adds a byte, or cuts the file off.
    fn spoil(&mut self, file: &mut Vec<u8>) -> Result<(), AllocError> {
        let at = self.below(file.len());
        if at >= file.len() {
            return Ok(());
        }
        let byte = file[at];
        let other = self.byte();
        match self.below(6) {
            0 => file[at] = other,
            1 => {
                let _ = file.remove(at);
            }
            2 => file.insert(at, byte)?,
            3 => {
                let _ = file.remove(at);
                let to = self.below(file.len());
                if to <= file.len() {
                    file.insert(to, byte)?;
                }
            }
            4 => file.insert(at, other)?,
            _ => file.truncate(at),
        }
        Ok(())
    }

    // Parts of files in any order, or bytes.
    fn scraps(&mut self, heap: Global) -> Result<Vec<u8>, AllocError> {
        let mut file = Vec::new(heap);
        let is_bytes = self.once_in(3);
        let length = self.below(16);
        for _ in 0..length {
            if is_bytes {
                file.push(self.byte())?;
            } else {
                let piece = self.pick(&PIECES);
                file.extend_from_slice(piece)?;
            }
        }
        Ok(file)
    }

    fn file(&mut self, heap: Global) -> Result<Vec<u8>, AllocError> {
        if self.once_in(8) {
            return self.scraps(heap);
        }
        let mut file = self.good(heap)?;
        let times = self.below(4) / 2;
        for _ in 0..times {
            self.spoil(&mut file)?;
        }
        if self.once_in(100) {
            file.resize(16_385, b'\n')?;
        }
        Ok(file)
    }
}

mod tests {
    use super::Dice;
    use crate::naive::judged_again;
    use crate::said::{Said, judged};
    use std::test::Fail;

    // The number of a refusal, and 0 of a flow.
    fn number(said: Said) -> u8 {
        match said {
            Said::Taken(_, _, _) => 0,
            Said::Refused(number, _) => number,
        }
    }

    #[test]
    fn two_readers_agree(rt: HostRuntime) -> Result<(), Fail> {
        let heap = rt.alloc();
        let mut dice = Dice {
            state: 0x9e37_79b9_7f4a_7c15,
        };
        let mut counts = [0usize; 8];
        for trial in 0..6000 {
            let file = dice.file(heap)?;
            let said = judged(&rt, file.as_slice())?;
            let again = judged_again(heap, file.as_slice())?;
            assert_eq!(rt; said, again, "file {trial}");
            let kind = usize::from(number(said));
            assert!(rt; kind < 8);
            counts[kind] = counts[kind].saturating_add(1);
        }
        // Each number came often, and so did flows.
        for (kind, count) in counts.iter().enumerate() {
            assert!(rt; *count >= 50, "{count} of number {kind}");
        }
        Ok(())
    }
}
