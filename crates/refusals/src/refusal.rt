// Why a flow file is refused.
ghost use Rattle.std.specs.Prelude.{◌≡◌, Some};
ghost use Rattle.refusals.specs.Refusals.{fault_number, fault_reader, number_of, line_of, reader_of, reader_text, reason_of, refusal_of};
ghost use Rattle.refusals.specs.declared.refusal.ReadError.TheVariants.{Refused, Memory};

use forms::FormFault;
use std::alloc::AllocError;
use std::fmt;

// The readers of a flow file, each over the one before it.
#[derive(Clone, Copy, PartialEq, Eq)]
pub enum Reader {
    Bytes,
    Forms,
    Flow,
}

// What is wrong with a line.
#[derive(Clone, Copy, PartialEq, Eq)]
pub enum Fault {
    // A byte stands in no flow file.
    Byte,
    // It has not the form of an event or a rule that may come there.
    Shape,
    // A name in it is too long, badly begun or reserved.
    Name,
    // It declares an event that was declared before.
    Twice,
    // A name in it is not declared above.
    Undeclared,
    // It is event 13 or rule 17, or has leaf 65.
    TooMany,
}

// Why a file is refused.
#[derive(Clone, Copy, PartialEq, Eq)]
pub enum Refusal {
    // It is longer than 16,384 bytes.
    TooLong,
    // The line of this number is the first with a fault; of its faults this one has the lowest number.
    // Counted from 1, at most 29: no more than 12 events and 16 rules stand before it.
    Line(usize, Fault),
}

impl From<FormFault> for Refusal {
    ghost from_gives = { λ f r. r ≡ refusal_of f };

    fn from(fault: FormFault) -> Refusal {
        match fault {
            FormFault::Bytes(bytes) => Refusal::Line(bytes.line, Fault::Byte),
            FormFault::Shape(line) => Refusal::Line(line, Fault::Shape),
        }
    }
}

// How much a flow file declares and states.
#[derive(Clone, Copy, PartialEq, Eq)]
pub struct Summary {
    // At most 12.
    pub events: u8,
    // At most 16.
    pub rules: u8,
    // At most 64.
    pub leaves: u8,
}

// Why a file is not read into a flow.
#[derive(Clone, Copy, PartialEq, Eq)]
pub enum ReadError {
    Refused(Refusal),
    // The file is a flow's, and there is no memory for it.
    Memory,
}

impl From<Refusal> for ReadError {
    ghost from_gives = { λ r e. e ≡ Refused r };

    fn from(refusal: Refusal) -> ReadError {
        ReadError::Refused(refusal)
    }
}

impl From<AllocError> for ReadError {
    ghost from_gives = { λ _ e. e ≡ Memory };

    fn from(_error: AllocError) -> ReadError {
        ReadError::Memory
    }
}

impl Reader {
    // The reader's word.
    pub fn text(self) -> &'static str
        ensures { result.now ≡ reader_text self }
    {
        match self {
            Reader::Bytes => "bytes",
            Reader::Forms => "forms",
            Reader::Flow => "flow",
        }
    }
}

// A reader is shown as its word.
impl fmt::Display for Reader {
    ghost output = { λ r. Some (reader_text r) };

    fn fmt<W: fmt::Write>(&self, f: &mut fmt::Formatter<W>) -> fmt::Result {
        f.write_str(self.text())
    }
}

impl Fault {
    // The fault's number: 2 to 7.
    pub fn number(self) -> u8
        ensures { result ≡ fault_number self }
    {
        match self {
            Fault::Byte => 2,
            Fault::Shape => 3,
            Fault::Name => 4,
            Fault::Twice => 5,
            Fault::Undeclared => 6,
            Fault::TooMany => 7,
        }
    }

    // The reader that finds it.
    pub fn reader(self) -> Reader
        ensures { result ≡ fault_reader self }
    {
        match self {
            Fault::Byte => Reader::Bytes,
            Fault::Shape => Reader::Forms,
            Fault::Name | Fault::Twice | Fault::Undeclared | Fault::TooMany => Reader::Flow,
        }
    }

    // The fault in words.
    fn reason(self) -> &'static str
        ensures { result.now ≡ reason_of self }
    {
        match self {
            Fault::Byte => "it has a byte that stands in no flow file",
            Fault::Shape => "it has not the form of an event or a rule that may come there",
            Fault::Name => "a name in it is too long, badly begun or reserved",
            Fault::Twice => "it declares an event that was declared before",
            Fault::Undeclared => "a name in it is not declared above",
            Fault::TooMany => "it is event 13 or rule 17, or has leaf 65",
        }
    }
}

// A fault is shown in words.
impl fmt::Display for Fault {
    ghost output = { λ k. Some (reason_of k) };

    fn fmt<W: fmt::Write>(&self, f: &mut fmt::Formatter<W>) -> fmt::Result {
        f.write_str(self.reason())
    }
}

impl Refusal {
    // The refusal's number: 1 to 7.
    pub fn number(self) -> u8
        ensures { result ≡ number_of self }
    {
        match self {
            Refusal::TooLong => 1,
            Refusal::Line(_, fault) => fault.number(),
        }
    }

    // The line, counted from 1; 0 where the whole file is refused. At most 29.
    pub fn line(self) -> usize
        ensures { result ≡ line_of self }
    {
        match self {
            Refusal::TooLong => 0,
            Refusal::Line(line, _) => line,
        }
    }

    // The reader that found it.
    pub fn reader(self) -> Reader
        ensures { result ≡ reader_of self }
    {
        match self {
            Refusal::TooLong => Reader::Flow,
            Refusal::Line(_, fault) => fault.reader(),
        }
    }
}
