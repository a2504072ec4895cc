// The kinds of bytes.
ghost use Rattle.std.specs.Prelude.{◌≡◌, map};
ghost use Rattle.std.specs.List.{range_with_len};
ghost use Rattle.text.specs.Kinds.{kind_of};

use Kind::{Close, Digit, Hyphen, Letter, LineFeed, Open, Other, Space, Tilde};

#[derive(Clone, Copy, Debug, PartialEq, Eq)]
pub enum Kind {
    // A lower-case letter.
    Letter,
    Digit,
    Hyphen,
    // `~`, which negates a name.
    Tilde,
    Open,
    Close,
    Space,
    LineFeed,
    // A byte that stands in no flow file.
    Other,
}

// The kind of each byte, by its value.
const KINDS: [Kind; 256] = [
    Other, Other, Other, Other, Other, Other, Other, Other, Other, Other, LineFeed, // line feed
    Other, Other, Other, Other, Other, Other, Other, Other, Other, Other, Other, Other, Other,
    Other, Other, Other, Other, Other, Other, Other, Other, Space, // space
    Other, Other, Other, Other, Other, Other, Other, Open, // (
    Close, // )
    Other, Other, Other, Hyphen, // -
    Other, Other, Digit, // 0
    Digit, Digit, Digit, Digit, Digit, Digit, Digit, Digit, Digit, // 9
    Other, Other, Other, Other, Other, Other, Other, Other, Other, Other, Other, Other, Other,
    Other, Other, Other, Other, Other, Other, Other, Other, Other, Other, Other, Other, Other,
    Other, Other, Other, Other, Other, Other, Other, Other, Other, Other, Other, Other, Other,
    Letter, // a
    Letter, Letter, Letter, Letter, Letter, Letter, Letter, Letter, Letter, Letter, Letter, Letter,
    Letter, Letter, Letter, Letter, Letter, Letter, Letter, Letter, Letter, Letter, Letter, Letter,
    Letter, // z
    Other, Other, Other, Tilde, // ~
    Other, Other, Other, Other, Other, Other, Other, Other, Other, Other, Other, Other, Other,
    Other, Other, Other, Other, Other, Other, Other, Other, Other, Other, Other, Other, Other,
    Other, Other, Other, Other, Other, Other, Other, Other, Other, Other, Other, Other, Other,
    Other, Other, Other, Other, Other, Other, Other, Other, Other, Other, Other, Other, Other,
    Other, Other, Other, Other, Other, Other, Other, Other, Other, Other, Other, Other, Other,
    Other, Other, Other, Other, Other, Other, Other, Other, Other, Other, Other, Other, Other,
    Other, Other, Other, Other, Other, Other, Other, Other, Other, Other, Other, Other, Other,
    Other, Other, Other, Other, Other, Other, Other, Other, Other, Other, Other, Other, Other,
    Other, Other, Other, Other, Other, Other, Other, Other, Other, Other, Other, Other, Other,
    Other, Other, Other, Other, Other, Other, Other, Other, Other, Other, Other, Other,
];

// A static, so that the table is read in place, and not copied wherever it is used.
static TABLE: [Kind; 256] = KINDS;

impl Kind {
    pub fn of(byte: u8) -> Kind
        ensures { result ≡ kind_of byte }
    {
        kinds()[byte as usize]
    }
}

// The whole table keeps the rule of kinds.
fn kinds() -> &'static [Kind; 256]
    ensures { result.now ≡ map kind_of (range_with_len 0 256) }
{
    &TABLE
}
