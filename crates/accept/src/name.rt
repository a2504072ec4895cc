// What is a name of an event.
ghost use Rattle.std.specs.Prelude.{map, MatchBool};
ghost use mathlib.Core.List.{Memᴰ};
ghost use Rattle.accept.specs.Drafts.{Reserved, IsName};

use text::{Kind, NameRun};

// The words that are no names.
const RESERVED: [&[u8]; 11] = [
    b"event",
    b"rule",
    b"alt",
    b"all",
    b"seq",
    b"yes",
    b"no",
    b"flexible",
    b"inevitable",
    b"immediate",
    b"forcible",
];

fn is_reserved(name: &[u8]) -> bool
    ensures { MatchBool result (Reserved name.now) (Reserved name.now → ⊥) }
{
    is_among(name, &RESERVED)
}

// Whether a name is one of some words.
fn is_among(name: &[u8], words: &[&[u8]]) -> bool
    ensures { MatchBool result (Memᴰ name.now (map (λ x. x.now) words.now)) (Memᴰ name.now (map (λ x. x.now) words.now) → ⊥) }
{
    words.iter().any(|word| *word == name)
}

// Whether a run of letters, digits and hyphens is a name: at most 16 bytes, a letter first, and not
// reserved.
pub(crate) fn is_name(name: NameRun) -> bool
    ensures { MatchBool result (IsName name.entry.bytes.now) (IsName name.entry.bytes.now → ⊥) }
{
    if name.bytes.len() > 16 {
        return false;
    }
    Kind::of(name.bytes[0]) == Kind::Letter && !is_reserved(name.bytes)
}
