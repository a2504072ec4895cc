// Names as keys of a map.
ghost use Rattle.std.specs.Prelude.{◌≡◌};
ghost use Rattle.accept.specs.Keys.{same_name, hash_of, name_hash, name_laws};

use slots::Key;

// A name as the file has it.
#[derive(Clone, Copy)]
pub struct NameKey<'a> {
    pub bytes: &'a [u8],
}

impl<'a> Key for NameKey<'a> {
    ghost same = { same_name };

    ghost hash = { name_hash };

    ghost laws = { name_laws };

    fn same(&self, other: &NameKey<'a>) -> bool {
        self.bytes == other.bytes
    }

    fn hash(&self) -> u64 {
        fnv(self.bytes)
    }
}

// The hash FNV-1a of some bytes.
#[tactic(auto, unfolding(crate::specs::Keys::hash_of))]
fn fnv(bytes: &[u8]) -> u64
    ensures { result ≡ hash_of bytes.now }
{
    bytes.iter().fold(0xcbf2_9ce4_8422_2325, |hash, byte| {
        (hash ^ u64::from(*byte)).wrapping_mul(0x100_0000_01b3)
    })
}
