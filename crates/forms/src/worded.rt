// Types whose cases are each said by a word.
ghost use Rattle.std.specs.Prelude.{◌≡◌, ℕ, List};
ghost use Rattle.std.specs.List.{Contains};
ghost use Rattle.forms.specs.Reads.{CaseAt};

use super::expr::name_at;

// A type whose cases are each said by a word.
pub(crate) trait Worded: Copy + 'static {
    // The word of a case.
    ghost word_of: { Self → List ℕ };

    // Every case.
    fn cases() -> &'static [Self]
        ensures { (x : Self) → Contains result.now x };

    fn word(self) -> &'static [u8]
        ensures { result.now ≡ word_of self };
}

// The case whose word stands at a place, and where it ends; absent if none does.
pub(crate) fn case_at<T: Worded>(text: &[u8], at: usize, tight: bool) -> Option<(T, usize)>
    ensures { CaseAt T.word_of tight text.now at result }
{
    let (name, end) = name_at(text, at, tight)?;
    let case = T::cases().iter().find(|case| name.bytes == case.word())?;
    Some((*case, end))
}
