// Rules between events of a list of names.
ghost use Rattle.std.specs.Prelude.{◌≡◌, take, IfOk, string_bytes};
ghost use Rattle.std.specs.List.{position};
ghost use Rattle.std.specs.Str.{bytes_eq};
ghost use Rattle.algebra.specs.Of.{rules_of};
ghost use Rattle.sheet.specs.Of.{bits_of};
ghost use Rattle.report.specs.Texts.{first_twelve};
ghost use Rattle.report.specs.Lines.{by_name};

use super::lines::left_line;
use super::subject::Subject;
use algebra::{Marks, Rules};
use sheet::StatusWord;
use std::alloc::{AllocError, Global};

// The events have the numbers of their names in the list, of which those past the twelfth are none.
#[derive(Clone, Copy)]
pub(crate) struct NamedRules<'a> {
    pub(crate) names: &'a [&'a [u8]],
    pub(crate) rules: &'a Rules,
}

impl NamedRules<'_> {
    // The place of a name among the first twelve; absent if it is not among them.
    fn place(&self, name: &[u8]) -> Option<usize>
        ensures { result ≡ position (λ t. bytes_eq t.now name.now) (take 12 self.now.names.now) }
    {
        self.names.iter().take(12).position(|other| *other == name)
    }
}

impl Subject for NamedRules<'_> {
    ghost names = { λ s. first_twelve s.names.now };

    ghost rules = { λ s. rules_of s.rules.now };

    ghost wording = { by_name };

    #[tactic(auto, using(crate::proofs::Finding::found_here))]
    fn find(&self, name: &[u8]) -> Option<u8> {
        Some(self.place(name)? as u8)
    }

    fn rules(&self) -> &Rules {
        self.rules
    }

    fn left_line(
        &self,
        heap: Global,
        text: &str,
        word: StatusWord,
        marks: Marks,
    ) -> Result<String, AllocError> {
        left_line(heap, text, word, marks)
    }

    fn refused_line(&self, heap: Global, _word: &str) -> Result<String, AllocError> {
        Ok(String::new(heap))
    }
}
