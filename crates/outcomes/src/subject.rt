// Flows as what reports are of.
ghost use Rattle.flow.specs.Of.{names_of, rules_of};
ghost use Rattle.outcomes.specs.Lines.{of_flow};

use algebra::{Marks, Rules};
use flow::Flow;
use report::Subject;
use sheet::StatusWord;
use std::alloc::{AllocError, Global};

// A flow, whose lines show the numbers of a position alone, and which words are refused.
#[derive(Clone, Copy)]
pub(crate) struct OfFlow<'a> {
    pub(crate) flow: &'a Flow,
}

impl Subject for OfFlow<'_> {
    ghost names = { λ s. names_of s.flow.now };

    ghost rules = { λ s. rules_of s.flow.now };

    ghost wording = { of_flow };

    #[tactic(auto, using(crate::proofs::Finding::found))]
    fn find(&self, name: &[u8]) -> Option<u8> {
        self.flow.find(name)
    }

    fn rules(&self) -> &Rules {
        self.flow.rules()
    }

    fn left_line(
        &self,
        heap: Global,
        _text: &str,
        word: StatusWord,
        marks: Marks,
    ) -> Result<String, AllocError> {
        let status = word.bits;
        let Marks { met, struck } = marks;
        format!(in heap; "(left {status} {met} {struck})\n")
    }

    fn refused_line(&self, heap: Global, word: &str) -> Result<String, AllocError> {
        format!(in heap; "(refused {word})\n")
    }
}
