// What a report is of.
ghost use Rattle.std.specs.Prelude.{◌≡◌, ℕ, List, IfOk, string_bytes};
ghost use Rattle.algebra.specs.declared.expr.Expr.{Expr};
ghost use Rattle.algebra.specs.Of.{rules_of};
ghost use Rattle.sheet.specs.Of.{bits_of};
ghost use Rattle.report.specs.Texts.{Found};
ghost use Rattle.report.specs.Lines.{Wording};

use algebra::{Marks, Rules};
use sheet::StatusWord;
use std::alloc::{AllocError, Global};

// Events by their names, the rules between them, and how the lines of a report are worded.
pub trait Subject {
    ghost names: { Self → List (List ℕ) };

    ghost rules: { Self → List Expr };

    ghost wording: { Wording };

    // The number of an event with a name; absent if no event has it.
    fn find(&self, name: &[u8]) -> Option<u8>
        ensures { Found (names self.now) name.now result };

    fn rules(&self) -> &Rules
        ensures { rules_of result.now ≡ rules self.now };

    // The line of a literal that is taken, with its text, and the status word and the marks after it.
    fn left_line(
        &self,
        heap: Global,
        text: &str,
        word: StatusWord,
        marks: Marks,
    ) -> Result<String, AllocError>
        ensures { IfOk result (λ s. string_bytes s ≡ wording.line text.now (bits_of word) marks) };

    // The line of a word that is refused; empty where none is printed.
    fn refused_line(&self, heap: Global, word: &str) -> Result<String, AllocError>
        ensures { IfOk result (λ s. string_bytes s ≡ wording.refused word.now) };
}
