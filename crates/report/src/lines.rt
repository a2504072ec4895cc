// Single lines, and the statuses that literals settle.
ghost use Rattle.std.specs.Prelude.{◌≡◌, IfOk, string_bytes};
ghost use Rattle.algebra.specs.Of.{rules_of, literals_of};
ghost use Rattle.sheet.specs.Of.{bits_of};
ghost use Rattle.sheet.specs.Statuses.{packed, statuses};
ghost use Rattle.report.specs.Lines.{settled, left_line, verdict_of, rule_line, RuleLines};

use algebra::{Literal, Marks, Rules, Trace};
use sheet::{Status, StatusWord};
use std::alloc::{AllocError, Global};

// The statuses after a literal. A word holds twelve events, so a literal of another changes nothing.
#[tactic(auto, using(crate::proofs::Settling::settled_or_same))]
pub fn settle(word: StatusWord, literal: Literal) -> StatusWord
    ensures { bits_of result ≡ packed (settled (statuses (bits_of word)) literal) }
{
    let status = match literal {
        Literal::Happened(_) => Status::Happened,
        Literal::Never(_) => Status::Never,
    };
    word.with(literal.event(), status).unwrap_or(word)
}

// The line of a literal, with the three numbers of the position after it.
pub(crate) fn left_line(
    heap: Global,
    text: &str,
    word: StatusWord,
    marks: Marks,
) -> Result<String, AllocError>
    ensures { IfOk result (λ s. string_bytes s ≡ left_line text.now (bits_of word) marks) }
{
    let status = word.bits;
    let met = marks.met;
    let struck = marks.struck;
    format!(in heap; "(left {text} {status} {met} {struck})\n")
}

// What is said of a rule.
fn verdict(fulfilled: bool) -> &'static str
    ensures { result.now ≡ verdict_of fulfilled }
{
    if fulfilled {
        "fulfilled"
    } else {
        "unfulfilled"
    }
}

// The line of a rule.
pub(crate) fn rule_line(heap: Global, number: usize, fulfilled: bool) -> Result<String, AllocError>
    ensures { IfOk result (λ s. string_bytes s ≡ rule_line number fulfilled) }
{
    let said = verdict(fulfilled);
    format!(in heap; "(rule {number} {said})\n")
}

// The lines of all rules, numbered from 0, after a trace.
pub fn rule_lines(heap: Global, rules: &Rules, trace: &Trace) -> Result<String, AllocError>
    ensures { IfOk result (λ s. RuleLines (rules_of rules.now) (literals_of trace.now) (string_bytes s)) }
{
    let mut text = String::new(heap);
    for number in 0..rules.len() {
        let fulfilled = rules.fulfilled_by(number, trace).unwrap();
        let line = rule_line(heap, number, fulfilled)?;
        text.push_str(line.as_str())?;
    }
    Ok(text)
}
