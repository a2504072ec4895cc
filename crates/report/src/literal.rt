// Literals by their text.
ghost use Rattle.report.specs.Texts.{Says};

use super::subject::Subject;
use algebra::Literal;

// The literal that `text` says of the events of a subject: a name says that the event happened, and a
// name behind `~` that it never will. Absent if it says none.
pub(crate) fn read_literal<S: Subject>(subject: &S, text: &[u8]) -> Option<Literal>
    ensures { Says (S.names subject.now) text.now result }
{
    if let Some(event) = subject.find(text) {
        return Some(Literal::Happened(event));
    }
    let name = text.strip_prefix(b"~")?;
    let event = subject.find(name)?;
    Some(Literal::Never(event))
}
