// Expressions as they are written.
ghost use Rattle.std.specs.Prelude.{◌≡◌};
ghost use Rattle.forms.specs.Forms.{head_text};
ghost use Rattle.forms.specs.Reads.{NameIs, HeadAt, CloseAt, ExprAt, GroupAt, MembersAt};

use super::worded::{Worded, case_at};
use algebra::Head;
use text::{NameRun, Word, next_word};

// Says that bytes are no form.
#[derive(Clone, Copy, Debug, PartialEq, Eq)]
pub struct NotForm;

// The word that says a head.
pub fn head_text(head: Head) -> &'static [u8]
    ensures { result.now ≡ head_text head }
{
    match head {
        Head::Alt => b"alt",
        Head::All => b"all",
        Head::Seq => b"seq",
    }
}

impl Worded for Head {
    ghost word_of = { head_text };

    fn cases() -> &'static [Head] {
        &[Head::Alt, Head::All, Head::Seq]
    }

    fn word(self) -> &'static [u8] {
        head_text(self)
    }
}

// The name that stands at a place, and where it ends; absent if none does.
pub(crate) fn name_at<'a>(text: &'a [u8], at: usize, tight: bool) -> Option<(NameRun<'a>, usize)>
    ensures { NameIs tight text.now at result }
{
    let next = next_word(text, at, tight)?;
    match next.word {
        Word::Name(name) => Some((name, next.end)),
        _ => None,
    }
}

// The head right behind an opening bracket, and where it ends; absent if there is none.
pub fn head_at(text: &[u8], at: usize) -> Option<(Head, usize)>
    ensures { HeadAt text.now at result }
{
    case_at(text, at, true)
}

// Where the closing bracket ends that stands at a place; absent if none does.
pub fn close_at(text: &[u8], at: usize) -> Option<usize>
    ensures { CloseAt text.now at result }
{
    let next = next_word(text, at, false)?;
    matches!(next.word, Word::Close).then_some(next.end)
}

// Where the expression ends that stands at a place of a text, its heads at most 8 deep. Behind an opening
// bracket and at a line's start, which are tight, no space stands before it.
pub fn expr_end(text: &[u8], at: usize, tight: bool) -> Result<usize, NotForm>
    ensures { ExprAt tight text.now at 8 result }
{
    form_end(text, at, tight, 8)
}

// The same with heads at most `depth` deep.
#[tactic(auto, using(crate::proofs::Parsing::expr_none, crate::proofs::Parsing::expr_leaf, crate::proofs::Parsing::expr_shut, crate::proofs::Parsing::expr_group))]
#[cycle(form_end_group_end_members_end)]
fn form_end(text: &[u8], at: usize, tight: bool, depth: u8) -> Result<usize, NotForm>
    ensures { ExprAt tight text.now at depth result }
{
    let next = next_word(text, at, tight).ok_or(NotForm)?;
    match next.word {
        Word::Name(_) | Word::Never(_) => Ok(next.end),
        Word::Close => Err(NotForm),
        Word::Open => group_end(text, next.end, depth),
    }
}

// Where the group ends whose opening bracket ends at a place: its head, and 2 to 8 members.
#[tactic(auto, using(crate::proofs::Parsing::group_more, crate::proofs::Parsing::group_none, crate::proofs::Parsing::group_first_none))]
#[cycle(form_end_group_end_members_end)]
fn group_end(text: &[u8], at: usize, depth: u8) -> Result<usize, NotForm>
    ensures { GroupAt text.now at depth result }
{
    if depth == 0 {
        return Err(NotForm);
    }
    let (_, head_end) = head_at(text, at).ok_or(NotForm)?;
    let first_end = form_end(text, head_end, false, depth - 1)?;
    members_end(text, first_end, depth - 1, 7)
}

// Where the further members of a group end, at most `left`, with the closing bracket.
#[tactic(auto, using(crate::proofs::Parsing::members_zero, crate::proofs::Parsing::members_more))]
#[cycle(form_end_group_end_members_end)]
fn members_end(text: &[u8], at: usize, depth: u8, left: u8) -> Result<usize, NotForm>
    ensures { MembersAt text.now at depth left result }
{
    if left == 0 {
        return Err(NotForm);
    }
    let end = form_end(text, at, false, depth)?;
    match close_at(text, end) {
        Some(closed) => Ok(closed),
        None => members_end(text, end, depth, left - 1),
    }
}
