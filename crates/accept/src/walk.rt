// Whether a file is a flow's.
ghost use Rattle.accept.specs.Outcomes.{OneOutcome};
ghost use Rattle.accept.specs.Checks.{Walked, Accepting, Checked};

use super::counts::Progress;
use super::names::EventNames;
use super::step::step_line;
use refusals::{Refusal, Summary};

// The largest length of a flow file in bytes.
const LONGEST: usize = 16_384;

// Reads every line of a file.
fn walk(file: &[u8]) -> Result<Progress, Refusal>
    ensures { Walked file.now result }
{
    let mut names = EventNames::new();
    let mut progress = Progress::start();
    'lines: loop {
        progress = step_line(file, progress, &mut names)?.progress;
        if progress.at >= file.len() {
            return Ok(progress);
        }
    }
}

// How far a file was read, to its end; or why it is refused.
#[tactic(auto, using(crate::proofs::Once::one_outcome))]
fn read_all(file: &[u8]) -> Result<Progress, Refusal>
    ensures outcome { Accepting file.now result }
    ensures once { OneOutcome }
{
    if file.len() > LONGEST {
        return Err(Refusal::TooLong);
    }
    walk(file)
}

// Whether a file is a flow's, and how much it declares and states; or why it is refused. It asks for no
// memory, so every file gets one of the two.
pub fn check(file: &[u8]) -> Result<Summary, Refusal>
    ensures outcome { Checked file.now result }
    ensures once { OneOutcome }
{
    let progress = read_all(file)?;
    Ok(Summary {
        events: progress.events,
        rules: progress.rules,
        leaves: progress.leaves,
    })
}
