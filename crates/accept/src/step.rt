// Reading a flow file line by line.
ghost use Rattle.std.specs.Prelude.{◌≡◌};
ghost use Rattle.accept.specs.Drafts.{Draft};
ghost use Rattle.accept.specs.Naming.{entered};
ghost use Rattle.accept.specs.Steps.{Reached, Taking, GoesOn, Stepped};

use super::counts::{Progress, Step};
use super::names::EventNames;
use forms::{Entry, Section, read_line};
use refusals::{Fault, Refusal};

impl Progress {
    // Before the first line.
    pub fn start() -> Progress
        ensures { (result.at ≡ 0) × (result.line ≡ 1) × (result.section ≡ Section.Start) × (result.events ≡ 0) × (result.rules ≡ 0) × (result.leaves ≡ 0) }
    {
        Progress {
            at: 0,
            line: 1,
            section: Section::Start,
            events: 0,
            rules: 0,
            leaves: 0,
        }
    }

    // With what one line says, where the next one begins at `next`; or the line's fault of the lowest
    // number from 4 on.
    fn take<'a>(
        self,
        entry: Entry<'a>,
        names: &mut EventNames<'a>,
        next: usize,
    ) -> Result<Progress, Fault>
        requires { self.events ≡ entered names.old }
        ensures { Taking names.old self entry.entry names.new next result }
    {
        match entry {
            Entry::Event(declaration) => {
                names.declare(declaration.name, self.events)?;
                Ok(Progress {
                    at: next,
                    line: self.line + 1,
                    section: Section::Events,
                    events: self.events + 1,
                    rules: self.rules,
                    leaves: self.leaves,
                })
            }
            Entry::Rule(rule) => {
                let leaves = self.judge(rule, names)?;
                Ok(Progress {
                    at: next,
                    line: self.line + 1,
                    section: Section::Rules,
                    events: self.events,
                    rules: self.rules + 1,
                    leaves,
                })
            }
        }
    }
}

// Reads one line more.
pub fn step_line<'a>(
    file: &'a [u8],
    from: Progress,
    names: &mut EventNames<'a>,
) -> Result<Step<'a>, Refusal>
    requires reached { (d : Draft) × Reached file.now d from names.old }
    requires goes_on { GoesOn file.now from }
    ensures { (d : Draft) → Reached file.now d from names.old → Stepped file.now d from.at names.new result }
{
    let read = read_line(file, from.at, from.line, from.section)?;
    let taken = from.take(read.entry, names, read.next);
    let progress = taken.map_err(|fault| Refusal::Line(from.line, fault))?;
    Ok(Step {
        entry: read.entry,
        progress,
    })
}
