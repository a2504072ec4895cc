// Reading flow files into flows.
ghost use Rattle.std.specs.Prelude.{IfOk};
ghost use Rattle.accept.specs.Drafts.{Draft};
ghost use Rattle.accept.specs.Outcomes.{accepted, ComesTo, OneOutcome};
ghost use Rattle.flow.specs.Compiles.{Compiled, Reading};

use super::flow::Flow;
use accept::{EventNames, Progress, check, step_line};
use refusals::ReadError;
use std::alloc::{AllocError, Global};

// The flow of a file that is accepted. The lines are read once more, so no fault comes.
fn build(heap: Global, file: &[u8]) -> Result<Flow, AllocError>
    requires { (d : Draft) × ComesTo file.now (accepted d) }
    ensures { IfOk result (λ f. (d : Draft) × ComesTo file.now (accepted d) × Compiled d f) }
{
    let mut names = EventNames::new();
    let mut progress = Progress::start();
    let mut flow = Flow::new(heap);
    'lines: loop {
        let next = step_line(file, progress, &mut names).unwrap();
        flow.gain(heap, next.entry, &names)?;
        progress = next.progress;
        if progress.at >= file.len() {
            return Ok(flow);
        }
    }
}

impl Flow {
    // Reads a file into the flow, whatever it held. A file is recognised before anything is built, so a
    // faulty one is refused even where memory is wanting; the flow is then empty.
    pub fn read(&mut self, heap: Global, file: &[u8]) -> Result<(), ReadError>
        ensures read { Reading file.now result self.new }
        ensures once { OneOutcome }
    {
        *self = Flow::new(heap);
        check(file)?;
        *self = build(heap, file)?;
        Ok(())
    }
}
