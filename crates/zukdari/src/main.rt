// Reads a trace from standard input, a literal a line, and prints what is left of the rules of a
// small flow after each literal, and then what each rule came to.
#![tactic(auto)]

mod sample;

use report::{left, refusal};
use std::io;

fn read_words(rt: &HostRuntime) -> io::Result<Vec<String>> {
    let heap = rt.alloc();
    rt.lines(heap).try_collect(heap)
}

fn run(rt: &HostRuntime) -> anyhow::Result<()> {
    let heap = rt.alloc();
    let rules = sample::rules(heap)?;
    let words = read_words(rt)?;
    let report = left(heap, &sample::NAMES, &rules, words.as_slice())?;
    print!(rt; "{}", report.text)?;
    match refusal(heap, report.outcome, words.as_slice())? {
        None => Ok(()),
        Some(message) => Err(anyhow::Error::msg(message)),
    }
}

fn main(rt: HostRuntime) -> anyhow::Result<()> {
    run(&rt)
}
