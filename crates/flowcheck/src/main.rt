// Checks flow files, and prints what is left of their rules as literals are applied.
#![tactic(auto)]

mod failure;

use failure::Failure;
use flow::Flow;
use refusals::{ReadError, Refusal};
use std::alloc::AllocError;
use std::{env, fs};

pub(crate) const USAGE: &str = "usage: flowcheck check FLOW\n       flowcheck left FLOW LITERAL..";

// The failure of a flow file that is refused.
fn refused(rt: &HostRuntime, refusal: Refusal, file: &[u8]) -> Result<Failure, AllocError> {
    let message = outcomes::explain_file(rt.alloc(), refusal, file)?;
    Ok(Failure::Refused(message))
}

// flowcheck check FLOW
fn check(rt: &HostRuntime, path: &str) -> Result<(), Failure> {
    let file = fs::read(rt, path)?;
    let outcome = accept::check(file.as_slice());
    print!(rt; "{}", outcomes::checked(rt.alloc(), outcome)?)?;
    match outcome {
        Ok(_) => Ok(()),
        Err(refusal) => Err(refused(rt, refusal, file.as_slice())?),
    }
}

// flowcheck left FLOW LITERAL..
fn left(rt: &HostRuntime, path: &str, words: &[String]) -> Result<(), Failure> {
    let heap = rt.alloc();
    let file = fs::read(rt, path)?;
    let mut flow = Flow::new(heap);
    match flow.read(heap, file.as_slice()) {
        Ok(()) => {}
        Err(ReadError::Refused(refusal)) => {
            print!(rt; "{}", outcomes::refused(heap, refusal)?)?;
            return Err(refused(rt, refusal, file.as_slice())?);
        }
        Err(ReadError::Memory) => return Err(AllocError.into()),
    }
    let report = outcomes::left(heap, &flow, words)?;
    print!(rt; "{}", report.text)?;
    match outcomes::explain_words(heap, report.outcome, words)? {
        None => Ok(()),
        Some(message) => Err(Failure::Refused(message)),
    }
}

fn run(rt: &HostRuntime) -> Result<(), Failure> {
    let args: Vec<String> = env::args(rt)?.collect(rt.alloc())?;
    match args.as_slice() {
        [] | [_] => {
            println!(rt; "{USAGE}")?;
            Ok(())
        }
        [_, command, path] if command.as_str() == "check" => check(rt, path.as_str()),
        [_, command, path, words @ ..] if command.as_str() == "left" => left(
            rt,
            path.as_str(),
            words,
        ),
        _ => Err(Failure::Usage),
    }
}

fn main(rt: HostRuntime) -> Result<(), Failure> {
    run(&rt)
}
