//! Resolves the references of a text of cases, whose name is the only word, and prints each with the IRI that it stands
//! for.
//!
//! A line `== BASE` of the text names the base, which begins with a scheme. Each line behind it is a reference.
#![tactic(auto)]

mod answer;
mod refusal;

use answer::answers;
use refusal::CaseError;
use std::process::ExitCode;
use std::rt::{Env, Files};
use std::{env, fs};

/// Prints the answers for the cases of the text of that name.
fn answer_all<R: Files + AllocGlobal + Print>(rt: &R, name: &str) -> Result<(), CaseError> {
    let bytes = fs::read(rt, name)?;
    let text = str::from_utf8(&bytes).map_err(|_| CaseError::NoText)?;
    let out = answers(rt.alloc(), text)?;
    rt.print(out.as_str())?;
    Ok(())
}

/// Answers the cases of the text that the only word names.
fn run<R: Env + Files + AllocGlobal + Print>(rt: &R) -> Result<(), CaseError> {
    let words: Vec<String> = env::args(rt)?.skip(1).collect(rt.alloc())?;
    match words.as_slice() {
        [name] => answer_all(rt, name.as_str()),
        _ => Err(CaseError::Usage),
    }
}

fn main(rt: HostRuntime) -> ExitCode {
    match run(&rt) {
        Ok(()) => ExitCode::SUCCESS,
        Err(error) => {
            let _ = rt.eprintln(format_args!("reference_cases: {error}"));
            ExitCode::FAILURE
        }
    }
}
