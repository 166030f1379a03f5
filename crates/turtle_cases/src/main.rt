//! Reads documents of Turtle from a text of cases, whose name is the only word, and prints for each the canonical text
//! of its graph, or why it is refused.
//!
//! `case_text.rt` says how cases are written.
#![tactic(auto)]

mod answer;
mod case_text;
mod refusal;

use answer::answer_of;
use case_text::parse_cases;
use refusal::CaseError;
use std::process::ExitCode;
use std::rt::{Env, Files};
use std::{env, fs};

/// Prints the answers for the cases of the text of that name.
fn answer_all<R: Files + AllocGlobal + Print>(rt: &R, name: &str) -> Result<(), CaseError> {
    let bytes = fs::read(rt, name)?;
    let text = str::from_utf8(&bytes).map_err(|_| CaseError::NoText)?;
    for case in &parse_cases(rt.alloc(), text)? {
        let answer = answer_of(rt.alloc(), case)?;
        rt.print(answer.as_str())?;
    }
    Ok(())
}

/// Answers the cases of the text that the only word names.
fn run<R: Env + Files + AllocGlobal + Print>(rt: &R) -> Result<(), CaseError> {
    let words: Vec<String> = env::args(rt)?.skip(1).collect(rt.alloc())?;
    match words.as_slice() {
        [name] => answer_all(rt, name.as_str()),
        _ => Err(CaseError::Usage),
    }
}

fn main(rt: HostRuntime) -> ExitCode {
    match run(&rt) {
        Ok(()) => ExitCode::SUCCESS,
        Err(error) => {
            let _ = rt.eprintln(format_args!("turtle_cases: {error}"));
            ExitCode::FAILURE
        }
    }
}
