//! Runs worked cases: calls of `shacl-explain` over documents in memory, read from the texts that the
//! arguments name, each with its status and what it wrote.
//!
//! `case_text.rt` says how cases are written.
#![tactic(auto)]

mod call;
mod case;
mod case_text;
mod refusal;

use case_text::parse_cases;
use refusal::CaseError;
use std::process::ExitCode;
use std::rt::{Env, Files};
use std::{env, fs};

/// Runs the cases of one text, and prints them.
fn run_cases<R: Files + AllocGlobal + Print>(rt: &R, name: &str) -> Result<(), CaseError> {
    let bytes = fs::read(rt, name)?;
    let text = str::from_utf8(&bytes).map_err(|_| CaseError::NoText)?;
    let cases = parse_cases(rt.alloc(), text)?;
    for case in &cases.cases {
        let report = call::report_of(rt.alloc(), &cases, case)?;
        rt.print(report.as_str())?;
    }
    Ok(())
}

/// Runs the cases of all texts that the arguments name, up to the first that is refused.
fn run_all<R: Env + Files + AllocGlobal + Print + Eprint>(rt: &R) -> Result<(), CaseError> {
    for name in env::args(rt)?.skip(1) {
        if let Err(error) = run_cases(rt, name.as_str()) {
            rt.eprintln(format_args!("{name}: {error}"))?;
            return Err(error);
        }
    }
    Ok(())
}

fn main(rt: HostRuntime) -> ExitCode {
    match run_all(&rt) {
        Ok(()) => ExitCode::SUCCESS,
        Err(_) => ExitCode::FAILURE,
    }
}
