//! The program `cases`: it runs the case files that its arguments name, and prints what does not hold. A case file has
//! calls of arrays, one a line, each with the answer that it must give. See `docs/CASES.md`.
#![tactic(auto)]

mod building;
mod effect;
mod making;
mod memory;
mod report;
mod session;
mod setters;

use crate::report::run_cases;
use anyhow::Result;
use cases_lines::CaseError;
use std::process::ExitCode;
use std::rt::Files;
use std::{env, fs};

/// How many cases there were, and how many do not hold.
#[derive(Clone, Copy)]
struct Counts {
    cases: u64,
    failed: u64,
}

/// Runs a file and prints what does not hold, or `None` and the line that is no case line. What is refused is read again:
/// there may have been no memory.
fn run_file(rt: &HostRuntime, name: &str) -> Result<Option<Counts>> {
    let file = fs::read_to_string(rt, name).or_else(|_| fs::read_to_string(rt, name))?;
    match run_cases(rt.alloc(), name, file.as_str()) {
        Ok(report) => {
            rt.print(report.text.as_str())?;
            Ok(Some(Counts {
                cases: report.cases,
                failed: report.failed,
            }))
        }
        Err(error) => {
            let CaseError { line, why } = error;
            println!(rt; "{name}:{line}: not a case line: {why}")?;
            Ok(None)
        }
    }
}

/// Runs the files, prints the last line, and returns the status.
fn run(rt: &HostRuntime) -> Result<u8> {
    let mut all = Counts {
        cases: 0,
        failed: 0,
    };
    for name in env::args(rt).or_else(|_| env::args(rt))?.skip(1) {
        let Some(counts) = run_file(rt, name.as_str())? else {
            return Ok(2);
        };
        all.cases = all.cases.saturating_add(counts.cases);
        all.failed = all.failed.saturating_add(counts.failed);
    }
    let Counts { cases, failed } = all;
    if failed == 0 {
        println!(rt; "{cases} cases hold")?;
        return Ok(0);
    }
    println!(rt; "{failed} of {cases} cases do not hold")?;
    Ok(1)
}

fn main(rt: HostRuntime) -> Result<ExitCode> {
    Ok(ExitCode::from(run(&rt)?))
}
