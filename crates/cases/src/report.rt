//! Runs case files.
ghost use Rattle.std.specs.Prelude.{◌≡◌, IfOk};
ghost use Rattle.cases.specs.Cases.{is_call, case_count};

use crate::effect::found;
use crate::memory::{Before, lacks_memory};
use crate::session::{Outcome, Session};
use cases_answers::{Conditions, place_beyond};
use cases_lines::call::{Case, CaseFile, Effect, Line, Step};
use cases_lines::{CaseError, Expected, Why, lines_of};
use std::alloc::{AllocError, Global};
use std::mem;

/// What running a case file found.
#[derive(Drop)]
pub struct Report {
    /// The number of cases: calls with their answers.
    pub cases: u64,
    /// How many of them do not hold.
    pub failed: u64,
    /// A line for each difference: `NAME:LINE: expected X, found Y`.
    pub text: String,
}

/// Runs the cases of a file. Its name stands in what is printed.
///
/// # Errors
/// The first line that is not a case line. No case is run if it can be told without a run.
pub fn run_cases<'f>(alloc: Global, name: &str, file: &'f str) -> Result<Report, CaseError<'f>> {
    let read = match lines_of(alloc, file) {
        // There may be memory now.
        Err(
            CaseError {
                why: Why::OutOfMemory,
                ..
            },
        ) => lines_of(alloc, file)?,
        outcome => outcome?,
    };
    let outcome = run_lines(alloc, name, &read.lines, read.refusing_memory);
    drop(read);
    outcome
}

/// Whether the line is a call, with the answer that it must give.
fn is_call(line: &Line<'_>) -> bool
    ensures { result ≡ is_call line.now.step }
{
    match &line.step {
        Step::Call(_) => true,
        Step::End | Step::Setting(_) | Step::With(_, _) | Step::Effect(_) => false,
    }
}

/// How many of the lines are cases.
fn case_count(lines: &[Line<'_>]) -> usize
    ensures { result ≡ case_count lines.now }
{
    lines.iter().filter(|line| is_call(line)).count()
}

/// Runs the lines of a file, which may refuse memory. No call among them is left out, and none is counted twice.
///
/// # Errors
/// The first line that cannot be run, as cells that are none of the array's data type.
pub fn run_lines<'f>(
    alloc: Global,
    name: &str,
    lines: &[Line<'f>],
    refusing_memory: bool,
) -> Result<Report, CaseError<'f>>
    ensures { IfOk result (λ report. report.cases ≡ case_count lines.now) }
{
    let cases = case_count(lines) as u64;
    let mut session = Session::new(alloc);
    let mut run = Run {
        name,
        refusing_memory,
        failed: 0,
        text: String::new(alloc),
        holds: true,
    };
    let outcome = run.go(alloc, &mut session, lines);
    drop(session);
    match outcome {
        Ok(()) => Ok(Report {
            cases,
            failed: run.failed,
            text: run.text,
        }),
        Err(error) => Err(error),
    }
}

/// What the call asked for though the conditions do not allow it: a key, or a place of its bytes.
fn beyond(
    alloc: Global,
    conditions: &Conditions,
    outcome: &Outcome,
) -> Result<Option<String>, AllocError> {
    if let Some(allowed) = &conditions.allowed {
        let mut keys = outcome.asks.iter().map(|ask| &ask.key);
        if let Some(key) = keys.find(|key| !allowed.contains(key)) {
            return Ok(Some(key.to_string(alloc)?));
        }
    }
    let allowed = &conditions.allowed_places;
    if allowed.is_empty() {
        return Ok(None);
    }
    match place_beyond(&outcome.asks, allowed) {
        Some((key, place)) => Ok(Some(format!(in alloc; "place {place} of {key}")?)),
        None => Ok(None),
    }
}

/// What is found while a file is run.
#[derive(Drop)]
struct Run<'n> {
    name: &'n str,
    refusing_memory: bool,
    failed: u64,
    text: String,
    /// Whether the latest case holds so far.
    holds: bool,
}

impl Run<'_> {
    /// Does what the lines say; in a file that may refuse memory, again if there was none.
    fn go<'f>(
        &mut self,
        alloc: Global,
        session: &mut Session<'f>,
        lines: &[Line<'f>],
    ) -> Result<(), CaseError<'f>> {
        for line in lines {
            let outcome = match self.take(alloc, session, line) {
                Err(Why::OutOfMemory) if self.refusing_memory => self.take(alloc, session, line),
                outcome => outcome,
            };
            if let Err(why) = outcome {
                return Err(CaseError {
                    line: line.number,
                    why,
                });
            }
        }
        Ok(())
    }

    /// Does what the line says.
    fn take<'f>(
        &mut self,
        alloc: Global,
        session: &mut Session<'f>,
        line: &Line<'f>,
    ) -> Result<(), Why<'f>> {
        match &line.step {
            Step::End => {
                drop(mem::replace(session, Session::new(alloc)));
                Ok(())
            }
            Step::Setting(setting) => Ok(session.prepare(alloc, setting)?),
            Step::With(part, word) => Ok(session.parts.told.push((*part, *word))?),
            Step::Call(case) => self.run_case(alloc, session, line.number, case),
            Step::Effect(effect) => Ok(self.look(alloc, session, line.number, effect)?),
        }
    }

    /// Makes the call, and compares its answer.
    fn run_case<'f>(
        &mut self,
        alloc: Global,
        session: &mut Session<'f>,
        line: u64,
        case: &Case<'f>,
    ) -> Result<(), Why<'f>> {
        self.holds = true;
        let outcome = if self.refusing_memory {
            self.make_anyway(alloc, session, line, case)?
        } else {
            session.outcome_of(alloc, &case.call)?
        };
        self.judge(alloc, session, line, case, &outcome)?;
        session.finish(alloc, case.call.name, outcome);
        Ok(())
    }

    /// Makes the call where there may be no memory.
    fn make_anyway<'f>(
        &mut self,
        alloc: Global,
        session: &mut Session<'f>,
        line: u64,
        case: &Case<'f>,
    ) -> Result<Outcome, Why<'f>> {
        let before = Before::of(alloc, session.array.as_ref(), &session.store)?;
        let outcome = self.make_over(alloc, session, line, case, &before);
        if outcome.is_err() {
            session.restore(alloc, &before)?;
        }
        drop(before);
        outcome
    }

    /// Makes the call, and again if it found no memory where the line says something else.
    fn make_over<'f>(
        &mut self,
        alloc: Global,
        session: &mut Session<'f>,
        line: u64,
        case: &Case<'f>,
        before: &Before,
    ) -> Result<Outcome, Why<'f>> {
        let outcome = session.outcome_of(alloc, &case.call)?;
        let answer = &outcome.answer;
        if !lacks_memory(answer) || case.answer.matches(answer.shown.as_str()) {
            return Ok(outcome);
        }
        let left = session.left(alloc, &case.call, &outcome, before)?;
        drop(outcome);
        if left.expected != left.found {
            self.note(alloc, line, left.expected.as_str(), left.found.as_str())?;
        }
        session.outcome_of(alloc, &case.call)
    }

    /// Compares the answer of a call, and what it asked for.
    fn judge(
        &mut self,
        alloc: Global,
        session: &Session<'_>,
        line: u64,
        case: &Case<'_>,
        outcome: &Outcome,
    ) -> Result<(), AllocError> {
        self.compare(alloc, line, &case.answer, outcome.answer.shown.as_str())?;
        if let Some(beyond) = beyond(alloc, &session.conditions, outcome)? {
            let expected = format!(in alloc; "{beyond} not asked for")?;
            let found = format!(in alloc; "{beyond} asked for")?;
            self.note(alloc, line, expected.as_str(), found.as_str())?;
        }
        Ok(())
    }

    /// Compares what is found after the latest call.
    fn look(
        &mut self,
        alloc: Global,
        session: &Session<'_>,
        line: u64,
        effect: &Effect<'_>,
    ) -> Result<(), AllocError> {
        let Some(outcome) = &session.latest else {
            return Ok(());
        };
        let found = found(alloc, session, outcome, &effect.place)?;
        self.compare(alloc, line, &effect.expected, found.as_str())
    }

    /// Notes a difference, if there is one.
    fn compare(
        &mut self,
        alloc: Global,
        line: u64,
        expected: &Expected<'_>,
        found: &str,
    ) -> Result<(), AllocError> {
        if expected.matches(found) {
            return Ok(());
        }
        self.note(alloc, line, expected.written, found)
    }

    /// Notes a difference.
    fn note(
        &mut self,
        alloc: Global,
        line: u64,
        expected: &str,
        found: &str,
    ) -> Result<(), AllocError> {
        let name = self.name;
        let text = format!(in alloc; "{name}:{line}: expected {expected}, found {found}\n")?;
        self.text.push_str(text.as_str())?;
        if self.holds {
            self.failed = self.failed.saturating_add(1);
        }
        self.holds = false;
        Ok(())
    }
}
