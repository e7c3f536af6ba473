//! Reads the lines of a case file.
use crate::call::{Case, CaseFile, Line, Name, Step};
use crate::calls::{call_of, first_word, form_of};
use crate::effects::effect_of;
use crate::expected::{Form, expectation};
use crate::options::{Options, options_of};
use crate::settings::{part_of, setting_of};
use crate::why::{CaseError, Why};
use std::alloc::Global;

/// What a case file says.
///
/// # Errors
/// The first line that is not a case line.
pub fn lines_of<'a>(alloc: Global, file: &'a str) -> Result<CaseFile<'a>, CaseError<'a>> {
    let mut read = CaseFile {
        refusing_memory: false,
        lines: Vec::new(alloc),
    };
    let mut number = 0u64;
    let mut has_call = false;
    for line in file.lines() {
        number = number.saturating_add(1);
        if number == 1 && line == "refusing-memory" {
            read.refusing_memory = true;
        } else if let Err(why) = push_line(alloc, &mut read.lines, number, line, &mut has_call) {
            return Err(CaseError { line: number, why });
        }
    }
    Ok(read)
}

/// Adds the line, if it says something. `has_call` is whether a call stands above it in its block.
fn push_line<'a>(
    alloc: Global,
    lines: &mut Vec<Line<'a>>,
    number: u64,
    line: &'a str,
    has_call: &mut bool,
) -> Result<(), Why<'a>> {
    if line.starts_with('#') {
        return Ok(());
    }
    if line.starts_with(' ') && !*has_call {
        return Err(Why::NoCall(line.trim_start()));
    }
    if line.is_empty() {
        *has_call = false;
    } else if line.contains(" => ") {
        *has_call = true;
    }
    let step = step_of(alloc, line)?;
    lines.push(Line { number, step })?;
    Ok(())
}

fn step_of<'a>(alloc: Global, line: &'a str) -> Result<Step<'a>, Why<'a>> {
    if line.is_empty() {
        return Ok(Step::End);
    }
    if line.starts_with(' ') {
        return effect_of(alloc, line.trim_start()).map(Step::Effect);
    }
    match line.split_once(" => ") {
        Some((call, answer)) => case_of(alloc, call, answer).map(Step::Call),
        None => match line.strip_prefix("with ") {
            Some(words) => part_of(alloc, words),
            None => Ok(Step::Setting(setting_of(alloc, line)?)),
        },
    }
}

fn case_of<'a>(alloc: Global, words: &'a str, answer: &'a str) -> Result<Case<'a>, Why<'a>> {
    match words.split_once(" ") {
        Some((brackets, written)) if brackets.starts_with('[') => {
            let options = options_of(brackets)?;
            let name = form_of(first_word(written)).map(|(_, name)| name);
            if !options.are_taken(name) {
                return Err(Why::Option(brackets));
            }
            case_with(alloc, options, written, answer)
        }
        _ => case_with(alloc, Options::NONE, words, answer),
    }
}

fn case_with<'a>(
    alloc: Global,
    options: Options<'a>,
    written: &'a str,
    answer: &'a str,
) -> Result<Case<'a>, Why<'a>> {
    let first = first_word(written);
    let Some((form, name)) = form_of(first) else {
        return Err(Why::Call(first));
    };
    let call = call_of(alloc, options, written, form, name)?;
    let form = match name {
        Name::RetrieveEncodedChunk | Name::RetrieveEncodedChunks => Form::Bytes,
        _ => Form::Words,
    };
    let answer = expectation(alloc, form, answer)?;
    Ok(Case { call, answer })
}
