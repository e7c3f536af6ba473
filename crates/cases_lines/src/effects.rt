//! Indented lines, which say what else holds after a call.
use crate::call::{Effect, Found};
use crate::expected::{Form, expectation};
use crate::why::Why;
use crate::words::key;
use std::alloc::Global;

/// What an indented line says, without its first spaces.
pub(crate) fn effect_of<'a>(alloc: Global, line: &'a str) -> Result<Effect<'a>, Why<'a>> {
    if let Some(words) = line.strip_prefix("text ") {
        return effect(alloc, Found::Text, Form::Told, words);
    }
    if let Some((name, value)) = line.split_once(" = ") {
        return value_at(alloc, name, value);
    }
    match line.split_once(" ") {
        Some((name, "gone")) => value_at(alloc, name, "gone"),
        Some((name, words)) => match place_named(name) {
            Some((place, form)) => effect(alloc, place, form, words),
            None => Err(Why::Effect(name)),
        },
        None => Err(Why::Effect(line)),
    }
}

/// The places that have names, and how what is found there is written.
fn place_named(name: &str) -> Option<(Found, Form)> {
    match name {
        "writes" => Some((Found::Writes, Form::Number)),
        "failed" => Some((Found::Failed, Form::Number)),
        "target" => Some((Found::Target, Form::Bytes)),
        "masks" => Some((Found::Masks, Form::Bytes)),
        "keys" => Some((Found::Keys, Form::Words)),
        "asked" => Some((Found::Asked, Form::Words)),
        "shape" => Some((Found::Shape, Form::Words)),
        "gives" => Some((Found::Metadata, Form::Words)),
        _ => None,
    }
}

/// The bytes at a key, or the JSON object.
fn value_at<'a>(alloc: Global, name: &'a str, value: &'a str) -> Result<Effect<'a>, Why<'a>> {
    let key = key(alloc, name)?;
    let place = if value.starts_with('{') {
        Found::Json(key)
    } else {
        Found::Value(key)
    };
    effect(alloc, place, Form::Bytes, value)
}

fn effect<'a>(
    alloc: Global,
    place: Found,
    form: Form,
    written: &'a str,
) -> Result<Effect<'a>, Why<'a>> {
    let expected = expectation(alloc, form, written)?;
    Ok(Effect { place, expected })
}
