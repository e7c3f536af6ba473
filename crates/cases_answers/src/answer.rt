//! What calls answer, as a case file writes it.
use crate::cells::shown_data;
use crate::refusals::Refusal;
use crate::typed::{CellForm, shown_values};
use cases_lines::Why;
use cases_lines::words::{joined, shown_bytes, shown_region};
use std::alloc::{AllocError, Global};
use zarrs_data_type::{ArrayBytes, DataType};
use zarrs_engine_calls::ArrayError;
use zarrs_metadata::ArrayMetadata;
use zarrs_subset::ArraySubset;

/// What a call answered.
#[derive(Drop)]
pub struct Answer {
    /// The answer, as a case file writes it: of a refusal its number, as `E4`.
    pub shown: String,
    /// The text of a refusal, else empty.
    pub text: String,
}

/// An answer that is no refusal.
pub fn said(alloc: Global, shown: String) -> Answer {
    Answer {
        shown,
        text: String::new(alloc),
    }
}

/// The answer that is this word.
pub fn word(alloc: Global, shown: &str) -> Result<Answer, AllocError> {
    Ok(said(alloc, String::from_str(alloc, shown)?))
}

/// A refusal.
pub fn refused<E: Refusal>(alloc: Global, error: &E) -> Result<Answer, AllocError> {
    let number = error.number();
    let shown = format!(in alloc; "E{number}")?;
    let text = error.to_string(alloc)?;
    Ok(Answer { shown, text })
}

/// What a call returned, or its refusal.
pub fn answered<'a, T: Shown, E: Refusal>(
    alloc: Global,
    outcome: &Result<T, E>,
) -> Result<Answer, Why<'a>> {
    match outcome {
        Ok(value) => Ok(said(alloc, value.shown(alloc)?)),
        Err(error) => Ok(refused(alloc, error)?),
    }
}

/// The data that a call returned, `none`, or its refusal.
pub fn data_answered<'a>(
    alloc: Global,
    data_type: &DataType,
    outcome: &Result<Option<ArrayBytes<'static>>, ArrayError>,
) -> Result<Answer, Why<'a>> {
    match outcome {
        Ok(Some(data)) => Ok(said(alloc, shown_data(alloc, data_type, data)?)),
        Ok(None) => Ok(word(alloc, "none")?),
        Err(error) => Ok(refused(alloc, error)?),
    }
}

/// The values that a call returned, `none`, or its refusal.
pub fn values_answered<'a, T, F: CellForm<T>>(
    alloc: Global,
    data_type: &DataType,
    form: &F,
    outcome: &Result<Option<Vec<T>>, ArrayError>,
) -> Result<Answer, Why<'a>> {
    match outcome {
        Ok(Some(values)) => Ok(said(alloc, shown_values(alloc, data_type, form, values)?)),
        Ok(None) => Ok(word(alloc, "none")?),
        Err(error) => Ok(refused(alloc, error)?),
    }
}

/// What a call returns, as a case file writes it.
pub trait Shown {
    fn shown(&self, alloc: Global) -> Result<String, AllocError>;
}

impl Shown for () {
    fn shown(&self, alloc: Global) -> Result<String, AllocError> {
        String::from_str(alloc, "ok")
    }
}

impl Shown for bool {
    fn shown(&self, alloc: Global) -> Result<String, AllocError> {
        self.to_string(alloc)
    }
}

impl Shown for Vec<u64> {
    fn shown(&self, alloc: Global) -> Result<String, AllocError> {
        joined(alloc, self, ",", "-")
    }
}

impl Shown for ArraySubset {
    fn shown(&self, alloc: Global) -> Result<String, AllocError> {
        shown_region(alloc, self)
    }
}

/// The compact text of metadata.
impl Shown for ArrayMetadata {
    fn shown(&self, alloc: Global) -> Result<String, AllocError> {
        let value = self.to_value(alloc)?;
        value.to_string(alloc)
    }
}

impl<T: Shown> Shown for Option<T> {
    fn shown(&self, alloc: Global) -> Result<String, AllocError> {
        match self {
            Some(value) => value.shown(alloc),
            None => String::from_str(alloc, "none"),
        }
    }
}

/// The stored bytes of a chunk.
impl Shown for Vec<u8> {
    fn shown(&self, alloc: Global) -> Result<String, AllocError> {
        shown_bytes(alloc, self)
    }
}

/// The stored bytes of each chunk, or `none`; `nothing` if there is no chunk.
impl Shown for Vec<Option<Vec<u8>>> {
    fn shown(&self, alloc: Global) -> Result<String, AllocError> {
        let mut shown = String::new(alloc);
        if self.is_empty() {
            shown.push_str("nothing")?;
        }
        for chunk in self {
            if !shown.is_empty() {
                shown.push_str(" ")?;
            }
            shown.push_str(chunk.shown(alloc)?.as_str())?;
        }
        Ok(shown)
    }
}
