//! The array and the store that the lines of a case file meet.
use crate::building::{Parts, build_metadata, builder_of, built_by, converted, metadata_of};
use crate::setters;
use cases_answers::{Answer, Ask, Conditions, refused, word};
use cases_calls::{Held, Other};
use cases_lines::Why;
use cases_lines::call::{CallLine, Name, Setting};
use std::alloc::{AllocError, Global};
use std::mem;
use zarrs::{Array, ArrayCreateError, Bytes, MemoryStore, StoreKey, WritableStorageTraits};
use zarrs_builder::ToBuilder;

/// What a call answered and did.
#[derive(Drop)]
pub(crate) struct Outcome {
    pub(crate) answer: Answer,
    /// The number of writing calls that it made.
    pub(crate) writes: u64,
    /// How many of these were refused.
    pub(crate) failed: u64,
    /// What its place then held.
    pub(crate) held: Held,
    /// What it asked the store for.
    pub(crate) asks: Vec<Ask>,
}

/// The array that is open, its store, and what the next call meets.
#[derive(Drop)]
pub(crate) struct Session<'f> {
    pub(crate) array: Option<Array<()>>,
    pub(crate) store: MemoryStore,
    pub(crate) other: Option<Other>,
    pub(crate) conditions: Conditions,
    /// The writing calls that the next new store has made.
    calls: u64,
    /// What the next builder is told beside its design.
    pub(crate) parts: Parts<'f>,
    /// The outcome of the latest call.
    pub(crate) latest: Option<Outcome>,
}

/// The outcome of a call that asks the store for nothing.
pub(crate) fn quiet(alloc: Global, answer: Answer) -> Outcome {
    Outcome {
        answer,
        writes: 0,
        failed: 0,
        held: Held::new(alloc),
        asks: Vec::new(alloc),
    }
}

/// What a call answers without an array.
pub(crate) fn no_array(alloc: Global) -> Result<Outcome, AllocError> {
    Ok(quiet(alloc, word(alloc, "no array")?))
}

impl<'f> Session<'f> {
    /// No array, and an empty store.
    pub(crate) fn new(alloc: Global) -> Session<'f> {
        Session {
            array: None,
            store: MemoryStore::new(alloc),
            other: None,
            conditions: Conditions::none(alloc),
            calls: 0,
            parts: Parts::none(alloc),
            latest: None,
        }
    }

    /// Makes what the next call meets.
    pub(crate) fn prepare(&mut self, alloc: Global, setting: &Setting) -> Result<(), AllocError> {
        let conditions = &mut self.conditions;
        match setting {
            Setting::Set(key, value) => self.change_value(alloc, key, value.as_ref())?,
            Setting::Refusing(keys) => conditions.refused.extend_with_clones(keys)?,
            Setting::RefusingWhole(keys) => conditions.refused_whole.extend_with_clones(keys)?,
            Setting::RefusingWrite(number) => conditions.refused_write = Some(*number),
            Setting::Stopping(passed) => conditions.passed = *passed,
            Setting::Allowing(keys) => conditions.allowed = Some(keys.clone()?),
            Setting::AllowingPlaces(places) => conditions.allowed_places.push(places.clone()?)?,
            Setting::Calls(calls) => self.calls = *calls,
            Setting::WithFillValue(bytes) => self.parts.fill_value = Some(bytes.to_vec(alloc)?),
            Setting::Aside => self.set_aside(alloc),
        }
        Ok(())
    }

    /// The store has this value at the key from now on, or nothing.
    fn change_value(
        &mut self,
        alloc: Global,
        key: &StoreKey,
        value: Option<&Vec<u8>>,
    ) -> Result<(), AllocError> {
        let outcome = match value {
            Some(bytes) => {
                let value = Bytes::from_vec(bytes.to_vec(alloc)?)?;
                self.store.set(alloc, key, value)
            }
            None => self.store.erase(alloc, key),
        };
        match outcome {
            Ok(()) => Ok(()),
            Err(_) => Err(AllocError),
        }
    }

    fn set_aside(&mut self, alloc: Global) {
        let store = mem::replace(&mut self.store, MemoryStore::new(alloc));
        self.other = match self.array.take() {
            Some(array) => Some(Other { array, store }),
            None => None,
        };
    }

    /// The latest call has this outcome, and its conditions hold no longer.
    pub(crate) fn finish(&mut self, alloc: Global, name: Name, outcome: Outcome) {
        drop(mem::replace(&mut self.conditions, Conditions::none(alloc)));
        match name {
            Name::Array | Name::Build | Name::Builder => self.calls = 0,
            _ => {}
        }
        match name {
            Name::Build | Name::Builder | Name::BuildMetadata => {
                drop(mem::replace(&mut self.parts, Parts::none(alloc)));
            }
            _ => {}
        }
        drop(mem::replace(&mut self.latest, Some(outcome)));
    }

    /// Makes the call.
    pub(crate) fn outcome_of(
        &mut self,
        alloc: Global,
        call: &CallLine<'f>,
    ) -> Result<Outcome, Why<'f>> {
        match call.name {
            Name::Array | Name::Build | Name::Builder => self.make(alloc, call),
            Name::BuildMetadata => { Ok(quiet(alloc, build_metadata(alloc, call, &self.parts)?)) }
            Name::Convert => Ok(quiet(alloc, converted(alloc, call.word)?)),
            Name::ToV3 => Ok(self.convert(alloc)?),
            Name::Open => Ok(self.open(alloc, call)?),
            Name::AttributesMut
            | Name::SetDimensionNames
            | Name::SetMetadataOptions
            | Name::SetShape
            | Name::SetShapeAndChunkGrid => self.change(alloc, call),
            _ => self.call(alloc, call),
        }
    }

    /// Changes the array without its store.
    fn change(&mut self, alloc: Global, call: &CallLine<'f>) -> Result<Outcome, Why<'f>> {
        let Some(array) = &mut self.array else {
            return Ok(no_array(alloc)?);
        };
        Ok(quiet(alloc, setters::answer_of(alloc, array, call)?))
    }

    /// Makes an array of a document, by a builder, or by a builder of the array, over a new store.
    fn make(&mut self, alloc: Global, call: &CallLine<'f>) -> Result<Outcome, Why<'f>> {
        let outcome = match (call.name, &self.array) {
            (Name::Array, _) => {
                let metadata = metadata_of(alloc, call.word)?;
                Array::new_with_metadata(alloc, (), call.path, metadata)
            }
            (Name::Build, _) => built_by(alloc, builder_of(alloc, call)?, call, &self.parts)?,
            (_, Some(array)) => match array.builder(alloc) {
                Ok(builder) => built_by(alloc, builder, call, &self.parts)?,
                Err(error) => Err(error),
            },
            (_, None) => return Ok(no_array(alloc)?),
        };
        let store = MemoryStore::with_calls(alloc, self.calls);
        drop(mem::replace(&mut self.store, store));
        Ok(self.keep(alloc, outcome)?)
    }

    /// The array has V3 metadata from now on.
    fn convert(&mut self, alloc: Global) -> Result<Outcome, AllocError> {
        let Some(array) = self.array.take() else {
            return no_array(alloc);
        };
        match array.to_v3(alloc) {
            Ok(array) => self.keep(alloc, Ok(array)),
            Err(_) => Err(AllocError),
        }
    }

    /// The array is open from now on, if it is accepted.
    pub(crate) fn keep(
        &mut self,
        alloc: Global,
        outcome: Result<Array<()>, ArrayCreateError>,
    ) -> Result<Outcome, AllocError> {
        drop(self.array.take());
        match outcome {
            Ok(array) => {
                drop(self.array.replace(array));
                Ok(quiet(alloc, word(alloc, "ok")?))
            }
            Err(error) => Ok(quiet(alloc, refused(alloc, &error)?)),
        }
    }
}
