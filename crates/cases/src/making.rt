//! Calls of the array over its store, which meets what the case says.
use crate::session::{Outcome, Session, no_array};
use cases_answers::{Answer, Asks, Below, CaseStore, Refusing};
use cases_calls::{Held, Other, answer_of};
use cases_lines::call::{CallLine, Name};
use cases_lines::{Through, Why};
use std::alloc::{AllocError, Global};
use std::cell::RefCell;
use std::mem;
use zarrs::{Array, ArrayCreateError, Fault, Lent, MemoryStore, ReadOnly, Stop, WholeRefused};

/// Writing calls, and how many of them were refused.
#[derive(Clone, Copy)]
struct WritingCalls {
    writes: u64,
    failed: u64,
}

fn counts(store: &MemoryStore) -> WritingCalls {
    WritingCalls {
        writes: store.calls(),
        failed: store.failures(),
    }
}

/// The writing calls that were made: none that the store did not count, since it had none left.
fn counted(before: WritingCalls, made: WritingCalls, after: WritingCalls) -> WritingCalls {
    if after.writes < u64::MAX {
        return made;
    }
    WritingCalls {
        writes: after.writes.saturating_sub(before.writes),
        failed: after.failed.saturating_sub(before.failed),
    }
}

impl<'f> Session<'f> {
    /// Puts the conditions before the store, which is taken, and is dropped if there is no memory for them.
    fn take_store(&mut self, alloc: Global) -> Result<Refusing, AllocError> {
        let store = mem::replace(&mut self.store, MemoryStore::new(alloc));
        let conditions = &self.conditions;
        let refused = conditions.refused.clone()?;
        let whole = WholeRefused::new(store, conditions.refused_whole.clone()?);
        let fault = Fault::new(whole, refused, conditions.refused_write);
        Ok(Stop::new(fault, conditions.passed))
    }

    /// Puts the store back.
    fn put_store(&mut self, store: Refusing) {
        let store = store.into_inner().into_inner().into_inner();
        drop(mem::replace(&mut self.store, store));
    }

    /// Opens the array at the path.
    pub(crate) fn open(
        &mut self,
        alloc: Global,
        call: &CallLine<'_>,
    ) -> Result<Outcome, AllocError> {
        let store = self.take_store(alloc)?;
        let asks = RefCell::new(Ok(Vec::new(alloc)));
        let opened = opened(alloc, &store, &asks, call);
        self.put_store(store);
        let mut outcome = self.keep(alloc, opened)?;
        outcome.asks = asks.into_inner()?;
        Ok(outcome)
    }

    /// Makes a call of the open array.
    pub(crate) fn call(&mut self, alloc: Global, call: &CallLine<'f>) -> Result<Outcome, Why<'f>> {
        if self.array.is_none() {
            return Ok(no_array(alloc)?);
        }
        let before = counts(&self.store);
        let mut store = self.take_store(alloc)?;
        let asks = RefCell::new(Ok(Vec::new(alloc)));
        let mut held = Held::new(alloc);
        let answer = self.answer(alloc, call, &mut store, &asks, &mut held);
        let made = WritingCalls {
            writes: store.calls(),
            failed: store.failures(),
        };
        self.put_store(store);
        let WritingCalls { writes, failed } = counted(before, made, counts(&self.store));
        Ok(Outcome {
            answer: answer?,
            writes,
            failed,
            held,
            asks: asks.into_inner()?,
        })
    }

    /// Makes the call by an array over the store, or over a loan of it.
    fn answer(
        &mut self,
        alloc: Global,
        call: &CallLine<'f>,
        store: &mut Refusing,
        asks: &RefCell<Asks>,
        held: &mut Held,
    ) -> Result<Answer, Why<'f>> {
        let Some(array) = &mut self.array else {
            return Err(Why::NoOther);
        };
        let other = self.other.as_ref();
        let below = match call.options.through {
            Through::Own => Below::Own(store),
            Through::Lent => Below::Lent(Lent::new(store)),
            Through::ReadOnly => return read_only(alloc, array, call, store, asks, other, held),
        };
        let store = noting(below, asks);
        match call.name {
            Name::Resize | Name::UpgradeMetadata => changed(alloc, array, call, store, held),
            _ => over(alloc, array, call, store, other, held),
        }
    }
}

/// A store that notes what it is asked.
fn noting<'a>(below: Below<'a>, asks: &'a RefCell<Asks>) -> CaseStore<'a> {
    CaseStore { below, asks }
}

/// Makes the call by the array over this store. The array is what the call makes of it.
fn changed<'f>(
    alloc: Global,
    array: &mut Array<()>,
    call: &CallLine<'f>,
    store: CaseStore<'_>,
    held: &mut Held,
) -> Result<Answer, Why<'f>> {
    let Ok(mut changing) = array.with_storage(alloc, store) else {
        return Err(Why::OutOfMemory);
    };
    let answer = answer_of(alloc, &mut changing, call, None, held);
    let after = changing.with_storage(alloc, ());
    drop(changing);
    match after {
        Ok(after) => drop(mem::replace(array, after)),
        Err(_) => return Err(Why::OutOfMemory),
    }
    answer
}

/// Makes the call by the array over this store.
fn over<'f, TStorage>(
    alloc: Global,
    array: &Array<TStorage>,
    call: &CallLine<'f>,
    store: CaseStore<'_>,
    other: Option<&Other>,
    held: &mut Held,
) -> Result<Answer, Why<'f>> {
    let Ok(mut array) = array.with_storage(alloc, store) else {
        return Err(Why::OutOfMemory);
    };
    let answer = answer_of(alloc, &mut array, call, other, held);
    drop(array);
    answer
}

/// Makes the call by `readable` of the array over the store.
fn read_only<'f>(
    alloc: Global,
    array: &Array<()>,
    call: &CallLine<'f>,
    store: &Refusing,
    asks: &RefCell<Asks>,
    other: Option<&Other>,
    held: &mut Held,
) -> Result<Answer, Why<'f>> {
    let Ok(array) = array.with_storage(alloc, ReadOnly::new(store)) else {
        return Err(Why::OutOfMemory);
    };
    let answer = readable(alloc, &array, call, store, asks, other, held);
    drop(array);
    answer
}

fn readable<'f>(
    alloc: Global,
    array: &Array<ReadOnly<'_, Refusing>>,
    call: &CallLine<'f>,
    store: &Refusing,
    asks: &RefCell<Asks>,
    other: Option<&Other>,
    held: &mut Held,
) -> Result<Answer, Why<'f>> {
    let Ok(array) = array.readable(alloc) else {
        return Err(Why::OutOfMemory);
    };
    let below = Below::ReadOnly(ReadOnly::new(store));
    let answer = over(alloc, &array, call, noting(below, asks), other, held);
    drop(array);
    answer
}

/// The array at the path of the store.
fn opened(
    alloc: Global,
    store: &Refusing,
    asks: &RefCell<Asks>,
    call: &CallLine<'_>,
) -> Result<Array<()>, ArrayCreateError> {
    let below = Below::ReadOnly(ReadOnly::new(store));
    let array = Array::open_opt(
        alloc,
        noting(below, asks),
        call.path,
        &call.options.of_opening(),
    )?;
    let outcome = array.with_storage(alloc, ());
    drop(array);
    match outcome {
        Ok(array) => Ok(array),
        Err(_) => Err(ArrayCreateError::OutOfMemory),
    }
}
