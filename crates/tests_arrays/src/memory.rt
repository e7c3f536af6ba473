//! Tests that end well whichever one of their requests for memory is refused: a call that found no memory is made again.
//! `.ci/memory tests` refuses each request in turn, one in a run; the gate refuses none.
mod again;
mod builders;
mod calls;
mod opening;
mod stores;
