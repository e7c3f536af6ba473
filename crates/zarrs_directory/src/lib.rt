//! Directories as stores: a key is the path of a file below a directory.
//!
//! `DirectoryStore` is a store over what was read of a directory. Its map is what was read and what was written since;
//! the keys that may be asked are those that were read, so no call can take a file that nobody read for an absent one. What
//! is written goes to its file at once. `LentDirectory` lends its directory and what is held of it, so that a caller knows that
//! the directory stays. `Excerpts` is a store over parts of files that were read: a place that was not read stands for a zero,
//! and may not be asked. `files_below` lists what lies below a directory.
#![tactic(auto)]

mod caching;
mod excerpt;
mod excerpts;
mod files;
mod held;
mod lending;
mod names;
mod store;
mod walk;

pub use caching::Cache;
pub use excerpt::{Excerpt, Wanted};
pub use excerpts::Excerpts;
pub use files::Directory;
pub use lending::LentDirectory;
pub use names::{is_path, joined};
pub use store::DirectoryStore;
pub use walk::{Found, files_below};
