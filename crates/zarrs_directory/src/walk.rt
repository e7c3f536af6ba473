//! What lies below a directory.
use crate::names::joined;
use std::fs;
use std::io::{self, ErrorKind};
use std::rt::Files;

/// A file below a directory: its path from there, and its size in bytes.
#[derive(Debug, Drop)]
pub struct Found {
    pub key: String,
    pub size: u64,
    /// Whether it is a symbolic link or another thing than a file, or has a name that is no text.
    pub is_odd: bool,
}

/// The most folders that are looked into.
const MOST_FOLDERS: u64 = 1 << 40;

/// Makes the entry that stands for a name that is no text.
fn nameless<R: AllocGlobal>(rt: &R, folder: &str) -> io::Result<Found> {
    let key = joined(rt.alloc(), folder, "(a name that is no text)")?;
    Ok(Found {
        key,
        size: 0,
        is_odd: true,
    })
}

/// Reads one folder: its files go to `found`, and its folders to `folders`.
fn read_folder<R: Files + AllocGlobal + Clone + Drop>(
    rt: &R,
    root: &str,
    folder: &str,
    folders: &mut Vec<String>,
    found: &mut Vec<Found>,
) -> io::Result<()> {
    let path = joined(rt.alloc(), root, folder)?;
    for entry in fs::read_dir(rt, path.as_str())? {
        match entry {
            Ok(entry) => {
                let about = entry.metadata()?;
                let key = joined(rt.alloc(), folder, entry.file_name())?;
                if about.is_dir() {
                    folders.push(key)?;
                } else {
                    let size = about.len();
                    let is_odd = !about.is_file();
                    found.push(Found { key, size, is_odd })?;
                }
            }
            Err(error) if error.kind() == ErrorKind::InvalidFilename => {
                found.push(nameless(rt, folder)?)?;
            }
            Err(error) => return Err(error),
        }
    }
    Ok(())
}

/// Returns the files below the directory, in ascending order of their paths. Symbolic links are not followed.
///
/// # Errors
/// What the system says; out of memory.
pub fn files_below<R: Files + AllocGlobal + Clone + Drop>(
    rt: &R,
    root: &str,
) -> io::Result<Vec<Found>> {
    let alloc = rt.alloc();
    let mut found = Vec::new(alloc);
    let mut folders = Vec::new(alloc);
    folders.push(String::new(alloc))?;
    for _ in 0..MOST_FOLDERS {
        match folders.pop() {
            Some(folder) => read_folder(rt, root, folder.as_str(), &mut folders, &mut found)?,
            None => break,
        }
    }
    found.sort_by(|one, other| one.key.cmp(&other.key))?;
    Ok(found)
}
