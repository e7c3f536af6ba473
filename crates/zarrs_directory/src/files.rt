//! The files of a directory.
ghost use Rattle.std.specs.Prelude.{◌≡◌, length, string_bytes, IfErr, IfOk, IfSome, OnOk};
ghost use Rattle.std.specs.List.{All};
ghost use Rattle.zarrs_directory.specs.Directory.{IsName, names_of, path_below, root_of};
ghost use Rattle.zarrs_directory.specs.Directory.{RefusesFile, SaysKey};
ghost use Rattle.zarrs_directory.specs.Excerpts.{HasWanted};

use crate::excerpt::{Excerpt, Wanted};
use crate::names::{is_path, joined};
use std::alloc::{AllocError, Global};
use std::fs::{self, File, OpenFile};
use std::io::{self, ErrorKind, Read, Seek, SeekFrom, Write};
use std::rt::Files;
use zarrs_storage::{Bytes, StorageError, StoreKey};

/// A directory, whose files are read and replaced by their keys.
#[derive(Drop)]
pub struct Directory<'r, R> {
    rt: &'r R,
    root: String,
}

fn is_absent(error: &io::Error) -> bool {
    matches!(error.kind(), ErrorKind::NotFound | ErrorKind::NotADirectory)
}

/// Returns a text of the key, and of what the system said.
fn text_of(alloc: Global, key: &StoreKey, error: &io::Error) -> Result<String, AllocError>
    ensures { IfOk result (λ text. SaysKey key.now (string_bytes text)) }
{
    let said = format!(in alloc; "{error}")?;
    let text = format!(in alloc; "{key}: {said}")?;
    Ok(text)
}

/// Makes the refusal that says the key, and what the system said.
fn refusal(alloc: Global, key: &StoreKey, error: io::Error) -> StorageError
    ensures { RefusesFile key.now result }
{
    match text_of(alloc, key, &error) {
        Ok(text) => StorageError::Other(text),
        Err(_) => StorageError::OutOfMemory,
    }
}

/// Returns the bytes of the file. Room is made once: for all of them, and for one more, by which the end is found.
fn read_whole<F: Read>(alloc: Global, file: &mut F, size: u64) -> io::Result<Bytes> {
    let mut bytes = Vec::with_capacity(alloc, (size as usize).saturating_add(1))?;
    file.read_to_end(&mut bytes)?;
    Ok(Bytes::from_vec(bytes)?)
}

/// Returns so many bytes of the file, from `start` on.
fn read_range<F: Read + Seek>(
    alloc: Global,
    file: &mut F,
    start: u64,
    count: u64,
) -> io::Result<Bytes>
    ensures { IfOk result (λ bytes. length bytes ≡ count) }
{
    let mut bytes = Vec::new(alloc);
    bytes.resize(count as usize, 0)?;
    file.seek(SeekFrom::Start(start))?;
    file.read_exact(&mut bytes)?;
    Ok(Bytes::from_vec(bytes)?)
}

/// Reads the places of the file that are wanted, if it has as many bytes as was said, and otherwise all.
fn read_excerpt<R: Files + AllocGlobal>(
    files: &R,
    path: &str,
    wanted: Option<Wanted>,
) -> io::Result<Excerpt>
    ensures { IfOk result (HasWanted wanted) }
{
    let mut file = File::open(files, path)?;
    let size = file.metadata()?.len();
    match wanted {
        Some(part) if part.size == size && part.start <= part.end && part.end <= size => {
            let bytes = read_range(files.alloc(), &mut file, part.start, part.end - part.start)?;
            Ok(Excerpt::part(size, part.start, bytes))
        }
        _ => Ok(Excerpt::whole(read_whole(files.alloc(), &mut file, size)?)),
    }
}

/// Makes the folder that the file lies in.
fn create_parent<R: Files>(files: &R, path: &str) -> io::Result<()> {
    match path.rsplit_once('/') {
        Some((parent, _)) => fs::create_dir_all(files, parent),
        None => Ok(()),
    }
}

/// Writes a file that is not there yet, and waits until it is on the disk.
fn write_new<R: Files>(files: &R, path: &str, bytes: &[u8]) -> io::Result<()> {
    let mut file = File::create_new(files, path)?;
    file.write_all(bytes)?;
    file.sync_all()
}

/// Writes a new file, in a folder that is made if it is not there. What a write that was killed left is removed first.
fn write_in_folder<R: Files>(files: &R, path: &str, bytes: &[u8]) -> io::Result<()> {
    match write_new(files, path, bytes) {
        Err(error) if error.kind() == ErrorKind::NotFound => {
            create_parent(files, path)?;
            write_new(files, path, bytes)
        }
        Err(error) if error.kind() == ErrorKind::AlreadyExists => {
            fs::remove_file(files, path)?;
            write_new(files, path, bytes)
        }
        outcome => outcome,
    }
}

impl<'r, R: Files + AllocGlobal> Directory<'r, R> {
    /// Names the directory at this path. Nothing is read.
    ///
    /// # Errors
    /// `AllocError`: out of memory.
    pub fn new(rt: &'r R, root: &str) -> Result<Directory<'r, R>, AllocError>
        ensures { IfOk result (λ directory. root_of directory ≡ root.now) }
    {
        let root = String::from_str(rt.alloc(), root)?;
        Ok(Directory { rt, root })
    }

    /// Returns the path of the directory.
    pub fn root(&self) -> &str
        ensures { result.now ≡ root_of self.now }
    {
        self.root.as_str()
    }

    /// Refuses a key one of whose names is neither a folder nor a file: a symbolic link might lead out of the directory, and a
    /// pipe would be waited for.
    fn refuse_links(&self, alloc: Global, key: &str) -> io::Result<()> {
        let mut path = String::from_str(alloc, self.root.as_str())?;
        for name in key.split('/') {
            path.push('/')?;
            path.push_str(name)?;
            match fs::symlink_metadata(self.rt, path.as_str()) {
                Ok(found) if !found.is_dir() && !found.is_file() => {
                    return Err(io::Error::from(ErrorKind::PermissionDenied));
                }
                Err(error) if !is_absent(&error) => return Err(error),
                _ => {}
            }
        }
        Ok(())
    }

    /// Returns the path of the file at the key.
    fn path_of(&self, alloc: Global, key: &StoreKey) -> io::Result<String>
        ensures names { OnOk result (All IsName (names_of key.now)) }
        ensures path { IfOk result (λ path. string_bytes path ≡ path_below (root_of self.now) key.now) }
    {
        if !is_path(alloc, key.as_str())? {
            return Err(io::Error::from(ErrorKind::InvalidFilename));
        }
        self.refuse_links(alloc, key.as_str())?;
        let path = joined(alloc, self.root.as_str(), key.as_str())?;
        Ok(path)
    }

    fn read_file(
        &self,
        alloc: Global,
        key: &StoreKey,
        wanted: Option<Wanted>,
    ) -> io::Result<Option<Excerpt>>
        ensures { IfOk result (λ found. IfSome found (HasWanted wanted)) }
    {
        let path = self.path_of(alloc, key)?;
        match read_excerpt(self.rt, path.as_str(), wanted) {
            Ok(excerpt) => Ok(Some(excerpt)),
            Err(error) if is_absent(&error) => Ok(None),
            Err(error) => Err(error),
        }
    }

    /// Puts the bytes into the file, by a new file that takes its place: a reader finds the old bytes or these.
    fn replace_file(&self, alloc: Global, key: &StoreKey, bytes: &[u8]) -> io::Result<()> {
        let path = self.path_of(alloc, key)?;
        let new = format!(in alloc; "{path}.zarrs-new")?;
        let outcome = match write_in_folder(self.rt, new.as_str(), bytes) {
            Ok(()) => fs::rename(self.rt, new.as_str(), path.as_str()),
            refused => refused,
        };
        if outcome.is_err() {
            let _ = fs::remove_file(self.rt, new.as_str());
        }
        outcome
    }

    fn remove_file(&self, alloc: Global, key: &StoreKey) -> io::Result<()> {
        let path = self.path_of(alloc, key)?;
        match fs::remove_file(self.rt, path.as_str()) {
            Err(error) if !is_absent(&error) => Err(error),
            _ => Ok(()),
        }
    }

    /// Returns what is wanted of the file at the key, or `None` if there is no file.
    ///
    /// # Errors
    /// `Other` with the key and the system's text, if the file cannot be read or the key is no path; `OutOfMemory`.
    pub fn read(
        &self,
        alloc: Global,
        key: &StoreKey,
        wanted: Option<Wanted>,
    ) -> Result<Option<Excerpt>, StorageError>
        ensures found { IfOk result (λ found. IfSome found (HasWanted wanted)) }
        ensures refused { IfErr result (RefusesFile key.now) }
    {
        match self.read_file(alloc, key, wanted) {
            Ok(found) => Ok(found),
            Err(error) => Err(refusal(alloc, key, error)),
        }
    }

    /// Puts the bytes into the file at the key, on the disk. If it is refused, the file is what it was.
    ///
    /// # Errors
    /// `Other` with the key and the system's text; `OutOfMemory`.
    pub fn replace(&self, alloc: Global, key: &StoreKey, bytes: &[u8]) -> Result<(), StorageError>
        ensures { IfErr result (RefusesFile key.now) }
    {
        match self.replace_file(alloc, key, bytes) {
            Ok(()) => Ok(()),
            Err(error) => Err(refusal(alloc, key, error)),
        }
    }

    /// Removes the file at the key, if it is there.
    ///
    /// # Errors
    /// `Other` with the key and the system's text; `OutOfMemory`.
    pub fn remove(&self, alloc: Global, key: &StoreKey) -> Result<(), StorageError>
        ensures { IfErr result (RefusesFile key.now) }
    {
        match self.remove_file(alloc, key) {
            Ok(()) => Ok(()),
            Err(error) => Err(refusal(alloc, key, error)),
        }
    }
}
