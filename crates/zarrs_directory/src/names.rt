//! The names that make the path of a key.
ghost use Rattle.std.specs.Prelude.{◌≡◌, ◌↔◌, map, string_bytes, IfOk, IsTrue};
ghost use Rattle.std.specs.List.{All};
ghost use Rattle.zarrs_directory.specs.Directory.{IsName, lacks_slash, names_of, path_below};

use std::alloc::{AllocError, Global};

/// Returns the names between the slashes of a key.
fn names_in(alloc: Global, key: &str) -> Result<Vec<&str>, AllocError>
    ensures { IfOk result (λ names. map (λ name. name.now) names.items ≡ names_of key.now) }
{
    key.split('/').collect(alloc)
}

/// Returns whether the key is the path of a file below a directory: each of its names is one, not empty, neither `.` nor
/// `..`, and without a byte 0.
///
/// # Errors
/// `AllocError`: out of memory.
pub fn is_path(alloc: Global, key: &str) -> Result<bool, AllocError>
    ensures { IfOk result (λ yes. IsTrue yes ↔ All IsName (names_of key.now)) }
{
    let names = names_in(alloc, key)?;
    for name in &names {
        if !is_name(name) {
            return Ok(false);
        }
    }
    Ok(true)
}

/// Returns whether it is a name.
fn is_name(name: &str) -> bool
    ensures { IsTrue result ↔ IsName name.now }
{
    if name.is_empty() || name == "." || name == ".." {
        return false;
    }
    !name.as_bytes().contains(&0)
}

/// Returns whether a `/` is missing between the two paths.
fn is_slash_missing(root: &str, key: &str) -> bool
    ensures { result ≡ lacks_slash root.now key.now }
{
    let bytes = root.as_bytes();
    !bytes.is_empty() && bytes[bytes.len() - 1] != b'/' && !key.is_empty()
}

/// Returns the path of what lies at `key` below `root`: a `/` is put between them where one is missing.
///
/// # Errors
/// `AllocError`: out of memory.
pub fn joined(alloc: Global, root: &str, key: &str) -> Result<String, AllocError>
    ensures { IfOk result (λ path. string_bytes path ≡ path_below root.now key.now) }
{
    let mut path = String::from_str(alloc, root)?;
    if is_slash_missing(root, key) {
        path.push('/')?;
    }
    path.push_str(key)?;
    Ok(path)
}
