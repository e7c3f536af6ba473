//! Texts that are no path and no key, copies of keys, and what refusals print.
use crate::checks::{must, must_eq, must_for, must_say};
use std::alloc::Global;
use std::process::Abort;
use zarrs_keys::{
    ChunkKeyEncoding, ChunkKeyEncodingTraits, ChunkKeySeparator, KeySuffix, KeySuffixError,
    NodePath, NodePathError, data_key, paths_are_names, paths_keep_keys_lawful,
    unrelated_paths_share_no_key,
};
use zarrs_metadata::{MetadataError, PluginCreateError};
use zarrs_storage::{StorageError, StoreKey};

fn path(rt: &impl Abort, alloc: Global, text: &str) -> NodePath {
    NodePath::new(alloc, text).expect(rt, "no refusal")
}

fn suffix(rt: &impl Abort, alloc: Global, text: &str) -> KeySuffix {
    KeySuffix::new(alloc, text).expect(rt, "no refusal")
}

fn suffixed(rt: &impl Abort, alloc: Global, text: &str) -> ChunkKeyEncoding {
    ChunkKeyEncoding::DefaultSuffix(ChunkKeySeparator::Slash, suffix(rt, alloc, text))
}

fn store_key(rt: &impl Abort, alloc: Global, text: &str) -> StoreKey {
    let key = String::from_str(alloc, text).expect(rt, "no refusal");
    StoreKey::from_string(alloc, key).expect(rt, "no refusal")
}

fn must_be_no_path(rt: &impl Abort, alloc: Global, text: &str) {
    let refused = NodePath::new(alloc, text);
    must_for(rt, text, matches!(refused, Err(NodePathError::Invalid)));
}

fn must_be_no_store_key(rt: &impl Abort, alloc: Global, text: &str) {
    let refused = StoreKey::new(alloc, text);
    must_for(rt, text, matches!(refused, Err(StorageError::Other(_))));
}

fn must_be_no_data_key(rt: &impl Abort, alloc: Global, text: &str, encoded: &str) {
    let refused = data_key(alloc, &path(rt, alloc, text), encoded);
    must_for(rt, encoded, matches!(refused, Err(StorageError::Other(_))));
}

#[test]
fn texts_that_are_no_path_and_no_key(rt: HostRuntime) {
    const STORE_KEYS: &[&str] = &["", "/", "/c", "c/"];
    for text in STORE_KEYS {
        must_be_no_store_key(&rt, rt.alloc(), text);
    }
    must_be_no_path(&rt, rt.alloc(), "");
    must_be_no_data_key(&rt, rt.alloc(), "/", "");
    must_be_no_data_key(&rt, rt.alloc(), "/", "/c");
    must_be_no_data_key(&rt, rt.alloc(), "/a", "");
    must_be_no_data_key(&rt, rt.alloc(), "/a", "c/");
}

#[test]
fn what_paths_keys_and_refusals_print(rt: HostRuntime) {
    let alloc = rt.alloc();
    const PATHS: &[&str] = &["/", "/a/bc", "/.", "/./..", "/größe/温度", "/ "];
    for text in PATHS {
        must_say(&rt, alloc, path(&rt, alloc, text), text);
    }
    must_say(&rt, alloc, store_key(&rt, alloc, "c/0/1"), "c/0/1");
    const PATH: &str = "a node path is `/`, or `/` and nonempty names joined by `/`";
    must_say(&rt, alloc, NodePathError::Invalid, PATH);
    const SUFFIX: &str = "a suffix is nonempty, of ASCII letters, digits, `.`, `_` and `-`";
    must_say(&rt, alloc, KeySuffixError::Invalid, SUFFIX);
    const SHAPE: &str = "the metadata has another shape";
    must_say(&rt, alloc, MetadataError::InvalidShape, SHAPE);
    must_say(&rt, alloc, MetadataError::OutOfMemory, "out of memory");
    must_say(&rt, alloc, PluginCreateError::OutOfMemory, "out of memory");
}

fn must_differ<T: Clone + PartialEq + Drop>(rt: &impl Abort, value: T, other: T) {
    must(rt, value.clone().expect(rt, "no refusal") == value);
    must(rt, value != other);
}

fn must_ascend(rt: &impl Abort, alloc: Global, text: &str, other: &str) {
    let key = StoreKey::new(alloc, text).expect(rt, "no refusal");
    must(rt, key == store_key(rt, alloc, text));
    must(rt, key < store_key(rt, alloc, other));
    must_eq(rt, key.as_str(), text);
}

fn must_encode(rt: &impl Abort, alloc: Global, encoding: ChunkKeyEncoding, key: &str) {
    let encoded = encoding.encode(alloc, &[3, 4]).expect(rt, "no refusal");
    must_eq(rt, encoded.as_str(), key);
}

#[test]
fn copies_are_equal(rt: HostRuntime) {
    let alloc = rt.alloc();
    must_differ(&rt, path(&rt, alloc, "/a"), path(&rt, alloc, "/b"));
    must_differ(&rt, suffix(&rt, alloc, ".tiff"), suffix(&rt, alloc, ".tif"));
    must_differ(
        &rt,
        suffixed(&rt, alloc, ".tiff"),
        suffixed(&rt, alloc, ".tif"),
    );
    let plain = ChunkKeyEncoding::Default(ChunkKeySeparator::Slash);
    must_differ(&rt, suffixed(&rt, alloc, ".tiff"), plain);
    must_differ(
        &rt,
        store_key(&rt, alloc, "c/0/1"),
        store_key(&rt, alloc, "c/0/10"),
    );
    must_ascend(&rt, alloc, "c/10", "c/2");
    must_encode(&rt, alloc, suffixed(&rt, alloc, "0.-_Z"), "c/3/40.-_Z");
}

#[test]
fn laws_of_paths_and_keys(_rt: HostRuntime) {
    unrelated_paths_share_no_key();
    paths_are_names();
    paths_keep_keys_lawful();
}
