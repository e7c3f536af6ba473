//! Arrays in directories: opened, and their calls.
ghost use Rattle.std.specs.Prelude.{◌≡◌, length, IfOk, IfSome, IsErr, OnOk};
ghost use Rattle.zarrs_data_type.specs.ArrayData.{data_of};
ghost use Rattle.zarrs_subset.specs.Regions.{LiesInShape, box_at_origin, box_of};
ghost use Rattle.zarrs_codec.specs.Options.{stores_empty_chunks};
ghost use Rattle.zarrs_creation.specs.Meanings.{shape_said};
ghost use Rattle.zarrs.specs.Arrays.{layout_of_array, metadata_of_array};
ghost use Rattle.zarrs_directory.specs.Directory.{directory_of};
ghost use Rattle.zarr_cells.specs.Forms.{rows_of};
ghost use Rattle.zarr_arrays.specs.Reading.{ReadsCells};
ghost use Rattle.zarr_arrays.specs.Storing.{CompactsRead, StoresCells, UpgradesStore};

use crate::calls::{compact_chunk, retrieve_cells, store_cells, upgrade};
use crate::reading::{outside, read_chunk, read_chunks, read_parts};
use crate::refusals::Refusal;
use std::alloc::Global;
use std::fs;
use zarr_cells::{CLEAR, Lens, Rows, form_of, seen};
use zarrs::{
    Array, ArrayBytes, ArraySubset, ArraySubsetTraits, Bytes, CodecOptions, MemoryStore,
    ReadableStorageTraits, StoreKey, WritableStorageTraits,
};
use zarrs_directory::{DirectoryStore, Excerpts};
use zarrs_options::ArrayMetadataOptions;

/// A store over a directory of this system.
pub(crate) type Store<'r> = DirectoryStore<'r, HostRuntime>;

/// An array, what was read of its directory, and how its document is seen.
#[derive(Drop)]
pub struct Opened<'r> {
    pub array: Array<()>,
    pub store: DirectoryStore<'r, HostRuntime>,
    pub lens: Lens,
}

/// The key of the document of a V3 array. Where it is, no other document says anything.
const V3_METADATA: &str = "zarr.json";

/// The keys of the documents of an array.
pub const METADATA: [&str; 3] = [V3_METADATA, ".zarray", ".zattrs"];

/// Reads what is at the key.
///
/// # Errors
/// E7 for a file that cannot be read; E9.
pub fn read_value(
    store: &mut DirectoryStore<'_, HostRuntime>,
    alloc: Global,
    key: &StoreKey,
) -> Result<Option<Bytes>, Refusal> {
    store.read(alloc, key)?;
    Ok(store.get(alloc, key)?)
}

/// Reads the document of this name, and puts what is seen of it into the view. Returns whether it is there.
fn see_document(
    store: &mut Store<'_>,
    alloc: Global,
    name: &str,
    view: &mut MemoryStore,
    lens: &mut Lens,
) -> Result<bool, Refusal> {
    let key = StoreKey::new(alloc, name)?;
    let Some(value) = read_value(store, alloc, &key)? else {
        return Ok(false);
    };
    if let Some(bytes) = seen(alloc, name, value.as_slice(), lens)? {
        view.set(alloc, &key, Bytes::from_vec(bytes)?)?;
    }
    Ok(true)
}

/// Reads the documents of the array, and puts what is seen of them into the view.
fn see_documents(
    store: &mut Store<'_>,
    alloc: Global,
    view: &mut MemoryStore,
    lens: &mut Lens,
) -> Result<(), Refusal> {
    for name in METADATA {
        if see_document(store, alloc, name, view, lens)? && name == V3_METADATA {
            break;
        }
    }
    Ok(())
}

/// Returns the array without its store. Its document is stored as it is: no attribute is added.
fn without_store(alloc: Global, array: &Array<MemoryStore>) -> Result<Array<()>, Refusal> {
    let made = array.with_storage(alloc, ())?;
    let options = ArrayMetadataOptions::default().with_include_zarrs_metadata(false);
    Ok(made.with_metadata_options(options))
}

/// Opens the array that the view has, without a store.
fn array_in(alloc: Global, view: MemoryStore) -> Result<Array<()>, Refusal> {
    let array = Array::open(alloc, view, "/")?;
    without_store(alloc, &array)
}

/// Opens the array of the directory.
///
/// # Errors
/// No directory; E7 for a document that cannot be read; those of `Array::open`.
pub fn open<'r>(rt: &'r HostRuntime, dir: &str) -> Result<Opened<'r>, Refusal> {
    let alloc = rt.alloc();
    if !fs::metadata(rt, dir)?.is_dir() {
        return Err(Refusal::said(alloc, "not a directory"));
    }
    let mut store = DirectoryStore::new(rt, dir)?;
    let mut lens = CLEAR;
    let mut view = MemoryStore::new(alloc);
    see_documents(&mut store, alloc, &mut view, &mut lens)?;
    store.forget();
    let array = array_in(alloc, view)?;
    Ok(Opened { array, store, lens })
}

impl<'r> Opened<'r> {
    /// Lets go of the array, here and not in the crates above.
    pub fn close(self) {}

    /// Returns the options of writing calls: without a fill value a chunk of zeros is stored like any other.
    pub fn options(&self) -> CodecOptions
        ensures { stores_empty_chunks result ≡ self.now.lens.has_no_fill }
    {
        CodecOptions::default().with_store_empty_chunks(self.lens.has_no_fill)
    }

    /// Returns rows of this many cells, if the cells are numbers or bools.
    pub fn rows(&self, width: u64) -> Option<Rows>
        ensures { result ≡ rows_of (layout_of_array self.now.array).kind self.now.lens.floats width }
    {
        let data_type = self.array.data_type();
        let form = form_of(data_type, self.lens.floats)?;
        let size = data_type.element_size()?;
        Some(Rows { form, size, width })
    }

    /// Refuses to write metadata that is not seen as it is.
    ///
    /// # Errors
    /// Its metadata has floats, members that would not be written back, or a data type under a foreign name.
    pub fn need_clear(&self, alloc: Global) -> Result<(), Refusal> {
        if self.lens.is_clear() {
            return Ok(());
        }
        Err(Refusal::said(
            alloc,
            "its metadata has floats, foreign members or a foreign data type: it is not written",
        ))
    }

    /// Returns the region, or that of all cells, if its cells are below the array's shape.
    ///
    /// # Errors
    /// E1 for another number of dimensions, or an end past the shape.
    pub fn region(&self, alloc: Global, region: Option<ArraySubset>) -> Result<ArraySubset, Refusal>
        ensures inside { IfSome region (λ given. LiesInShape (box_of given)
            (shape_said (metadata_of_array self.now.array)) → result ≡ Ok given) }
        ensures outside { IfSome region (λ given. (LiesInShape (box_of given)
            (shape_said (metadata_of_array self.now.array)) → ⊥) → IsErr result) }
        ensures all { region ≡ None → IfOk result (λ all. box_of all
            ≡ box_at_origin (shape_said (metadata_of_array self.now.array))) }
    {
        match region {
            Some(region) if region.inbounds_shape(self.array.shape()) => Ok(region),
            Some(region) => Err(outside(alloc, &self.array, &region)),
            None => Ok(self.array.subset_all(alloc)?),
        }
    }

    /// Returns the cells of the region. Of the files of its chunks is read what it needs, and of no other.
    ///
    /// # Errors
    /// E1 for a position that no chunk covers; E7 for a file that cannot be read; those of `Array::retrieve_array_subset`.
    pub fn cells(&self, alloc: Global, region: &ArraySubset) -> Result<ArrayBytes<'static>, Refusal>
        ensures { IfOk result (λ cells. ReadsCells (layout_of_array self.now.array)
            (directory_of self.now.store) (box_of region.now) (data_of cells)) }
    {
        let mut files = Excerpts::new(alloc, &self.store.directory);
        read_chunks(&self.array, &mut files, alloc, region)?;
        let cells = retrieve_cells(&self.array, alloc, files, region)?;
        Ok(cells)
    }

    /// Stores the cells of the region. The chunks that it covers only in part are read first.
    ///
    /// # Errors
    /// E1 for a position that no chunk covers; E7 for a file that cannot be read or written; those of
    /// `Array::store_array_subset`.
    pub fn store_cells(
        &mut self,
        alloc: Global,
        region: &ArraySubset,
        cells: ArrayBytes<'_>,
    ) -> Result<(), Refusal>
        ensures stored { OnOk result (StoresCells (layout_of_array self.old.array)
            (box_of region.now) (data_of cells.entry) self.old.store self.new.store) }
        ensures array { self.new.array ≡ self.old.array }
    {
        self.store.forget();
        read_parts(&self.array, &mut self.store, alloc, region)?;
        let options = self.options();
        store_cells(&self.array, alloc, &mut self.store, region, cells, &options)?;
        Ok(())
    }

    /// Compacts the chunk with these indices, of which there is one for each dimension. Returns whether it was not compact.
    ///
    /// # Errors
    /// E7 for a file that cannot be read or written; those of `Array::compact_chunk`.
    pub fn compact_chunk(&mut self, alloc: Global, indices: &[u64]) -> Result<bool, Refusal>
        ensures compacted { length indices.now ≡ (layout_of_array self.old.array).grid.dimensions
            → IfOk result (λ answer. CompactsRead (layout_of_array self.old.array) indices.now
            answer self.old.store self.new.store) }
        ensures array { self.new.array ≡ self.old.array }
    {
        self.store.forget();
        if indices.len() != self.array.dimensionality() {
            return Ok(false);
        }
        read_chunk(&self.array, &mut self.store, alloc, indices)?;
        let answer = compact_chunk(&self.array, alloc, &mut self.store, indices)?;
        Ok(answer)
    }

    /// Makes the V2 document of the array a V3 one.
    ///
    /// # Errors
    /// A document that is not seen as it is; E7 for a file that cannot be written; E9.
    pub fn upgrade(&mut self, alloc: Global) -> Result<(), Refusal>
        ensures upgraded { OnOk result
            (UpgradesStore self.old.array self.old.store self.new.store) }
        ensures array { self.new.array ≡ self.old.array }
    {
        self.need_clear(alloc)?;
        upgrade(&self.array, alloc, &mut self.store)?;
        Ok(())
    }
}
