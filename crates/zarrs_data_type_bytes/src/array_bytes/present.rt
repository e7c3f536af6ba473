//! The inner cells of optional data that are some, and optional data made of them.
ghost use Rattle.std.specs.Prelude.{◌≡◌, ◌<◌, ◌*◌, ◌^◌, All, IfOk, IfSome, IsSome};
ghost use Rattle.std.specs.Prelude.{Some, length, count_by};
ghost use Rattle.zarrs_data_type_bytes.specs.ArrayData.{data_of, optional_data};
ghost use Rattle.zarrs_data_type_bytes.specs.Cells.{cells, HasCells};
ghost use Rattle.zarrs_data_type_bytes.specs.Present.{flag_set, present_cells, spread_cells};
ghost use Rattle.zarrs_data_type_kinds.specs.Kind.{kind, cell_size, optional};

use super::gather::{gather_fixed, places_set};
use super::{ArrayBytes, ArrayBytesOptional};
use std::alloc::{AllocError, Global};
use std::borrow::CowSlice;
use zarrs_data_type_kinds::DataType;

impl<'a> ArrayBytes<'a> {
    /// Data of an optional type: a cell whose flag is 0 is none, the others are some of the present cells in their
    /// order. `inner` is the inner type.
    ///
    /// # Errors
    /// `AllocError`: out of memory.
    pub fn from_present(
        alloc: Global,
        inner: &DataType,
        mask: Vec<u8>,
        present: &ArrayBytes<'_>,
    ) -> Result<ArrayBytes<'a>, AllocError>
        requires flags { All (λ flag. flag < 2) mask.items }
        requires present { HasCells (kind inner.now) (data_of present.now)
            (count_by flag_set mask.items) }
        requires size { length mask.items * cell_size (kind inner.now) < 2 ^ 64 }
        ensures { IfOk result (λ made. IfSome (cells (kind inner.now) (data_of present.now))
            (λ ds. cells (optional (kind inner.now)) (data_of made)
            ≡ Some (spread_cells mask.items ds))) }
    {
        let data = present.spread(alloc, inner, mask.as_slice())?;
        data.with_optional_mask(alloc, CowSlice::Owned(mask))
    }
}

impl<'a> ArrayBytesOptional<'a> {
    /// The inner cells of the cells that are some, in their order. `inner` is the inner type.
    ///
    /// # Errors
    /// `AllocError`: out of memory.
    pub fn present(
        &self,
        alloc: Global,
        inner: &DataType,
    ) -> Result<ArrayBytes<'static>, AllocError>
        requires { IsSome (cells (optional (kind inner.now)) (optional_data self.now)) }
        ensures { IfOk result (λ made. IfSome (cells (optional (kind inner.now))
            (optional_data self.now))
            (λ cs. cells (kind inner.now) (data_of made) ≡ Some (present_cells cs))) }
    {
        if let ArrayBytes::Fixed(cells) = &*self.data {
            let size = inner.element_size().unwrap();
            let made = gather_fixed(alloc, cells.as_slice(), size, self.mask.as_slice())?;
            return Ok(ArrayBytes::Fixed(CowSlice::Owned(made)));
        }
        let places = places_set(alloc, self.mask.as_slice())?;
        self.data.select(alloc, inner, places.as_slice())
    }
}
