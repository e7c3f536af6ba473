//! Setters of an array. None of them asks the store.
ghost use Rattle.zarrs.specs.Loans.{IsArrayOf};

use super::Array;
use std::alloc::Global;
use zarrs_creation::{name_dimensions, regrid, reshape};
use zarrs_data_type::IntoField;
use zarrs_metadata::DimensionName;
use zarrs_options::{ArrayBuilderChunkGridMetadata, ArrayCreateError};
use zarrs_subset::ArrayShape;

/// A loan of an array that a setter changed. What stands after a refusal is proved of a loan in a struct, and handed on
/// from it.
struct ArrayLoan<'a, TStorage> {
    array: &'a mut Array<TStorage>,
}

/// Returns the array of a loan.
fn array_of<'a, TStorage>(
    loan: Result<ArrayLoan<'a, TStorage>, ArrayCreateError>,
) -> Result<&'a mut Array<TStorage>, ArrayCreateError>
    ensures same { IsArrayOf loan.entry result }
{
    match loan {
        Ok(loan) => {
            let ArrayLoan { array } = loan;
            Ok(array)
        }
        Err(error) => Err(error),
    }
}

impl<TStorage> Array<TStorage> {
    ghost use Rattle.std.specs.Borrow.{sem};
    ghost use Rattle.std.specs.Prelude.{◌≡◌, map, Ok, IfOk, IfErr, OnOk, OnErr, option_map};
    ghost use Rattle.zarrs_metadata_v3.specs.View.{name_view};
    ghost use Rattle.zarrs_options.specs.Refusals.{create_refusal_of, RefusesCreation};
    ghost use Rattle.zarrs_creation.specs.Changes.{naming, with_names};
    ghost use Rattle.zarrs.specs.Arrays.{metadata_of_array, KeepsAllButMetadata};
    ghost use Rattle.zarrs.specs.Loans.{name_of_array, name_of_loan, RestsUnlessNamed};

    /// Gives the dimensions these names, or takes their names away, as `set_dimension_names` does.
    ///
    /// # Errors
    /// Those of `set_dimension_names`. The array stays as it was then.
    fn name_dimensions(
        &mut self,
        alloc: Global,
        dimension_names: Option<Vec<DimensionName>>,
    ) -> Result<(), ArrayCreateError>
        ensures named { OnOk result (metadata_of_array self.new
            ≡ with_names (option_map (λ n. map name_view n.items) dimension_names)
            (metadata_of_array self.old)) }
        ensures accepted { OnOk result (naming (option_map (λ n. map name_view n.items)
            dimension_names) (metadata_of_array self.old) ≡ Ok tt) }
        ensures refused { IfErr result (λ e. RefusesCreation
            (naming (option_map (λ n. map name_view n.items) dimension_names)
            (metadata_of_array self.old)) (create_refusal_of e)) }
        ensures untouched { OnErr result (metadata_of_array self.new
            ≡ metadata_of_array self.old) }
        ensures kept { KeepsAllButMetadata self.old self.new }
    {
        name_dimensions(alloc, &mut self.metadata, dimension_names)
    }

    /// Does what `set_dimension_names` does, and lends the array in a struct.
    fn lend_named(
        &mut self,
        alloc: Global,
        dimension_names: Option<Vec<DimensionName>>,
    ) -> Result<ArrayLoan<'_, TStorage>, ArrayCreateError>
        ensures* untouched { sem 𝓛 (RestsUnlessNamed TStorage.row self.entry name_of_loan result) }
        ensures same_loan { IfOk result (λ loan. name_of_loan loan ≡ self.entry.ghost_name) }
        ensures named { IfOk result (λ loan. metadata_of_array loan.array.now
            ≡ with_names (option_map (λ n. map name_view n.items) dimension_names)
            (metadata_of_array self.old)) }
        ensures kept { IfOk result (λ loan. KeepsAllButMetadata self.old loan.array.now) }
        ensures accepted { OnOk result (naming (option_map (λ n. map name_view n.items)
            dimension_names) (metadata_of_array self.old) ≡ Ok tt) }
        ensures refused { IfErr result (λ e. RefusesCreation
            (naming (option_map (λ n. map name_view n.items) dimension_names)
            (metadata_of_array self.old)) (create_refusal_of e)) }
    {
        self.name_dimensions(alloc, dimension_names)?;
        Ok(ArrayLoan { array: self })
    }

    /// Gives the dimensions these names, or takes their names away. If this is refused the array stays as it was.
    ///
    /// # Errors
    /// E21 for more or fewer names than dimensions; E25 for names of a V2 array. E26 may come for those.
    pub fn set_dimension_names(
        &mut self,
        alloc: Global,
        dimension_names: Option<Vec<DimensionName>>,
    ) -> Result<&mut Self, ArrayCreateError>
        ensures* untouched { sem 𝓛 (RestsUnlessNamed TStorage.row self.entry name_of_array result) }
        ensures same_loan { IfOk result (λ array. array.ghost_name ≡ self.entry.ghost_name) }
        ensures named { IfOk result (λ array. metadata_of_array array.now
            ≡ with_names (option_map (λ n. map name_view n.items) dimension_names)
            (metadata_of_array self.old)) }
        ensures kept { IfOk result (λ array. KeepsAllButMetadata self.old array.now) }
        ensures accepted { OnOk result (naming (option_map (λ n. map name_view n.items)
            dimension_names) (metadata_of_array self.old) ≡ Ok tt) }
        ensures refused { IfErr result (λ e. RefusesCreation
            (naming (option_map (λ n. map name_view n.items) dimension_names)
            (metadata_of_array self.old)) (create_refusal_of e)) }
    {
        array_of(self.lend_named(alloc, dimension_names))
    }
}

impl<TStorage> Array<TStorage> {
    ghost use Rattle.std.specs.Borrow.{sem};
    ghost use Rattle.std.specs.Prelude.{◌≡◌, Ok, IfOk, IfErr, OnOk, OnErr};
    ghost use Rattle.zarrs_options.specs.Given.{grid_given};
    ghost use Rattle.zarrs_options.specs.Refusals.{create_refusal_of, RefusesCreation};
    ghost use Rattle.zarrs_creation.specs.Changes.{reshaping, regridding};
    ghost use Rattle.zarrs.specs.Arrays.{layout_of_array, metadata_of_array};
    ghost use Rattle.zarrs.specs.Arrays.{KeepsArray, KeepsAllButGrid};
    ghost use Rattle.zarrs.specs.Loans.{name_of_array, name_of_loan, RestsUnlessShaped};
    ghost use Rattle.zarrs.specs.Setters.{KeepsCells, KeepsDecoding, Regrids, RefusesRegrid};

    /// Gives the array this shape, as `set_shape` does.
    ///
    /// # Errors
    /// Those of `set_shape`. The array stays as it was then.
    fn reshape(&mut self, alloc: Global, shape: ArrayShape) -> Result<(), ArrayCreateError>
        ensures reshaped { OnOk result (reshaping shape.items (metadata_of_array self.old)
            ≡ Ok (metadata_of_array self.new)) }
        ensures refused { IfErr result (λ e. RefusesCreation
            (reshaping shape.items (metadata_of_array self.old)) (create_refusal_of e)) }
        ensures untouched { OnErr result (KeepsArray self.old self.new) }
        ensures kept { KeepsAllButGrid self.old self.new }
        ensures content { KeepsCells (layout_of_array self.old) (layout_of_array self.new) }
        ensures decodes { KeepsDecoding (layout_of_array self.old) (layout_of_array self.new) }
    {
        let grid = reshape(alloc, &mut self.metadata, shape)?;
        self.engine.set_chunk_grid(grid);
        Ok(())
    }

    /// Does what `set_shape` does, and lends the array in a struct.
    fn lend_shaped(
        &mut self,
        alloc: Global,
        shape: ArrayShape,
    ) -> Result<ArrayLoan<'_, TStorage>, ArrayCreateError>
        ensures* untouched { sem 𝓛 (RestsUnlessShaped TStorage.row self.entry name_of_loan result) }
        ensures same_loan { IfOk result (λ loan. name_of_loan loan ≡ self.entry.ghost_name) }
        ensures reshaped { IfOk result (λ loan. reshaping shape.items
            (metadata_of_array self.old) ≡ Ok (metadata_of_array loan.array.now)) }
        ensures refused { IfErr result (λ e. RefusesCreation
            (reshaping shape.items (metadata_of_array self.old)) (create_refusal_of e)) }
        ensures kept { IfOk result (λ loan. KeepsAllButGrid self.old loan.array.now) }
        ensures content { IfOk result
            (λ loan. KeepsCells (layout_of_array self.old) (layout_of_array loan.array.now)) }
        ensures decodes { IfOk result
            (λ loan. KeepsDecoding (layout_of_array self.old) (layout_of_array loan.array.now)) }
    {
        self.reshape(alloc, shape)?;
        Ok(ArrayLoan { array: self })
    }

    /// Gives the array this shape, and makes its chunk grid anew from its metadata. The store is not asked: a chunk that
    /// it holds is read by the new grid. If this is refused the array stays as it was.
    ///
    /// # Errors
    /// E18 if there is no such grid over the shape, so also for another number of dimensions. E26 may come at any time.
    pub fn set_shape(
        &mut self,
        alloc: Global,
        shape: ArrayShape,
    ) -> Result<&mut Self, ArrayCreateError>
        ensures* untouched { sem 𝓛 (RestsUnlessShaped TStorage.row self.entry name_of_array result) }
        ensures same_loan { IfOk result (λ array. array.ghost_name ≡ self.entry.ghost_name) }
        ensures reshaped { IfOk result (λ array. reshaping shape.items
            (metadata_of_array self.old) ≡ Ok (metadata_of_array array.now)) }
        ensures refused { IfErr result (λ e. RefusesCreation
            (reshaping shape.items (metadata_of_array self.old)) (create_refusal_of e)) }
        ensures kept { IfOk result (λ array. KeepsAllButGrid self.old array.now) }
        ensures content { IfOk result
            (λ array. KeepsCells (layout_of_array self.old) (layout_of_array array.now)) }
        ensures decodes { IfOk result
            (λ array. KeepsDecoding (layout_of_array self.old) (layout_of_array array.now)) }
    {
        array_of(self.lend_shaped(alloc, shape))
    }

    /// Gives the array this shape and this chunk grid, as `set_shape_and_chunk_grid` does.
    ///
    /// # Errors
    /// Those of `set_shape_and_chunk_grid`. The array stays as it was then.
    fn regrid(
        &mut self,
        alloc: Global,
        shape: ArrayShape,
        chunk_grid_metadata: &ArrayBuilderChunkGridMetadata,
    ) -> Result<(), ArrayCreateError>
        ensures regridded { OnOk result (regridding shape.items (grid_given chunk_grid_metadata.now)
            (metadata_of_array self.old) ≡ Ok (metadata_of_array self.new)) }
        ensures refused { IfErr result (λ e. RefusesCreation (regridding shape.items
            (grid_given chunk_grid_metadata.now) (metadata_of_array self.old))
            (create_refusal_of e)) }
        ensures untouched { OnErr result (KeepsArray self.old self.new) }
        ensures kept { KeepsAllButGrid self.old self.new }
        ensures content { KeepsCells (layout_of_array self.old) (layout_of_array self.new) }
        ensures decodes { KeepsDecoding (layout_of_array self.old) (layout_of_array self.new) }
    {
        let grid = regrid(alloc, &mut self.metadata, shape, chunk_grid_metadata)?;
        self.engine.set_chunk_grid(grid);
        Ok(())
    }

    /// Does what `set_shape_and_chunk_grid` does, and lends the array in a struct.
    fn lend_regridded<G: IntoField<ArrayBuilderChunkGridMetadata>>(
        &mut self,
        alloc: Global,
        shape: ArrayShape,
        chunk_grid_metadata: G,
    ) -> Result<ArrayLoan<'_, TStorage>, ArrayCreateError>
        ensures* untouched { sem 𝓛 (RestsUnlessShaped TStorage.row self.entry name_of_loan result) }
        ensures same_loan { IfOk result (λ loan. name_of_loan loan ≡ self.entry.ghost_name) }
        ensures regridded { IfOk result (λ loan. Regrids (G.gives chunk_grid_metadata)
            shape.items (metadata_of_array self.old) (metadata_of_array loan.array.now)) }
        ensures refused { IfErr result (λ e. RefusesRegrid (G.gives chunk_grid_metadata)
            shape.items (metadata_of_array self.old) (create_refusal_of e)) }
        ensures kept { IfOk result (λ loan. KeepsAllButGrid self.old loan.array.now) }
        ensures content { IfOk result
            (λ loan. KeepsCells (layout_of_array self.old) (layout_of_array loan.array.now)) }
        ensures decodes { IfOk result
            (λ loan. KeepsDecoding (layout_of_array self.old) (layout_of_array loan.array.now)) }
    {
        let chunk_grid_metadata = chunk_grid_metadata.into_field(alloc)?;
        self.regrid(alloc, shape, &chunk_grid_metadata)?;
        Ok(ArrayLoan { array: self })
    }

    /// Gives the array this shape and this chunk grid. The store is not asked: a chunk that it holds is read by the new
    /// grid. If this is refused the array stays as it was.
    ///
    /// # Errors
    /// In this order: E18 for a text that is no metadata of a grid; E20 for another number of dimensions; E18 for no
    /// chunk grid over the shape, and for a V2 array and a grid that is not `regular`. E26 may come at any time.
    pub fn set_shape_and_chunk_grid<G: IntoField<ArrayBuilderChunkGridMetadata>>(
        &mut self,
        alloc: Global,
        shape: ArrayShape,
        chunk_grid_metadata: G,
    ) -> Result<&mut Self, ArrayCreateError>
        ensures* untouched { sem 𝓛 (RestsUnlessShaped TStorage.row self.entry name_of_array result) }
        ensures same_loan { IfOk result (λ array. array.ghost_name ≡ self.entry.ghost_name) }
        ensures regridded { IfOk result (λ array. Regrids (G.gives chunk_grid_metadata)
            shape.items (metadata_of_array self.old) (metadata_of_array array.now)) }
        ensures refused { IfErr result (λ e. RefusesRegrid (G.gives chunk_grid_metadata)
            shape.items (metadata_of_array self.old) (create_refusal_of e)) }
        ensures kept { IfOk result (λ array. KeepsAllButGrid self.old array.now) }
        ensures content { IfOk result
            (λ array. KeepsCells (layout_of_array self.old) (layout_of_array array.now)) }
        ensures decodes { IfOk result
            (λ array. KeepsDecoding (layout_of_array self.old) (layout_of_array array.now)) }
    {
        array_of(self.lend_regridded(alloc, shape, chunk_grid_metadata))
    }
}
