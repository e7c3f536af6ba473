//! Names of dimensions, as a caller may give them.
ghost use Rattle.std.specs.Prelude.{IfOk};
ghost use Rattle.std.specs.Iterator.{IsFinite};
ghost use Rattle.zarrs_builder.specs.Given.{AreGiven};

use std::alloc::{AllocError, Global};
use zarrs_data_type::IntoField;
use zarrs_metadata::DimensionName;

/// Returns the names that these become.
pub fn given_names<I: IntoIterator<Item = D>, D: IntoField<DimensionName>>(
    alloc: Global,
    names: I,
) -> Result<Vec<DimensionName>, AllocError>
    requires { (it : I.IntoIter) → I.into_iter_gives names it
        → I.IntoIter.can_next it × IsFinite (I.IntoIter.remaining it) }
    ensures { IfOk result (λ fields.
        AreGiven I.into_iter_gives I.IntoIter.next_gives D.gives names fields.items) }
{
    let mut fields = Vec::new(alloc);
    for name in names {
        fields.push(name.into_field(alloc)?)?;
    }
    Ok(fields)
}
