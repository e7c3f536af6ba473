//! What the bytes of cells say.
ghost use Rattle.std.specs.Prelude.{◌≡◌};
ghost use Rattle.zarr_cells.specs.Numbers.{nan_bits, infinity_bits, negative_infinity_bits};

/// How many bytes a float has.
#[derive(Clone, Copy, Debug, PartialEq, Eq)]
pub enum Width {
    Four,
    Eight,
}

/// What the bytes of a cell say, little endian.
#[derive(Clone, Copy, Debug, PartialEq, Eq)]
pub enum Form {
    Bool,
    Unsigned,
    Signed,
    Float(Width),
}

impl Width {
    /// Returns the bits that the text `NaN` says.
    pub(crate) fn nan(self) -> u64
        ensures { result ≡ nan_bits self }
    {
        match self {
            Width::Four => 0x7fc0_0000,
            Width::Eight => 0x7ff8_0000_0000_0000,
        }
    }

    /// Returns the bits of infinity.
    pub(crate) fn infinity(self) -> u64
        ensures { result ≡ infinity_bits self }
    {
        match self {
            Width::Four => 0x7f80_0000,
            Width::Eight => 0x7ff0_0000_0000_0000,
        }
    }

    /// Returns the bits of negative infinity.
    pub(crate) fn negative_infinity(self) -> u64
        ensures { result ≡ negative_infinity_bits self }
    {
        match self {
            Width::Four => 0xff80_0000,
            Width::Eight => 0xfff0_0000_0000_0000,
        }
    }
}
