//! The metadata of chains of codecs, both ways.
ghost use Rattle.std.specs.Prelude.{◌≡◌, Some, codes, map, option_map, IfOk, IfErr};
ghost use Rattle.std.specs.Str.{bytes_eq};
ghost use Rattle.zarrs_metadata_parts.specs.Extension.{extension_view, settings};
ghost use Rattle.zarrs_metadata_parts.specs.Refusals.{RefusesMeaning};
ghost use Rattle.zarrs_data_type.specs.Kind.{kind};
ghost use Rattle.zarrs_codec_array.specs.Metadata.{extension_of_array_codec};
ghost use Rattle.zarrs_codec_array.specs.ArrayCodecs.{array_codec_data};
ghost use Rattle.zarrs_codec_optional.specs.Metadata.{cells_codec_said};
ghost use Rattle.zarrs_codec.specs.Chains.{bytes_codec_data, chain_data, sharding_data_of};
ghost use Rattle.zarrs_codec.specs.Configurations.{cells};
ghost use Rattle.zarrs_codec.specs.Metadata.{array_codecs_said, bytes_codec_said, chain_of_parts, chain_said};
ghost use Rattle.zarrs_codec.specs.Metadata.{default_codec, sharding_with};
ghost use Rattle.zarrs_codec.specs.Metadata.{extension_of_bytes_codec, extensions_of_chain};
ghost use Rattle.zarrs_codec_optional.specs.ShardingViews.{sharding_view};

use crate::chain::{BytesToBytesCodecs, CodecChain};
use crate::codec::ArrayToBytesCodec;
use crate::sharding::{ShardingCodec, ShardingIndexLocation};
use std::alloc::{AllocError, Global};
use zarrs_codec_array::ArrayToArrayCodec;
use zarrs_codec_optional::{
    ShardingParts, codec_of, default_cells_codec, sharding_metadata, sharding_parts,
};
use zarrs_data_type::DataType;
use zarrs_metadata_parts::{MetadataV3, PluginCreateError};

impl ArrayToBytesCodec {
    /// Reads the codec that metadata says: `sharding_indexed` with the `chunk_shape` of its subchunks, a list of whole
    /// numbers that are not 0, their chain `codecs`, `index_codecs` of `bytes`, little endian, alone, and the
    /// `index_location` `start` or `end`, which may be absent for the end; or a codec that looks at cells alone, as
    /// `codec_of` says (Zarr V3 core specification, "Codecs").
    ///
    /// # Errors
    /// `Other` if the metadata says none of them: for another name, a member of another shape, and a configuration
    /// with any other member. `OutOfMemory` may come at any time.
    pub fn from_metadata(
        alloc: Global,
        metadata: &MetadataV3,
    ) -> Result<ArrayToBytesCodec, PluginCreateError>
        ensures read { IfOk result (λ codec.
            bytes_codec_said (extension_view metadata.now) ≡ Some (bytes_codec_data codec)) }
        ensures refused { IfErr result
            (RefusesMeaning (bytes_codec_said (extension_view metadata.now))) }
    {
        let Some(codec) = codec_from(alloc, metadata)? else {
            let name = metadata.name();
            let text = format!(in alloc;
                "no array-to-bytes codec `{name}` has this configuration"
            )?;
            return Err(PluginCreateError::Other(text));
        };
        Ok(codec)
    }

    /// Returns the metadata of the codec.
    ///
    /// # Errors
    /// `AllocError`: out of memory.
    pub fn create_metadata(&self, alloc: Global) -> Result<MetadataV3, AllocError>
        ensures written { IfOk result (λ m.
            extension_view m ≡ extension_of_bytes_codec (bytes_codec_data self.now)) }
        ensures reads_back { IfOk result (λ m.
            bytes_codec_said (extension_view m) ≡ Some (bytes_codec_data self.now)) }
    {
        let metadata = self.written(alloc)?;
        Ok(metadata)
    }

    #[cycle(written)]
    fn written(&self, alloc: Global) -> Result<MetadataV3, AllocError>
        ensures { IfOk result (λ m.
            extension_view m ≡ extension_of_bytes_codec (bytes_codec_data self.now)) }
    {
        match self {
            ArrayToBytesCodec::Optional(codec) => codec.written(alloc),
            ArrayToBytesCodec::Sharding(codec) => codec.written(alloc),
            _ => self.plain().create_metadata(alloc),
        }
    }

    /// The same codec.
    ///
    /// # Errors
    /// `AllocError`: out of memory.
    #[cycle(copied)]
    pub fn try_clone(&self, alloc: Global) -> Result<ArrayToBytesCodec, AllocError>
        ensures { IfOk result (λ copy. bytes_codec_data copy ≡ bytes_codec_data self.now) }
    {
        match self {
            ArrayToBytesCodec::Optional(codec) => {
                Ok(ArrayToBytesCodec::Optional(codec.try_clone(alloc)?))
            }
            ArrayToBytesCodec::Sharding(codec) => {
                let copy = codec.try_clone(alloc)?;
                Ok(ArrayToBytesCodec::Sharding(Box::new(alloc, copy)?))
            }
            _ => Ok(ArrayToBytesCodec::from(self.plain())),
        }
    }
}

impl ShardingCodec {
    #[cycle(written)]
    fn written(&self, alloc: Global) -> Result<MetadataV3, AllocError>
        ensures { IfOk result (λ m.
            extension_view m ≡ extension_of_bytes_codec (sharding_data_of self.now)) }
    {
        let inner = self.inner_codecs();
        let mut codecs = array_codec_metadatas(alloc, inner.array_to_array_codecs())?;
        codecs.push(inner.array_to_bytes_codec().written(alloc)?)?;
        let at_start = self.index_location().is_at_start();
        sharding_metadata(alloc, self.subchunk_shape(), at_start, &codecs)
    }

    /// The same codec.
    ///
    /// # Errors
    /// `AllocError`: out of memory.
    #[cycle(copied)]
    pub fn try_clone(&self, alloc: Global) -> Result<ShardingCodec, AllocError>
        ensures { IfOk result (λ copy. sharding_data_of copy ≡ sharding_data_of self.now) }
    {
        let shape = Vec::from_slice(alloc, self.subchunk_shape())?;
        let inner = self.inner_codecs().try_clone(alloc)?;
        Ok(ShardingCodec::new(shape, self.index_location(), inner))
    }
}

impl CodecChain {
    /// Reads the chain that metadata says: array-to-array codecs, the first one first, then one array-to-bytes codec
    /// (Zarr V3 core specification, "Codecs").
    ///
    /// # Errors
    /// `Other` if the list is empty, if the last one says no array-to-bytes codec, or if one before it says no
    /// array-to-array codec. `OutOfMemory` may come at any time.
    pub fn from_metadata(
        alloc: Global,
        metadatas: &[MetadataV3],
    ) -> Result<CodecChain, PluginCreateError>
        ensures read { IfOk result (λ chain.
            chain_said (map extension_view metadatas.now) ≡ Some (chain_data chain)) }
        ensures refused { IfErr result
            (RefusesMeaning (chain_said (map extension_view metadatas.now))) }
    {
        let Some((last, front)) = metadatas.split_last() else {
            return Err(PluginCreateError::other(
                alloc,
                "a chain of codecs ends with an array-to-bytes codec",
            ));
        };
        chain_from(alloc, front, last)
    }

    /// Returns the metadata of the codecs, in their order.
    ///
    /// # Errors
    /// `AllocError`: out of memory.
    pub fn create_metadatas(&self, alloc: Global) -> Result<Vec<MetadataV3>, AllocError>
        ensures written { IfOk result (λ made.
            map extension_view made.items ≡ extensions_of_chain (chain_data self.now)) }
        ensures reads_back { IfOk result (λ made.
            chain_said (map extension_view made.items) ≡ Some (chain_data self.now)) }
    {
        let mut made = array_codec_metadatas(alloc, self.array_to_array_codecs())?;
        made.push(self.array_to_bytes_codec().create_metadata(alloc)?)?;
        Ok(made)
    }

    /// The same chain.
    ///
    /// # Errors
    /// `AllocError`: out of memory.
    #[cycle(copied)]
    pub fn try_clone(&self, alloc: Global) -> Result<CodecChain, AllocError>
        ensures { IfOk result (λ copy. chain_data copy ≡ chain_data self.now) }
    {
        let array_to_array = copied_array_codecs(alloc, self.array_to_array_codecs())?;
        let array_to_bytes = self.array_to_bytes_codec().try_clone(alloc)?;
        Ok(CodecChain::new(array_to_array, array_to_bytes, BytesToBytesCodecs))
    }
}

/// Returns the array-to-bytes codec of a chain that names none: `PlainCodec::default_of` a type that is not optional, and
/// `zarrs.optional` for an optional type, with `packbits` for the mask and the codec of its inner type for the data.
///
/// # Errors
/// `AllocError`: out of memory.
pub fn default_array_to_bytes_codec(
    alloc: Global,
    data_type: &DataType,
) -> Result<ArrayToBytesCodec, AllocError>
    ensures { IfOk result (λ codec. bytes_codec_data codec ≡ default_codec (kind data_type.now)) }
{
    let codec = default_cells_codec(alloc, data_type)?;
    Ok(ArrayToBytesCodec::from(codec))
}

/// Returns the codec that metadata says, if it says one.
fn codec_from(alloc: Global, metadata: &MetadataV3) -> Result<Option<ArrayToBytesCodec>, AllocError>
    ensures { IfOk result (λ found. option_map bytes_codec_data found
        ≡ bytes_codec_said (extension_view metadata.now)) }
{
    if !is_sharding_name(metadata.name()) {
        return cells_codec_from(alloc, metadata);
    }
    let Some(parts) = sharding_parts(alloc, metadata)? else {
        return Ok(None);
    };
    let Some((last, front)) = parts.codecs.split_last() else {
        return Ok(None);
    };
    let last = codec_from(alloc, last)?;
    let front = array_codecs_found(alloc, front)?;
    sharding_of(alloc, parts, front, last)
}

fn is_sharding_name(name: &str) -> bool
    ensures { result ≡ bytes_eq name.now (codes "sharding_indexed") }
{
    matches!(name, "sharding_indexed")
}

fn cells_codec_from(
    alloc: Global,
    metadata: &MetadataV3,
) -> Result<Option<ArrayToBytesCodec>, AllocError>
    ensures { IfOk result (λ found. option_map bytes_codec_data found
        ≡ option_map cells (cells_codec_said (extension_view metadata.now))) }
{
    match codec_of(alloc, metadata)? {
        Some(codec) => Ok(Some(ArrayToBytesCodec::from(codec))),
        None => Ok(None),
    }
}

/// Returns the codec of shards of this configuration, around the chain of these codecs, if they are there.
fn sharding_of(
    alloc: Global,
    parts: ShardingParts,
    front: Option<Vec<ArrayToArrayCodec>>,
    last: Option<ArrayToBytesCodec>,
) -> Result<Option<ArrayToBytesCodec>, AllocError>
    ensures { IfOk result (λ made. option_map bytes_codec_data made
        ≡ sharding_with (sharding_view parts)
        (chain_of_parts (option_map (λ codecs. map array_codec_data codecs.items) front)
        (option_map bytes_codec_data last))) }
{
    let (Some(front), Some(last)) = (front, last) else {
        return Ok(None);
    };
    let ShardingParts {
        subchunk_shape,
        at_start,
        codecs: _,
    } = parts;
    let location = if at_start {
        ShardingIndexLocation::Start
    } else {
        ShardingIndexLocation::End
    };
    let inner = CodecChain::new(front, last, BytesToBytesCodecs);
    let codec = ShardingCodec::new(subchunk_shape, location, inner);
    Ok(Some(ArrayToBytesCodec::Sharding(Box::new(alloc, codec)?)))
}

/// Returns the array-to-array codecs that these say, if each says one.
fn array_codecs_found(
    alloc: Global,
    metadatas: &[MetadataV3],
) -> Result<Option<Vec<ArrayToArrayCodec>>, AllocError>
    ensures { IfOk result (λ found. option_map (λ codecs. map array_codec_data codecs.items) found
        ≡ array_codecs_said (map extension_view metadatas.now)) }
{
    match array_codecs_from(alloc, metadatas) {
        Ok(codecs) => Ok(Some(codecs)),
        Err(PluginCreateError::Other(_)) => Ok(None),
        Err(PluginCreateError::OutOfMemory) => Err(AllocError),
    }
}

/// Returns the chain of the codecs that these say, the last one that of the array-to-bytes codec.
fn chain_from(
    alloc: Global,
    front: &[MetadataV3],
    last: &MetadataV3,
) -> Result<CodecChain, PluginCreateError>
    ensures read { IfOk result
        (λ chain. chain_of_parts (array_codecs_said (map extension_view front.now))
        (bytes_codec_said (extension_view last.now)) ≡ Some (chain_data chain)) }
    ensures refused { IfErr result (RefusesMeaning (chain_of_parts
        (array_codecs_said (map extension_view front.now))
        (bytes_codec_said (extension_view last.now)))) }
{
    let array_to_array = array_codecs_from(alloc, front)?;
    let array_to_bytes = ArrayToBytesCodec::from_metadata(alloc, last)?;
    Ok(CodecChain::new(array_to_array, array_to_bytes, BytesToBytesCodecs))
}

fn array_codecs_from(
    alloc: Global,
    metadatas: &[MetadataV3],
) -> Result<Vec<ArrayToArrayCodec>, PluginCreateError>
    ensures read { IfOk result (λ codecs. array_codecs_said (map extension_view metadatas.now)
        ≡ Some (map array_codec_data codecs.items)) }
    ensures refused { IfErr result
        (RefusesMeaning (array_codecs_said (map extension_view metadatas.now))) }
{
    let mut codecs = Vec::with_capacity(alloc, metadatas.len())?;
    for metadata in metadatas {
        let codec = ArrayToArrayCodec::from_metadata(alloc, metadata)?;
        codecs.push(codec)?;
    }
    Ok(codecs)
}

fn array_codec_metadatas(
    alloc: Global,
    codecs: &[ArrayToArrayCodec],
) -> Result<Vec<MetadataV3>, AllocError>
    ensures { IfOk result (λ made. map extension_view made.items
        ≡ map extension_of_array_codec (map array_codec_data codecs.now)) }
{
    let mut made = Vec::new(alloc);
    for codec in codecs {
        made.push(codec.create_metadata(alloc)?)?;
    }
    Ok(made)
}

/// Returns a copy of the codecs.
///
/// # Errors
/// `AllocError`: out of memory.
pub fn copied_array_codecs(
    alloc: Global,
    codecs: &[ArrayToArrayCodec],
) -> Result<Vec<ArrayToArrayCodec>, AllocError>
    ensures { IfOk result (λ copy. map array_codec_data copy.items
        ≡ map array_codec_data codecs.now) }
{
    let mut copy = Vec::with_capacity(alloc, codecs.len())?;
    for codec in codecs {
        copy.push(codec.try_clone(alloc)?)?;
    }
    Ok(copy)
}
