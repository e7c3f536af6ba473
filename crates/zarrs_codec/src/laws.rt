//! Laws of codecs and of their metadata, as contracts of functions that do nothing.
ghost use Rattle.std.specs.Prelude.{◌≡◌, codes, if◌then◌else◌, option_and_then, option_map};
ghost use Rattle.std.specs.Str.{bytes_eq};
ghost use Rattle.zarrs_metadata_parts.specs.Extension.{ExtensionData, settings};
ghost use Rattle.zarrs_codec_optional.specs.Metadata.{cells_codec_said};
ghost use Rattle.zarrs_codec_optional.specs.ShardingMetadata.{sharding_data};
ghost use Rattle.zarrs_codec.specs.Metadata.{bytes_codec_said, chain_said, sharding_with};
ghost use Rattle.zarrs_codec.specs.Configurations.{cells};
ghost use Rattle.zarrs_codec.specs.SoleShardings.{SoleShardingsMakeShards};
ghost use Rattle.zarrs_codec.specs.Chains.{chain_meaning};
ghost use Rattle.zarrs_codec.specs.declared.chain.CodecChain.{CodecChain};
ghost use Rattle.zarrs_codec_chain.specs.Chain.{IsLawfulChain};

/// Metadata says an array-to-bytes codec level by level: `sharding_indexed` is a codec of shards around the chain that
/// the codecs of its configuration say; another one is said by its name and its own configuration alone.
pub fn codecs_are_said_by_levels()
    ensures { (e : ExtensionData) → bytes_codec_said e
        ≡ (if bytes_eq e.name (codes "sharding_indexed")
        then option_and_then (λ d. sharding_with d (chain_said d.codecs))
        (sharding_data (settings e))
        else option_map cells (cells_codec_said e)) }
{}

/// A chain that is `sharding_indexed` alone makes shards of the subchunks that its inner chain encodes: so the law of shards
/// over chains, `shards_compact_to_their_encoding`, speaks of it.
pub fn sole_shardings_make_shards()
    ensures { SoleShardingsMakeShards }
{}

/// Each chain of codecs keeps the law of chains: decoding returns what was encoded, the places of a part decide its cells,
/// and what a partial encode leaves decodes to the updated cells.
pub fn chains_are_lawful()
    ensures { (chain : CodecChain) → IsLawfulChain (chain_meaning chain) }
{}
