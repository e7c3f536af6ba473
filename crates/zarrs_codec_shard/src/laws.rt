//! Laws of shards. Each function does nothing: its contract is the law.
ghost use Rattle.std.specs.Prelude.{◌≡◌, ℕ, ◌+◌, ◌*◌, ◌<◌, ◌≤◌, ◌^◌, ◌++◌, ◌∷◌, [], Bool, false, true, List};
ghost use Rattle.std.specs.Prelude.{Option, None, Some, length, replicate};
ghost use Rattle.zarrs_data_type.specs.ArrayData.{ArrayData};
ghost use Rattle.zarrs_data_type.specs.Cells.{cells};
ghost use Rattle.zarrs_codec_shard.specs.PartialShards.{UpdatesShard};
ghost use Rattle.zarrs_codec_shard.specs.Sharded.{CompactsTo, HoldsEncodedParts, IsLawfulShard, IsLawfulSubchunk};
ghost use Rattle.zarrs_codec_shard.specs.Sharded.{SubchunkMeaning, first_parts, part_of, sharded_decoded, sharded_encoded};
ghost use Rattle.zarrs_codec_shard.specs.SubchunkData.{FillsChunk, PutsSubchunk, StartsChunk};
ghost use Rattle.zarrs_codec_shard.specs.Subchunks.{assembled, is_cut_by, subchunk_at, subchunk_count};
ghost use Rattle.zarrs_subset.specs.Boxes.{position_count};
ghost use Rattle.zarrs_data_type.specs.Cell.{Cell};
ghost use Rattle.zarrs_data_type.specs.Kind.{Kind};

/// Decoding returns what was encoded, and what was encoded is compact, if the chain of the subchunks keeps its law.
pub fn shards_are_lawful()
    ensures { (m : SubchunkMeaning) (at_start store_empty : Bool) (k : Kind) (fill : Cell)
        (shape sub : List ℕ)
        → IsLawfulSubchunk k (position_count sub) m → IsLawfulShard m at_start store_empty k fill
        shape sub }
{}

/// A shard whose present subchunks hold the encoded bytes of their cells, none of them all fill, is the encoded bytes
/// of its cells and has no compaction, or it compacts to those bytes.
pub fn shards_compact_to_their_encoding()
    ensures { (m : SubchunkMeaning) (at_start : Bool) (k : Kind) (fill : Cell)
        (shape sub encoded made : List ℕ) (cells : List Cell)
        → IsLawfulSubchunk k (position_count sub) m
        → HoldsEncodedParts m at_start fill shape sub encoded
        → sharded_decoded m at_start k fill shape sub encoded ≡ Some cells
        → sharded_encoded m at_start false fill shape sub cells ≡ Some made
        → CompactsTo at_start shape sub encoded made }
{}

/// The parts of a chunk's cells are those of one subchunk after another, if each has one. Nothing is encoded if the
/// index is too long.
pub fn parts_follow_one_another()
    ensures next { (m : SubchunkMeaning) (store_empty : Bool) (fill : Cell) (shape sub : List ℕ)
        (cells : List Cell) (n : ℕ) (parts : List (Option (List ℕ))) (part : Option (List ℕ))
        → first_parts m store_empty fill shape sub cells n ≡ Some parts
        → part_of m store_empty fill (subchunk_at shape sub cells n) ≡ Some part
        → first_parts m store_empty fill shape sub cells (n + 1) ≡ Some (parts ++ part ∷ []) }
    ensures none { (m : SubchunkMeaning) (store_empty : Bool) (fill : Cell) (shape sub : List ℕ)
        (cells : List Cell)
        (n j : ℕ) → j < n → part_of m store_empty fill (subchunk_at shape sub cells j) ≡ None
        → first_parts m store_empty fill shape sub cells n ≡ None }
    ensures too_many { (m : SubchunkMeaning) (store_empty : Bool) (fill : Cell) (shape sub : List ℕ)
        (cells : List Cell) (at_start : Bool) → 2 ^ 64 ≤ subchunk_count shape sub * 16
        → sharded_encoded m at_start store_empty fill shape sub cells ≡ None }
{}

/// A new chunk, into which one subchunk after another is put or, if one may be, left out, is assembled of their cells.
pub fn subchunks_fill_their_chunk()
    ensures started { (k : Kind) (fill : Cell) (shape sub : List ℕ) (is_whole : Bool)
        (chunk : ArrayData)
        → is_cut_by shape sub ≡ true → StartsChunk k fill shape is_whole chunk
        → FillsChunk k fill shape sub is_whole [] chunk }
    ensures put { (k : Kind) (fill : Cell) (shape sub : List ℕ) (is_whole : Bool)
        (subchunks : List (List Cell)) (made : List Cell) (part old new : ArrayData)
        → length subchunks < subchunk_count shape sub
        → FillsChunk k fill shape sub is_whole subchunks old
        → PutsSubchunk k shape sub (length subchunks) part old new → cells k part ≡ Some made
        → FillsChunk k fill shape sub is_whole (subchunks ++ made ∷ []) new }
    ensures left_out { (k : Kind) (fill : Cell) (shape sub : List ℕ) (subchunks : List (List Cell))
        (chunk : ArrayData) → length subchunks < subchunk_count shape sub
        → FillsChunk k fill shape sub false subchunks chunk
        → FillsChunk k fill shape sub false
        (subchunks ++ replicate (position_count sub) fill ∷ []) chunk }
    ensures whole { (k : Kind) (fill : Cell) (shape sub : List ℕ) (is_whole : Bool)
        (subchunks : List (List Cell)) (chunk : ArrayData)
        → is_cut_by shape sub ≡ true → length subchunks ≡ subchunk_count shape sub
        → FillsChunk k fill shape sub is_whole subchunks chunk → cells k chunk
        ≡ Some (assembled shape sub subchunks) }
{}

/// What is left by a partial encode of a shard, or of the absence of its key, decodes to the updated cells, if what was
/// there decodes and the chain of the subchunks keeps its law.
pub fn partial_encodes_update()
    ensures { (m : SubchunkMeaning) (store_empty : Bool) (k : Kind) (fill : Cell)
        (shape sub : List ℕ) → IsLawfulSubchunk k (position_count sub) m
        → UpdatesShard m store_empty k fill shape sub }
{}
