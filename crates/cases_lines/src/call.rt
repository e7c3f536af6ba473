//! What the lines of a case file say.
use crate::expected::Expected;
use crate::options::Options;
use std::ops::Range;
use zarrs_storage::StoreKey;
use zarrs_subset::ArraySubset;

/// What a case file says.
#[derive(Drop)]
pub struct CaseFile<'a> {
    /// Whether its first line is `refusing-memory`.
    pub refusing_memory: bool,
    /// Its lines that say something, from the first.
    pub lines: Vec<Line<'a>>,
}

/// A line that says something.
#[derive(Drop)]
pub struct Line<'a> {
    /// Its number, from 1.
    pub number: u64,
    pub step: Step<'a>,
}

/// What a line says.
#[derive(Drop)]
pub enum Step<'a> {
    /// An empty line, behind which no array is open, and the store is empty.
    End,
    /// What the next call meets.
    Setting(Setting),
    /// A part of the next builder, and the word that it is given for it.
    With(Part, &'a str),
    /// A call, and its answer.
    Call(Case<'a>),
    /// What else holds after the latest call.
    Effect(Effect<'a>),
}

/// What the next call meets.
#[derive(Drop)]
pub enum Setting {
    /// The store has these bytes at the key, or nothing.
    Set(StoreKey, Option<Vec<u8>>),
    /// These keys are not read.
    Refusing(Vec<StoreKey>),
    /// The writing call of this number, from 1, is refused.
    RefusingWrite(u64),
    /// The values at these keys are not read whole; their sizes and ranges are.
    RefusingWhole(Vec<StoreKey>),
    /// The writing calls after so many are refused.
    Stopping(u64),
    /// No other key may be asked for.
    Allowing(Vec<StoreKey>),
    /// These places may be asked for, and no places that no such line names.
    AllowingPlaces(Places),
    /// The store that the next array begins with has made so many writing calls.
    Calls(u64),
    /// The bytes of the fill value of the next builder.
    WithFillValue(Vec<u8>),
    /// The array and its store are set aside, to be compared with others.
    Aside,
}

/// The places of the bytes at a key that may be asked for.
#[derive(Clone, Drop)]
pub struct Places {
    pub key: StoreKey,
    /// In ascending order.
    pub ranges: Vec<Range<u64>>,
}

impl Places {
    /// The first place from this one on that lies in no range.
    pub fn end_from(&self, start: u64) -> u64 {
        self.ranges.iter().fold(start, |place, range| {
            if range.start <= place {
                place.max(range.end)
            } else {
                place
            }
        })
    }
}

/// A part of a builder that a call does not name.
#[derive(Clone, Copy)]
pub enum Part {
    /// The metadata of the encoding of chunk keys.
    ChunkKeyEncoding,
    /// The list of the metadata of the codecs.
    Codecs,
    /// A JSON object.
    Attributes,
    /// A JSON object.
    AdditionalFields,
    /// Names joined by `,`.
    DimensionNames,
}

/// A call, and the answer that it must give.
#[derive(Drop)]
pub struct Case<'a> {
    pub call: CallLine<'a>,
    pub answer: Expected<'a>,
}

/// A call. What its line does not have is empty.
#[derive(Drop)]
pub struct CallLine<'a> {
    pub name: Name,
    pub options: Options<'a>,
    /// As the line has it, without options and answer.
    pub written: &'a str,
    /// The path of the array that is made or opened.
    pub path: &'a str,
    /// The indices of a chunk, or a shape.
    pub list: Vec<u64>,
    /// A region, a part of a chunk, or a range of chunks.
    pub region: ArraySubset,
    /// What others read: data of the array's type, or a document, a grid, names or attributes.
    pub word: &'a str,
    /// What a builder is told.
    pub data_type: &'a str,
    /// What a builder is told.
    pub fill_value: &'a str,
    /// The bytes of a chunk.
    pub bytes: Vec<u8>,
    pub place: Place,
}

/// The names of calls.
#[derive(Clone, Copy)]
pub enum Name {
    Array,
    AttributesMut,
    Build,
    BuildMetadata,
    Builder,
    ChunkGridShape,
    ChunkKey,
    ChunkOrigin,
    ChunkShape,
    ChunkSubset,
    ChunkSubsetBounded,
    ChunksEqual,
    ChunksInArraySubset,
    ChunksSubset,
    ChunksSubsetBounded,
    CompactChunk,
    Convert,
    EraseChunk,
    EraseChunks,
    EraseMetadata,
    Exists,
    Metadata,
    MetadataOpt,
    Open,
    PartialDecode,
    PartialDecodeInto,
    PartialEncode,
    PartialErase,
    Resize,
    RetrieveArraySubset,
    RetrieveArraySubsetInto,
    RetrieveChunk,
    RetrieveChunkIfExists,
    RetrieveChunkSubset,
    RetrieveChunks,
    RetrieveEncodedChunk,
    RetrieveEncodedChunks,
    SetDimensionNames,
    SetMetadataOptions,
    SetShape,
    SetShapeAndChunkGrid,
    Shape,
    StoreArraySubset,
    StoreChunk,
    StoreChunkSubset,
    StoreChunks,
    StoreEncodedChunk,
    StoreMetadata,
    StoreMetadataOpt,
    SubsetAll,
    SupportsPartialEncode,
    ToV3,
    UpgradeMetadata,
}

impl Name {
    /// Whether the call writes nothing.
    pub fn is_read(self) -> bool {
        match self {
            Name::ChunkGridShape
            | Name::ChunkKey
            | Name::ChunkOrigin
            | Name::ChunkShape
            | Name::ChunkSubset
            | Name::ChunkSubsetBounded
            | Name::ChunksEqual
            | Name::ChunksInArraySubset
            | Name::ChunksSubset
            | Name::ChunksSubsetBounded
            | Name::Exists
            | Name::Metadata
            | Name::MetadataOpt
            | Name::PartialDecode
            | Name::PartialDecodeInto
            | Name::RetrieveArraySubset
            | Name::RetrieveArraySubsetInto
            | Name::RetrieveChunk
            | Name::RetrieveChunkIfExists
            | Name::RetrieveChunkSubset
            | Name::RetrieveChunks
            | Name::RetrieveEncodedChunk
            | Name::RetrieveEncodedChunks
            | Name::Shape
            | Name::SubsetAll => true,
            _ => false,
        }
    }
}

/// Where a read puts its cells.
#[derive(Drop)]
pub struct Place {
    /// The shape of the parent.
    pub parent: Vec<u64>,
    /// The box in it that is read into.
    pub region: ArraySubset,
    /// The size of a cell in bytes.
    pub cell_size: usize,
    /// The cells of the parent.
    pub bytes: Vec<u8>,
    /// The number of its masks.
    pub depth: usize,
    /// Its masks.
    pub masks: Vec<u8>,
}

/// What else holds after a call: what is found there, and what it must be.
#[derive(Drop)]
pub struct Effect<'a> {
    pub place: Found,
    pub expected: Expected<'a>,
}

/// Where to look after a call.
#[derive(Drop)]
pub enum Found {
    /// The number of writing calls that the call made.
    Writes,
    /// How many of these were refused.
    Failed,
    /// The value at the key.
    Value(StoreKey),
    /// The JSON value whose text is at the key.
    Json(StoreKey),
    /// The keys of the store.
    Keys,
    /// The text of the refusal.
    Text,
    /// The bytes of the target.
    Target,
    /// The masks of the target.
    Masks,
    /// The keys that the call asked for, each once, in ascending order.
    Asked,
    /// The shape of the array.
    Shape,
    /// The metadata of the array.
    Metadata,
}
