// A chunk's tag and its 8-byte header.
#![tactic(auto)]

pub mod interleave;

ghost use Rattle.std.specs.Prelude.{◌≡◌};
ghost use Rattle.error.specs.Refusal.{said};
ghost use Rattle.chunk.specs.Chunk.{kind_of, tag_of, stream_tag, advance_total, chunk_header_of, chunk_header_at};

use error::AmvError;

// The tag of a frame. Tags are numbers, little-endian, so that one comparison tells them apart.
pub const VIDEO_CHUNK_TAG: u32 = 0x63643030; // 00dc

// The tag of a sound block.
pub const AUDIO_CHUNK_TAG: u32 = 0x62773130; // 01wb

// The longest payload: a length is a u32.
pub const PAYLOAD_LIMIT: usize = u32::MAX as usize;

// What a tag says of its chunk; any tag but the two is kept.
#[derive(Clone, Copy, Debug, PartialEq, Eq)]
pub enum ChunkKind {
    Video,
    Audio,
    Other(u32),
}

impl ChunkKind {
    // The kind of a tag. Refuses nothing: an unknown tag is a kind of its own, which a caller may refuse. No `From`: the name is the original's, and
    // so is that of `tag`.
    pub fn classify(tag: u32) -> ChunkKind
        ensures { result ≡ kind_of tag }
    {
        match tag {
            VIDEO_CHUNK_TAG => ChunkKind::Video,
            AUDIO_CHUNK_TAG => ChunkKind::Audio,
            _ => ChunkKind::Other(tag),
        }
    }

    // The tag of a kind, the one it was classified from. Refuses nothing.
    pub fn tag(self) -> u32
        ensures { result ≡ tag_of self }
    {
        match self {
            ChunkKind::Video => VIDEO_CHUNK_TAG,
            ChunkKind::Audio => AUDIO_CHUNK_TAG,
            ChunkKind::Other(tag) => tag,
        }
    }
}

// The tag of a stream, 0 for frames and 1 for sound. Refuses nothing: the caller has asked for a known stream, and any other counts as 1.
pub fn stream_tag(stream: u32) -> u32
    ensures { result ≡ stream_tag stream }
{
    if stream == 0 {
        return VIDEO_CHUNK_TAG;
    }
    AUDIO_CHUNK_TAG
}

// The distance from a chunk of a length to the next one. No padding: an odd payload is followed at once. Refuses nothing.
pub fn advance_total(size: u32) -> u64
    ensures { result ≡ advance_total size }
{
    8 + size as u64
}

// The 8 bytes before a payload.
#[derive(Clone, Copy, Debug, PartialEq, Eq)]
pub struct ChunkHeader {
    pub tag: u32,
    // Of the payload alone, without this header.
    pub size: u32,
}

impl ChunkHeader {
    // The header at a slice's start; fewer than 8 bytes are refused with 29. Tag and length may be anything.
    pub fn parse(slice: &[u8]) -> Result<ChunkHeader, AmvError>
        ensures { said result ≡ chunk_header_of slice.now }
    {
        ChunkHeader::parse_at(slice, 0)
    }

    // The header at an offset of a file, read where it stands: what `parse` answers of the bytes from there, 29 where fewer than 8 are left.
    // Every walk over a file reads by it.
    pub fn parse_at(file: &[u8], at: usize) -> Result<ChunkHeader, AmvError>
        ensures { said result ≡ chunk_header_at file.now at }
    {
        if file.len() < 8 {
            return Err(AmvError::ChunkHeaderTooShort);
        }
        if file.len() - 8 < at {
            return Err(AmvError::ChunkHeaderTooShort);
        }
        let tag = fields::read_le::<u32>(file, at);
        let size = fields::read_le::<u32>(file, at + 4);
        Ok(ChunkHeader { tag, size })
    }

    // The distance from this chunk to the next one. Refuses nothing.
    pub fn advance_total(self) -> u64
        ensures { result ≡ advance_total self.size }
    {
        advance_total(self.size)
    }

    // The kind of its tag. Refuses nothing.
    pub fn kind(self) -> ChunkKind
        ensures { result ≡ kind_of self.tag }
    {
        ChunkKind::classify(self.tag)
    }
}
