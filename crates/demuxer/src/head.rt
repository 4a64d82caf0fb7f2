// What stands at an offset of a file: a chunk's header, the trailer, or neither.
ghost use Rattle.std.specs.Prelude.{◌≡◌, ◌+◌, take, drop};
ghost use Rattle.demuxer.specs.Head.{is_trailer, head_at, count_of};
ghost use Rattle.demuxer.specs.Steps.{from_header, body_at};

use chunk::{AUDIO_CHUNK_TAG, ChunkHeader, VIDEO_CHUNK_TAG};
use parse::preamble::AmvAudioPreamble;

// The trailer `AMV_END_` as a tag and a length: the first half.
pub const TRAILER_TAG: u32 = 0x5f564d41;

// The second half.
pub const TRAILER_SIZE: u32 = 0x5f444e45;

// What stands there; a chunk with the length of its payload.
#[derive(Clone, Copy, Debug, PartialEq, Eq)]
pub enum Head {
    // Fewer than 8 bytes.
    Short,
    Trailer,
    Unknown,
    Video(u32),
    Audio(u32),
}

// Both halves of the trailer.
fn is_trailer(tag: u32, size: u32) -> bool
    ensures { result ≡ is_trailer tag size }
{
    tag == TRAILER_TAG && size == TRAILER_SIZE
}

impl Head {
    // What a header is taken for. Most are a chunk's, so the two tags are asked first; the trailer's first half is neither.
    fn from_header(header: ChunkHeader) -> Head
        ensures { result ≡ from_header header }
    {
        if header.tag == VIDEO_CHUNK_TAG {
            return Head::Video(header.size);
        }
        if header.tag == AUDIO_CHUNK_TAG {
            return Head::Audio(header.size);
        }
        if is_trailer(header.tag, header.size) {
            return Head::Trailer;
        }
        Head::Unknown
    }
}

// What stands at an offset, the one reading that every walk over a file shares. Refuses nothing: fewer than 8 bytes and an unknown tag are
// cases that a caller answers.
pub fn head_at(file: &[u8], at: usize) -> Head
    ensures { result ≡ head_at file.now at }
{
    match ChunkHeader::parse_at(file, at) {
        Ok(header) => Head::from_header(header),
        Err(_) => Head::Short,
    }
}

// The payload of a length that starts at an offset. Refuses nothing: a payload that the file ends inside is a case.
#[tactic(auto, unfolding(crate::specs::Steps::body_at))]
pub fn body_at(file: &[u8], start: usize, size: u32) -> Option<(usize, usize)>
    ensures { result ≡ body_at file.now start size }
{
    let len = size as usize;
    if start <= file.len() && len <= file.len() - start {
        Some((start, len))
    } else {
        None
    }
}

// The sample count of a sound payload, by the preamble in the part of it that the file has; 0 where that is too short for one. Refuses
// nothing.
#[tactic(auto, using(crate::proofs::Bodies::count_past))]
pub fn sample_count(file: &[u8], start: usize, size: u32) -> u32
    ensures { result ≡ count_of (take size (drop start file.now)) }
{
    if file.len() < start {
        return 0;
    }
    let there = ((file.len() - start) as u64).min(size as u64) as usize;
    let end = start + there;
    match AmvAudioPreamble::parse(&file[start..end]) {
        Ok(preamble) => preamble.decoded_sample_count,
        Err(_) => 0,
    }
}
