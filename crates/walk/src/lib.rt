// The walk over the chunks of a file, one step at a time: index, summary and check are folds of it.
#![tactic(auto)]

ghost use Rattle.std.specs.Prelude.{◌≡◌, ◌+◌, ◌≤◌, length};
ghost use Rattle.fields.specs.File.{file_limit};
ghost use Rattle.walk.specs.Walk.{kind_tag, is_frame, chunk_at, step_at};
ghost use Rattle.walk.specs.Steps.{past_at, Walked};

use chunk::{AUDIO_CHUNK_TAG, VIDEO_CHUNK_TAG};
use demuxer::head::{Head, head_at, sample_count};
use demuxer::position::Position;

// The two kinds of chunk that a walk goes past.
#[derive(Clone, Copy, Debug, PartialEq, Eq)]
pub enum Kind {
    Frame,
    Sound,
}

impl Kind {
    // The kind's tag, `00dc` or `01wb`. No `From`: it is named as that of `ChunkKind`.
    pub fn tag(self) -> u32
        ensures { result ≡ kind_tag self }
    {
        match self {
            Kind::Frame => VIDEO_CHUNK_TAG,
            Kind::Sound => AUDIO_CHUNK_TAG,
        }
    }

    // Whether the kind is a frame.
    pub fn is_frame(self) -> bool
        ensures { result ≡ is_frame self }
    {
        matches!(self, Kind::Frame)
    }
}

// A chunk, as far as the file has it.
#[derive(Clone, Copy, Debug, PartialEq, Eq)]
pub struct ChunkAt {
    pub kind: Kind,
    // Of the payload, as the header says.
    pub size: u32,
    // How many bytes of the payload the file does not have.
    pub missing: u32,
}

// What a walk meets at an offset; it stops at all but a chunk. One variant alone holds something, so that no two share their bytes.
#[derive(Clone, Copy, Debug, PartialEq, Eq)]
pub enum Step {
    // Fewer than 8 bytes are left.
    RanOut,
    Trailer,
    // A tag that is neither a kind's nor the trailer's.
    UnknownTag,
    Chunk(ChunkAt),
}

// A chunk whose header stands at an offset.
fn chunk_at(file: &[u8], at: usize, kind: Kind, size: u32) -> ChunkAt
    requires { at + 8 ≤ length file.now }
    ensures { result ≡ chunk_at file.now at kind size }
{
    let there = ((file.len() - (at + 8)) as u64).min(size as u64) as u32;
    ChunkAt {
        kind,
        size,
        missing: size - there,
    }
}

// One step: what stands at an offset of a file, for every offset. Its callers loop over it and no iterator gives them the chunks: the next offset
// comes from the chunk that was read, and where a walk stops they answer each of the three cases, which an iterator would only end at.
#[tactic(auto, using(crate::proofs::Walks::video_there, crate::proofs::Walks::audio_there), unfolding(crate::specs::Walk::step_at))]
pub fn step_at(file: &[u8], at: usize) -> Step
    ensures { result ≡ step_at file.now at }
{
    match head_at(file, at) {
        Head::Short => Step::RanOut,
        Head::Trailer => Step::Trailer,
        Head::Unknown => Step::UnknownTag,
        Head::Video(size) => Step::Chunk(chunk_at(file, at, Kind::Frame, size)),
        Head::Audio(size) => Step::Chunk(chunk_at(file, at, Kind::Sound, size)),
    }
}

impl ChunkAt {
    // The position after the chunk at a position: by its length, be the payload there or not. It takes bytes and no `File`, which would ask more
    // of a caller whose own limit is lower.
    pub fn past(self, file: &[u8], position: Position) -> Position
        requires file_len_bound { length file.now ≤ file_limit }
        requires cursor_in_bounds { position.cursor + 8 ≤ length file.now }
        requires walked { Walked position }
        ensures { (result ≡ past_at file.now position self) × Walked result }
    {
        match self.kind {
            Kind::Frame => position.past_frame(self.size),
            Kind::Sound => {
                let count = sample_count(file, position.cursor as usize + 8, self.size);
                position.past_sound(self.size, count)
            }
        }
    }
}
