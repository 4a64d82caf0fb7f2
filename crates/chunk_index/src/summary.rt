// The summary: how many whole frames and blocks a file has, which are those that it plays.
ghost use Rattle.std.specs.Prelude.{◌≡◌, ◌≤◌};
ghost use Rattle.error.specs.Refusal.{said};
ghost use Rattle.demuxer.specs.Position.{count_limit};
ghost use Rattle.chunk_index.specs.Steps.{count_chunks};
ghost use Rattle.chunk_index.specs.Summary.{counted, summary_of};

use chunk::advance_total;
use demuxer::walker::Walker;
use error::AmvError;
use fields::file::File;
use walk::{Kind, Step, step_at};

// Frames and blocks.
#[derive(Clone, Copy, Debug, PartialEq, Eq)]
pub struct ChunkCounts {
    pub frames: u64,
    pub blocks: u64,
}

impl ChunkCounts {
    // One more of a kind.
    fn counted(self, kind: Kind) -> ChunkCounts
        requires frames_le_count_limit { self.frames ≤ count_limit }
        requires blocks_le_count_limit { self.blocks ≤ count_limit }
        ensures { result ≡ counted kind self }
    {
        match kind {
            Kind::Frame => ChunkCounts {
                frames: self.frames + 1,
                blocks: self.blocks,
            },
            Kind::Sound => ChunkCounts {
                frames: self.frames,
                blocks: self.blocks + 1,
            },
        }
    }
}

// Counts the whole chunks of the walk. It reads headers only.
fn count_chunks(file: &File) -> Result<ChunkCounts, AmvError>
    ensures { said result ≡ count_chunks file.now }
{
    let file = file.bytes();
    let mut at: usize = Walker::START as usize;
    let mut counts = ChunkCounts {
        frames: 0,
        blocks: 0,
    };
    // A walk (see `step_at`).
    loop {
        match step_at(file, at) {
            Step::RanOut | Step::Trailer => return Ok(counts),
            Step::UnknownTag => return Err(AmvError::UnknownTag(at as u64)),
            Step::Chunk(chunk) => {
                // The file ends inside a chunk that is cut, and with it the walk.
                if chunk.missing > 0 {
                    return Ok(counts);
                }
                counts = counts.counted(chunk.kind);
                at += advance_total(chunk.size) as usize;
            }
        }
    }
}

// The frames and blocks that reads give of a file: those of the index's walk whose payload is whole. The index can have one record more, that
// of the chunk in which the file ends. Refuses a file over the limit (10) and an unknown tag (31, at the chunk).
#[tactic(auto, unfolding(crate::specs::Summary::summary_of))]
pub fn summary(file: &[u8]) -> Result<ChunkCounts, AmvError>
    ensures { said result ≡ summary_of file.now }
{
    let Some(file) = File::new(file) else {
        return Err(AmvError::FileTooLong);
    };
    count_chunks(&file)
}
