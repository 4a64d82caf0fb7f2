// The check: whether a file is a finished recording, and what it holds.
#![tactic(auto)]

ghost use Rattle.std.specs.Prelude.{◌≡◌, ◌&&◌, ◌≤◌, ◌+◌, ◌-◌, length};
ghost use Rattle.error.specs.Refusal.{said};
ghost use Rattle.chunk.specs.Chunk.{kind_of};
ghost use Rattle.chunk.specs.Interleave.{interleave_at, even};
ghost use Rattle.walk.specs.Walk.{trailer};
ghost use Rattle.finished.specs.Check.{passes, check_stop, check_chunks, check_of};

use chunk::interleave::interleave_at;
use demuxer::position::Position;
use error::AmvError;
use fields::file::File;
use prelude::prelude::AmvPrelude;
use walk::{Step, step_at};

// What the check answers of a finished recording.
#[derive(Clone, Copy, Debug, PartialEq, Eq)]
pub struct Totals {
    pub frames: u64,
    pub blocks: u64,
    pub samples: u64,
    // The trailer's offset.
    pub trailer: u64,
    // Whether each frame is followed by its sound.
    pub paired: bool,
}

// Whether the chunks are still paired after one more, at its number.
fn paired_on(paired: bool, tag: u32, number: u64) -> bool
    ensures { result ≡ (paired && passes (interleave_at (kind_of tag) number)) }
{
    paired && interleave_at(tag, number).is_ok()
}

fn paired_all(paired: bool, count: u64) -> bool
    ensures { result ≡ (paired && even count) }
{
    paired && count % 2 == 0
}

// The verdict at the trailer: it must be the file's last 8 bytes.
fn check_trailer(file: &[u8], position: Position, paired: bool) -> Result<Totals, AmvError>
    requires { position.cursor + 8 ≤ length file.now }
    ensures { said result ≡ check_stop position paired (trailer (length file.now - (position.cursor + 8))) }
{
    let after = file.len() - (position.cursor as usize + 8);
    if after != 0 {
        return Err(AmvError::AfterTrailer(position.cursor));
    }
    Ok(Totals {
        frames: position.frames.0,
        blocks: position.blocks.0,
        samples: position.samples.0,
        trailer: position.cursor,
        paired,
    })
}

// The chunks, one after another, each with its whole payload.
fn check_chunks(file: &File) -> Result<Totals, AmvError>
    ensures { said result ≡ check_chunks file.now }
{
    let file = file.bytes();
    let mut position = Position::new();
    let mut paired = true;
    // A walk (see `step_at`).
    loop {
        let number = position.frames.0 + position.blocks.0;
        match step_at(file, position.cursor as usize) {
            Step::RanOut => return Err(AmvError::ChunkCut(position.cursor)),
            Step::Trailer => return check_trailer(file, position, paired_all(paired, number)),
            Step::UnknownTag => return Err(AmvError::UnknownTag(position.cursor)),
            Step::Chunk(chunk) => {
                if chunk.missing != 0 {
                    return Err(AmvError::ChunkCut(position.cursor));
                }
                paired = paired_on(paired, chunk.kind.tag(), number);
                position = chunk.past(file, position);
            }
        }
    }
}

// Whether a file is a finished recording: its totals. Refuses what the prelude's strict reading refuses (10 to 24); then, at a chunk, fewer
// than 8 bytes or a cut payload (60), bytes after the trailer (61) and an unknown tag (31).
#[tactic(auto, using(error::proofs::Answers::passed_on), unfolding(crate::specs::Check::check_of))]
pub fn check(file: &[u8]) -> Result<Totals, AmvError>
    ensures { said result ≡ check_of file.now }
{
    let Some(file) = File::new(file) else {
        return Err(AmvError::FileTooLong);
    };
    AmvPrelude::parse_strict(file.bytes())?;
    check_chunks(&file)
}
