// The strict alternation of a device's chunks: a frame, then its sound, and so on.
ghost use Rattle.std.specs.Prelude.{◌≡◌};
ghost use Rattle.error.specs.Refusal.{said};
ghost use Rattle.chunk.specs.Chunk.{kind_of};
ghost use Rattle.chunk.specs.Interleave.{interleave, interleave_at};

use crate::ChunkKind;
use error::AmvError;

// What a chunk at a position is asked: frames stand at even positions (62), sound at odd ones (63), and nothing else stands (64).
pub fn interleave_at(tag: u32, position: u64) -> Result<(), AmvError>
    ensures { said result ≡ interleave_at (kind_of tag) position }
{
    let even = position % 2 == 0;
    match ChunkKind::classify(tag) {
        ChunkKind::Video => {
            if even {
                Ok(())
            } else {
                Err(AmvError::VideoAtOddPosition(position))
            }
        }
        ChunkKind::Audio => {
            if even {
                Err(AmvError::AudioAtEvenPosition(position))
            } else {
                Ok(())
            }
        }
        ChunkKind::Other(_) => Err(AmvError::OtherAtPosition(position)),
    }
}

// Whether chunk tags alternate as a device writes them: the first position refused with 62, 63 or 64, then an odd count with 65.
pub fn validate_movi_interleave(tags: &[u32]) -> Result<(), AmvError>
    ensures { said result ≡ interleave tags.now }
{
    for (position, &tag) in tags.iter().enumerate() {
        interleave_at(tag, position as u64)?;
    }
    let count = tags.len() as u64;
    if count % 2 == 0 {
        Ok(())
    } else {
        Err(AmvError::OddChunkCount(count))
    }
}
