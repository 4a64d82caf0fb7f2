// A walker as seven words: cursor, frames, samples, blocks, end, cut, the trailer's offset.
ghost use Rattle.std.specs.Prelude.{◌≡◌};
ghost use Rattle.words.specs.State.{trailer_of, trailer_word, mark_in, mark_word, walker_of, said_walker, walker_words, position_into};

use demuxer::position::{BlockCount, FrameStamp, Position, SampleStamp};
use demuxer::walker::Walker;

// The trailer's word where none was met.
pub const NOT_MET: u64 = u64::MAX;

// The trailer of its word.
fn trailer_of(word: u64) -> Option<u64>
    ensures { result ≡ trailer_of word }
{
    if word == NOT_MET { None } else { Some(word) }
}

// The word of a trailer.
fn trailer_word(trailer: Option<u64>) -> u64
    ensures { result ≡ trailer_word trailer }
{
    trailer.unwrap_or(NOT_MET)
}

// The mark of its word, if it is one.
pub fn mark_of(word: u64) -> Option<bool>
    ensures { result ≡ mark_in word }
{
    (word <= 1).then_some(word == 1)
}

// The word of a mark: 1 for true, 0 for false.
pub fn mark_word(mark: bool) -> u64
    ensures { result ≡ mark_word mark }
{
    u64::from(mark)
}

// The walker that seven words spell. None where a mark is neither 0 nor 1, so that words no call left are refused and not guessed at.
#[tactic(auto, unfolding(crate::specs::State::walker_legal))]
pub fn walker_of(words: [u64; 7]) -> Option<Walker>
    ensures { said_walker result ≡ walker_of words }
{
    let [cursor, frames, samples, blocks, end, cut, trailer] = words;
    Some(Walker {
        position: Position {
            cursor,
            frames: FrameStamp(frames),
            samples: SampleStamp(samples),
            blocks: BlockCount(blocks),
        },
        end: mark_of(end)?,
        cut: mark_of(cut)?,
        trailer: trailer_of(trailer),
    })
}

// The seven words of a walker, as a call leaves them for the next one.
pub fn walker_words(walker: Walker) -> [u64; 7]
    ensures { result ≡ walker_words walker }
{
    let position = walker.position;
    [
        position.cursor,
        position.frames.0,
        position.samples.0,
        position.blocks.0,
        mark_word(walker.end),
        mark_word(walker.cut),
        trailer_word(walker.trailer),
    ]
}

// The words of the same walker at another position: the marks and the trailer stay, so a read stores four words and not seven.
pub fn at_position(words: [u64; 7], position: Position) -> [u64; 7]
    ensures { result ≡ position_into position words }
{
    let [_, _, _, _, end, cut, trailer] = words;
    [
        position.cursor,
        position.frames.0,
        position.samples.0,
        position.blocks.0,
        end,
        cut,
        trailer,
    ]
}
