// Where a walker stands. A frame count never stands where a sample count belongs, nor a block count.
ghost use Rattle.std.specs.Prelude.{◌≡◌};
ghost use Rattle.demuxer.specs.Position.{start, in_range, InRange, past_frame, past_sound};

use crate::walker::Walker;
use chunk::advance_total;

// How many frames came before.
#[derive(Clone, Copy, Debug, PartialEq, Eq)]
pub struct FrameStamp(pub u64);

// How many samples came before.
#[derive(Clone, Copy, Debug, PartialEq, Eq)]
pub struct SampleStamp(pub u64);

// How many sound blocks came before.
#[derive(Clone, Copy, Debug, PartialEq, Eq)]
pub struct BlockCount(pub u64);

// A chunk's offset, and the frames, samples and blocks before it.
#[derive(Clone, Copy, Debug, PartialEq, Eq)]
pub struct Position {
    pub cursor: u64,
    pub frames: FrameStamp,
    pub samples: SampleStamp,
    pub blocks: BlockCount,
}

// The most that a cursor or a counter may be, 2 to the 62, so that a step past any chunk fits.
pub const COUNT_LIMIT: u64 = 4611686018427387904;

impl Position {
    // The first chunk's position. Refuses nothing.
    pub fn new() -> Position
        ensures { result ≡ start }
    {
        Position {
            cursor: Walker::START,
            frames: FrameStamp(0),
            samples: SampleStamp(0),
            blocks: BlockCount(0),
        }
    }

    // Whether cursor and counters are each at most the limit. Refuses nothing; a caller that is given a position refuses with 32.
    #[tactic(auto, unfolding(crate::specs::Position::in_range))]
    pub fn in_range(self) -> bool
        ensures { result ≡ in_range self }
    {
        self.cursor <= COUNT_LIMIT
            && self.frames.0 <= COUNT_LIMIT
            && self.samples.0 <= COUNT_LIMIT
            && self.blocks.0 <= COUNT_LIMIT
    }

    // The position past a frame of a length. Refuses nothing: this one is in range. The range is a clause and no type: a walker comes from C in words
    // of any size, and one out of range has an answer (32).
    pub fn past_frame(self, size: u32) -> Position
        requires { InRange self }
        ensures { result ≡ past_frame self size }
    {
        Position {
            cursor: self.cursor + advance_total(size),
            frames: FrameStamp(self.frames.0 + 1),
            ..self
        }
    }

    // The position past a sound block of a length and a sample count. Refuses nothing: this one is in range.
    pub fn past_sound(self, size: u32, count: u32) -> Position
        requires { InRange self }
        ensures { result ≡ past_sound self size count }
    {
        Position {
            cursor: self.cursor + advance_total(size),
            samples: SampleStamp(self.samples.0 + count as u64),
            blocks: BlockCount(self.blocks.0 + 1),
            ..self
        }
    }
}
