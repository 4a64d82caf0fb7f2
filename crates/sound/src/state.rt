// What a decoder goes by: a level and a step index. The two tables are statics, since a constant array would be laid out again at each call.
ghost use Rattle.std.specs.Prelude.{◌≡◌, ◌%◌, ◌≤◌, slice_index};
ghost use Rattle.parse.specs.Preamble.{state_byte};
ghost use Rattle.sound.specs.Sound.{decode_nibble, held_level, index_after, moved_by, rise, start_of, steps};

use crate::rises::RISES;
use parse::preamble::AmvAudioPreamble;
use std::marker::Model;

// The rises of one step index.
const ROW_LEN: usize = 8;

// Where the rises of the last step index begin.
const LAST_ROW: usize = 704;

// What is added to a row, by the low three bits of a nibble: 8 for each that the step index moves by, and 8 more, which are taken off again.
static ROW_MOVES: [u8; 8] = [0, 0, 0, 0, 24, 40, 56, 72];

// A step index. It is kept as its row, the place in the table where its rises begin, so that a nibble costs no multiplication.
#[derive(Clone, Copy)]
struct StepIndex {
    row: usize,
}

// Clauses see the index.
impl Model for StepIndex {
    ghost use Rattle.std.specs.Prelude.{◌≡◌, ℕ, ◌*◌, ◌/◌, ◌%◌, ◌<◌};
    ghost use Rattle.sound.specs.Steps.{row_of_index};

    ghost Value = { ℕ };

    ghost view = { λ s. s.row / 8 };

    ghost invariant = { λ s. (s.row % 8 ≡ 0) × (s.row < 712) };

    ghost inverse = { λ n. record { row = 8 * n } };

    ghost inverse_ok = { λ s h i. record { row = row_of_index s.row h.0 i } };
}

impl StepIndex {
    // One of the 89 step indices.
    fn new(index: u8) -> StepIndex
        requires { index ≤ 88 }
        ensures { result ≡ index }
    {
        StepIndex {
            row: ROW_LEN * usize::from(index),
        }
    }

    // How far a nibble moves the level.
    fn rise(self, nibble: usize) -> u16
        ensures { result ≡ rise (slice_index steps self) (nibble % 8) }
    {
        RISES[self.row + nibble % 8]
    }

    // The step index after a nibble, held within the 89.
    fn after(self, nibble: usize) -> StepIndex
        ensures { result ≡ index_after nibble self }
    {
        let moved = self.row + usize::from(ROW_MOVES[nibble % 8]);
        StepIndex {
            row: moved.saturating_sub(ROW_LEN).min(LAST_ROW),
        }
    }
}

// A level moved by a rise: up, or down where the nibble has its fourth bit. It may leave 16 bits.
fn moved_level(level: i16, rise: u16, nibble: usize) -> i32
    ensures { result ≡ moved_by nibble level rise }
{
    if nibble < 8 {
        i32::from(level) + i32::from(rise)
    } else {
        i32::from(level) - i32::from(rise)
    }
}

// A level that was moved, held within 16 bits.
fn held_level(moved: i32) -> i16
    ensures { result ≡ held_level moved }
{
    moved.clamp(i32::from(i16::MIN), i32::from(i16::MAX)) as i16
}

// What a decoder goes by. Level and step index are held after each nibble without a look whether they are to be: with that look near silence, where
// it is in vain, took 1.7 times as long, and no sound took less.
#[derive(Clone, Copy)]
pub struct State {
    level: i16,
    index: StepIndex,
}

// Clauses see the decoder that it is.
impl Model for State {
    ghost use Rattle.sound.specs.Sound.{Decoder};

    ghost Value = { Decoder };

    ghost view = { λ s. record { level = s.level; index = s.index } };

    ghost inverse = { λ d. record { level = d.level; index = d.index } };
}

impl State {
    // What a block's preamble starts the decoder with.
    pub fn start(preamble: AmvAudioPreamble) -> State
        requires { state_byte 2 preamble ≤ 88 }
        ensures { result ≡ start_of preamble }
    {
        State {
            level: preamble.initial_predictor(),
            index: StepIndex::new(preamble.initial_step_index()),
        }
    }

    // What it is after one nibble.
    pub fn after(self, nibble: usize) -> State
        ensures { result ≡ decode_nibble nibble self }
    {
        State {
            level: held_level(moved_level(self.level, self.index.rise(nibble), nibble)),
            index: self.index.after(nibble),
        }
    }

    // The sample that the last nibble left, which is the level.
    pub fn sample(self) -> i16
        ensures { result ≡ self.level }
    {
        self.level
    }
}
