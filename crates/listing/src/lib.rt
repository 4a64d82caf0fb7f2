// The listing of a file, as bytes in a lent buffer.
#![tactic(auto)]

ghost use Rattle.std.specs.Prelude.{◌≡◌, ◌+◌, ◌≤◌, length};
ghost use Rattle.text.specs.Puts.{Puts};
ghost use Rattle.text.specs.Written.{Written};
ghost use Rattle.demuxer.specs.Position.{start};
ghost use Rattle.walk.specs.Walk.{file_walk};
ghost use Rattle.finished.specs.Check.{check_of};
ghost use Rattle.listing.specs.Listing.{chunk_lines, checked_lines, input_limit, listing_of};
ghost use Rattle.listing.specs.Steps.{room};

use demuxer::position::Position;
use finished::check;
use lines::{
    ChunkLine, TotalsLine, put_chunk_line, put_long_line, put_refusal_line, put_totals_line,
};
use text::Text;
use walk::{Step, step_at};

// The longest input that is listed, in bytes.
pub const INPUT_LIMIT: usize = 65_536;

// A buffer of so many bytes holds every listing. A chunk takes 8 bytes or more and its line at most 86, fewer than 8 times 11; the 316
// bytes before the chunks are room for the totals.
pub const ROOM: usize = 11 * INPUT_LIMIT;

// One line for each chunk, of the position that it stands at.
fn put_chunk_lines(text: &mut Text, file: &[u8])
    requires empty { text.old.len ≡ 0 }
    requires room_in_bounds { room ≤ length text.old.buffer.now }
    requires file_len_bound { length file.now ≤ input_limit }
    ensures written { Puts text.old (chunk_lines start (file_walk file.now)) text.new }
    ensures upper_bound { text.new.len + 119 ≤ room }
{
    let mut position = Position::new();
    // A walk (see `step_at`).
    while let Step::Chunk(chunk) = step_at(file, position.cursor as usize) {
        let kind = chunk.kind;
        let line = ChunkLine {
            frame: kind.is_frame(),
            offset: position.cursor,
            frames: position.frames.0,
            samples: position.samples.0,
            blocks: position.blocks.0,
        };
        put_chunk_line(text, line);
        position = chunk.past(file, position);
    }
}

// The listing of a file that is not too long.
fn put_checked_lines(text: &mut Text, file: &[u8])
    requires empty { text.old.len ≡ 0 }
    requires room_in_bounds { room ≤ length text.old.buffer.now }
    requires file_len_bound { length file.now ≤ input_limit }
    ensures { Puts text.old (checked_lines file.now (check_of file.now)) text.new }
{
    match check(file) {
        Ok(totals) => {
            put_chunk_lines(text, file);
            let line = TotalsLine {
                trailer: totals.trailer,
                frames: totals.frames,
                blocks: totals.blocks,
                samples: totals.samples,
                paired: totals.paired,
            };
            put_totals_line(text, line);
        }
        Err(error) => put_refusal_line(text, error.number(), error.place()),
    }
}

// Writes the listing of an input to the front of the buffer, and answers its length. It refuses nothing: a file that the check refuses and an
// input over the limit have a listing of one line. A program that shows a recording as text calls it.
pub fn list(input: &[u8], lines: &mut [u8; ROOM]) -> usize
    ensures { Written lines.old 0 (listing_of input.now) lines.new result }
{
    let mut text = Text::new(lines);
    if INPUT_LIMIT < input.len() {
        put_long_line(&mut text);
    } else {
        put_checked_lines(&mut text, input);
    }
    text.len()
}
