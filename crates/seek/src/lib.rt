// The indexed seek.
#![tactic(auto)]

ghost use Rattle.std.specs.Prelude.{◌≡◌, cond, ◌+◌, ◌≤◌, eqb, pos};
ghost use Rattle.error.specs.Refusal.{said};
ghost use Rattle.fields.specs.Capped.{u32_max};
ghost use Rattle.chunk_index.specs.Entry.{entries_of};
ghost use Rattle.chunk_index.specs.Steps.{Small};
ghost use Rattle.seek.specs.Seek.{seek_questions, stamp_of, reaches, find, beyond, past_last};
ghost use Rattle.seek.specs.Seek.{moved_to, landed, said_seek_outcome, seek_of};
ghost use Rattle.seek.specs.Steps.{least};

use chunk_index::entry::ChunkIndexEntry;
use demuxer::position::{BlockCount, FrameStamp, Position};
use demuxer::walker::Walker;
use error::AmvError;
use table::ask_table;

// A seek's answer, the stamp, and the walker that the next call gets.
#[derive(Clone, Copy, Debug, PartialEq, Eq)]
pub struct SeekOutcome {
    pub result: Result<u64, AmvError>,
    pub walker: Walker,
}

// The questions of a seek. The stream's comes before the table's, so a stream that does not exist is told whatever the table is.
#[tactic(auto, using(error::proofs::Answers::passed_on, table::proofs::Records::table_ok, table::proofs::Records::table_err), unfolding(crate::specs::Seek::seek_questions))]
fn ask_seek(walker: Walker, table: &[u8], stream: u32) -> Result<(), AmvError>
    ensures { said result ≡ seek_questions table.now walker stream }
{
    if 1 < stream {
        return Err(AmvError::NoSuchStream);
    }
    ask_table(table)?;
    if !walker.position.in_range() {
        return Err(AmvError::StateOutOfRange);
    }
    Ok(())
}

// The least stamp that reaches a signed request.
fn least_stamp(request: i64) -> u64
    ensures { result ≡ least request }
{
    if request < 0 { 0 } else { request as u64 }
}

// A stream's stamp at a position: frames for stream 0, samples for stream 1.
fn stamp_of(stream: u32, position: Position) -> u64
    ensures { result ≡ stamp_of stream position }
{
    if stream == 0 {
        position.frames.0
    } else {
        position.samples.0
    }
}

// Whether a record is of the stream and its stamp reaches a request.
fn reaches_entry(stream: u32, request: u64, e: ChunkIndexEntry) -> bool
    ensures { result ≡ reaches stream (pos request) e }
{
    if e.tag != chunk::stream_tag(stream) {
        return false;
    }
    request <= stamp_of(stream, e.position)
}

// The first record of a stream that reaches a request. It counts the bytes that are left: by `Entries` the search took up to 1.9 times as long, by where
// the code stood in the memory (docs/LOOK-BACK.md).
fn find_entry(table: &[u8], stream: u32, request: u64) -> Option<Position>
    ensures { result ≡ find stream (pos request) (entries_of table.now) }
{
    let mut at: usize = 0;
    let mut left = table.len();
    while ChunkIndexEntry::LEN <= left {
        left -= ChunkIndexEntry::LEN;
        let e = ChunkIndexEntry::read(table, at);
        if reaches_entry(stream, request, e) {
            return Some(e.position);
        }
        at += ChunkIndexEntry::LEN;
    }
    None
}

// One more where a record's tag is the one that is counted.
fn counted(count: u64, tag: u32, wanted: u32) -> u64
    requires { count ≤ u32_max }
    ensures { result ≡ cond (eqb tag wanted) (count + 1) count }
{
    if tag == wanted { count + 1 } else { count }
}

// The position past a record: one more frame or block, the samples as they were.
fn beyond_entry(e: ChunkIndexEntry) -> Position
    requires { Small e.position }
    ensures { result ≡ beyond e }
{
    let position = e.position;
    Position {
        cursor: position.cursor + 8,
        frames: FrameStamp(counted(position.frames.0, e.tag, chunk::VIDEO_CHUNK_TAG)),
        blocks: BlockCount(counted(position.blocks.0, e.tag, chunk::AUDIO_CHUNK_TAG)),
        ..position
    }
}

// Past the last record, or the position itself where there is none.
#[tactic(auto, using(crate::proofs::Records::past_records), unfolding(crate::specs::Seek::past_last, chunk_index::specs::Entry::entries_from))]
fn beyond_last(position: Position, table: &[u8]) -> Position
    ensures { result ≡ past_last position (entries_of table.now) }
{
    let count = table.len() / ChunkIndexEntry::LEN;
    if count == 0 {
        return position;
    }
    beyond_entry(ChunkIndexEntry::read(table, (count - 1) * ChunkIndexEntry::LEN))
}

// The whole position at once; cut and trailer stay.
fn moved_to(walker: Walker, stream: u32, position: Position, end: bool) -> SeekOutcome
    ensures { said_seek_outcome result ≡ moved_to walker stream position end }
{
    SeekOutcome {
        result: Ok(stamp_of(stream, position)),
        walker: Walker {
            position,
            end,
            ..walker
        },
    }
}

// Where the search leads.
fn land(walker: Walker, table: &[u8], stream: u32, found: Option<Position>) -> SeekOutcome
    ensures { said_seek_outcome result ≡ landed (entries_of table.now) walker stream found }
{
    match found {
        Some(position) => moved_to(walker, stream, position, false),
        None => moved_to(walker, stream, beyond_last(walker.position, table), true),
    }
}

// Moves a walker to the first record of a stream whose stamp reaches a request, or past the last record with the end mark, without walking the
// file. Refused in this order, with the walker as it was: a stream that is not 0 or 1 with 42, a table that is no whole number of records with
// 41, a record of another tag or too many samples with 43 at its start, a position out of range with 32.
#[tactic(auto, unfolding(crate::specs::Seek::seek_of))]
pub fn seek_to_via_index(walker: Walker, table: &[u8], stream: u32, request: i64) -> SeekOutcome
    ensures { said_seek_outcome result ≡ seek_of table.now walker stream request }
{
    match ask_seek(walker, table, stream) {
        Err(e) => SeekOutcome {
            result: Err(e),
            walker,
        },
        Ok(()) => {
            let found = find_entry(table, stream, least_stamp(request));
            land(walker, table, stream, found)
        }
    }
}
