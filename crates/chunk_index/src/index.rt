// Building the index.
ghost use Rattle.std.specs.Prelude.{◌≡◌, ◌*◌, ◌≤◌, length};
ghost use Rattle.error.specs.Refusal.{said};
ghost use Rattle.fields.specs.Le.{put};
ghost use Rattle.demuxer.specs.Position.{start};
ghost use Rattle.walk.specs.Walk.{file_walk};
ghost use Rattle.chunk_index.specs.Entry.{entry_len, table_bytes};
ghost use Rattle.chunk_index.specs.Index.{records, build_of};
ghost use Rattle.chunk_index.specs.Steps.{recorded_at, count_records};

use crate::entry::ChunkIndexEntry;
use chunk::advance_total;
use demuxer::position::Position;
use demuxer::walker::Walker;
use error::AmvError;
use fields::file::File;
use walk::{ChunkAt, Kind, Step, step_at};

// Whether a chunk of the walk gets a record: a frame always, sound where min(8, length) bytes of its payload are there.
fn recorded(chunk: ChunkAt) -> bool
    ensures { result ≡ recorded_at chunk }
{
    match chunk.kind {
        Kind::Frame => true,
        Kind::Sound => 8_u64.min(chunk.size as u64) + chunk.missing as u64 <= chunk.size as u64,
    }
}

// Counts the records of the walk. It reads headers only.
fn count_records(file: &File) -> Result<usize, AmvError>
    ensures { said result ≡ count_records file.now }
{
    let file = file.bytes();
    let mut at: usize = Walker::START as usize;
    let mut count: usize = 0;
    // A walk (see `step_at`).
    loop {
        match step_at(file, at) {
            Step::RanOut | Step::Trailer => return Ok(count),
            Step::UnknownTag => return Err(AmvError::UnknownTag(at as u64)),
            Step::Chunk(chunk) => {
                if !recorded(chunk) {
                    return Ok(count);
                }
                count += 1;
                at += advance_total(chunk.size) as usize;
            }
        }
    }
}

// Writes the records of the walk, for which the table has room.
fn write_records(file: &File, table: &mut [u8])
    requires { entry_len * length (records start (file_walk file.now)) ≤ length table.old }
    ensures { table.new ≡ put table.old 0 (table_bytes (records start (file_walk file.now))) }
{
    let file = file.bytes();
    let mut position = Position::new();
    let mut to: usize = 0;
    // A walk (see `step_at`).
    while let Step::Chunk(chunk) = step_at(file, position.cursor as usize) {
        if !recorded(chunk) {
            return;
        }
        let entry = ChunkIndexEntry {
            tag: chunk.kind.tag(),
            position,
        };
        entry.write(table, to);
        position = chunk.past(file, position);
        to += ChunkIndexEntry::LEN;
    }
}

// Writes the records of a file's chunks to a table and answers their count; bytes after them stay. Refuses a file over the limit (10), an
// unknown tag (31, at the chunk) and a table without room (40). Two passes, so that a table without room for all records is not touched.
pub fn build_chunk_index(file: &[u8], table: &mut [u8]) -> Result<usize, AmvError>
    ensures result_value { said result ≡ (build_of file.now table.old).answer }
    ensures table_after { table.new ≡ (build_of file.now table.old).table }
{
    let Some(file) = File::new(file) else {
        return Err(AmvError::FileTooLong);
    };
    let count = count_records(&file)?;
    if table.len() / ChunkIndexEntry::LEN < count {
        return Err(AmvError::TableTooShort);
    }
    write_records(&file, table);
    Ok(count)
}
