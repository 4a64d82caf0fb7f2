// The questions that every call asks of a table of records before it reads one.
#![tactic(auto)]

ghost use Rattle.std.specs.Prelude.{◌≡◌, max};
ghost use Rattle.error.specs.Answer.{and_then};
ghost use Rattle.error.specs.Refusal.{said};
ghost use Rattle.chunk_index.specs.Entry.{entries_of};
ghost use Rattle.table.specs.Table.{good_entry, whole_records};
ghost use Rattle.table.specs.Steps.{pass_over};

use chunk_index::entry::{ChunkIndexEntry, Entries};
use error::AmvError;

// Refuses with 41 a table that is no whole number of records.
fn whole_records(table: &[u8]) -> Result<(), AmvError>
    ensures { said result ≡ whole_records table.now }
{
    if table.len() % ChunkIndexEntry::LEN != 0 {
        return Err(AmvError::TableRagged);
    }
    Ok(())
}

// A known tag, and samples below the limit. The samples first and the tag by a pattern: a picture's record then takes two tests. With the tag by `||`
// both tags were compared for each record and the answers joined, and a jump in an index of pictures took 1.9 times as long (docs/SPEED.md).
fn good_entry(e: ChunkIndexEntry) -> bool
    ensures { result ≡ good_entry e }
{
    if demuxer::position::COUNT_LIMIT <= e.position.samples.0 {
        return false;
    }
    matches!(e.tag, chunk::VIDEO_CHUNK_TAG | chunk::AUDIO_CHUNK_TAG)
}

// Refuses with 43 the first record of another tag or too many samples, at its start. The one pass answers the most samples too: a caller
// with a limit below 2^62 then need not pass over the table again.
#[tactic(auto, using(crate::proofs::Records::passing_start, crate::proofs::Records::passing_on, crate::proofs::Records::passing_end))]
fn good_entries(table: &[u8]) -> Result<u64, AmvError>
    ensures { said result ≡ pass_over 0 0 (entries_of table.now) }
{
    let mut most: u64 = 0;
    for (number, e) in Entries::of(table).enumerate() {
        if !good_entry(e) {
            return Err(AmvError::BadRecord((number * ChunkIndexEntry::LEN) as u64));
        }
        most = most.max(e.position.samples.0);
    }
    Ok(most)
}

// Refuses a table with 41, then with 43, as whole_records and good_entries do, and answers the most samples of a record.
#[tactic(auto, using(error::proofs::Answers::passed_on))]
pub fn ask_table(table: &[u8]) -> Result<u64, AmvError>
    ensures { said result ≡ and_then (whole_records table.now) (λ _. pass_over 0 0 (entries_of table.now)) }
{
    whole_records(table)?;
    good_entries(table)
}
