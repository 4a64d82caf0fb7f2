// The page: the records of an index as lines for a strip printer.
#![tactic(auto)]

ghost use Rattle.std.specs.Prelude.{◌≡◌, ◌+◌, ◌*◌, ◌≤◌, length};
ghost use Rattle.error.specs.Answer.{accepted};
ghost use Rattle.error.specs.Refusal.{said};
ghost use Rattle.text.specs.Puts.{Puts};
ghost use Rattle.chunk_index.specs.Entry.{entries_of};
ghost use Rattle.table.specs.Table.{ask_each};
ghost use Rattle.table.specs.Steps.{most_samples};
ghost use Rattle.page.specs.Page.{columns, narrow_samples, page_line, page_lines, page_questions, print_of};
ghost use Rattle.page.specs.Steps.{Fits};

use chunk_index::entry::{ChunkIndexEntry, Entries};
use error::AmvError;
use table::ask_table;
use text::Text;

// The columns of a line: kind, offset, frames and samples.
pub const COLUMNS: usize = 40;

// The least number of samples that needs more than 18 digits.
const SAMPLES_LIMIT: u64 = 1_000_000_000_000_000_000;

// Refuses with 70 the first record whose samples need more than 18 digits, at its start.
#[tactic(auto, using(table::proofs::Records::asking_start, table::proofs::Records::asking_end))]
fn narrow_samples(table: &[u8]) -> Result<(), AmvError>
    ensures { said result ≡ ask_each narrow_samples 70 0 (entries_of table.now) }
{
    for (number, e) in Entries::of(table).enumerate() {
        if SAMPLES_LIMIT <= e.position.samples.0 {
            return Err(AmvError::SamplesTooWide((number * ChunkIndexEntry::LEN) as u64));
        }
    }
    Ok(())
}

// The question 70. With the most samples that a record has it takes no pass, unless there is a record to refuse.
fn ask_samples(table: &[u8], most: u64) -> Result<(), AmvError>
    requires { most ≡ most_samples 0 (entries_of table.now) }
    ensures { said result ≡ ask_each narrow_samples 70 0 (entries_of table.now) }
{
    if most < SAMPLES_LIMIT {
        return Ok(());
    }
    narrow_samples(table)
}

// The questions of the page, in one pass over the records.
fn ask_page(table: &[u8], room: usize) -> Result<(), AmvError>
    ensures { said result ≡ page_questions table.now room }
{
    let most = ask_table(table)?;
    ask_samples(table, most)?;
    if room / COLUMNS < table.len() / ChunkIndexEntry::LEN {
        return Err(AmvError::TableTooShort);
    }
    Ok(())
}

// Puts the line of a record.
fn put_line(text: &mut Text, e: ChunkIndexEntry)
    requires columns_in_bounds { text.old.len + columns ≤ length text.old.buffer.now }
    requires fits { Fits e }
    ensures written { Puts text.old (page_line e) text.new }
    ensures value { text.new.len ≡ text.old.len + columns }
{
    let position = e.position;
    text.put_kind(e.tag == chunk::VIDEO_CHUNK_TAG);
    text.put_right(10, position.cursor);
    text.put_right(10, position.frames.0);
    text.put_right(19, position.samples.0);
}

// Puts a line for each record, one after another.
#[tactic(auto, using(crate::proofs::Lines::putting_fits, crate::proofs::Lines::putting_room, crate::proofs::Lines::putting_end))]
fn put_lines(text: &mut Text, table: &[u8])
    requires table_in_bounds { text.old.len + columns * length (entries_of table.now) ≤ length text.old.buffer.now }
    requires table_value { ask_each narrow_samples 70 0 (entries_of table.now) ≡ accepted tt }
    ensures { Puts text.old (page_lines (entries_of table.now)) text.new }
{
    for e in Entries::of(table) {
        put_line(text, e);
    }
}

// Prints the records of an index to the front of a page, for the strip printer: a line of 40 columns for each, without line ends. Refused in
// this order, with the page as it was: a table that is no whole number of records with 41, a record of another tag or too many samples with
// 43 at its start, a record whose samples need more than 18 digits with 70 at its start, and a page that does not hold all lines with 40.
pub fn print_index(table: &[u8], page: &mut [u8]) -> Result<usize, AmvError>
    ensures result_value { said result ≡ (print_of table.now page.old).answer }
    ensures page_after { page.new ≡ (print_of table.now page.old).page }
{
    ask_page(table, page.len())?;
    let mut text = Text::new(page);
    put_lines(&mut text, table);
    Ok(table.len() / ChunkIndexEntry::LEN)
}
