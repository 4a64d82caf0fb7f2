// A record of the index, and the records of a table of them.
ghost use Rattle.std.specs.Prelude.{◌≡◌, ◌+◌, ◌/◌, ◌≤◌, length};
ghost use Rattle.std.specs.Iterator.{YieldsFirst, item_count};
ghost use Rattle.fields.specs.Le.{put};
ghost use Rattle.chunk_index.specs.Entry.{entry_len, entry_bytes, entry_at, entries_of};
ghost use Rattle.chunk_index.specs.Steps.{Small, entries_on};

use demuxer::position::{BlockCount, FrameStamp, Position, SampleStamp};

// A chunk's tag, and where it stands.
#[derive(Clone, Copy, Debug, PartialEq, Eq)]
pub struct ChunkIndexEntry {
    pub tag: u32,
    pub position: Position,
}

impl ChunkIndexEntry {
    // The bytes of a record.
    pub const LEN: usize = 24;

    // The record at an offset of a table.
    #[tactic(auto, unfolding(crate::specs::Entry::entry_at))]
    pub fn read(table: &[u8], at: usize) -> ChunkIndexEntry
        requires { at + entry_len ≤ length table.now }
        ensures { result ≡ entry_at table.now at }
    {
        ChunkIndexEntry {
            tag: fields::read_le::<u32>(table, at),
            position: Position {
                cursor: fields::read_le::<u32>(table, at + 4) as u64,
                frames: FrameStamp(fields::read_le::<u32>(table, at + 8) as u64),
                samples: SampleStamp(fields::read_le::<u64>(table, at + 16)),
                blocks: BlockCount(fields::read_le::<u32>(table, at + 12) as u64),
            },
        }
    }

    // Writes the record at an offset of a table.
    pub fn write(self, table: &mut [u8], at: usize)
        requires entry_len_in_bounds { at + entry_len ≤ length table.old }
        requires small { Small self.position }
        ensures { table.new ≡ put table.old at (entry_bytes self) }
    {
        let position = self.position;
        fields::write_le::<u32>(table, at, self.tag);
        fields::write_le::<u32>(table, at + 4, position.cursor as u32);
        fields::write_le::<u32>(table, at + 8, position.frames.0 as u32);
        fields::write_le::<u32>(table, at + 12, position.blocks.0 as u32);
        fields::write_le::<u64>(table, at + 16, position.samples.0);
    }
}

// The records of a table, one after another from its front. Bytes at its end that make no whole record are none. It goes by their numbers and
// not by the bytes that are left: so a pass over all of them is as fast as a loop that counts.
#[derive(Drop)]
pub struct Entries<'a> {
    table: &'a [u8],
    // Of the next one.
    number: usize,
}

impl<'a> Entries<'a> {
    // All records of a table. Refuses nothing.
    #[tactic(auto, using(crate::proofs::Entries::entries_all, crate::proofs::Entries::entries_many))]
    pub fn of(table: &'a [u8]) -> Entries<'a>
        ensures entries { entries_on result.table.now result.number ≡ entries_of table.now }
        ensures count { length (entries_on result.table.now result.number) ≡ length table.now / entry_len }
    {
        Entries { table, number: 0 }
    }
}

impl<'a> Iterator for Entries<'a> {
    type Item = ChunkIndexEntry;

    ghost next_gives = { YieldsFirst (λ entries. entries_on entries.table.now entries.number) };

    ghost remaining = { item_count (λ entries. entries_on entries.table.now entries.number) };

    #[tactic(auto, using(crate::proofs::Entries::entries_none, crate::proofs::Entries::entries_first, crate::proofs::Entries::entries_fewer))]
    fn next(&mut self) -> Option<ChunkIndexEntry> {
        let number = self.number;
        if self.table.len() / ChunkIndexEntry::LEN <= number {
            return None;
        }
        self.number = number + 1;
        Some(ChunkIndexEntry::read(self.table, number * ChunkIndexEntry::LEN))
    }
}
