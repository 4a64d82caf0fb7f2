// A whole list of reads and seeks, run from a fresh walker.
#![tactic(auto)]

ghost use Rattle.std.specs.Prelude.{◌≡◌};
ghost use Rattle.error.specs.Refusal.{refusal_of, said};
ghost use Rattle.replay.specs.Replay.{row_words, refusal_row, packet_row, sought_row, call_of, Replayed, Compared};
ghost use Rattle.replay.specs.Steps.{next_row, called, Answered};

use demuxer::packet::Packet;
use demuxer::walker::Walker;
use error::AmvError;
use rows::{RowsError, all_or_none, put_row};
use seek::seek_to_via_index;

// An answer as six numbers. A packet's values: stream, start and length of its payload in the file, stamp, and duration or 0. A refusal's:
// number and place. A seek's: the stamp. Every other value is 0.
#[derive(Clone, Copy, Debug, Default, PartialEq, Eq)]
pub struct Row {
    // What the answer is: one of the constants below. A number, as the five beside it: it goes into a lent slice of numbers, and the claims read any
    // number back (`row_answer`).
    pub said: u64,
    pub first: u64,
    pub second: u64,
    pub third: u64,
    pub fourth: u64,
    pub fifth: u64,
}

impl Row {
    // The numbers of a row.
    pub const LEN: usize = 6;

    // A read that gave End.
    pub const END: u64 = 0;

    // A read that gave a packet with a duration.
    pub const PACKET: u64 = 1;

    // A read that gave a packet without a duration.
    pub const PACKET_NO_DURATION: u64 = 2;

    // A read that was refused.
    pub const READ_REFUSED: u64 = 3;

    // A seek that gave a stamp.
    pub const STAMP: u64 = 4;

    // A seek that was refused.
    pub const SEEK_REFUSED: u64 = 5;

    // The row of a refused call.
    fn refusal(said: u64, error: AmvError) -> Row
        ensures { result ≡ refusal_row said (refusal_of error).number (refusal_of error).place }
    {
        Row {
            said,
            first: u64::from(error.number()),
            second: error.place(),
            ..Row::default()
        }
    }

    // The row of a packet, with its duration if it has one.
    fn packet(packet: Packet) -> Row
        ensures { result ≡ packet_row packet.stream packet.start packet.len packet.stamp packet.duration }
    {
        let (said, ticks) = match packet.duration {
            Some(ticks) => (Row::PACKET, ticks),
            None => (Row::PACKET_NO_DURATION, 0),
        };
        Row {
            said,
            first: u64::from(packet.stream),
            second: packet.start as u64,
            third: packet.len as u64,
            fourth: packet.stamp,
            fifth: ticks,
        }
    }

    // The row of a read's answer.
    fn read(answer: Result<Option<Packet>, AmvError>) -> Row
        ensures { result ≡ next_row answer }
    {
        match answer {
            Ok(Some(packet)) => Row::packet(packet),
            Ok(None) => Row {
                said: Row::END,
                ..Row::default()
            },
            Err(error) => Row::refusal(Row::READ_REFUSED, error),
        }
    }

    // The row of a seek's answer.
    fn seek(answer: Result<u64, AmvError>) -> Row
        ensures { result ≡ sought_row (said answer) }
    {
        match answer {
            Ok(stamp) => Row {
                said: Row::STAMP,
                first: stamp,
                ..Row::default()
            },
            Err(error) => Row::refusal(Row::SEEK_REFUSED, error),
        }
    }

    // The six numbers in their order.
    fn words(self) -> [u64; 6]
        ensures { result ≡ row_words self }
    {
        [
            self.said,
            self.first,
            self.second,
            self.third,
            self.fourth,
            self.fifth,
        ]
    }
}

// The kind of call that is a read; every other is a seek.
pub const READ: u8 = 0;

// A call.
#[derive(Clone, Copy, Debug, PartialEq, Eq)]
enum Call {
    Read,
    Seek { stream: u32, request: i64 },
}

impl Call {
    // A call as the slices tell it. The kind is a number, and none is refused: the claims speak of every slice of them (`Replayed`).
    fn of(kind: u8, stream: u32, request: i64) -> Call
        ensures { called result ≡ call_of kind stream request }
    {
        if kind == READ {
            Call::Read
        } else {
            Call::Seek { stream, request }
        }
    }

    // Its answer as a row, and the walker that the next call gets.
    fn run(self, walker: Walker, file: &[u8], table: &[u8]) -> (Row, Walker)
        ensures { Answered file.now table.now walker (called self) result }
    {
        match self {
            Call::Read => {
                let read = walker.next_packet(file);
                (Row::read(read.answer), read.walker)
            }
            Call::Seek { stream, request } => {
                let sought = seek_to_via_index(walker, table, stream, request);
                (Row::seek(sought.result), sought.walker)
            }
        }
    }
}

// Runs calls from a fresh walker over a file and its index: call i is kinds[i] with streams[i] and requests[i], its answer is row i. The three
// slices stay apart, of any lengths, and the kinds stay numbers: what is answered of unequal slices is promised (`Replayed`, of Unequal).
// Refused, with every number as it was: slices of unequal length with Unequal, rows without room for all answers with NoRoom.
pub fn run_calls(
    file: &[u8],
    table: &[u8],
    kinds: &[u8],
    streams: &[u32],
    requests: &[i64],
    rows: &mut [u64],
) -> Result<Walker, RowsError>
    ensures replayed { Replayed file.now table.now kinds.now streams.now requests.now
        rows.old result rows.new }
    ensures compared { Compared file.now table.now kinds.now streams.now requests.now
        result rows.new }
{
    let count = kinds.len();
    all_or_none(
        count,
        &[streams.len(), requests.len()],
        rows.len() / Row::LEN,
    )?;
    let mut walker = Walker::new();
    for i in 0..count {
        let call = Call::of(kinds[i], streams[i], requests[i]);
        let (row, next) = call.run(walker, file, table);
        put_row(rows, i, &row.words());
        walker = next;
    }
    Ok(walker)
}
