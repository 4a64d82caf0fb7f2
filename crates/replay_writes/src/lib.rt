// A whole list of writing calls, run from a fresh state.
#![tactic(auto)]

ghost use Rattle.std.specs.Prelude.{◌≡◌};
ghost use Rattle.error.specs.Refusal.{said};
ghost use Rattle.muxer.specs.Writer.{MeetsOutcome};
ghost use Rattle.recording.specs.WriteLists.{write_step};
ghost use Rattle.replay_writes.specs.Replay.{lists, payload_in, call_of, verdict, Replayed, Kept};
ghost use Rattle.replay_writes.specs.Steps.{called};

use demuxer::packet::{Packet, payload};
use error::AmvError;
use muxer::{Settings, Writer, Wrote};
use rows::{RowsError, all_or_none, put_row};

// The kind of call that writes a header. Every kind but these two writes a trailer.
pub const HEADER: u8 = 0;

// The kind of call that writes a packet.
pub const PACKET: u8 = 1;

// The numbers of a verdict: the refusal's number, 0 where the call was accepted, and its place.
pub const VERDICT_LEN: usize = 2;

// A call.
#[derive(Clone, Copy, Debug, PartialEq, Eq)]
enum WriteCall<'a> {
    Header,
    Packet { payload: &'a [u8], stream: u32 },
    Trailer,
}

impl<'a> WriteCall<'a> {
    // A call as the slices tell it. The kind is a number, and none is refused: the claims speak of every slice of them (`Replayed`).
    fn of(kind: u8, stream: u32, payload: &'a [u8]) -> WriteCall<'a>
        ensures { called result ≡ call_of kind stream payload.now }
    {
        match kind {
            HEADER => WriteCall::Header,
            PACKET => WriteCall::Packet { payload, stream },
            _ => WriteCall::Trailer,
        }
    }

    // Its answer, and the writer that the next call gets.
    #[tactic(auto, unfolding(recording::specs::WriteLists::write_step))]
    fn run(self, writer: Writer, buf: &mut [u8]) -> Wrote
        ensures { MeetsOutcome (write_step writer buf.old (called self.entry)) result buf.new }
    {
        match self {
            WriteCall::Header => writer.write_header(buf),
            WriteCall::Packet { payload, stream } => writer.write_packet(buf, payload, stream),
            WriteCall::Trailer => writer.write_trailer(buf),
        }
    }
}

// The part of the payloads that a call names; none of it where they do not reach so far.
fn payload_in(payloads: &[u8], start: u64, len: u64) -> &[u8]
    ensures { result.now ≡ payload_in payloads.now start len }
{
    let packet = Packet {
        stream: 0,
        start: start as usize,
        len: len as usize,
        stamp: 0,
        duration: None,
    };
    payload(payloads, packet)
}

// A call's answer as two numbers.
fn verdict(answer: Result<(), AmvError>) -> [u64; 2]
    ensures { result ≡ verdict (said answer) }
{
    [u64::from(error::number_of(answer)), error::place_of(answer)]
}

// Runs calls from a fresh writer of these settings: call i is kinds[i], for a packet with streams[i] and the payload of length lens[i] at
// starts[i] of the payloads; its answer is verdict i. The four slices stay apart, of any lengths, and the kinds stay numbers: what is answered of
// unequal slices is promised (`Replayed`, of Unequal). Refused, with every byte and number as it was: slices of unequal length with Unequal,
// verdicts without room for all answers with NoRoom.
pub fn run_writes(
    settings: Settings,
    buf: &mut [u8],
    kinds: &[u8],
    streams: &[u32],
    starts: &[u64],
    lens: &[u64],
    payloads: &[u8],
    verdicts: &mut [u64],
) -> Result<Writer, RowsError>
    ensures replayed { Replayed (lists kinds.now streams.now starts.now lens.now payloads.now)
        settings buf.old verdicts.old result buf.new verdicts.new }
    ensures kept { Kept (lists kinds.now streams.now starts.now lens.now payloads.now)
        settings result buf.new verdicts.new }
{
    let count = kinds.len();
    all_or_none(
        count,
        &[streams.len(), starts.len(), lens.len()],
        verdicts.len() / VERDICT_LEN,
    )?;
    let mut writer = Writer::new(settings);
    for i in 0..count {
        let call = WriteCall::of(
            kinds[i],
            streams[i],
            payload_in(payloads, starts[i], lens[i]),
        );
        let wrote = call.run(writer, buf);
        put_row(verdicts, i, &verdict(wrote.result));
        writer = wrote.writer;
    }
    Ok(writer)
}
