// The words of an answer. None of these functions refuses: each spells out an answer that is known.
ghost use Rattle.std.specs.Prelude.{◌≡◌, ◌∷◌, ◌<◌, drop};
ghost use Rattle.error.specs.Answer.{refused};
ghost use Rattle.error.specs.Refusal.{refusal_of, said};
ghost use Rattle.words.specs.Out.{OutSays, checked, given, prelude_words, packet_words};

use demuxer::packet::Packet;
use error::AmvError;
use prelude::prelude::AmvPrelude;

// The answer of a call that refuses: gives the refusal's number, and leaves its place in `out` and zeros after it. An `out` has a word at least, here
// and below: a clause says so, since a const parameter has no bound.
pub fn refusal_out<const N: usize>(e: AmvError, out: &mut [u64; N]) -> u32
    requires { 0 < N }
    ensures { OutSays N (refused (refusal_of e)) result out.new }
{
    let mut words = [0; N];
    words[0] = e.place();
    *out = words;
    e.number()
}

// The answer of a call: gives its number, and leaves in `out` the words that it gives, or the refusal's place and zeros. The first word is the
// place, so an accepted answer has 0 there.
pub fn answer_out<const N: usize>(res: Result<[u64; N], AmvError>, out: &mut [u64; N]) -> u32
    requires { 0 < N }
    ensures { OutSays N (given (drop 1) (said res.entry)) result out.new }
{
    match res {
        Ok(words) => {
            *out = words;
            out[0] = 0;
            0
        }
        Err(e) => refusal_out(e, out),
    }
}

// The answer of a call that only checks: gives its number, and leaves its place in `out`.
pub fn result_out(res: Result<(), AmvError>, out: &mut [u64; 1]) -> u32
    ensures { OutSays 1 (checked (said res)) result out.new }
{
    answer_out(res.map(|()| [0]), out)
}

// The words of a packet as `out` has them: a caller in C finds the payload by its offset and length in the file, and no duration is 0.
pub fn packet_out(packet: Packet) -> [u64; 7]
    ensures { result ≡ (0 ∷ packet_words packet.stream packet.start packet.len packet.stamp packet.duration) }
{
    let Packet {
        stream,
        start,
        len,
        stamp,
        duration,
    } = packet;
    [
        0,
        1,
        u64::from(stream),
        start as u64,
        len as u64,
        stamp,
        duration.unwrap_or(0),
    ]
}

// The words of a prelude as `out` has them: its fields in offset order, and the first chunk's offset.
pub fn prelude_out(prelude: AmvPrelude) -> [u64; 16]
    ensures { result ≡ (0 ∷ prelude_words prelude) }
{
    let header = prelude.header;
    let format = prelude.audio_format;
    [
        0,
        u64::from(header.micros_per_frame),
        u64::from(header.width),
        u64::from(header.height),
        u64::from(header.fps),
        u64::from(header.flag_one),
        u64::from(header.reserved_30),
        u64::from(header.duration_packed),
        u64::from(format.format_tag),
        u64::from(format.channels),
        u64::from(format.samples_per_sec),
        u64::from(format.avg_bytes_per_sec),
        u64::from(format.block_align),
        u64::from(format.bits_per_sample),
        u64::from(format.cb_size),
        prelude.movi_payload_start,
    ]
}
