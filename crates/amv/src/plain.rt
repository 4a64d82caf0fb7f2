// The calls by value, for callers that keep a walker or a writer of their own: each takes its state and gives the next one back. Each refuses as
// the method of `AmvDemuxer` or `AmvMuxer` of its name does.
ghost use Rattle.std.specs.Prelude.{◌≡◌};
ghost use Rattle.demuxer.specs.Read.{said_read, Placed, read_of};
ghost use Rattle.seek.specs.Seek.{said_seek_outcome, seek_of};
ghost use Rattle.muxer.specs.Writer.{header_call, packet_call, trailer_call, MeetsOutcome};

use demuxer::walker::{Read, Walker};
use muxer::{Writer, Wrote};
use seek::SeekOutcome;

// The part of a file that a packet names.
pub use demuxer::packet::payload;

// The packet at a walker, or End, and the walker past it.
pub fn next_packet(file: &[u8], walker: Walker) -> Read
    ensures { (said_read file.now result ≡ read_of file.now walker) × Placed file.now walker result.answer }
{
    walker.next_packet(file)
}

// The walker at the first chunk of a stream whose stamp is the request or later, and the stamp there. The index is enough: the file is not read.
pub fn seek_to_via_index(
    _file: &[u8],
    walker: Walker,
    table: &[u8],
    stream: u32,
    request: i64,
) -> SeekOutcome
    ensures { said_seek_outcome result ≡ seek_of table.now walker stream request }
{
    seek::seek_to_via_index(walker, table, stream, request)
}

// The prelude written to the buffer, and the writer after it.
pub fn write_header(writer: Writer, buf: &mut [u8]) -> Wrote
    ensures { MeetsOutcome (header_call writer buf.old) result buf.new }
{
    writer.write_header(buf)
}

// A packet written after what is written, and the writer after it.
pub fn write_packet(writer: Writer, buf: &mut [u8], payload: &[u8], stream: u32) -> Wrote
    ensures { MeetsOutcome (packet_call writer payload.now stream buf.old) result buf.new }
{
    writer.write_packet(buf, payload, stream)
}

// The trailer written, and the writer after it.
pub fn write_trailer(writer: Writer, buf: &mut [u8]) -> Wrote
    ensures { MeetsOutcome (trailer_call writer buf.old) result buf.new }
{
    writer.write_trailer(buf)
}
