// The writer that each call changes, with the buffer lent beside it. Each method is one covered call.
ghost use Rattle.std.specs.Prelude.{◌≡◌};
ghost use Rattle.muxer.specs.Writer.{fresh, header_call, packet_call, trailer_call};
ghost use Rattle.amv.specs.Writer.{MuxerWrites};

use error::AmvError;
use muxer::{Settings, Writer};

// What has been written, and the settings of the recording. The buffer is not held: a caller lends it to each call.
#[derive(Clone, Copy, Debug, PartialEq, Eq)]
pub struct AmvMuxer {
    pub writer: Writer,
}

impl AmvMuxer {
    // A writer that has written nothing. It refuses no settings; a strict reader asks for those of a device.
    pub fn new(settings: Settings) -> AmvMuxer
        ensures { result.writer ≡ fresh settings }
    {
        AmvMuxer {
            writer: Writer::new(settings),
        }
    }

    // Writes the prelude, and must be the first call. Refuses a writer that has begun (50) or ended (55), and a buffer that is too small (54).
    pub fn write_header(&mut self, buf: &mut [u8]) -> Result<(), AmvError>
        ensures { MuxerWrites (header_call self.old.writer buf.old) result self.new buf.new }
    {
        let wrote = self.writer.write_header(buf);
        self.writer = wrote.writer;
        wrote.result
    }

    // Writes a packet after what is written: stream 0 is a picture, 1 is sound. Refuses a writer that has not begun (51), has ended (55) or whose
    // count is below the prelude (56), a payload over 32 bits (52), another stream (53), and a packet that the buffer or a file cannot hold (54).
    pub fn write_packet(
        &mut self,
        buf: &mut [u8],
        payload: &[u8],
        stream: u32,
    ) -> Result<(), AmvError>
        ensures { MuxerWrites (packet_call self.old.writer payload.now stream buf.old)
            result self.new buf.new }
    {
        let wrote = self.writer.write_packet(buf, payload, stream);
        self.writer = wrote.writer;
        wrote.result
    }

    // Writes the trailer, and the run length into the prelude, and must be the last call. Refuses as write_packet does, with 51, 55, 56 and 54.
    pub fn write_trailer(&mut self, buf: &mut [u8]) -> Result<(), AmvError>
        ensures { MuxerWrites (trailer_call self.old.writer buf.old) result self.new buf.new }
    {
        let wrote = self.writer.write_trailer(buf);
        self.writer = wrote.writer;
        wrote.result
    }
}
