// The reader that holds the file's slice beside the walker. Each method is one covered call on the two.
ghost use Rattle.std.specs.Prelude.{◌≡◌, eqb};
ghost use Rattle.demuxer.specs.Packet.{payload_of};
ghost use Rattle.amv.specs.Reader.{opened, ReadsNext, Seeks};
ghost use Rattle.amv.specs.Progress.{matches_eof};

use demuxer::packet::Packet;
use demuxer::walker::Walker;
use error::AmvError;

// The file and where the next read stands in it.
#[derive(Clone, Copy, Debug, PartialEq, Eq)]
pub struct AmvDemuxer<'a> {
    pub file: &'a [u8],
    pub walker: Walker,
}

impl<'a> AmvDemuxer<'a> {
    // A reader at the first chunk. It refuses nothing and reads nothing: what is wrong with a file, the reads answer.
    pub fn new(file: &'a [u8]) -> AmvDemuxer<'a>
        ensures { result ≡ opened file.entry }
    {
        AmvDemuxer {
            file,
            walker: Walker::new(),
        }
    }

    // The next packet or End, and the walker past it. Refuses a file that is too long (10), counts that are too large (32) and an unknown tag (31),
    // and stays where it was.
    pub fn next_packet(&mut self) -> Result<Option<Packet>, AmvError>
        ensures { ReadsNext self.old result self.new }
    {
        let read = self.walker.next_packet(self.file);
        self.walker = read.walker;
        read.answer
    }

    // Goes to the first chunk of a stream whose stamp is the request or later, by the records of a chunk index, and gives the stamp there. Refuses
    // another stream (42), a table that is not whole records (41), a bad record (43) and counts that are too large (32), and stays where it was.
    pub fn seek_to_via_index(
        &mut self,
        table: &[u8],
        stream: u32,
        request: i64,
    ) -> Result<u64, AmvError>
        ensures { Seeks self.old table.now stream request result self.new }
    {
        let sought = seek::seek_to_via_index(self.walker, table, stream, request);
        self.walker = sought.walker;
        sought.result
    }

    // The part of the file that a packet names, without a copy; empty where the file does not reach so far.
    pub fn payload(&self, packet: Packet) -> &'a [u8]
        ensures { result.now ≡ payload_of self.now.file.now packet }
    {
        demuxer::packet::payload(self.file, packet)
    }

    // The frames before the next read.
    pub fn video_frames_emitted(&self) -> u64
        ensures { result ≡ self.now.walker.position.frames.0 }
    {
        crate::progress::video_frames_emitted(self.walker)
    }

    // The blocks of sound before the next read.
    pub fn audio_blocks_emitted(&self) -> u64
        ensures { result ≡ self.now.walker.position.blocks.0 }
    {
        crate::progress::audio_blocks_emitted(self.walker)
    }

    // Whether as many blocks as frames stand before the next read.
    pub fn movi_interleave_balanced(&self) -> bool
        ensures { result ≡ eqb self.now.walker.position.frames.0 self.now.walker.position.blocks.0 }
    {
        crate::progress::movi_interleave_balanced(self.walker)
    }

    // Whether a read has found that the file is cut: that it ends before its trailer, at a chunk or inside one.
    pub fn is_truncated(&self) -> bool
        ensures { result ≡ self.now.walker.cut }
    {
        crate::progress::is_truncated(self.walker)
    }

    // Where the trailer stands, once a read has met it.
    pub fn trailer_offset(&self) -> Option<u64>
        ensures { result ≡ self.now.walker.trailer }
    {
        crate::progress::trailer_offset(self.walker)
    }

    // Whether the trailer, once met, is the last 8 bytes of a stream of a length: the caller knows how long the stream is.
    pub fn trailer_matches_eof(&self, stream_len: u64) -> Option<bool>
        ensures { result ≡ matches_eof self.now.walker.trailer stream_len }
    {
        crate::progress::trailer_matches_eof(self.walker, stream_len)
    }
}
