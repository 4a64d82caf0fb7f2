// The walker, and one read.
ghost use Rattle.std.specs.Prelude.{◌≡◌};
ghost use Rattle.demuxer.specs.Position.{InRange};
ghost use Rattle.demuxer.specs.Read.{fresh, cut_off, at_trailer, advanced, said_read, Placed, read_frame, read_sound, read_chunk, read_of};

use crate::head::{Head, body_at, head_at, sample_count};
use crate::packet::{Packet, shown};
use crate::position::Position;
use error::AmvError;
use prelude::prelude::AmvPrelude;

// The state of reading, which every read returns anew: where it stands, whether it has ended, whether the file is cut (it ends before its
// trailer, at a chunk or inside one), and the trailer.
#[derive(Clone, Copy, Debug, PartialEq, Eq)]
pub struct Walker {
    pub position: Position,
    pub end: bool,
    pub cut: bool,
    pub trailer: Option<u64>,
}

// A read's answer, and the walker that the next call gets.
#[derive(Clone, Copy, Debug, PartialEq, Eq)]
pub struct Read {
    pub answer: Result<Option<Packet>, AmvError>,
    pub walker: Walker,
}

impl Walker {
    // The offset that a fresh walker stands at.
    pub const START: u64 = AmvPrelude::LEN as u64;

    // A walker at the first chunk, with no mark. Refuses nothing.
    pub fn new() -> Walker
        ensures { result ≡ fresh }
    {
        Walker {
            position: Position::new(),
            end: false,
            cut: false,
            trailer: None,
        }
    }

    // Ended before the trailer, at a chunk or inside one: the file is cut.
    fn cut_off(self) -> Walker
        ensures { result ≡ cut_off self }
    {
        Walker {
            end: true,
            cut: true,
            ..self
        }
    }

    // Ended at the trailer.
    fn at_trailer(self) -> Walker
        ensures { result ≡ at_trailer self }
    {
        Walker {
            end: true,
            trailer: Some(self.position.cursor),
            ..self
        }
    }

    // The same marks at another position.
    fn advanced(self, position: Position) -> Walker
        ensures { result ≡ advanced self position }
    {
        Walker { position, ..self }
    }

    // The packet of a frame's header at the cursor, or End where the file is cut.
    #[tactic(auto, unfolding(crate::specs::Read::read_frame, crate::specs::Packet::payload_of, crate::specs::Packet::shown_of, crate::specs::Steps::body_at))]
    fn read_frame(self, file: &[u8], size: u32) -> Read
        requires { InRange self.position }
        ensures result_value { said_read file.now result ≡ read_frame file.now self size }
        ensures placed { Placed file.now self result.answer }
    {
        let position = self.position;
        let at = position.cursor as usize;
        let Some((start, len)) = body_at(file, at + 8, size) else {
            return Read {
                answer: Ok(None),
                walker: self.cut_off(),
            };
        };
        let packet = Packet {
            stream: 0,
            start,
            len,
            stamp: position.frames.0,
            duration: Some(1),
        };
        Read {
            answer: Ok(Some(packet)),
            walker: self.advanced(position.past_frame(size)),
        }
    }

    // The packet of a sound block's header at the cursor, or End where the file is cut.
    #[tactic(auto, unfolding(crate::specs::Read::read_sound, crate::specs::Packet::payload_of, crate::specs::Packet::shown_of, crate::specs::Steps::body_at))]
    fn read_sound(self, file: &[u8], size: u32) -> Read
        requires { InRange self.position }
        ensures result_value { said_read file.now result ≡ read_sound file.now self size }
        ensures placed { Placed file.now self result.answer }
    {
        let position = self.position;
        let at = position.cursor as usize;
        let Some((start, len)) = body_at(file, at + 8, size) else {
            return Read {
                answer: Ok(None),
                walker: self.cut_off(),
            };
        };
        let count = sample_count(file, start, size);
        let packet = Packet {
            stream: 1,
            start,
            len,
            stamp: position.samples.0,
            duration: shown(count),
        };
        Read {
            answer: Ok(Some(packet)),
            walker: self.advanced(position.past_sound(size, count)),
        }
    }

    // What stands at the cursor of a walker that has not ended.
    #[tactic(auto, unfolding(crate::specs::Read::read_chunk))]
    fn read_chunk(self, file: &[u8]) -> Read
        requires { InRange self.position }
        ensures result_value { said_read file.now result ≡ read_chunk file.now self }
        ensures placed { Placed file.now self result.answer }
    {
        let cursor = self.position.cursor;
        match head_at(file, cursor as usize) {
            Head::Short => Read {
                answer: Ok(None),
                walker: self.cut_off(),
            },
            Head::Trailer => Read {
                answer: Ok(None),
                walker: self.at_trailer(),
            },
            Head::Unknown => Read {
                answer: Err(AmvError::UnknownTag(cursor)),
                walker: self,
            },
            Head::Video(size) => self.read_frame(file, size),
            Head::Audio(size) => self.read_sound(file, size),
        }
    }

    // The next packet and the walker past it, or End at the trailer or at the file's end. Refused in this order, with the walker as it was: a
    // file past the limit with 10, a position out of range with 32, an unknown tag with 31 at the cursor.
    #[tactic(auto, unfolding(crate::specs::Read::read_of))]
    pub fn next_packet(self, file: &[u8]) -> Read
        ensures result_value { said_read file.now result ≡ read_of file.now self }
        ensures placed { Placed file.now self result.answer }
    {
        if !fields::file::within_limit(file) {
            return Read {
                answer: Err(AmvError::FileTooLong),
                walker: self,
            };
        }
        if !self.position.in_range() {
            return Read {
                answer: Err(AmvError::StateOutOfRange),
                walker: self,
            };
        }
        if self.end {
            return Read {
                answer: Ok(None),
                walker: self,
            };
        }
        self.read_chunk(file)
    }
}
