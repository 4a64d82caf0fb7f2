// The writer: a state by value over one lent buffer, and the three calls that write a file.
#![tactic(auto)]

ghost use Rattle.std.specs.Prelude.{◌≡◌, ◌+◌, ◌≤◌, length};
ghost use Rattle.chunk.specs.Chunk.{advance_total};
ghost use Rattle.error.specs.Answer.{accepted, ask, and_then};
ghost use Rattle.error.specs.Refusal.{said};
ghost use Rattle.fields.specs.Le.{put};
ghost use Rattle.prelude.specs.Built.{prelude_bytes};
ghost use Rattle.prelude.specs.Layout.{prelude_len};
ghost use Rattle.muxer.specs.Writer.{fresh, fits, frames_after, packet_bytes, patch_run_length, ask_open, header_questions, packet_questions};
ghost use Rattle.muxer.specs.Writer.{trailer_questions, header_call, packet_call, trailer_call, MeetsOutcome};
ghost use Rattle.muxer.specs.Steps.{told};

use duration::AmvDuration;
use error::AmvError;
use fields::file::FILE_LIMIT;
use prelude::build::build_prelude_bytes;
use prelude::prelude::AmvPrelude;

// What a new file holds.
#[derive(Clone, Copy, Debug, PartialEq, Eq)]
pub struct Settings {
    pub width: u32,
    pub height: u32,
    pub fps: u32,
    pub rate: u32,
    pub channels: u16,
}

// The state of writing, which every call returns anew: the settings, what has been written and how far, and the frames so far. The bytes
// stay in the caller's buffer. The two marks are two fields because the C interface passes each as a word of its own, in any combination.
#[derive(Clone, Copy, Debug, PartialEq, Eq)]
pub struct Writer {
    pub settings: Settings,
    pub begun: bool,
    pub ended: bool,
    pub written: u64,
    pub frames: u64,
}

// A call's answer and the state that the next call gets. They stand side by side because a refusal hands the state back too (`MeetsOutcome`).
#[derive(Clone, Copy, Debug, PartialEq, Eq)]
pub struct Wrote {
    pub result: Result<(), AmvError>,
    pub writer: Writer,
}

// A packet's bytes at an offset: tag, length, payload.
fn put_packet(buf: &mut [u8], off: usize, stream: u32, size: u32, payload: &[u8])
    requires size_is { size ≡ length payload.now }
    requires in_bounds { off + advance_total size ≤ length buf.old }
    ensures { buf.new ≡ put buf.old off (packet_bytes stream payload.now) }
{
    fields::write_le::<u32>(buf, off, chunk::stream_tag(stream));
    fields::write_le::<u32>(buf, off + 4, size);
    fields::copy_in(buf, off + 8, payload);
}

impl Wrote {
    // A call's answer, and the state that the next call gets: the new one, or where the call is refused the one that it was given.
    fn told(before: Writer, next: Result<Writer, AmvError>) -> Wrote
        ensures { result ≡ told before next }
    {
        match next {
            Ok(writer) => Wrote {
                result: Ok(()),
                writer,
            },
            Err(e) => Wrote {
                result: Err(e),
                writer: before,
            },
        }
    }
}

impl Settings {
    // The prelude at offset 0, built with run length 0: the trailer patches it.
    fn put_prelude(self, buf: &mut [u8])
        requires { prelude_len ≤ length buf.old }
        ensures { buf.new ≡ put buf.old 0 (prelude_bytes self.width self.height self.fps 0 self.rate self.channels) }
    {
        let built = build_prelude_bytes(
            self.width,
            self.height,
            self.fps,
            0,
            self.rate,
            self.channels,
        );
        fields::copy_in(buf, 0, &built.bytes);
    }
}

impl Writer {
    // The bytes written once a header is accepted, where packets start.
    pub const START: u64 = AmvPrelude::LEN as u64;

    // A writer that has written nothing. Refuses nothing.
    pub fn new(settings: Settings) -> Writer
        ensures { result ≡ fresh settings }
    {
        Writer {
            settings,
            begun: false,
            ended: false,
            written: 0,
            frames: 0,
        }
    }

    // The question of room: len bytes from an offset on end at or before the buffer's end and the file limit. The sum may be past a u64.
    fn ask_room(self, off: u64, len: u64, room: usize) -> Result<(), AmvError>
        ensures { said result ≡ ask (fits (off + len) room) 54 self.written (accepted tt) }
    {
        let limit = (room as u64).min(FILE_LIMIT);
        if off.saturating_add(len) > limit {
            return Err(AmvError::NoRoom(self.written));
        }
        Ok(())
    }

    // The questions of a header. A writer that has not begun has no prelude to miss, so 56 needs no test.
    #[tactic(auto, unfolding(crate::specs::Writer::header_questions))]
    fn ask_header(self, room: usize) -> Result<(), AmvError>
        ensures { said result ≡ header_questions self room }
    {
        if self.begun {
            return Err(AmvError::AlreadyBegun(self.written));
        }
        if self.ended {
            return Err(AmvError::AlreadyEnded(self.written));
        }
        self.ask_room(0, Writer::START, room)
    }

    // What a packet and the trailer both ask first.
    fn ask_open(self) -> Result<(), AmvError>
        ensures { said result ≡ ask_open self (accepted tt) }
    {
        if !self.begun {
            return Err(AmvError::NotBegun(self.written));
        }
        if self.ended {
            return Err(AmvError::AlreadyEnded(self.written));
        }
        if self.written < Writer::START {
            return Err(AmvError::PreludeMissing(self.written));
        }
        Ok(())
    }

    // The questions of a packet, of its payload's length and its stream. Gives the length as the packet's header has it.
    #[tactic(auto, using(crate::proofs::Steps::opened), unfolding(crate::specs::Writer::packet_questions))]
    fn ask_packet(self, len: usize, stream: u32, room: usize) -> Result<u32, AmvError>
        ensures { said result ≡ and_then (packet_questions self len stream room) (λ _. accepted len) }
    {
        self.ask_open()?;
        let Ok(size) = u32::try_from(len) else {
            return Err(AmvError::PayloadTooLong(self.written));
        };
        if stream > 1 {
            return Err(AmvError::PacketOfNoStream(self.written));
        }
        self.ask_room(self.written, chunk::advance_total(size), room)?;
        Ok(size)
    }

    // The questions of the trailer.
    #[tactic(auto, using(crate::proofs::Steps::opened), unfolding(crate::specs::Writer::trailer_questions))]
    fn ask_trailer(self, room: usize) -> Result<(), AmvError>
        ensures { said result ≡ trailer_questions self room }
    {
        self.ask_open()?;
        self.ask_room(self.written, 8, room)
    }

    // The frames after a packet of a stream: a frame counts one, up to the largest u64.
    fn frames_after(self, stream: u32) -> u64
        ensures { result ≡ frames_after stream self.frames }
    {
        if stream == 0 {
            self.frames.saturating_add(1)
        } else {
            self.frames
        }
    }

    // The run length of the frames so far, where there is one.
    #[tactic(auto, unfolding(crate::specs::Writer::patch_run_length))]
    fn patch_run_length(self, buf: &mut [u8])
        requires { 88 ≤ length buf.old }
        ensures { buf.new ≡ patch_run_length self buf.old }
    {
        if self.settings.fps == 0 || self.frames == 0 {
            return;
        }
        let run_length = AmvDuration::from_frame_count(self.frames, self.settings.fps);
        fields::write_le::<u32>(buf, 84, run_length.to_packed());
    }

    // The header, and the state after it.
    fn header(self, buf: &mut [u8]) -> Result<Writer, AmvError>
        ensures { MeetsOutcome (header_call self buf.old) (told self result) buf.new }
    {
        self.ask_header(buf.len())?;
        self.settings.put_prelude(buf);
        Ok(Writer {
            begun: true,
            written: Writer::START,
            ..self
        })
    }

    // A packet, and the state after it.
    fn packet(self, buf: &mut [u8], payload: &[u8], stream: u32) -> Result<Writer, AmvError>
        ensures { MeetsOutcome (packet_call self payload.now stream buf.old) (told self result) buf.new }
    {
        let size = self.ask_packet(payload.len(), stream, buf.len())?;
        put_packet(buf, self.written as usize, stream, size, payload);
        Ok(Writer {
            written: self.written + chunk::advance_total(size),
            frames: self.frames_after(stream),
            ..self
        })
    }

    // The trailer with the run length, and the state after it.
    fn trailer(self, buf: &mut [u8]) -> Result<Writer, AmvError>
        ensures { MeetsOutcome (trailer_call self buf.old) (told self result) buf.new }
    {
        self.ask_trailer(buf.len())?;
        fields::copy_in(buf, self.written as usize, b"AMV_END_");
        self.patch_run_length(buf);
        Ok(Writer {
            ended: true,
            written: self.written + 8,
            ..self
        })
    }

    // Writes the prelude at the buffer's start. Refused in this order, with state and buffer as they were: begun already 50, ended 55, no room
    // 54. The place is the bytes written, as of every refusal of a writer.
    pub fn write_header(self, buf: &mut [u8]) -> Wrote
        ensures { MeetsOutcome (header_call self buf.old) result buf.new }
    {
        Wrote::told(self, self.header(buf))
    }

    // Writes a packet after what is written. Refused in this order, with state and buffer as they were: not begun 51, ended 55, no prelude
    // written 56, a payload past the largest u32 52, a stream that is not 0 or 1 53, no room in the buffer or below the file limit 54.
    pub fn write_packet(self, buf: &mut [u8], payload: &[u8], stream: u32) -> Wrote
        ensures { MeetsOutcome (packet_call self payload.now stream buf.old) result buf.new }
    {
        Wrote::told(self, self.packet(buf, payload, stream))
    }

    // Writes the trailer, patches the run length into the prelude and ends the file. Refused in this order, with state and buffer as they were:
    // not begun 51, ended already 55, no prelude written 56, no room in the buffer or below the file limit 54.
    pub fn write_trailer(self, buf: &mut [u8]) -> Wrote
        ensures { MeetsOutcome (trailer_call self buf.old) result buf.new }
    {
        Wrote::told(self, self.trailer(buf))
    }
}
