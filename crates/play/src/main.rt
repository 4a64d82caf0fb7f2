// Writes a small recording through `AmvMuxer`, plays it through `AmvDemuxer` with one jump, and prints what was written and read.
#![tactic(auto)]

ghost use Rattle.std.specs.Prelude.{◌≡◌, ◌++◌, length, take, OnOk};
ghost use Rattle.std.specs.Fmt.{decimal};
ghost use Rattle.std.specs.Io.KnownBytes.{Appends};
ghost use Rattle.muxer.specs.Writer.{header_call, packet_call, trailer_call};
ghost use Rattle.play.specs.Recording.{WriterLeft, pair_of, packets_of, recording_of, played};

use amv::reader::AmvDemuxer;
use amv::writer::AmvMuxer;
use chunk_index::entry::ChunkIndexEntry;
use chunk_index::index::build_chunk_index;
use demuxer::packet::Packet;
use error::AmvError;
use muxer::Settings;
use std::io;
use std::io::Write;

// More than the recording takes.
const ROOM: usize = 512;

// More than the recording has.
const TABLE_RECORDS: usize = 5;

// The first bytes, as many as there are.
fn first(bytes: &[u8], len: usize) -> &[u8]
    ensures { result.now ≡ take len bytes.now }
{
    &bytes[..len.min(bytes.len())]
}

// Where the program prints, and whether every print so far has come through: after one that failed nothing more is printed, and what is written and
// read goes on as it would.
#[derive(Drop)]
struct Printer<W: Write + Drop> {
    out: W,
    outcome: io::Result<()>,
}

impl<W: Write + Drop> Printer<W> {
    // Text as it is.
    fn print(&mut self, text: &[u8])
        ensures { OnOk self.new.outcome (Appends (W.contents self.old.out) (W.contents self.new.out) text.now) }
    {
        if self.outcome.is_ok() {
            self.outcome = self.out.write_all(text);
        }
    }

    // A name, and a number in decimal after it.
    fn print_field(&mut self, name: &[u8], n: u64)
        ensures { OnOk self.new.outcome (Appends (W.contents self.old.out) (W.contents self.new.out) (name.now ++ decimal n)) }
    {
        self.print(name);
        if self.outcome.is_ok() {
            self.outcome = write!(self.out, "{n}");
        }
    }

    // The end of a line that tells why a call refused.
    fn print_refusal(&mut self, error: AmvError) {
        self.print(b": refused, ");
        if self.outcome.is_ok() {
            self.outcome = write!(self.out, "{error}");
        }
        self.print(b"\n")
    }

    // What was to be written, and how long the file is after it.
    fn print_wrote(&mut self, what: &[u8], outcome: Result<(), AmvError>, written: u64) {
        self.print(what);
        match outcome {
            Ok(()) => {
                self.print_field(b": the file has ", written);
                self.print(b" bytes\n")
            }
            Err(error) => self.print_refusal(error),
        }
    }

    // A packet that was read; of a frame also its payload, which is text here.
    fn print_packet(&mut self, reader: &AmvDemuxer, packet: Packet) {
        let frame = packet.stream == 0;
        self.print(if frame { b"frame" } else { b"sound" });
        self.print_field(b" of ", packet.len as u64);
        self.print_field(b" bytes at ", packet.start as u64);
        self.print_field(b", stamp ", packet.stamp);
        if frame {
            self.print(b": ");
            self.print(reader.payload(packet));
        }
        self.print(b"\n")
    }

    // Where the trailer stands, and whether it ends the file.
    fn print_trailer(&mut self, reader: &AmvDemuxer) {
        match reader.trailer_offset() {
            Some(offset) => self.print_field(b", trailer at ", offset),
            None => self.print(b", no trailer"),
        }
        if reader.trailer_matches_eof(reader.file.len() as u64) == Some(true) {
            self.print(b" ends the file");
        }
    }

    // What the reads so far have met.
    fn print_progress(&mut self, reader: &AmvDemuxer) {
        self.print_field(b"end: frames ", reader.video_frames_emitted());
        self.print_field(b", blocks ", reader.audio_blocks_emitted());
        if reader.movi_interleave_balanced() {
            self.print(b", balanced");
        }
        if reader.is_truncated() {
            self.print(b", cut");
        }
        self.print_trailer(reader);
        self.print(b"\n")
    }

    // The stamp that a jump led to.
    fn print_sought(&mut self, sought: Result<u64, AmvError>) {
        self.print(b"jump");
        match sought {
            Ok(stamp) => {
                self.print_field(b" to stamp ", stamp);
                self.print(b"\n")
            }
            Err(error) => self.print_refusal(error),
        }
    }
}

// The recording as far as it is written: the writer, and the room that it writes to.
#[derive(Drop)]
struct Recording<const N: usize> {
    muxer: AmvMuxer,
    buf: [u8; N],
}

impl<const N: usize> Recording<N> {
    // Writes the header, and prints what came of it.
    fn write_header(&mut self, printer: &mut Printer<impl Write + Drop>)
        ensures { WriterLeft (header_call self.old.muxer.writer self.old.buf) self.new.muxer.writer self.new.buf }
    {
        let result = self.muxer.write_header(&mut self.buf);
        printer.print_wrote(b"header", result, self.muxer.writer.written);
    }

    // Writes a packet, and prints what came of it.
    fn write_packet(
        &mut self,
        printer: &mut Printer<impl Write + Drop>,
        what: &[u8],
        payload: &[u8],
        stream: u32,
    )
        ensures { WriterLeft (packet_call self.old.muxer.writer payload.now stream self.old.buf) self.new.muxer.writer self.new.buf }
    {
        let result = self.muxer.write_packet(&mut self.buf, payload, stream);
        printer.print_wrote(what, result, self.muxer.writer.written);
    }

    // Writes a frame with its block of sound.
    fn write_pair(&mut self, printer: &mut Printer<impl Write + Drop>, frame: &[u8], block: &[u8])
        ensures { WriterLeft (pair_of self.old.muxer.writer self.old.buf frame.now block.now) self.new.muxer.writer self.new.buf }
    {
        self.write_packet(printer, b"frame", frame, 0);
        self.write_packet(printer, b"sound", block, 1);
    }

    // Writes two frames, each with a block of sound: of 2 samples, and of 3. A packet of no stream is refused.
    fn write_packets(&mut self, printer: &mut Printer<impl Write + Drop>)
        ensures { WriterLeft (packets_of self.old.muxer.writer self.old.buf) self.new.muxer.writer self.new.buf }
    {
        self.write_pair(printer, b"one", &[0, 0, 0, 0, 2, 0, 0, 0, 7, 7]);
        self.write_pair(printer, b"three", &[0, 0, 0, 0, 3, 0, 0, 0, 7, 7, 7]);
        self.write_packet(printer, b"stream 2", b"none", 2);
    }

    // Writes the trailer, and prints what came of it.
    fn write_trailer(&mut self, printer: &mut Printer<impl Write + Drop>)
        ensures { WriterLeft (trailer_call self.old.muxer.writer self.old.buf) self.new.muxer.writer self.new.buf }
    {
        let result = self.muxer.write_trailer(&mut self.buf);
        printer.print_wrote(b"trailer", result, self.muxer.writer.written);
    }

    // The file: the bytes that are written.
    fn file(&self) -> &[u8]
        ensures { result.now ≡ take self.now.muxer.writer.written self.now.buf }
    {
        first(&self.buf, self.muxer.writer.written as usize)
    }
}

// The whole recording, written to room that is given.
fn write_recording<const N: usize>(
    printer: &mut Printer<impl Write + Drop>,
    buf: [u8; N],
) -> Recording<N>
    ensures { WriterLeft (recording_of buf.entry) result.muxer.writer result.buf }
{
    let muxer = AmvMuxer::new(Settings {
        width: 8,
        height: 8,
        fps: 12,
        rate: 8000,
        channels: 1,
    });
    let mut recording = Recording { muxer, buf };
    recording.write_header(printer);
    recording.write_packets(printer);
    recording.write_trailer(printer);
    recording
}

// Reads to the end, or to a refusal.
#[tactic(auto, using(crate::proofs::Laws::played_none))]
fn play(printer: &mut Printer<impl Write + Drop>, reader: &mut AmvDemuxer)
    ensures walker { reader.new.walker ≡ played (length reader.old.file.now) reader.old.file.now reader.old.walker }
    ensures file { reader.new.file ≡ reader.old.file }
{
    // A chunk takes 8 bytes or more, so the walk ends first.
    for _ in 0..reader.file.len() {
        match reader.next_packet() {
            Ok(Some(packet)) => printer.print_packet(reader, packet),
            Ok(None) => return,
            Err(error) => {
                printer.print(b"read");
                printer.print_refusal(error);
                return;
            }
        }
    }
}

// From the second frame on: the sound that is read next belongs to it.
fn jump(printer: &mut Printer<impl Write + Drop>, reader: &mut AmvDemuxer, table: &[u8]) {
    let sought = reader.seek_to_via_index(table, 0, 1);
    printer.print_sought(sought);
    play(printer, reader);
    printer.print_progress(reader)
}

fn play_recording(printer: &mut Printer<impl Write + Drop>, file: &[u8]) {
    let mut reader = AmvDemuxer::new(file);
    play(printer, &mut reader);
    printer.print_progress(&reader);
    let mut table = [0u8; TABLE_RECORDS * ChunkIndexEntry::LEN];
    match build_chunk_index(file, &mut table) {
        Ok(count) => {
            if count <= TABLE_RECORDS {
                let records = first(&table, count * ChunkIndexEntry::LEN);
                jump(printer, &mut reader, records);
            }
        }
        Err(error) => {
            printer.print(b"index");
            printer.print_refusal(error)
        }
    }
}

fn main(rt: HostRuntime) -> io::Result<()> {
    let mut printer = Printer {
        out: rt.stdout(),
        outcome: Ok(()),
    };
    let recording = write_recording(&mut printer, [0u8; ROOM]);
    play_recording(&mut printer, recording.file());
    printer.outcome
}
