// The C interface, as functions that crates/capi_c exports. include/amv.h declares it, with the words of each `out`. A call returns the number of
// its refusal, or 0; it writes every word of `out`, and where it refuses it changes nothing else.
#![tactic(auto)]

ghost use Rattle.std.specs.Prelude.{◌≡◌, ◌<◌, ◌∷◌, cond};
ghost use Rattle.error.specs.Refusal.{said};
ghost use Rattle.error.specs.Answer.{accepted, refused, numbered};
ghost use Rattle.chunk.specs.Interleave.{interleave};
ghost use Rattle.duration.specs.Duration.{packed_of, run_length};
ghost use Rattle.prelude.specs.Prelude.{parse_of, strict_of};
ghost use Rattle.chunk_index.specs.Index.{build_of};
ghost use Rattle.page.specs.Page.{print_of};
ghost use Rattle.sound.specs.Sound.{decode_of};
ghost use Rattle.muxer.specs.Writer.{header_call, packet_call, trailer_call};
ghost use Rattle.registers.specs.Registers as registers;
ghost use Rattle.registers.specs.Steps.{call_of};
ghost use Rattle.words.specs.Out.{OutSays, checked};
ghost use Rattle.words.specs.State.{walker_of};
ghost use Rattle.capi.specs.Calls.{single, counts_words, totals_words, summary_answer, check_answer, index_answer, page_answer, parse_answer, samples_answer};
ghost use Rattle.capi.specs.Calls.{WalkerCall, next_answer, next_walker, seek_answer, seek_walker, StepCall, WriterCall};
ghost use Rattle.capi.specs.Steps.{DoneInWords, Performs, read_performed, seek_performed};

use chunk_index::index::build_chunk_index;
use chunk_index::summary::{ChunkCounts, summary};
use demuxer::walker::{Read, Walker};
use duration::AmvDuration;
use error::AmvError;
use finished::{Totals, check};
use muxer::Wrote;
use page::print_index;
use prelude::prelude::AmvPrelude;
use registers::{Command, Told, command_in, signed, write_block};
use seek::seek_to_via_index;
use sound::decode_block;
use words::out::{answer_out, packet_out, prelude_out, refusal_out, result_out};
use words::walker::{at_position, mark_word, walker_of, walker_words};
use words::writer::{at_counts, writer_of, writer_words};

// The number of a call whose state's words are not all in their fields' ranges. The documents have no such question, so AmvError has no such case.
const ILLEGAL_STATE: u32 = 1;

// The answer of such a call, and zeros.
fn illegal_state<const N: usize>(out: &mut [u64; N]) -> u32
    requires { 0 < N }
    ensures { OutSays N (refused (numbered 1 0)) result out.new }
{
    let zeros = [0; N];
    *out = zeros;
    ILLEGAL_STATE
}

// The packed run length of a number of frames, 0 for fps 0, minutes and seconds at most 59: a caller that fills in a header asks for it, and one
// that shows how long a file plays. It refuses nothing.
pub fn amv_from_frame_count(frames: u64, fps: u32) -> u32
    ensures { result ≡ packed_of (run_length frames fps) }
{
    AmvDuration::from_frame_count(frames, fps).to_packed()
}

// Whether tags alternate, a picture first and as many of each, for a caller that has the tags and no file. Refuses with 62 to 65.
pub fn amv_validate_movi_interleave(tags: &[u32], out: &mut [u64; 1]) -> u32
    ensures { OutSays 1 (checked (interleave tags.now)) result out.new }
{
    result_out(chunk::interleave::validate_movi_interleave(tags), out)
}

// The words of the counts of a file.
fn counts_out(counts: ChunkCounts) -> [u64; 3]
    ensures { result ≡ (0 ∷ counts_words counts) }
{
    [0, counts.frames, counts.blocks]
}

// The frames and blocks of a file, without a table. Refuses with 10 and 31.
#[tactic(auto, using(crate::proofs::Laws::says_mapped))]
pub fn amv_summary(file: &[u8], out: &mut [u64; 3]) -> u32
    ensures { OutSays 3 (summary_answer file.now) result out.new }
{
    answer_out(summary(file).map(counts_out), out)
}

// The words of the totals of a finished recording.
fn totals_out(totals: Totals) -> [u64; 6]
    ensures { result ≡ (0 ∷ totals_words totals) }
{
    [
        0,
        totals.frames,
        totals.blocks,
        totals.samples,
        totals.trailer,
        mark_word(totals.paired),
    ]
}

// Whether a file is a finished recording, and its totals. Refuses with 10 to 24, 60, 61 and 31.
#[tactic(auto, using(crate::proofs::Laws::says_mapped))]
pub fn amv_check(file: &[u8], out: &mut [u64; 6]) -> u32
    ensures { OutSays 6 (check_answer file.now) result out.new }
{
    answer_out(check(file).map(totals_out), out)
}

// The words of one number.
fn number_out(number: u64) -> [u64; 2]
    ensures { result ≡ (0 ∷ single number) }
{
    [0, number]
}

// The index of a file into a table, for the jumps; gives the number of records. Refuses with 10, 31 and 40.
#[tactic(auto, using(crate::proofs::Laws::says_mapped, crate::proofs::Laws::cast_says))]
pub fn amv_build_chunk_index(file: &[u8], table: &mut [u8], out: &mut [u64; 2]) -> u32
    ensures out_says { OutSays 2 (index_answer file.now table.old) result out.new }
    ensures table_after { table.new ≡ (build_of file.now table.old).table }
{
    let count = build_chunk_index(file, table).map(|count| count as u64);
    answer_out(count.map(number_out), out)
}

// The page of an index for the strip printer: a line of 40 columns for each record; gives the number of lines. Refuses with 41, 43, 70 and 40.
#[tactic(auto, using(crate::proofs::Laws::says_mapped, crate::proofs::Laws::cast_says))]
pub fn amv_print_index(table: &[u8], page: &mut [u8], out: &mut [u64; 2]) -> u32
    ensures out_says { OutSays 2 (page_answer table.now page.old) result out.new }
    ensures page_after { page.new ≡ (print_of table.now page.old).page }
{
    let lines = print_index(table, page).map(|lines| lines as u64);
    answer_out(lines.map(number_out), out)
}

// The samples of a sound block: IMA ADPCM, a signed 16-bit number for each nibble; gives how many they are. Refuses with 25, 71, 72 and 73.
#[tactic(auto, using(crate::proofs::Laws::says_mapped, crate::proofs::Laws::cast_says))]
pub fn amv_decode_block(block: &[u8], samples: &mut [i16], out: &mut [u64; 2]) -> u32
    ensures out_says { OutSays 2 (samples_answer block.now samples.old) result out.new }
    ensures samples_after { samples.new ≡ (decode_of block.now samples.old).samples }
{
    let count = decode_block(block, samples).map(u64::from);
    answer_out(count.map(number_out), out)
}

// Either way of parsing the prelude.
fn parsed(file: &[u8], strict: bool) -> Result<AmvPrelude, AmvError>
    ensures { said result ≡ cond strict (strict_of file.now) (parse_of file.now) }
{
    if strict {
        AmvPrelude::parse_strict(file)
    } else {
        AmvPrelude::parse(file)
    }
}

// The fields of the prelude. Refuses with 10 to 13 for a layout that is not that of the format and, if strict, with 14 to 24 for a field.
#[tactic(auto, using(crate::proofs::Laws::says_mapped))]
pub fn amv_parse(file: &[u8], strict: bool, out: &mut [u64; 16]) -> u32
    ensures { OutSays 16 (parse_answer file.now strict) result out.new }
{
    answer_out(parsed(file, strict).map(prelude_out), out)
}

// The packet at the walker, or End, and the walker past it. Refuses with 1, 10, 32 and 31.
pub fn amv_next_packet(file: &[u8], walker: &mut [u64; 7], out: &mut [u64; 7]) -> u32
    ensures { WalkerCall 7 (next_answer file.now) (next_walker file.now)
        walker.old result out.new walker.new }
{
    let Some(state) = walker_of(*walker) else {
        return illegal_state(out);
    };
    let Read {
        answer,
        walker: next,
    } = state.next_packet(file);
    // Answered here and not by answer_out: reads are many, and with that call one took twice as long.
    match answer {
        Ok(Some(packet)) => {
            // Only the position is new, so four words are stored and not seven.
            *walker = at_position(*walker, next.position);
            *out = packet_out(packet);
            0
        }
        Ok(None) => {
            *walker = walker_words(next);
            *out = [0; 7];
            0
        }
        // The walker is the one that was given, so its words stay.
        Err(e) => refusal_out(e, out),
    }
}

// A jump by the index: the walker at the first chunk of the stream whose stamp is the request or later. Refuses with 1, 42, 41, 43 and 32.
pub fn amv_seek_to_via_index(
    table: &[u8],
    walker: &mut [u64; 7],
    stream: u32,
    request: i64,
    out: &mut [u64; 2],
) -> u32
    ensures { WalkerCall 2 (seek_answer table.now stream request) (seek_walker table.now stream request)
        walker.old result out.new walker.new }
{
    let Some(state) = walker_of(*walker) else {
        return illegal_state(out);
    };
    let sought = seek_to_via_index(state, table, stream, request);
    *walker = walker_words(sought.walker);
    // Answered here, as a read is: by answer_out a refused jump took up to a fifth more.
    match sought.result {
        Ok(stamp) => {
            *out = number_out(stamp);
            0
        }
        Err(e) => refusal_out(e, out),
    }
}

// The read of a step, by amv_next_packet: what the block is to tell of it, with the packet's words in `out`, or 0 in each where it gave none. It
// refuses nothing: where the read is refused, that is told.
fn read_step(file: &[u8], walker: &mut [u64; 7], out: &mut [u64; 7]) -> Told
    ensures { Performs (read_performed file.now) walker.old result out.new walker.new }
{
    match amv_next_packet(file, walker, out) {
        0 if out[1] == 0 => Told::Nothing,
        0 => Told::Gave(out[5]),
        number => {
            *out = [0; 7];
            Told::Refused(number as u8)
        }
    }
}

// The seek of a step, by amv_seek_to_via_index: what the block is to tell of it, with 0 in each word of `out`. It refuses nothing: where the seek is
// refused, that is told.
fn seek_step(
    table: &[u8],
    walker: &mut [u64; 7],
    stream: u32,
    request: u64,
    out: &mut [u64; 7],
) -> Told
    ensures { Performs (seek_performed table.now stream request)
        walker.old result out.new walker.new }
{
    *out = [0; 7];
    let mut sought = [0; 2];
    match amv_seek_to_via_index(table, walker, stream, signed(request), &mut sought) {
        0 => Told::Went(sought[1]),
        number => Told::Refused(number as u8),
    }
}

// Performs the command of a step on a walker and its words, through the calls above, so that what a read or a seek does is the same code in a step:
// with the step by value, `register_step`, a read and a step took three times as long (docs/SPEED.md). It refuses nothing: where the read or
// seek is refused, that is told.
fn perform(
    file: &[u8],
    table: &[u8],
    state: Walker,
    walker: &mut [u64; 7],
    command: Command,
    out: &mut [u64; 7],
) -> Told
    requires { walker_of walker.old ≡ accepted state }
    ensures { DoneInWords state (registers.perform file.now table.now state (call_of command))
        result out.new walker.new }
{
    match command {
        Command::None => {
            *walker = walker_words(state);
            *out = [0; 7];
            Told::Nothing
        }
        Command::Read => read_step(file, walker, out),
        Command::Seek(stream, request) => seek_step(table, walker, stream, request, out),
    }
}

// A step of the register block: performs the command in it on the walker, by the file or by the table, and writes the block anew; gives the packet
// that its read gave, or none. A read or seek that is refused is told in the block alone. Refuses with 1, 74 and 75.
pub fn amv_register_step(
    file: &[u8],
    table: &[u8],
    walker: &mut [u64; 7],
    block: &mut [u8],
    out: &mut [u64; 7],
) -> u32
    ensures { StepCall file.now table.now walker.old block.old
        result out.new walker.new block.new }
{
    let Some(state) = walker_of(*walker) else {
        return illegal_state(out);
    };
    match command_in(block) {
        Err(e) => refusal_out(e, out),
        Ok(command) => {
            let told = perform(file, table, state, walker, command, out);
            write_block(block, told, walker[4] == 1, walker[5] == 1);
            0
        }
    }
}

// Writes the prelude, the first call of a writer. Refuses with 1, 50, 55 and 54.
pub fn amv_write_header(writer: &mut [u64; 9], buf: &mut [u8], out: &mut [u64; 1]) -> u32
    ensures { WriterCall (λ w. header_call w buf.old)
        writer.old buf.old result out.new writer.new buf.new }
{
    let Some(state) = writer_of(*writer) else {
        return illegal_state(out);
    };
    let wrote = state.write_header(buf);
    *writer = writer_words(wrote.writer);
    result_out(wrote.result, out)
}

// Writes a packet after what is written. Refuses with 1, 51, 55, 56, 52, 53 and 54.
pub fn amv_write_packet(
    writer: &mut [u64; 9],
    buf: &mut [u8],
    payload: &[u8],
    stream: u32,
    out: &mut [u64; 1],
) -> u32
    ensures { WriterCall (λ w. packet_call w payload.now stream buf.old)
        writer.old buf.old result out.new writer.new buf.new }
{
    let Some(state) = writer_of(*writer) else {
        return illegal_state(out);
    };
    let Wrote {
        result,
        writer: next,
    } = state.write_packet(buf, payload, stream);
    // A packet moves two words; from the state all nine would be carried past the copy of the payload.
    *writer = at_counts(*writer, next.written, next.frames);
    // Answered here and not by result_out: packets are many, and the call alone would take a third of the time.
    match result {
        Ok(()) => {
            *out = [0];
            0
        }
        Err(e) => refusal_out(e, out),
    }
}

// Writes the trailer, and the run length into the prelude: the last call of a writer. Refuses with 1, 51, 55, 56 and 54.
pub fn amv_write_trailer(writer: &mut [u64; 9], buf: &mut [u8], out: &mut [u64; 1]) -> u32
    ensures { WriterCall (λ w. trailer_call w buf.old)
        writer.old buf.old result out.new writer.new buf.new }
{
    let Some(state) = writer_of(*writer) else {
        return illegal_state(out);
    };
    let wrote = state.write_trailer(buf);
    *writer = writer_words(wrote.writer);
    result_out(wrote.result, out)
}
