// The call of a case, and its answer to a writer. A function that prints fails where a write does. Writer and case stay two parameters: a struct of both
// would be made once and taken apart in each function, since the writer is lent to be changed.
ghost use Rattle.std.specs.Prelude.{◌≡◌, ◌/◌, min, length, take};
ghost use Rattle.fields.specs.Le.{put};
ghost use Rattle.chunk_index.specs.Index.{build_of};
ghost use Rattle.page.specs.Page.{print_of};
ghost use Rattle.sound.specs.Sound.{decode_of};
ghost use Rattle.muxer.specs.Writer.{header_call, packet_call, trailer_call};
ghost use Rattle.capi.specs.Calls.{block_after_call, buffer_after_call};
ghost use Rattle.vectors.specs.Cases.{tags_in, walker_in, writer_in, stream_in, file_in, table_in, lent_after};

use crate::case::Case;
use crate::function::Function;
use crate::print::{print_answer, print_call, print_end, print_left, print_written};
use chunk::ChunkHeader;
use listing::{ROOM, list};
use std::io;
use std::io::Write;

// The longest table, buffer or list of tags of a case.
const BYTES_ROOM: usize = 1024;

const TAGS_ROOM: usize = 64;

// The longest buffer of samples, and what each entry of it has before the call.
const SAMPLES_ROOM: usize = 64;

const KEPT: i16 = 77;

// A case's bytes at the front of an array, as many as it has room for.
fn load(to: &mut [u8], bytes: &[u8]) -> usize
    ensures value { result ≡ min (length to.old) (length bytes.now) }
    ensures to_after { to.new ≡ put to.old 0 (take result bytes.now) }
{
    let len = to.len().min(bytes.len());
    fields::copy_in(to, 0, &bytes[..len]);
    len
}

// A case's tags at the front of an array, as many as it has room for.
fn load_tags(to: &mut [u32], bytes: &[u8]) -> usize
    ensures value { result ≡ min (length to.old) (length bytes.now / 4) }
    ensures to_after { to.new ≡ put to.old 0 (tags_in bytes.now result) }
{
    let count = to.len().min(bytes.len() / 4);
    for i in 0..count {
        to[i] = fields::read_le::<u32>(bytes, 4 * i);
    }
    count
}

fn run_parse(printer: &mut impl Write, case: &Case) -> io::Result<()> {
    let mut out = [0u64; 16];
    let number = capi::amv_parse(case.first, case.words[0] == 1, &mut out);
    print_answer(printer, case.function.name(), number, &out)
}

fn run_next_packet(printer: &mut impl Write, case: &Case) -> io::Result<()> {
    let mut walker = case.walker();
    let mut out = [0u64; 7];
    let number = capi::amv_next_packet(case.first, &mut walker, &mut out);
    print_left(printer, case.function.name(), number, &out, &walker)
}

fn run_seek_to_via_index(printer: &mut impl Write, case: &Case) -> io::Result<()> {
    let mut walker = case.walker();
    let mut out = [0u64; 2];
    let stream = case.stream();
    let request = case.request();
    let number = capi::amv_seek_to_via_index(case.first, &mut walker, stream, request, &mut out);
    print_left(printer, case.function.name(), number, &out, &walker)
}

fn run_interleave(printer: &mut impl Write, case: &Case) -> io::Result<()> {
    let mut words = [0u32; TAGS_ROOM];
    let count = load_tags(&mut words, case.first);
    let mut out = [0u64; 1];
    let number = capi::amv_validate_movi_interleave(&words[..count], &mut out);
    print_answer(printer, case.function.name(), number, &out)
}

fn run_from_frame_count(printer: &mut impl Write, case: &Case) -> io::Result<()> {
    let fps = (case.words[1] % 4294967296) as u32;
    let packed = capi::amv_from_frame_count(case.words[0], fps);
    print_call(printer, case.function.name(), packed)?;
    print_end(printer)
}

fn run_summary(printer: &mut impl Write, case: &Case) -> io::Result<()> {
    let mut out = [0u64; 3];
    let number = capi::amv_summary(case.first, &mut out);
    print_answer(printer, case.function.name(), number, &out)
}

fn run_check(printer: &mut impl Write, case: &Case) -> io::Result<()> {
    let mut out = [0u64; 6];
    let number = capi::amv_check(case.first, &mut out);
    print_answer(printer, case.function.name(), number, &out)
}

// The listing byte by byte.
fn run_listing(printer: &mut impl Write, case: &Case) -> io::Result<()> {
    let mut lines = [0u8; ROOM];
    let end = list(case.first, &mut lines);
    print_answer(printer, case.function.name(), 0, &lines[..end])
}

fn run_samples(printer: &mut impl Write, case: &Case, samples: &mut [i16]) -> io::Result<()>
    ensures { samples.new ≡ (decode_of case.now.first.now samples.old).samples }
{
    let mut out = [0u64; 2];
    let number = capi::amv_decode_block(case.first, samples, &mut out);
    print_left(printer, case.function.name(), number, &out, samples)
}

// Every entry is printed: one past the count must be as it was.
fn run_decode_block(printer: &mut impl Write, case: &Case) -> io::Result<()> {
    let mut samples = [KEPT; SAMPLES_ROOM];
    let room = SAMPLES_ROOM.min(case.words[0] as usize);
    run_samples(printer, case, &mut samples[..room])
}

// A refusal is printed as the C interface gives it: the number, then the place, and 0 for what is not answered.
fn run_chunk_header(printer: &mut impl Write, case: &Case) -> io::Result<()> {
    let name = case.function.name();
    match ChunkHeader::parse_at(case.first, case.words[0] as usize) {
        Ok(header) => {
            print_answer(
                printer,
                name,
                0,
                &[0, header.tag as u64, header.size as u64],
            )
        }
        Err(e) => print_answer(printer, name, e.number(), &[e.place(), 0, 0]),
    }
}

fn run_build_chunk_index(printer: &mut impl Write, case: &Case, table: &mut [u8]) -> io::Result<()>
    ensures { table.new ≡ (build_of case.now.first.now table.old).table }
{
    let mut out = [0u64; 2];
    let number = capi::amv_build_chunk_index(case.first, table, &mut out);
    print_left(printer, case.function.name(), number, &out, table)
}

fn run_print_index(printer: &mut impl Write, case: &Case, page: &mut [u8]) -> io::Result<()>
    ensures { page.new ≡ (print_of case.now.first.now page.old).page }
{
    let mut out = [0u64; 2];
    let number = capi::amv_print_index(case.first, page, &mut out);
    print_left(printer, case.function.name(), number, &out, page)
}

// A case of a step has the file and then the table first. The file's length is the first word; one past the bytes takes all of them.
fn run_register_step(printer: &mut impl Write, case: &Case, block: &mut [u8]) -> io::Result<()>
    ensures { block.new
        ≡ block_after_call (file_in case.now.first.now case.now.words) (table_in case.now.first.now case.now.words)
        (walker_in case.now.words) block.old }
{
    let mut walker = case.walker();
    let mut out = [0u64; 7];
    let bytes = case.first;
    let len = bytes.len().min(case.words[0] as usize);
    let file = &bytes[..len];
    let table = &bytes[len..];
    let number = capi::amv_register_step(file, table, &mut walker, block, &mut out);
    print_written(printer, case.function.name(), number, &out, &walker, block)
}

// This and the next two differ in the call alone. A closure for it would take clauses on what it leaves of three arrays, longer than these bodies.
fn run_write_header(printer: &mut impl Write, case: &Case, buf: &mut [u8]) -> io::Result<()>
    ensures { buf.new ≡ buffer_after_call (λ w. header_call w buf.old) (writer_in case.now.words) buf.old }
{
    let mut writer = case.writer();
    let mut out = [0u64; 1];
    let number = capi::amv_write_header(&mut writer, buf, &mut out);
    print_written(printer, case.function.name(), number, &out, &writer, buf)
}

fn run_write_packet(printer: &mut impl Write, case: &Case, buf: &mut [u8]) -> io::Result<()>
    ensures { buf.new
        ≡ buffer_after_call (λ w. packet_call w case.now.first.now (stream_in case.now.words) buf.old)
        (writer_in case.now.words) buf.old }
{
    let mut writer = case.writer();
    let mut out = [0u64; 1];
    let stream = case.stream();
    let number = capi::amv_write_packet(&mut writer, buf, case.first, stream, &mut out);
    print_written(printer, case.function.name(), number, &out, &writer, buf)
}

fn run_write_trailer(printer: &mut impl Write, case: &Case, buf: &mut [u8]) -> io::Result<()>
    ensures { buf.new ≡ buffer_after_call (λ w. trailer_call w buf.old) (writer_in case.now.words) buf.old }
{
    let mut writer = case.writer();
    let mut out = [0u64; 1];
    let number = capi::amv_write_trailer(&mut writer, buf, &mut out);
    print_written(printer, case.function.name(), number, &out, &writer, buf)
}

// The calls that only read. The last is also run for a case that no count has.
fn run_reading(printer: &mut impl Write, case: &Case) -> io::Result<()> {
    match case.function {
        Function::Parse => run_parse(printer, case),
        Function::NextPacket => run_next_packet(printer, case),
        Function::SeekToViaIndex => run_seek_to_via_index(printer, case),
        Function::Interleave => run_interleave(printer, case),
        Function::Summary => run_summary(printer, case),
        Function::Check => run_check(printer, case),
        Function::Listing => run_listing(printer, case),
        Function::DecodeBlock => run_decode_block(printer, case),
        Function::ChunkHeader => run_chunk_header(printer, case),
        _ => run_from_frame_count(printer, case),
    }
}

// The calls that write to lent bytes.
fn run_writing(printer: &mut impl Write, case: &Case, lent: &mut [u8]) -> io::Result<()>
    ensures { lent.new ≡ lent_after case.now.function case.now.first.now case.now.words lent.old }
{
    match case.function {
        Function::BuildChunkIndex => run_build_chunk_index(printer, case, lent),
        Function::WriteHeader => run_write_header(printer, case, lent),
        Function::WritePacket => run_write_packet(printer, case, lent),
        Function::PrintIndex => run_print_index(printer, case, lent),
        Function::RegisterStep => run_register_step(printer, case, lent),
        _ => run_write_trailer(printer, case, lent),
    }
}

// Runs the call of a case and prints its answer; refusals are answers, and are printed. A case of a call that writes has the lent bytes second.
pub fn run_case(printer: &mut impl Write, case: &Case) -> io::Result<()> {
    if !case.function.writes() {
        return run_reading(printer, case);
    }
    let mut bytes = [0u8; BYTES_ROOM];
    let len = load(&mut bytes, case.second);
    run_writing(printer, case, &mut bytes[..len])
}
