// The functions of capi for C, under the same names: include/amv.h declares them, with the words of each `out`. Each calls that of capi, and
// promises what that one promises.
#![tactic(auto)]

ghost use Rattle.std.specs.Prelude.{◌≡◌};
ghost use Rattle.chunk.specs.Interleave.{interleave};
ghost use Rattle.duration.specs.Duration.{packed_of, run_length};
ghost use Rattle.chunk_index.specs.Index.{build_of};
ghost use Rattle.page.specs.Page.{print_of};
ghost use Rattle.sound.specs.Sound.{decode_of};
ghost use Rattle.muxer.specs.Writer.{header_call, packet_call, trailer_call};
ghost use Rattle.words.specs.Out.{OutSays, checked};
ghost use Rattle.capi.specs.Calls.{summary_answer, check_answer, index_answer, page_answer, parse_answer, samples_answer};
ghost use Rattle.capi.specs.Calls.{WalkerCall, next_answer, next_walker, seek_answer, seek_walker, StepCall, WriterCall};

// The packed run length of a number of frames, 0 for fps 0, minutes and seconds at most 59: a caller that fills in a header asks for it, and one
// that shows how long a file plays. It refuses nothing.
#[unsafe(no_mangle)]
pub extern "C" fn amv_from_frame_count(frames: u64, fps: u32) -> u32
    ensures { result ≡ packed_of (run_length frames fps) }
{
    capi::amv_from_frame_count(frames, fps)
}

// Whether tags alternate, a picture first and as many of each, for a caller that has the tags and no file. Refuses with 62 to 65.
#[unsafe(no_mangle)]
pub extern "C" fn amv_validate_movi_interleave(tags: &[u32], out: &mut [u64; 1]) -> u32
    ensures { OutSays 1 (checked (interleave tags.now)) result out.new }
{
    capi::amv_validate_movi_interleave(tags, out)
}

// The frames and blocks of a file, without a table. Refuses with 10 and 31.
#[unsafe(no_mangle)]
pub extern "C" fn amv_summary(file: &[u8], out: &mut [u64; 3]) -> u32
    ensures { OutSays 3 (summary_answer file.now) result out.new }
{
    capi::amv_summary(file, out)
}

// Whether a file is a finished recording, and its totals. Refuses with 10 to 24, 60, 61 and 31.
#[unsafe(no_mangle)]
pub extern "C" fn amv_check(file: &[u8], out: &mut [u64; 6]) -> u32
    ensures { OutSays 6 (check_answer file.now) result out.new }
{
    capi::amv_check(file, out)
}

// The index of a file into a table, for the jumps; gives the number of records. Refuses with 10, 31 and 40.
#[unsafe(no_mangle)]
pub extern "C" fn amv_build_chunk_index(file: &[u8], table: &mut [u8], out: &mut [u64; 2]) -> u32
    ensures out_says { OutSays 2 (index_answer file.now table.old) result out.new }
    ensures table_after { table.new ≡ (build_of file.now table.old).table }
{
    capi::amv_build_chunk_index(file, table, out)
}

// The page of an index for the strip printer: a line of 40 columns for each record; gives the number of lines. Refuses with 41, 43, 70 and 40.
#[unsafe(no_mangle)]
pub extern "C" fn amv_print_index(table: &[u8], page: &mut [u8], out: &mut [u64; 2]) -> u32
    ensures out_says { OutSays 2 (page_answer table.now page.old) result out.new }
    ensures page_after { page.new ≡ (print_of table.now page.old).page }
{
    capi::amv_print_index(table, page, out)
}

// The samples of a sound block: IMA ADPCM, a signed 16-bit number for each nibble; gives how many they are. Refuses with 25, 71, 72 and 73.
#[unsafe(no_mangle)]
pub extern "C" fn amv_decode_block(block: &[u8], samples: &mut [i16], out: &mut [u64; 2]) -> u32
    ensures out_says { OutSays 2 (samples_answer block.now samples.old) result out.new }
    ensures samples_after { samples.new ≡ (decode_of block.now samples.old).samples }
{
    capi::amv_decode_block(block, samples, out)
}

// The fields of the prelude. Refuses with 10 to 13 for a layout that is not that of the format and, if strict, with 14 to 24 for a field.
#[unsafe(no_mangle)]
pub extern "C" fn amv_parse(file: &[u8], strict: bool, out: &mut [u64; 16]) -> u32
    ensures { OutSays 16 (parse_answer file.now strict) result out.new }
{
    capi::amv_parse(file, strict, out)
}

// The packet at the walker, or End, and the walker past it. Refuses with 1, 10, 32 and 31.
#[unsafe(no_mangle)]
pub extern "C" fn amv_next_packet(file: &[u8], walker: &mut [u64; 7], out: &mut [u64; 7]) -> u32
    ensures { WalkerCall 7 (next_answer file.now) (next_walker file.now)
        walker.old result out.new walker.new }
{
    capi::amv_next_packet(file, walker, out)
}

// A jump by the index: the walker at the first chunk of the stream whose stamp is the request or later. Refuses with 1, 42, 41, 43 and 32.
#[unsafe(no_mangle)]
pub extern "C" fn amv_seek_to_via_index(
    table: &[u8],
    walker: &mut [u64; 7],
    stream: u32,
    request: i64,
    out: &mut [u64; 2],
) -> u32
    ensures { WalkerCall 2 (seek_answer table.now stream request) (seek_walker table.now stream request)
        walker.old result out.new walker.new }
{
    capi::amv_seek_to_via_index(table, walker, stream, request, out)
}

// A step of the register block: performs the command in it on the walker, by the file or by the table, and writes the block anew; gives the packet
// that its read gave, or none. A read or seek that is refused is told in the block alone. Refuses with 1, 74 and 75.
#[unsafe(no_mangle)]
pub extern "C" fn amv_register_step(
    file: &[u8],
    table: &[u8],
    walker: &mut [u64; 7],
    block: &mut [u8],
    out: &mut [u64; 7],
) -> u32
    ensures { StepCall file.now table.now walker.old block.old
        result out.new walker.new block.new }
{
    capi::amv_register_step(file, table, walker, block, out)
}

// Writes the prelude, the first call of a writer. Refuses with 1, 50, 55 and 54.
#[unsafe(no_mangle)]
pub extern "C" fn amv_write_header(writer: &mut [u64; 9], buf: &mut [u8], out: &mut [u64; 1]) -> u32
    ensures { WriterCall (λ w. header_call w buf.old)
        writer.old buf.old result out.new writer.new buf.new }
{
    capi::amv_write_header(writer, buf, out)
}

// Writes a packet after what is written. Refuses with 1, 51, 55, 56, 52, 53 and 54.
#[unsafe(no_mangle)]
pub extern "C" fn amv_write_packet(
    writer: &mut [u64; 9],
    buf: &mut [u8],
    payload: &[u8],
    stream: u32,
    out: &mut [u64; 1],
) -> u32
    ensures { WriterCall (λ w. packet_call w payload.now stream buf.old)
        writer.old buf.old result out.new writer.new buf.new }
{
    capi::amv_write_packet(writer, buf, payload, stream, out)
}

// Writes the trailer, and the run length into the prelude: the last call of a writer. Refuses with 1, 51, 55, 56 and 54.
#[unsafe(no_mangle)]
pub extern "C" fn amv_write_trailer(
    writer: &mut [u64; 9],
    buf: &mut [u8],
    out: &mut [u64; 1],
) -> u32
    ensures { WriterCall (λ w. trailer_call w buf.old)
        writer.old buf.old result out.new writer.new buf.new }
{
    capi::amv_write_trailer(writer, buf, out)
}
