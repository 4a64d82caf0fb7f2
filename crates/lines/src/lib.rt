// The lines of a listing, as words put behind a text. None of the functions refuses: a caller lends the room that `requires` names, and so many
// bytes hold the longest line of the kind.
#![tactic(auto)]

ghost use Rattle.std.specs.Prelude.{[], ◌∷◌, ◌++◌, ◌+◌, ◌≤◌, length};
ghost use Rattle.text.specs.Text.{decimal};
ghost use Rattle.text.specs.Puts.{Puts};
ghost use Rattle.lines.specs.Lines.{yes_no, PAIRED, spaced, chunk_line, totals_line, refusal_line, long_line};

use text::{Text, put_digits};

// What the line of a chunk says: its kind and offset, and the frames, samples and blocks before it.
#[derive(Clone, Copy)]
pub struct ChunkLine {
    pub frame: bool,
    pub offset: u64,
    pub frames: u64,
    pub samples: u64,
    pub blocks: u64,
}

// What the line of the totals says: the trailer's offset, the frames, blocks and samples, and whether each frame has its block.
#[derive(Clone, Copy)]
pub struct TotalsLine {
    pub trailer: u64,
    pub frames: u64,
    pub blocks: u64,
    pub samples: u64,
    pub paired: bool,
}

// Puts a space and a number in decimal, without leading zeros: the form that every number of a line has.
pub fn put_number(text: &mut Text, n: u64)
    requires { text.old.len + 21 ≤ length text.old.buffer.now }
    ensures written { Puts text.old (32 ∷ decimal n) text.new }
    ensures upper_bound { text.new.len ≤ text.old.len + 21 }
{
    let mut digits = [0u8; 20];
    let start = put_digits(&mut digits, 20, n);
    text.put_word(b" ");
    text.put_word(&digits[start..]);
}

// Puts a name and the number after it.
fn put_field(text: &mut Text, name: &[u8], n: u64)
    requires { text.old.len + length name.now + 21 ≤ length text.old.buffer.now }
    ensures written { Puts text.old (name.now ++ 32 ∷ decimal n) text.new }
    ensures upper_bound { text.new.len ≤ text.old.len + length name.now + 21 }
{
    text.put_word(name);
    put_number(text, n);
}

// Puts the end of the line of totals: whether each frame has its block.
fn put_paired(text: &mut Text, paired: bool)
    requires { text.old.len + 10 ≤ length text.old.buffer.now }
    ensures written { Puts text.old (spaced (PAIRED ∷ yes_no paired ∷ [])) text.new }
    ensures upper_bound { text.new.len ≤ text.old.len + 10 }
{
    text.put_word(if paired {
        b" PAIRED Y\n"
    } else {
        b" PAIRED N\n"
    });
}

// Puts the line feed, with which each line ends.
fn end_line(text: &mut Text)
    requires { text.old.len + 1 ≤ length text.old.buffer.now }
    ensures written { Puts text.old (spaced []) text.new }
    ensures upper_bound { text.new.len ≤ text.old.len + 1 }
{
    text.put_word(b"\n");
}

// Puts the line of a chunk.
pub fn put_chunk_line(text: &mut Text, line: ChunkLine)
    requires { text.old.len + 86 ≤ length text.old.buffer.now }
    ensures written { Puts text.old (chunk_line line.frame line.offset line.frames line.samples line.blocks) text.new }
    ensures upper_bound { text.new.len ≤ text.old.len + 86 }
{
    text.put_kind(line.frame);
    put_number(text, line.offset);
    put_number(text, line.frames);
    put_number(text, line.samples);
    put_number(text, line.blocks);
    end_line(text);
}

// Puts the line of the totals, the last one of a file that the check accepts.
pub fn put_totals_line(text: &mut Text, line: TotalsLine)
    requires { text.old.len + 119 ≤ length text.old.buffer.now }
    ensures written { Puts text.old (totals_line line.trailer line.frames line.blocks line.samples line.paired) text.new }
    ensures upper_bound { text.new.len ≤ text.old.len + 119 }
{
    put_field(text, b"END", line.trailer);
    put_field(text, b" FRAMES", line.frames);
    put_field(text, b" BLOCKS", line.blocks);
    put_field(text, b" SAMPLES", line.samples);
    put_paired(text, line.paired);
}

// Puts the only line of a file that the check refuses: the refusal's number and place.
pub fn put_refusal_line(text: &mut Text, number: u32, place: u64)
    requires { text.old.len + 45 ≤ length text.old.buffer.now }
    ensures written { Puts text.old (refusal_line number place) text.new }
    ensures upper_bound { text.new.len ≤ text.old.len + 45 }
{
    put_field(text, b"NO", number as u64);
    put_number(text, place);
    end_line(text);
}

// Puts the only line of an input that is too long to be listed.
pub fn put_long_line(text: &mut Text)
    requires { text.old.len + 8 ≤ length text.old.buffer.now }
    ensures written { Puts text.old long_line text.new }
    ensures upper_bound { text.new.len ≤ text.old.len + 8 }
{
    text.put_word(b"NO LONG\n");
}
