// Answers as lines of numbers, to a writer. None refuses; each fails where a write does. A contract says what is written to a writer whose bytes
// are known.
ghost use Rattle.std.specs.Prelude.{◌≡◌, ℕ, [], ◌∷◌, ◌++◌, map, codes, OnOk};
ghost use Rattle.std.specs.Io.KnownBytes.{Appends};
ghost use Rattle.vectors.specs.Printed.{number_text, numbers_text, sample_number};

use std::io;
use std::io::Write;
use text::Text;

// What is printed as one number: a word, a byte or a sample.
pub trait Printed {
    // The number that stands for it.
    ghost number: { Self → ℕ };

    fn number(&self) -> u64
        ensures { result ≡ number self.now };
}

impl Printed for u64 {
    ghost number = { λ n. n };

    fn number(&self) -> u64 {
        *self
    }
}

impl Printed for u8 {
    ghost number = { λ n. n };

    fn number(&self) -> u64 {
        *self as u64
    }
}

// A sample is the number of its 16 bits: 65,535 is -1.
impl Printed for i16 {
    ghost number = { sample_number };

    fn number(&self) -> u64 {
        ((*self as i32 + 65536) as u32 % 65536) as u64
    }
}

// A space and a number: the form of every number of a line. `write!` says nothing of the bytes that a writer holds, and the clause does.
fn print_number<W: Write>(printer: &mut W, n: u64) -> io::Result<()>
    ensures { OnOk result (Appends (W.contents printer.old) (W.contents printer.new) (number_text n)) }
{
    let mut buffer = [0u8; 24];
    let mut text = Text::new(&mut buffer);
    lines::put_number(&mut text, n);
    printer.write_all(text.as_bytes())
}

// Every item as a number: the words of an answer or a state, or what a call left of lent bytes or samples.
pub fn print_numbers<W: Write, T: Printed>(printer: &mut W, items: &[T]) -> io::Result<()>
    ensures { OnOk result (Appends (W.contents printer.old) (W.contents printer.new)
        (numbers_text (map T.number items.now))) }
{
    for item in items {
        print_number(printer, item.number())?;
    }
    Ok(())
}

// A call's name, and the number that it returned.
pub fn print_call<W: Write>(printer: &mut W, name: &[u8], number: u32) -> io::Result<()>
    ensures { OnOk result (Appends (W.contents printer.old) (W.contents printer.new) (name.now ++ number_text number)) }
{
    printer.write_all(name)?;
    print_number(printer, number as u64)
}

// The end of a line.
pub fn print_end<W: Write>(printer: &mut W) -> io::Result<()>
    ensures { OnOk result (Appends (W.contents printer.old) (W.contents printer.new) (10 ∷ [])) }
{
    printer.write_all(b"\n")
}

// The line of a call that leaves nothing behind: its words, or its bytes.
pub fn print_answer<W: Write, T: Printed>(
    printer: &mut W,
    name: &[u8],
    number: u32,
    items: &[T],
) -> io::Result<()>
    ensures { OnOk result (Appends (W.contents printer.old) (W.contents printer.new)
        (name.now ++ (number_text number ++ (numbers_text (map T.number items.now) ++ 10 ∷ [])))) }
{
    print_call(printer, name, number)?;
    print_numbers(printer, items)?;
    print_end(printer)
}

// The line of a call that leaves one thing: its words, and then its state, or everything that it was lent.
pub fn print_left<W: Write, T: Printed>(
    printer: &mut W,
    name: &[u8],
    number: u32,
    words: &[u64],
    left: &[T],
) -> io::Result<()>
    ensures { OnOk result (Appends (W.contents printer.old) (W.contents printer.new)
        (name.now ++ (number_text number ++ (numbers_text words.now
        ++ (numbers_text (map T.number left.now) ++ 10 ∷ []))))) }
{
    print_call(printer, name, number)?;
    print_numbers(printer, words)?;
    print_numbers(printer, left)?;
    print_end(printer)
}

// The line of a call with a state that writes: its words, the state after it, and every byte that it was lent.
pub fn print_written<W: Write>(
    printer: &mut W,
    name: &[u8],
    number: u32,
    words: &[u64],
    state: &[u64],
    lent: &[u8],
) -> io::Result<()>
    ensures { OnOk result (Appends (W.contents printer.old) (W.contents printer.new)
        (name.now ++ (number_text number ++ (numbers_text words.now
        ++ (numbers_text state.now ++ (numbers_text lent.now ++ 10 ∷ [])))))) }
{
    print_call(printer, name, number)?;
    print_numbers(printer, words)?;
    print_numbers(printer, state)?;
    print_numbers(printer, lent)?;
    print_end(printer)
}

// How many cases of a function there were.
pub fn print_count<W: Write>(printer: &mut W, name: &[u8], count: u64) -> io::Result<()>
    ensures { OnOk result (Appends (W.contents printer.old) (W.contents printer.new)
        (codes "cases of " ++ (name.now ++ (number_text count ++ 10 ∷ [])))) }
{
    printer.write_all(b"cases of ")?;
    printer.write_all(name)?;
    print_number(printer, count)?;
    print_end(printer)
}

// That the input ends inside the case at an offset.
pub fn print_cut<W: Write>(printer: &mut W, at: u64) -> io::Result<()>
    ensures { OnOk result (Appends (W.contents printer.old) (W.contents printer.new)
        (codes "a case is cut at" ++ (number_text at ++ 10 ∷ []))) }
{
    printer.write_all(b"a case is cut at")?;
    print_number(printer, at)?;
    print_end(printer)
}
