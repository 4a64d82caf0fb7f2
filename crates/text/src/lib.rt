// Text that grows in a lent buffer, word after word: what the lines of a listing and of a page are made of. None of the functions refuses: a
// caller lends the room that `requires` names.
#![tactic(auto)]

ghost use Rattle.std.specs.Prelude.{◌≡◌, [], ◌∷◌, ◌+◌, ◌≤◌, length, take};
ghost use Rattle.text.specs.Text.{decimal, kind, right};
ghost use Rattle.text.specs.Written.{Written};
ghost use Rattle.text.specs.Puts.{Puts};

// The letter of a chunk's kind.
fn letter(frame: bool) -> u8
    ensures { result ∷ [] ≡ kind frame }
{
    if frame { b'V' } else { b'A' }
}

// Puts a number in decimal, without leading zeros, so that it ends where the caller says, and answers where it starts: its digits come from
// the right, and nobody need count them first. So the loop counts places down by hand: a `for` over them would have to be left before the first.
// With a slice of the columns in place of a buffer and an end the printing of a page took 1.03 times as long.
pub fn put_digits(out: &mut [u8], end: usize, n: u64) -> usize
    requires n_len_bound { length (decimal n) ≤ end }
    requires end_in_bounds { end ≤ length out.old }
    ensures { Written out.old result (decimal n) out.new end }
{
    let mut i = end - 1;
    let mut rest = n;
    while rest > 9 {
        out[i] = 48 + (rest % 10) as u8;
        rest /= 10;
        i -= 1;
    }
    out[i] = 48 + rest as u8;
    i
}

// A text in a lent buffer: the first `len` bytes of the buffer. What stands behind them is not the text's, and stays as it was.
#[derive(Drop)]
pub struct Text<'a> {
    buffer: &'a mut [u8],
    len: usize,
}

impl<'a> Text<'a> {
    // No text yet, at the front of a buffer.
    pub fn new(buffer: &'a mut [u8]) -> Text<'a>
        ensures same_buffer { result.buffer.ghost_name ≡ buffer.entry.ghost_name }
        ensures bytes { result.buffer.now ≡ buffer.old }
        ensures len { result.len ≡ 0 }
    {
        Text { buffer, len: 0 }
    }

    // How many bytes the text has.
    pub fn len(&self) -> usize
        ensures { result ≡ self.now.len }
    {
        self.len
    }

    // The bytes of the text.
    pub fn as_bytes(&self) -> &[u8]
        requires { self.now.len ≤ length self.now.buffer.now }
        ensures { result.now ≡ take self.now.len self.now.buffer.now }
    {
        &self.buffer[..self.len]
    }

    // Puts a word.
    pub fn put_word(&mut self, word: &[u8])
        requires { self.old.len + length word.now ≤ length self.old.buffer.now }
        ensures { Puts self.old word.now self.new }
    {
        fields::copy_in(self.buffer, self.len, word);
        self.len += word.len();
    }

    // Puts the letter of a chunk's kind.
    pub fn put_kind(&mut self, frame: bool)
        requires { self.old.len + 1 ≤ length self.old.buffer.now }
        ensures written { Puts self.old (kind frame) self.new }
        ensures value { self.new.len ≡ self.old.len + 1 }
    {
        self.buffer[self.len] = letter(frame);
        self.len += 1;
    }

    // Puts a number at the right of so many columns, spaces before it. All columns are blanked first, which for a fixed width is a store or two.
    pub fn put_right(&mut self, width: usize, n: u64)
        requires width_in_bounds { self.old.len + width ≤ length self.old.buffer.now }
        requires n_len_bound { length (decimal n) ≤ width }
        ensures written { Puts self.old (right width n) self.new }
        ensures value { self.new.len ≡ self.old.len + width }
    {
        let end = self.len + width;
        self.buffer[self.len..end].fill(b' ');
        put_digits(self.buffer, end, n);
        self.len = end;
    }
}
