// The stored cases of an input, each taken apart.
ghost use Rattle.std.specs.Prelude.{◌≡◌, ◌+◌, ◌-◌, ◌≤◌, length, slice_index};
ghost use Rattle.std.specs.Iterator.{at_most};
ghost use Rattle.vectors.specs.Cases.{Parts, Steps, head_of, request_of, stream_in, walker_in, writer_in};

use crate::function::Function;
use std::array;

// The bytes of a case before its two byte strings.
const HEAD_LEN: usize = 113;

// Where its twelve words begin.
const WORDS_AT: usize = 17;

// Where the words of a state begin among them.
const STATE_AT: usize = 3;

// A case: the function that it calls, twelve words, two byte strings, and where the next case begins.
#[derive(Clone, Copy)]
pub struct Case<'a> {
    pub function: Function,

    // Three parameters, and nine words of a state.
    pub words: [u64; 12],
    pub first: &'a [u8],
    pub second: &'a [u8],
    pub end: usize,
}

impl<'a> Case<'a> {
    // The stream in its words.
    pub fn stream(&self) -> u32
        ensures { result ≡ stream_in self.now.words }
    {
        (self.words[0] % 4294967296) as u32
    }

    // The signed request in its words. Of those below 0 the cases have the largest and the smallest, each by a mark.
    pub fn request(&self) -> i64
        ensures { result ≡ request_of (slice_index self.now.words 1) (slice_index self.now.words 2) }
    {
        match self.words[2] {
            1 => -1,
            2 => i64::MIN,
            _ => (self.words[1] % 9223372036854775808) as i64,
        }
    }

    // The walker in its words.
    pub fn walker(&self) -> [u64; 7]
        ensures { result ≡ walker_in self.now.words }
    {
        array::from_fn(|i| self.words[STATE_AT + i])
    }

    // The writer in its words.
    pub fn writer(&self) -> [u64; 9]
        ensures { result ≡ writer_in self.now.words }
    {
        array::from_fn(|i| self.words[STATE_AT + i])
    }
}

// The twelve words of the case at an offset.
fn head_of(input: &[u8], at: usize) -> [u64; 12]
    requires { at + 113 ≤ length input.now }
    ensures { result ≡ head_of input.now at }
{
    array::from_fn(|i| fields::read_le::<u64>(input, at + (WORDS_AT + 8 * i)))
}

// The case at an offset, taken apart. None where the input has less than the head or than the lengths in it say.
pub fn case_at(input: &[u8], at: usize) -> Option<Case<'_>>
    ensures { Parts input.now at result }
{
    // The bytes past the head, which both strings have to fit.
    let room = input.len().checked_sub(HEAD_LEN)?.checked_sub(at)? as u64;
    let first_len = fields::read_le::<u64>(input, at + 1);
    let second_len = fields::read_le::<u64>(input, at + 9);
    room.checked_sub(first_len)?.checked_sub(second_len)?;
    let first = at + HEAD_LEN;
    let second = first + first_len as usize;
    let end = second + second_len as usize;
    Some(Case {
        function: Function::from(input[at]),
        words: head_of(input, at),
        first: &input[first..second],
        second: &input[second..end],
        end,
    })
}

// That the input ends inside the case at an offset.
#[derive(Clone, Copy)]
pub struct Cut {
    pub at: usize,
}

// The cases of an input, one after another, from an offset. Where the input ends inside a case, the last item says so.
#[derive(Drop)]
pub struct Cases<'a> {
    input: &'a [u8],
    at: usize,
}

impl<'a> Cases<'a> {
    // All cases of an input.
    pub fn of(input: &'a [u8]) -> Cases<'a>
        ensures input { result.input.now ≡ input.now }
        ensures at { result.at ≡ 0 }
    {
        Cases { input, at: 0 }
    }
}

impl<'a> Iterator for Cases<'a> {
    type Item = Result<Case<'a>, Cut>;

    ghost next_gives = { λ old next new. (new.input.now ≡ old.input.now) × Steps old.input.now old.at next new.at };

    ghost remaining = { λ cases. at_most (length cases.input.now - cases.at) };

    fn next(&mut self) -> Option<Result<Case<'a>, Cut>> {
        let at = self.at;
        if at >= self.input.len() {
            return None;
        }
        match case_at(self.input, at) {
            Some(case) => {
                self.at = case.end;
                Some(Ok(case))
            }
            None => {
                self.at = self.input.len();
                Some(Err(Cut { at }))
            }
        }
    }
}
