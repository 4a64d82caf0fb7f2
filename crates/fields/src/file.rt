// The largest file, and a file that is no larger.
ghost use Rattle.std.specs.Prelude.{◌≡◌, ℕ, ◌≤◌, true, false, List, length, MatchOption};
ghost use Rattle.fields.specs.File.{file_limit, within_limit};

use std::marker::Model;

// The most bytes that a file may have.
pub const FILE_LIMIT: u64 = 4294967295;

// Whether a file is at most that long. Refuses nothing; a caller that is given a whole file asks it first and refuses with 10.
pub fn within_limit(file: &[u8]) -> bool
    ensures { result ≡ within_limit file.now }
{
    file.len() as u64 <= FILE_LIMIT
}

// The bytes of a file within the limit: who is given one need not ask again.
#[derive(Drop)]
pub struct File<'a> {
    bytes: &'a [u8],
}

// Clauses see the bytes.
impl<'a> Model for File<'a> {
    ghost Value = { List ℕ };

    ghost view = { λ file. file.bytes.now };

    ghost invariant = { λ file. length file.bytes.now ≤ file_limit };
}

impl<'a> File<'a> {
    // None of more bytes than a file may have, which the caller refuses with 10.
    pub fn new(bytes: &'a [u8]) -> Option<File<'a>>
        ensures { MatchOption result (within_limit bytes.now ≡ false) (λ file. (within_limit bytes.now ≡ true) × (file ≡ bytes.now)) }
    {
        if !within_limit(bytes) {
            return None;
        }
        Some(File { bytes })
    }

    // All of them. Refuses nothing.
    pub fn bytes(&self) -> &'a [u8]
        ensures same { result.now ≡ self.now }
        ensures within { length result.now ≤ file_limit }
    {
        self.bytes
    }
}
