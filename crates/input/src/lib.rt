// An input read into a lent buffer, with nothing allocated.
#![tactic(auto)]

ghost use Rattle.std.specs.Prelude.{◌≡◌, ◌≢◌, ◌<◌, take, length, IfErr, IfOk, IfSome};
ghost use Rattle.std.specs.IoError.{error_kind};
ghost use Rattle.std.specs.Io.{ReadsAtMost};
ghost use Rattle.std.specs.Io.KnownBytes.{Consumes, IsAtEnd};

use std::io;
use std::io::{ErrorKind, Read};

// Reads to the front of a buffer until that is full or the reader ends, and answers how many bytes it read. A reader may give fewer bytes than
// it has room for: it is asked again, as it is where a signal interrupts a read, until it gives none. Fails where a read does, and after
// 2^64 - 1 reads.
pub fn read_full<R: Read>(input: &mut R, bytes: &mut [u8]) -> io::Result<usize>
    ensures bound { ReadsAtMost result bytes.new }
    ensures front { IfOk result (λ len. IfSome (R.remaining input.old) (λ known. take len bytes.new ≡ take (length bytes.old) known)) }
    ensures rest { IfOk result (λ len. Consumes (R.remaining input.old) (R.remaining input.new) (take len bytes.new)) }
    ensures end { IfOk result (λ len. len < length bytes.new → IsAtEnd (R.remaining input.new)) }
    ensures retried { IfErr result (λ e. error_kind e ≢ ErrorKind.Interrupted) }
{
    let mut len = 0;
    for _ in 0..u64::MAX {
        if len == bytes.len() {
            return Ok(len);
        }
        match input.read(&mut bytes[len..]) {
            Ok(0) => return Ok(len),
            Ok(n) => len += n,
            Err(e) => {
                if e.kind() != ErrorKind::Interrupted {
                    return Err(e);
                }
            }
        }
    }
    Err(io::Error::from(ErrorKind::TimedOut))
}
