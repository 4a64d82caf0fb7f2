// Reads a recording from standard input and writes its listing.
#![tactic(auto)]

ghost use Rattle.std.specs.Prelude.{◌+◌, take, IfSome, OnOk};
ghost use Rattle.std.specs.Io.KnownBytes.{Appends};
ghost use Rattle.listing.specs.Listing.{input_limit, listing_of};

use input::read_full;
use listing::{INPUT_LIMIT, ROOM, list};
use std::io;
use std::io::{Read, Write};

// Writes the listing of what a reader gives. One byte over the limit tells a longer input, so no more is read. Fails where a read or a write does.
fn write_listing<R: Read, W: Write>(input: &mut R, out: &mut W) -> io::Result<()>
    ensures { OnOk result (IfSome (R.remaining input.old) (λ bytes.
        Appends (W.contents out.old) (W.contents out.new) (listing_of (take (input_limit + 1) bytes)))) }
{
    let mut bytes = [0u8; INPUT_LIMIT + 1];
    let len = read_full(input, &mut bytes)?;
    let mut lines = [0u8; ROOM];
    let end = list(&bytes[..len], &mut lines);
    out.write_all(&lines[..end])
}

fn main(rt: HostRuntime) -> io::Result<()> {
    write_listing(&mut rt.stdin(), &mut rt.stdout())
}
