// Replays stored calls and prints what the library answers. The stored output is what the Rust original answered, and for what it does
// not have, what documents 01 and 02 fix.
#![tactic(auto)]

mod case;
mod function;
mod print;
mod run;

use case::{Cases, Cut};
use function::Function;
use input::read_full;
use print::{print_count, print_cut};
use run::run_case;
use std::io;
use std::io::Write;

// The longest input that is replayed, in bytes.
const INPUT_ROOM: usize = 524_288;

fn print_counts(printer: &mut impl Write, counts: [u64; Function::COUNT]) -> io::Result<()> {
    for function in Function::COUNTED {
        print_count(printer, function.name(), counts[function.number()])?;
    }
    Ok(())
}

// Every case in turn, then how many there were of each function.
fn replay(printer: &mut impl Write, input: &[u8]) -> io::Result<()> {
    let mut counts = [0u64; Function::COUNT];
    for case in Cases::of(input) {
        match case {
            Ok(case) => {
                run_case(printer, &case)?;
                let function = case.function.number();
                counts[function] = counts[function].wrapping_add(1);
            }
            Err(Cut { at }) => return print_cut(printer, at as u64),
        }
    }
    print_counts(printer, counts)
}

fn main(rt: HostRuntime) -> io::Result<()> {
    let mut input = [0u8; INPUT_ROOM];
    let len = read_full(&mut rt.stdin(), &mut input)?;
    replay(&mut rt.stdout(), &input[..len])
}
