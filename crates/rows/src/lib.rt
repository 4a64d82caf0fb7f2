// Calls that slices of one length tell, each answered by a row of numbers in a lent slice: the question whether a list of them is run, and
// definitions and laws of the rows.
#![tactic(auto)]

ghost use Rattle.std.specs.Prelude.{◌≡◌, ◌+◌, ◌*◌, ◌≤◌, Some, length};
ghost use Rattle.fields.specs.Le.{put};
ghost use Rattle.rows.specs.Rows.{one_length, all_or_none, reason};

use std::error::Error;
use std::fmt;

// Why none of a list's calls is run.
#[derive(Clone, Copy, Debug, PartialEq, Eq)]
pub enum RowsError {
    // The calls' slices are not of one length.
    Unequal,
    // The rows have no room for the answers.
    NoRoom,
}

// The reason in words, as a program tells it to a person.
impl fmt::Display for RowsError {
    ghost output = { λ e. Some (reason e) };

    fn fmt<W: fmt::Write>(&self, f: &mut fmt::Formatter<W>) -> fmt::Result {
        match self {
            RowsError::Unequal => f.write_str("the calls' slices are not of one length"),
            RowsError::NoRoom => f.write_str("the rows have no room for the answers"),
        }
    }
}

impl Error for RowsError {}

// Whether every slice beside the first is of its length.
fn one_length(count: usize, others: &[usize]) -> bool
    ensures { result ≡ one_length count others.now }
{
    others.iter().all(|len| *len == count)
}

// Whether a list of calls is run whole: count calls in a first slice, the lengths of the slices beside it, and the rows that there is room for.
// Refuses a length that is not the count with Unequal, and then room for fewer rows than calls with NoRoom.
pub fn all_or_none(count: usize, others: &[usize], room: usize) -> Result<(), RowsError>
    ensures { result ≡ all_or_none count others.now room }
{
    if !one_length(count, others) {
        return Err(RowsError::Unequal);
    }
    if room < count {
        return Err(RowsError::NoRoom);
    }
    Ok(())
}

// Puts row i of rows of one length, and changes no other number. Refuses nothing: there must be room.
// Number by number: by `copy_from_slice` a read of `run_calls` took 10.2 ns, so 7.1 ns (and with six stores written out 8.3 ns).
pub fn put_row<const N: usize>(rows: &mut [u64], i: usize, row: &[u64; N])
    requires { i * N + N ≤ length rows.old }
    ensures { rows.new ≡ put rows.old (i * N) row.now }
{
    let at = i * N;
    for k in 0..N {
        rows[at + k] = row[k];
    }
}
