// Little-endian fields of a byte slice at an offset, a copy to an offset, and a quotient that is 0 for a divisor of 0. A reader or writer
// of a field asks that its bytes are there: whoever calls it has tested that already, and it compiles to one load or one store.
#![tactic(auto)]

pub mod file;

ghost use Rattle.std.specs.Prelude.{◌≡◌, ℕ, ◌+◌, ◌≤◌, length};
ghost use Rattle.fields.specs.Capped.{quotient};
ghost use Rattle.fields.specs.Le.{le, le_bytes, put, put_le};

// A number that the format stores in so many bytes, the lowest first. Each type says how; `read_le` and `write_le` say where.
pub trait LittleEndian {
    // How many bytes it has.
    const WIDTH: usize;

    ghost WIDTH: { ℕ };

    // What it is as a number.
    ghost number: { Self → ℕ };

    // The number that the bytes spell. Refuses nothing: there must be as many as it has.
    fn load(bytes: &[u8]) -> Self
        requires { length bytes.now ≡ WIDTH }
        ensures { number result ≡ le WIDTH bytes.now 0 };

    // Stores its bytes over others. Refuses nothing: there must be as many as it has.
    fn store(self, bytes: &mut [u8])
        requires { length bytes.old ≡ WIDTH }
        ensures { bytes.new ≡ le_bytes WIDTH (number self) };
}

// Most numbers of a wave format.
impl LittleEndian for u16 {
    const WIDTH: usize = 2;

    ghost WIDTH = { 2 };

    ghost number = { λ n. n };

    fn load(bytes: &[u8]) -> u16 {
        u16::from_le_bytes([bytes[0], bytes[1]])
    }

    fn store(self, bytes: &mut [u8]) {
        bytes.copy_from_slice(&u16::to_le_bytes(self));
    }
}

// Tags, lengths and most numbers of the format.
impl LittleEndian for u32 {
    const WIDTH: usize = 4;

    ghost WIDTH = { 4 };

    ghost number = { λ n. n };

    fn load(bytes: &[u8]) -> u32 {
        u32::from_le_bytes([bytes[0], bytes[1], bytes[2], bytes[3]])
    }

    fn store(self, bytes: &mut [u8]) {
        bytes.copy_from_slice(&u32::to_le_bytes(self));
    }
}

// The sample counts of an index.
impl LittleEndian for u64 {
    const WIDTH: usize = 8;

    ghost WIDTH = { 8 };

    ghost number = { λ n. n };

    fn load(bytes: &[u8]) -> u64 {
        u64::from_le_bytes([
            bytes[0], bytes[1], bytes[2], bytes[3], bytes[4], bytes[5], bytes[6], bytes[7],
        ])
    }

    fn store(self, bytes: &mut [u8]) {
        bytes.copy_from_slice(&u64::to_le_bytes(self));
    }
}

// The field at an offset, of as many bytes as its type has. Refuses nothing: the bytes must be there.
pub fn read_le<T: LittleEndian>(buf: &[u8], off: usize) -> T
    requires { off + T.WIDTH ≤ length buf.now }
    ensures { T.number result ≡ le T.WIDTH buf.now off }
{
    T::load(&buf[off..off + T::WIDTH])
}

// Stores a field at an offset and changes no other byte. Refuses nothing: there must be room.
pub fn write_le<T: LittleEndian>(buf: &mut [u8], off: usize, v: T)
    requires { off + T.WIDTH ≤ length buf.old }
    ensures { buf.new ≡ put_le T.WIDTH buf.old off (T.number v) }
{
    v.store(&mut buf[off..off + T::WIDTH]);
}

// The quotient, 0 where the divisor is 0, so that fps 0 needs no case of its own. Refuses nothing.
pub fn quotient(a: u32, b: u32) -> u32
    ensures { result ≡ quotient a b }
{
    a.checked_div(b).unwrap_or(0)
}

// Copies bytes to an offset and changes no other. Refuses nothing: there must be room.
pub fn copy_in(buf: &mut [u8], off: usize, src: &[u8])
    requires { off + length src.now ≤ length buf.old }
    ensures { buf.new ≡ put buf.old off src.now }
{
    buf[off..off + src.len()].copy_from_slice(src);
}
