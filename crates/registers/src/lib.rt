// The register block: 16 bytes through which a panel's controller drives a reader, step by step.
#![tactic(auto)]

ghost use Rattle.std.specs.Prelude.{◌≡◌, ◌+◌, cond, ◌++◌, length, drop};
ghost use Rattle.error.specs.Refusal.{said};
ghost use Rattle.std.specs.Int.{w64};
ghost use Rattle.std.proofs.Common.{to_z};
ghost use Rattle.registers.specs.Registers.{command_in, perform, pending_of, front_after, MeetsStep};
ghost use Rattle.registers.specs.Steps.{call_of, said_command, read_done, seek_done, said_performed, DonePlaced};
ghost use Rattle.registers.specs.Steps.{told_of, bits_of, number_of, stamped_by, block_told, result_of};

use demuxer::packet::Packet;
use demuxer::walker::Walker;
use error::AmvError;
use seek::seek_to_via_index;

// The layout of the block: where each register stands, and its bits. They are numbers: the controller writes and reads bytes, as C does.
#[derive(Clone, Copy, Debug, PartialEq, Eq)]
pub struct Registers;

impl Registers {
    // The bytes of a block.
    pub const LEN: usize = 16;

    // What the next step is to do: one of the commands below. A step sets it to 0.
    pub const COMMAND: usize = 0;

    // What became of the last step, by the bits below.
    pub const STATUS: usize = 1;

    // The bits of status that may interrupt.
    pub const ENABLE: usize = 2;

    // The interrupts that are pending, by the bits of status.
    pub const PENDING: usize = 3;

    // The bits of pending that the next step is to clear. A step sets it to 0.
    pub const ACKNOWLEDGE: usize = 4;

    // The number of the read or seek that the last step refused, 0 if none.
    pub const REFUSAL: usize = 5;

    // Eight bytes, signed, little-endian: the request of a seek, and after a step that gave one, a stamp.
    pub const REQUEST: usize = 8;

    // A command: do nothing, but for what every step does.
    pub const NONE: u8 = 0;

    // A command: give the next packet.
    pub const READ: u8 = 1;

    // A command: jump to the picture of the request.
    pub const SEEK_PICTURE: u8 = 2;

    // A command: jump to the sound of the request. Above it there is none.
    pub const SEEK_SOUND: u8 = 3;

    // A bit of status: this step's read gave a packet.
    pub const PACKET: u8 = 1;

    // A bit of status: the walker stands at the end.
    pub const END: u8 = 2;

    // A bit of status: the walker has found the file cut.
    pub const CUT: u8 = 4;

    // A bit of status: this step's read or seek was refused.
    pub const REFUSED: u8 = 8;
}

// A step's answer, and the walker that the next step gets.
#[derive(Clone, Copy, Debug, PartialEq, Eq)]
pub struct RegisterStep {
    pub result: Result<Option<Packet>, AmvError>,
    pub walker: Walker,
}

// The call that a command makes: a seek with its stream, and with the bits of its request. To do nothing is a command too, by its number.
#[derive(Clone, Copy, Debug, PartialEq, Eq)]
pub enum Command {
    None,
    Read,
    Seek(u32, u64),
}

// What a command has done. End is nothing to tell: the walker's mark says it.
#[derive(Clone, Copy, Debug, PartialEq, Eq)]
enum Done {
    Nothing,
    Gave(Packet),
    Went(u64),
    Refused(AmvError),
}

// That, and the walker after it.
#[derive(Clone, Copy, Debug, PartialEq, Eq)]
struct Performed {
    done: Done,
    walker: Walker,
}

// What the block tells of what a command has done, in plain numbers: the stamp of the packet that its read gave, the stamp to which its seek
// went, or the number of the refusal.
#[derive(Clone, Copy, Debug, PartialEq, Eq)]
pub enum Told {
    Nothing,
    Gave(u64),
    Went(u64),
    Refused(u8),
}

// 64 bits as a signed number, the request of a seek. It refuses nothing.
pub fn signed(bits: u64) -> i64
    ensures { result ≡ to_z w64 bits }
{
    bits.cast_signed()
}

// The command of a block, with its request where it is a seek. Refuses with 74 and 75, which alone refuse a step.
#[tactic(auto, unfolding(crate::specs::Registers::command_in, crate::specs::Registers::commanded, crate::specs::Registers::request_in))]
pub fn command_in(block: &[u8]) -> Result<Command, AmvError>
    ensures { said_command result ≡ command_in block.now }
{
    if block.len() != Registers::LEN {
        return Err(AmvError::WrongRegisterBlock);
    }
    let request = fields::read_le::<u64>(block, Registers::REQUEST);
    match block[Registers::COMMAND] {
        Registers::NONE => Ok(Command::None),
        Registers::READ => Ok(Command::Read),
        Registers::SEEK_PICTURE => Ok(Command::Seek(0, request)),
        Registers::SEEK_SOUND => Ok(Command::Seek(1, request)),
        _ => Err(AmvError::UnknownCommand),
    }
}

// What a read has done.
fn read_done(answer: Result<Option<Packet>, AmvError>) -> Done
    ensures { result ≡ read_done answer }
{
    match answer {
        Ok(Some(packet)) => Done::Gave(packet),
        Ok(None) => Done::Nothing,
        Err(e) => Done::Refused(e),
    }
}

// What a seek has done.
fn seek_done(res: Result<u64, AmvError>) -> Done
    ensures { result ≡ seek_done res }
{
    match res {
        Ok(stamp) => Done::Went(stamp),
        Err(refusal) => Done::Refused(refusal),
    }
}

// Performs a command: a read asks nothing about the table, a seek nothing about the file, and no command nothing at all.
fn perform(walker: Walker, file: &[u8], table: &[u8], command: Command) -> Performed
    ensures result_value { said_performed file.now result ≡ perform file.now table.now walker (call_of command) }
    ensures done_placed { DonePlaced file.now walker result.done }
{
    match command {
        Command::None => Performed {
            done: Done::Nothing,
            walker,
        },
        Command::Read => {
            let read = walker.next_packet(file);
            Performed {
                done: read_done(read.answer),
                walker: read.walker,
            }
        }
        Command::Seek(stream, request) => {
            let sought = seek_to_via_index(walker, table, stream, signed(request));
            Performed {
                done: seek_done(sought.result),
                walker: sought.walker,
            }
        }
    }
}

// What the block tells of what a command has done: each number of a refusal fits a byte.
fn told_of(done: Done) -> Told
    ensures { result ≡ told_of done }
{
    match done {
        Done::Nothing => Told::Nothing,
        Done::Gave(packet) => Told::Gave(packet.stamp),
        Done::Went(stamp) => Told::Went(stamp),
        Done::Refused(e) => Told::Refused(e.number() as u8),
    }
}

// The two bits of status that say what a command has done.
fn told_bits(told: Told) -> u8
    ensures { result ≡ bits_of told }
{
    match told {
        Told::Nothing | Told::Went(_) => 0,
        Told::Gave(_) => Registers::PACKET,
        Told::Refused(_) => Registers::REFUSED,
    }
}

// The number of the refusal, 0 if there is none.
fn refusal_number(told: Told) -> u8
    ensures { result ≡ number_of told }
{
    match told {
        Told::Refused(number) => number,
        _ => 0,
    }
}

// A bit of status by a mark of the walker. No `From`: which bit is told by the place.
fn mark_bit(mark: bool, bit: u8) -> u8
    ensures { result ≡ cond mark bit 0 }
{
    if mark { bit } else { 0 }
}

// Status anew: what the command has done, and the walker's marks after it.
fn status_of(told: Told, end: bool, cut: bool) -> u8
    ensures { result ≡ bits_of told + cond end 2 0 + cond cut 4 0 }
{
    told_bits(told) + mark_bit(end, Registers::END) + mark_bit(cut, Registers::CUT)
}

// The block's length is a clause, here and below, and no array: C lends a slice of any length, and another than 16 has an answer (74).

// The interrupts that are pending after a step: those that were and are not acknowledged, and the enabled bits of status that rise.
fn pending_of(block: &[u8], status: u8) -> u8
    requires { length block.now ≡ 16 }
    ensures { result ≡ pending_of block.now status }
{
    let pending = block[Registers::PENDING];
    let acknowledged = block[Registers::ACKNOWLEDGE];
    let enabled = block[Registers::ENABLE];
    let old = block[Registers::STATUS];
    (pending & !acknowledged) | (enabled & (status & !old))
}

// Stores what changes of the first eight bytes: enable and the two free ones stay.
fn put_front(block: &mut [u8], status: u8, refusal: u8)
    requires { length block.old ≡ 16 }
    ensures { block.new ≡ front_after block.old status refusal ++ drop 8 block.old }
{
    let pending = pending_of(block, status);
    block[Registers::COMMAND] = Registers::NONE;
    block[Registers::STATUS] = status;
    block[Registers::PENDING] = pending;
    block[Registers::ACKNOWLEDGE] = 0;
    block[Registers::REFUSAL] = refusal;
}

// Stores the stamp that a command gave, if it gave one.
fn put_stamp(block: &mut [u8], told: Told)
    requires { length block.old ≡ 16 }
    ensures { block.new ≡ stamped_by told block.old }
{
    match told {
        Told::Gave(stamp) | Told::Went(stamp) => {
            fields::write_le::<u64>(block, Registers::REQUEST, stamp)
        }
        Told::Nothing | Told::Refused(_) => {}
    }
}

// Writes the block of a step anew, by what its command has done and the marks of the walker after it. It refuses nothing: a block is asked about
// before its command is performed (command_in).
#[tactic(auto, unfolding(crate::specs::Steps::block_told))]
pub fn write_block(block: &mut [u8], told: Told, end: bool, cut: bool)
    requires { length block.old ≡ 16 }
    ensures { block.new ≡ block_told block.old told end cut }
{
    let status = status_of(told, end, cut);
    put_front(block, status, refusal_number(told));
    put_stamp(block, told);
}

// What a step answers once its command is performed.
fn step_result(done: Done) -> Result<Option<Packet>, AmvError>
    ensures { result ≡ result_of done }
{
    match done {
        Done::Gave(packet) => Ok(Some(packet)),
        _ => Ok(None),
    }
}

// A step of the register block: acknowledges, performs the command on the walker by the file or the table, and writes the block anew; gives the
// packet of a read, so that the panel can show what the controller only commands. Refused in this order, with walker and block as they were: a
// block that has not 16 bytes with 74, a command above 3 with 75. A read or seek that is refused is told in the block.
#[tactic(auto, unfolding(crate::specs::Registers::step_of, crate::specs::Registers::command_in))]
pub fn register_step(walker: Walker, file: &[u8], table: &[u8], block: &mut [u8]) -> RegisterStep
    ensures { MeetsStep file.now table.now walker block.old result block.new }
{
    match command_in(block) {
        Err(e) => RegisterStep {
            result: Err(e),
            walker,
        },
        Ok(command) => {
            let Performed { done, walker } = perform(walker, file, table, command);
            write_block(block, told_of(done), walker.end, walker.cut);
            RegisterStep {
                result: step_result(done),
                walker,
            }
        }
    }
}
