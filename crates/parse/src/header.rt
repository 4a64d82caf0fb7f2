// The 56-byte body of `amvh`.
ghost use Rattle.std.specs.Prelude.{◌≡◌, ◌*◌, pos};
ghost use Rattle.error.specs.Refusal.{said};
ghost use Rattle.duration.specs.Duration.{unpacked_of, total_seconds};
ghost use Rattle.parse.specs.Header.{new_header, header_of, header_sentinels};

use duration::AmvDuration;
use error::AmvError;

// The fields of the body that a reader needs; the rest of it is zero, which the strict parse asks.
#[derive(Clone, Copy, Debug, PartialEq, Eq)]
pub struct AmvHeader {
    pub micros_per_frame: u32,
    pub width: u32,
    pub height: u32,
    pub fps: u32,
    pub flag_one: u32,
    pub reserved_30: u32,
    pub duration_packed: u32,
}

impl AmvHeader {
    // The body's length.
    pub const LEN: usize = 56;

    // A header of a picture's size, with the flag set and nothing else. Refuses nothing.
    pub fn new(width: u32, height: u32) -> AmvHeader
        ensures { result ≡ new_header width height }
    {
        AmvHeader {
            micros_per_frame: 0,
            width,
            height,
            fps: 0,
            flag_one: 1,
            reserved_30: 0,
            duration_packed: 0,
        }
    }

    // The fields of a body; fewer than 56 bytes are refused with 28. What they hold is asked by `validate_sentinels`.
    #[tactic(auto, unfolding(crate::specs::Header::header_of, crate::specs::Header::header_fields))]
    pub fn parse(body: &[u8]) -> Result<AmvHeader, AmvError>
        ensures { said result ≡ header_of body.now }
    {
        if body.len() < AmvHeader::LEN {
            return Err(AmvError::HeaderTooShort);
        }
        let header = AmvHeader {
            micros_per_frame: fields::read_le::<u32>(body, 0),
            width: fields::read_le::<u32>(body, 32),
            height: fields::read_le::<u32>(body, 36),
            fps: fields::read_le::<u32>(body, 40),
            flag_one: fields::read_le::<u32>(body, 44),
            reserved_30: fields::read_le::<u32>(body, 48),
            duration_packed: fields::read_le::<u32>(body, 52),
        };
        Ok(header)
    }

    // The run length. Refuses nothing.
    pub fn duration(self) -> AmvDuration
        ensures { result ≡ unpacked_of self.duration_packed }
    {
        AmvDuration::from_packed(self.duration_packed)
    }

    // The run length in microseconds, the unit of the frame interval. Refuses nothing.
    pub fn duration_micros(self) -> i64
        ensures { result ≡ pos (1000000 * total_seconds (unpacked_of self.duration_packed)) }
    {
        let micros = (self.duration().total_seconds() as u64) * 1000000;
        micros as i64
    }

    // Whether it is what a device writes. Refused in this order: fps 0 with 14, another quotient than 1,000,000/fps with 15, a flag that is
    // not 1 with 16, a reserved number that is not 0 with 17.
    #[tactic(auto, unfolding(crate::specs::Header::header_sentinels))]
    pub fn validate_sentinels(self) -> Result<(), AmvError>
        ensures { said result ≡ header_sentinels self }
    {
        if self.fps == 0 {
            return Err(AmvError::ZeroFps);
        }
        if self.micros_per_frame != 1000000 / self.fps {
            return Err(AmvError::WrongMicros);
        }
        if self.flag_one != 1 {
            return Err(AmvError::WrongFlag);
        }
        if self.reserved_30 != 0 {
            return Err(AmvError::NonzeroReserved);
        }
        Ok(())
    }
}
