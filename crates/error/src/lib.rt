// The refusals: one case for each question of documents 01 and 02 that a call can answer with no.
#![tactic(auto)]

ghost use Rattle.std.specs.Prelude.{◌≡◌, ◌++◌, codes, Some};
ghost use Rattle.std.specs.Fmt.{decimal};
ghost use Rattle.error.specs.Answer.{number_of, place_of};
ghost use Rattle.error.specs.Refusal.{refusal_of, said};

use std::error::Error;
use std::fmt;

// A refusal as the documents give it: the number of the question, and the place where it was asked.
#[derive(Clone, Copy, Debug, PartialEq, Eq)]
pub struct Refusal {
    pub number: u32,
    pub place: u64,
}

// Why a call refuses: a case for each question, carrying its place where no document fixes it. `refusal` gives each case's number.
#[derive(Clone, Copy, Debug, PartialEq, Eq)]
pub enum AmvError {
    FileTooLong,
    PreludeCut(u64),
    WrongTag(u64),
    WrongSize(u64),
    ZeroFps,
    WrongMicros,
    WrongFlag,
    NonzeroReserved,
    NonzeroByte(u64),
    WrongFormat,
    WrongChannels,
    WrongAverage,
    WrongAlign,
    WrongBits,
    WrongCbSize,
    PreambleTooShort,
    NoSamples,
    WaveFormatTooShort,
    HeaderTooShort,
    ChunkHeaderTooShort,
    UnknownTag(u64),
    StateOutOfRange,
    TableTooShort,
    TableRagged,
    NoSuchStream,
    BadRecord(u64),
    AlreadyBegun(u64),
    NotBegun(u64),
    PayloadTooLong(u64),
    PacketOfNoStream(u64),
    NoRoom(u64),
    AlreadyEnded(u64),
    PreludeMissing(u64),
    ChunkCut(u64),
    AfterTrailer(u64),
    VideoAtOddPosition(u64),
    AudioAtEvenPosition(u64),
    OtherAtPosition(u64),
    OddChunkCount(u64),
    SamplesTooWide(u64),
    StepIndexTooLarge,
    NibblesMissing,
    SampleBufferTooShort,
    WrongRegisterBlock,
    UnknownCommand,
}

impl AmvError {
    // Number and place of a case, in the order of the numbers.
    fn refusal(self) -> Refusal
        ensures { result ≡ refusal_of self }
    {
        match self {
            AmvError::FileTooLong => Refusal {
                number: 10,
                place: 0,
            },
            AmvError::PreludeCut(place) => Refusal { number: 11, place },
            AmvError::WrongTag(place) => Refusal { number: 12, place },
            AmvError::WrongSize(place) => Refusal { number: 13, place },
            AmvError::ZeroFps => Refusal {
                number: 14,
                place: 72,
            },
            AmvError::WrongMicros => Refusal {
                number: 15,
                place: 32,
            },
            AmvError::WrongFlag => Refusal {
                number: 16,
                place: 76,
            },
            AmvError::NonzeroReserved => Refusal {
                number: 17,
                place: 80,
            },
            AmvError::NonzeroByte(place) => Refusal { number: 18, place },
            AmvError::WrongFormat => Refusal {
                number: 19,
                place: 284,
            },
            AmvError::WrongChannels => Refusal {
                number: 20,
                place: 286,
            },
            AmvError::WrongAverage => Refusal {
                number: 21,
                place: 292,
            },
            AmvError::WrongAlign => Refusal {
                number: 22,
                place: 296,
            },
            AmvError::WrongBits => Refusal {
                number: 23,
                place: 298,
            },
            AmvError::WrongCbSize => Refusal {
                number: 24,
                place: 300,
            },
            AmvError::PreambleTooShort => Refusal {
                number: 25,
                place: 0,
            },
            AmvError::NoSamples => Refusal {
                number: 26,
                place: 0,
            },
            AmvError::WaveFormatTooShort => Refusal {
                number: 27,
                place: 0,
            },
            AmvError::HeaderTooShort => Refusal {
                number: 28,
                place: 0,
            },
            AmvError::ChunkHeaderTooShort => Refusal {
                number: 29,
                place: 0,
            },
            AmvError::UnknownTag(place) => Refusal { number: 31, place },
            AmvError::StateOutOfRange => Refusal {
                number: 32,
                place: 0,
            },
            AmvError::TableTooShort => Refusal {
                number: 40,
                place: 0,
            },
            AmvError::TableRagged => Refusal {
                number: 41,
                place: 0,
            },
            AmvError::NoSuchStream => Refusal {
                number: 42,
                place: 0,
            },
            AmvError::BadRecord(place) => Refusal { number: 43, place },
            AmvError::AlreadyBegun(written) => Refusal {
                number: 50,
                place: written,
            },
            AmvError::NotBegun(written) => Refusal {
                number: 51,
                place: written,
            },
            AmvError::PayloadTooLong(written) => Refusal {
                number: 52,
                place: written,
            },
            AmvError::PacketOfNoStream(written) => Refusal {
                number: 53,
                place: written,
            },
            AmvError::NoRoom(written) => Refusal {
                number: 54,
                place: written,
            },
            AmvError::AlreadyEnded(written) => Refusal {
                number: 55,
                place: written,
            },
            AmvError::PreludeMissing(written) => Refusal {
                number: 56,
                place: written,
            },
            AmvError::ChunkCut(place) => Refusal { number: 60, place },
            AmvError::AfterTrailer(place) => Refusal { number: 61, place },
            AmvError::VideoAtOddPosition(position) => Refusal {
                number: 62,
                place: position,
            },
            AmvError::AudioAtEvenPosition(position) => Refusal {
                number: 63,
                place: position,
            },
            AmvError::OtherAtPosition(position) => Refusal {
                number: 64,
                place: position,
            },
            AmvError::OddChunkCount(count) => Refusal {
                number: 65,
                place: count,
            },
            AmvError::SamplesTooWide(place) => Refusal { number: 70, place },
            AmvError::StepIndexTooLarge => Refusal {
                number: 71,
                place: 2,
            },
            AmvError::NibblesMissing => Refusal {
                number: 72,
                place: 4,
            },
            AmvError::SampleBufferTooShort => Refusal {
                number: 73,
                place: 0,
            },
            AmvError::WrongRegisterBlock => Refusal {
                number: 74,
                place: 0,
            },
            AmvError::UnknownCommand => Refusal {
                number: 75,
                place: 0,
            },
        }
    }

    // The number of the question that was answered with no. Refuses nothing.
    pub fn number(self) -> u32
        ensures { result ≡ (refusal_of self).number }
    {
        self.refusal().number
    }

    // The place of the refusal: a byte offset, a position in the interleave check, or 0. Refuses nothing.
    pub fn place(self) -> u64
        ensures { result ≡ (refusal_of self).place }
    {
        self.refusal().place
    }
}

// A refusal in words, as a program tells it to a person: the number of the question, and the place.
impl fmt::Display for AmvError {
    ghost output = { λ e. Some (codes "question " ++ (decimal (refusal_of e).number ++ (codes " at " ++ decimal (refusal_of e).place))) };

    fn fmt<W: fmt::Write>(&self, f: &mut fmt::Formatter<W>) -> fmt::Result {
        write!(f, "question {} at {}", self.number(), self.place())
    }
}

impl Error for AmvError {}

// The number of the question that refused, 0 where the call is accepted: an answer as one number, for callers that have no enums. Refuses nothing.
pub fn number_of<T: Copy>(answer: Result<T, AmvError>) -> u32
    ensures { result ≡ number_of (said answer) }
{
    match answer {
        Ok(_) => 0,
        Err(e) => e.number(),
    }
}

// The refusal's place, 0 where the call is accepted. Refuses nothing.
pub fn place_of<T: Copy>(answer: Result<T, AmvError>) -> u64
    ensures { result ≡ place_of (said answer) }
{
    match answer {
        Ok(_) => 0,
        Err(e) => e.place(),
    }
}
