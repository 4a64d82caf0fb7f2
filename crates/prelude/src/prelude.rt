// The prelude of a file, read and checked.
ghost use Rattle.std.specs.Prelude.{◌≡◌, ◌+◌, ◌≤◌, length, leb};
ghost use Rattle.error.specs.Answer.{accepted};
ghost use Rattle.error.specs.Refusal.{refusal_of, said};
ghost use Rattle.prelude.specs.Layout.{prelude_len, layout, ask_word, ask_body, ask_item, ask_items};
ghost use Rattle.prelude.specs.Prelude.{prelude_fields, parse_of, zeros, zero_ranges, validated_of, strict_of};

use crate::layout::{LAYOUT, LayoutItem};
use error::AmvError;
use parse::header::AmvHeader;
use parse::wave_format::AmvWaveFormat;

// The two bodies.
const HEADER_START: usize = 32;

const HEADER_END: usize = HEADER_START + AmvHeader::LEN;

const WAVE_FORMAT_START: usize = 284;

const WAVE_FORMAT_END: usize = WAVE_FORMAT_START + AmvWaveFormat::LEN;

// What a prelude says: the two bodies, and where the chunks start.
#[derive(Clone, Copy, Debug, PartialEq, Eq)]
pub struct AmvPrelude {
    pub header: AmvHeader,
    pub audio_format: AmvWaveFormat,
    pub movi_payload_start: u64,
}

// Whether the file has len bytes from a place on.
fn reaches(file: &[u8], place: usize, len: usize) -> bool
    ensures { result ≡ leb (place + len) (length file.now) }
{
    place <= file.len() && len <= file.len() - place
}

// A tag or a size: the four bytes are there, and they are the ones expected, or else it is refused as wrong.
#[tactic(auto, unfolding(crate::specs::Layout::ask_word))]
fn require_word(file: &[u8], place: usize, expected: u32, wrong: AmvError) -> Result<(), AmvError>
    ensures { said result ≡ ask_word file.now place expected (refusal_of wrong) }
{
    if reaches(file, place, 4) {
        if fields::read_le::<u32>(file, place) == expected {
            Ok(())
        } else {
            Err(wrong)
        }
    } else {
        Err(AmvError::PreludeCut(place as u64))
    }
}

// A body is there as a whole.
#[tactic(auto, unfolding(crate::specs::Layout::ask_body))]
fn require_body(file: &[u8], place: usize, len: usize) -> Result<(), AmvError>
    ensures { said result ≡ ask_body file.now place len }
{
    if reaches(file, place, len) {
        Ok(())
    } else {
        Err(AmvError::PreludeCut(place as u64))
    }
}

// The question of one item.
fn require_item(file: &[u8], item: LayoutItem) -> Result<(), AmvError>
    ensures { said result ≡ ask_item file.now item }
{
    match item {
        LayoutItem::Tag(place, value) => require_word(
            file,
            place,
            value,
            AmvError::WrongTag(place as u64),
        ),
        LayoutItem::Size(place, value) => require_word(
            file,
            place,
            value,
            AmvError::WrongSize(place as u64),
        ),
        LayoutItem::Body(place, len) => require_body(file, place, len),
    }
}

// The first item that says no.
fn require_layout(file: &[u8]) -> Result<(), AmvError>
    ensures { said result ≡ ask_items file.now layout }
{
    for item in &LAYOUT {
        require_item(file, *item)?;
    }
    Ok(())
}

// Len bytes from a place on are zero, or the first that is not is refused.
fn require_all_zero(file: &[u8], place: usize, len: usize) -> Result<(), AmvError>
    requires { place + len ≤ length file.now }
    ensures { said result ≡ zeros file.now place len }
{
    for at in place..place + len {
        if file[at] != 0 {
            return Err(AmvError::NonzeroByte(at as u64));
        }
    }
    Ok(())
}

// The stretches that a device leaves zero. The length is a clause, here and below, and no array of 316 bytes: the definitions ask a whole file.
#[tactic(auto, using(error::proofs::Answers::passed_on), unfolding(crate::specs::Prelude::zero_ranges))]
fn require_zero_ranges(file: &[u8]) -> Result<(), AmvError>
    requires { prelude_len ≤ length file.now }
    ensures { said result ≡ zero_ranges file.now }
{
    require_all_zero(file, 36, 28)?;
    require_all_zero(file, 108, 56)?;
    require_all_zero(file, 172, 36)?;
    require_all_zero(file, 228, 48)
}

impl AmvPrelude {
    // The prelude's length.
    pub const LEN: usize = 316;

    // The prelude of a file, for every reader. A file past the limit is refused with 10; then item by item in offset order 11 for one that
    // the file cuts off, 12 for another tag, 13 for another size, each at the item's start.
    #[tactic(auto, using(error::proofs::Answers::passed_on), unfolding(crate::specs::Prelude::parse_of))]
    pub fn parse(file: &[u8]) -> Result<AmvPrelude, AmvError>
        ensures { said result ≡ parse_of file.now }
    {
        if !fields::file::within_limit(file) {
            return Err(AmvError::FileTooLong);
        }
        require_layout(file)?;
        AmvPrelude::read(file)
    }

    // The two bodies, of a file that has them.
    #[tactic(auto, using(error::proofs::Answers::passed_on), unfolding(crate::specs::Prelude::prelude_fields))]
    fn read(file: &[u8]) -> Result<AmvPrelude, AmvError>
        requires { prelude_len ≤ length file.now }
        ensures { said result ≡ accepted (prelude_fields file.now) }
    {
        Ok(AmvPrelude {
            header: AmvHeader::parse(&file[HEADER_START..HEADER_END])?,
            audio_format: AmvWaveFormat::parse(&file[WAVE_FORMAT_START..WAVE_FORMAT_END])?,
            movi_payload_start: AmvPrelude::LEN as u64,
        })
    }

    // The same, and whether it is what a device writes: after 10 to 13 the header's 14 to 17, then 18 at the first byte that is not zero, then
    // the wave format's 19 to 24.
    #[tactic(auto, using(error::proofs::Answers::passed_on), unfolding(crate::specs::Prelude::strict_of))]
    pub fn parse_strict(file: &[u8]) -> Result<AmvPrelude, AmvError>
        ensures { said result ≡ strict_of file.now }
    {
        AmvPrelude::parse(file)?.validated(file)
    }

    // What parse_strict goes on to ask.
    #[tactic(auto, using(error::proofs::Answers::passed_on), unfolding(crate::specs::Prelude::validated_of))]
    fn validated(self, file: &[u8]) -> Result<AmvPrelude, AmvError>
        requires { prelude_len ≤ length file.now }
        ensures { said result ≡ validated_of self file.now }
    {
        self.header.validate_sentinels()?;
        require_zero_ranges(file)?;
        self.audio_format.validate_sentinels()?;
        Ok(self)
    }
}
