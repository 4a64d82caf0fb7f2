// The prelude's fixed items, in offset order.
ghost use Rattle.std.specs.Prelude.{◌≡◌, get_or};
ghost use Rattle.prelude.specs.Layout.{layout, past};

use crate::prelude::AmvPrelude;
use parse::header::AmvHeader;
use parse::wave_format::AmvWaveFormat;

// Tags are numbers, little-endian.
const RIFF: u32 = 0x46464952;

const AMV: u32 = 0x20564d41;

const LIST: u32 = 0x5453494c;

const HDRL: u32 = 0x6c726468;

const AMVH: u32 = 0x68766d61;

const STRL: u32 = 0x6c727473;

const STRH: u32 = 0x68727473;

const STRF: u32 = 0x66727473;

const MOVI: u32 = 0x69766f6d;

// The sizes of the two bodies.
const AMVH_SIZE: u32 = AmvHeader::LEN as u32;

const SOUND_STRF_SIZE: u32 = AmvWaveFormat::LEN as u32;

// Each with its offset: a tag, a size that is fixed, or a body of so many bytes.
#[derive(Clone, Copy, Debug, PartialEq, Eq)]
pub enum LayoutItem {
    Tag(usize, u32),
    Size(usize, u32),
    Body(usize, usize),
}

// The items; reader and builder go through the same list. It is a static: a constant array would be laid out again at each parse, before the first question.
pub static LAYOUT: [LayoutItem; LayoutItem::COUNT] = [
    LayoutItem::Tag(0, RIFF),
    LayoutItem::Tag(8, AMV),
    LayoutItem::Tag(12, LIST),
    LayoutItem::Tag(20, HDRL),
    LayoutItem::Tag(24, AMVH),
    LayoutItem::Size(28, AMVH_SIZE),
    LayoutItem::Body(32, AmvHeader::LEN),
    LayoutItem::Tag(88, LIST),
    LayoutItem::Tag(96, STRL),
    LayoutItem::Tag(100, STRH),
    LayoutItem::Size(104, 56),
    LayoutItem::Tag(164, STRF),
    LayoutItem::Size(168, 36),
    LayoutItem::Tag(208, LIST),
    LayoutItem::Tag(216, STRL),
    LayoutItem::Tag(220, STRH),
    LayoutItem::Size(224, 48),
    LayoutItem::Tag(276, STRF),
    LayoutItem::Size(280, SOUND_STRF_SIZE),
    LayoutItem::Body(284, AmvWaveFormat::LEN),
    LayoutItem::Tag(304, LIST),
    LayoutItem::Tag(312, MOVI),
];

impl LayoutItem {
    // The number of items.
    pub const COUNT: usize = 22;

    // The item of a number. Refuses nothing: past the last stands an empty body, at the first chunk.
    pub fn at(i: usize) -> LayoutItem
        ensures { result ≡ get_or layout i past }
    {
        if i < LAYOUT.len() {
            LAYOUT[i]
        } else {
            LayoutItem::Body(AmvPrelude::LEN, 0)
        }
    }
}
