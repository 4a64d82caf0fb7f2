// The prelude of a new file.
ghost use Rattle.std.specs.Prelude.{◌≡◌, length};
ghost use Rattle.prelude.specs.Layout.{prelude_len, layout};
ghost use Rattle.prelude.specs.Built.{built_of};
ghost use Rattle.prelude.specs.Steps.{Within, write_item, write_items, header_stores, wave_format_stores};

use crate::layout::{LAYOUT, LayoutItem};
use crate::prelude::AmvPrelude;

// The bytes together with the settings that they hold.
#[derive(Clone, Copy, Debug, PartialEq, Eq)]
pub struct BuiltPrelude {
    pub bytes: [u8; AmvPrelude::LEN],
    pub width: u32,
    pub height: u32,
    pub fps: u32,
    pub rate: u32,
    pub channels: u16,
}

// The value of a tag or a size; a body is left as it is.
fn write_item(bytes: &mut [u8; AmvPrelude::LEN], item: LayoutItem)
    requires { Within item }
    ensures { bytes.new ≡ write_item bytes.old item }
{
    match item {
        LayoutItem::Tag(place, value) => fields::write_le::<u32>(bytes, place, value),
        LayoutItem::Size(place, value) => fields::write_le::<u32>(bytes, place, value),
        LayoutItem::Body(_, _) => {}
    }
}

// Every tag and size of the layout.
fn write_layout(bytes: &mut [u8; AmvPrelude::LEN])
    ensures { bytes.new ≡ write_items bytes.old layout }
{
    for item in &LAYOUT {
        write_item(bytes, *item);
    }
}

// The fields of `amvh` that are not zero.
#[tactic(auto, unfolding(crate::specs::Steps::header_stores))]
fn write_header_body(
    bytes: &mut [u8; AmvPrelude::LEN],
    width: u32,
    height: u32,
    fps: u32,
    duration_packed: u32,
)
    ensures { bytes.new ≡ header_stores bytes.old width height fps duration_packed }
{
    fields::write_le::<u32>(bytes, 32, fields::quotient(1000000, fps));
    fields::write_le::<u32>(bytes, 64, width);
    fields::write_le::<u32>(bytes, 68, height);
    fields::write_le::<u32>(bytes, 72, fps);
    fields::write_le::<u32>(bytes, 76, 1);
    fields::write_le::<u32>(bytes, 84, duration_packed);
}

// The fields of the sound format that are not zero.
#[tactic(auto, unfolding(crate::specs::Steps::wave_format_stores))]
fn write_wave_format(bytes: &mut [u8; AmvPrelude::LEN], rate: u32, channels: u16)
    ensures { bytes.new ≡ wave_format_stores bytes.old rate channels }
{
    fields::write_le::<u16>(bytes, 284, 1);
    fields::write_le::<u16>(bytes, 286, channels);
    fields::write_le::<u32>(bytes, 288, rate);
    fields::write_le::<u32>(bytes, 292, rate.saturating_mul(2));
    fields::write_le::<u16>(bytes, 296, 2);
    fields::write_le::<u16>(bytes, 298, 16);
}

// The prelude of a new file with these settings, the first bytes of what the writer writes. Refuses nothing: any settings are built, and
// those with fps above 0 and one channel pass `parse_strict`.
pub fn build_prelude_bytes(
    width: u32,
    height: u32,
    fps: u32,
    duration_packed: u32,
    rate: u32,
    channels: u16,
) -> BuiltPrelude
    ensures { result ≡ built_of width height fps duration_packed rate channels }
{
    let mut bytes = [0u8; AmvPrelude::LEN];
    write_layout(&mut bytes);
    write_header_body(&mut bytes, width, height, fps, duration_packed);
    write_wave_format(&mut bytes, rate, channels);
    BuiltPrelude {
        bytes,
        width,
        height,
        fps,
        rate,
        channels,
    }
}
