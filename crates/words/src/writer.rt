// A writer as nine words: width, height, fps, rate, channels, begun, ended, written, frames.
ghost use Rattle.std.specs.Prelude.{◌≡◌};
ghost use Rattle.words.specs.State.{writer_of, said_writer, writer_words, counts_into};

use crate::walker::{mark_of, mark_word};
use muxer::{Settings, Writer};

// The writer that nine words spell. None where a word is over its field's range, so that no conversion loses bits.
#[tactic(auto, unfolding(crate::specs::State::settings_legal, crate::specs::State::writer_legal))]
pub fn writer_of(words: [u64; 9]) -> Option<Writer>
    ensures { said_writer result ≡ writer_of words }
{
    let [
        width,
        height,
        fps,
        rate,
        channels,
        begun,
        ended,
        written,
        frames,
    ] = words;
    Some(Writer {
        settings: Settings {
            width: u32::try_from(width).ok()?,
            height: u32::try_from(height).ok()?,
            fps: u32::try_from(fps).ok()?,
            rate: u32::try_from(rate).ok()?,
            channels: u16::try_from(channels).ok()?,
        },
        begun: mark_of(begun)?,
        ended: mark_of(ended)?,
        written,
        frames,
    })
}

// The nine words of a writer, as a call leaves them for the next one.
pub fn writer_words(writer: Writer) -> [u64; 9]
    ensures { result ≡ writer_words writer }
{
    let settings = writer.settings;
    [
        u64::from(settings.width),
        u64::from(settings.height),
        u64::from(settings.fps),
        u64::from(settings.rate),
        u64::from(settings.channels),
        mark_word(writer.begun),
        mark_word(writer.ended),
        writer.written,
        writer.frames,
    ]
}

// The words of the same writer at other counts: the settings and the marks stay, so a packet stores two words and not nine.
pub fn at_counts(words: [u64; 9], written: u64, frames: u64) -> [u64; 9]
    ensures { result ≡ counts_into written frames words }
{
    let [width, height, fps, rate, channels, begun, ended, _, _] = words;
    [
        width, height, fps, rate, channels, begun, ended, written, frames,
    ]
}
