// The `WAVEFORMATEX` of the sound.
ghost use Rattle.std.specs.Prelude.{◌≡◌};
ghost use Rattle.error.specs.Refusal.{said};
ghost use Rattle.fields.specs.Capped.{quotient};
ghost use Rattle.parse.specs.WaveFormat.{new_wave_format, wave_format_of, cb_size_of, wave_format_sentinels};

use error::AmvError;

// Microsoft's fields, by its names.
#[derive(Clone, Copy, Debug, PartialEq, Eq)]
pub struct AmvWaveFormat {
    pub format_tag: u16,
    pub channels: u16,
    pub samples_per_sec: u32,
    pub avg_bytes_per_sec: u32,
    pub block_align: u16,
    pub bits_per_sample: u16,
    pub cb_size: u16,
}

// A body shorter than that of a file has no `cbSize`: it counts as 0, whatever stands there.
#[tactic(auto, unfolding(crate::specs::WaveFormat::cb_size_of))]
fn cb_size(body: &[u8]) -> u16
    ensures { result ≡ cb_size_of body.now }
{
    if body.len() < AmvWaveFormat::LEN {
        0
    } else {
        fields::read_le::<u16>(body, 16)
    }
}

impl AmvWaveFormat {
    // The body's length in a file.
    pub const LEN: usize = 20;

    // The shortest body that is read.
    pub const MIN_LEN: usize = 18;

    // What a device writes at a sample rate: one channel of 16-bit PCM. Refuses nothing.
    pub fn new(samples_per_sec: u32) -> AmvWaveFormat
        ensures { result ≡ new_wave_format samples_per_sec }
    {
        AmvWaveFormat {
            format_tag: 1,
            channels: 1,
            samples_per_sec,
            avg_bytes_per_sec: samples_per_sec.saturating_mul(2),
            block_align: 2,
            bits_per_sample: 16,
            cb_size: 0,
        }
    }

    // The fields of a body; fewer than 18 bytes are refused with 27. What they hold is asked by `validate_sentinels`.
    #[tactic(auto, unfolding(crate::specs::WaveFormat::wave_format_of, crate::specs::WaveFormat::wave_format_fields))]
    pub fn parse(body: &[u8]) -> Result<AmvWaveFormat, AmvError>
        ensures { said result ≡ wave_format_of body.now }
    {
        if body.len() < AmvWaveFormat::MIN_LEN {
            return Err(AmvError::WaveFormatTooShort);
        }
        let format = AmvWaveFormat {
            format_tag: fields::read_le::<u16>(body, 0),
            channels: fields::read_le::<u16>(body, 2),
            samples_per_sec: fields::read_le::<u32>(body, 4),
            avg_bytes_per_sec: fields::read_le::<u32>(body, 8),
            block_align: fields::read_le::<u16>(body, 12),
            bits_per_sample: fields::read_le::<u16>(body, 14),
            cb_size: cb_size(body),
        };
        Ok(format)
    }

    // The samples of one frame interval, 0 for fps 0. Refuses nothing.
    pub fn frame_interval_samples(self, fps: u32) -> u32
        ensures { result ≡ quotient self.samples_per_sec fps }
    {
        fields::quotient(self.samples_per_sec, fps)
    }

    // Whether it is what a device writes, at any sample rate. Refused in this order: format 19, channels 20, average 21, align 22, bits 23,
    // cbSize 24.
    #[tactic(auto, unfolding(crate::specs::WaveFormat::wave_format_sentinels))]
    pub fn validate_sentinels(self) -> Result<(), AmvError>
        ensures { said result ≡ wave_format_sentinels self }
    {
        if self.format_tag != 1 {
            return Err(AmvError::WrongFormat);
        }
        if self.channels != 1 {
            return Err(AmvError::WrongChannels);
        }
        if self.avg_bytes_per_sec != self.samples_per_sec.saturating_mul(2) {
            return Err(AmvError::WrongAverage);
        }
        if self.block_align != 2 {
            return Err(AmvError::WrongAlign);
        }
        if self.bits_per_sample != 16 {
            return Err(AmvError::WrongBits);
        }
        if self.cb_size != 0 {
            return Err(AmvError::WrongCbSize);
        }
        Ok(())
    }
}
