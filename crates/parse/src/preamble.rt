// The 8 bytes before the nibbles of a sound block.
ghost use Rattle.std.specs.Prelude.{◌≡◌, ◌+◌, ◌%◌, leb, eqb};
ghost use Rattle.std.specs.Int.{w16};
ghost use Rattle.std.proofs.Common.{to_z};
ghost use Rattle.error.specs.Refusal.{said};
ghost use Rattle.fields.specs.Capped.{quotient};
ghost use Rattle.parse.specs.Preamble.{preamble_of, preamble_sentinels, state_byte, nibble_bytes, padding_slack};

use error::AmvError;

// The preamble's length.
pub const AMV_AUDIO_PREAMBLE_LEN: u64 = 8;

// The largest step index that IMA ADPCM has.
pub const IMA_STEP_INDEX_MAX: u8 = 88;

// The decoder's first state in one number, and how many samples the block holds.
#[derive(Clone, Copy, Debug, PartialEq, Eq)]
pub struct AmvAudioPreamble {
    pub state: u32,
    pub decoded_sample_count: u32,
}

impl AmvAudioPreamble {
    // The preamble of a sound payload; fewer than 8 bytes are refused with 25.
    #[tactic(auto, unfolding(crate::specs::Preamble::preamble_of))]
    pub fn parse(body: &[u8]) -> Result<AmvAudioPreamble, AmvError>
        ensures { said result ≡ preamble_of body.now }
    {
        if body.len() < 8 {
            return Err(AmvError::PreambleTooShort);
        }
        let state = fields::read_le::<u32>(body, 0);
        let decoded_sample_count = fields::read_le::<u32>(body, 4);
        Ok(AmvAudioPreamble {
            state,
            decoded_sample_count,
        })
    }

    // Whether the block holds samples; a count of 0 is refused with 26.
    pub fn validate_sentinels(self) -> Result<(), AmvError>
        ensures { said result ≡ preamble_sentinels self }
    {
        if self.decoded_sample_count == 0 {
            return Err(AmvError::NoSamples);
        }
        Ok(())
    }

    // Whether the count is that of one frame interval. Refuses nothing; for fps 0 only a count of 0 is.
    pub fn is_consistent_with_frame_interval(self, samples_per_sec: u32, fps: u32) -> bool
        ensures { result ≡ eqb self.decoded_sample_count (quotient samples_per_sec fps) }
    {
        self.decoded_sample_count == fields::quotient(samples_per_sec, fps)
    }

    // The bytes that the samples take, two to a byte. Refuses nothing.
    pub fn nibble_body_len(self) -> u64
        ensures { result ≡ nibble_bytes self.decoded_sample_count }
    {
        ((self.decoded_sample_count as u64) + 1) / 2
    }

    // Whether a payload of this length is preamble and samples with nothing after them. Refuses nothing.
    pub fn is_consistent_with_body_len(self, total_payload_len: u64) -> bool
        ensures { result ≡ eqb total_payload_len (8 + nibble_bytes self.decoded_sample_count) }
    {
        total_payload_len == AMV_AUDIO_PREAMBLE_LEN + self.nibble_body_len()
    }

    // How many bytes a payload of this length has after its samples; none where it is too short for them. Refuses nothing.
    pub fn body_padding_slack(self, total_payload_len: u64) -> Option<u64>
        ensures { result ≡ padding_slack (8 + nibble_bytes self.decoded_sample_count) total_payload_len }
    {
        total_payload_len.checked_sub(AMV_AUDIO_PREAMBLE_LEN + self.nibble_body_len())
    }

    // The decoder's first predictor: the low two bytes of the state, as a signed number. Refuses nothing.
    pub fn initial_predictor(self) -> i16
        ensures { result ≡ to_z w16 (self.state % 65536) }
    {
        ((self.state % 65536) as u16).cast_signed()
    }

    // The decoder's first step index: the third byte. Refuses nothing; `step_index_in_ima_range` says whether a decoder has it.
    #[tactic(auto, unfolding(crate::specs::Preamble::state_byte, fields::specs::Le::le_bytes))]
    pub fn initial_step_index(self) -> u8
        ensures { result ≡ state_byte 2 self }
    {
        self.state.to_le_bytes()[2]
    }

    // The fourth byte, which devices leave constant. Refuses nothing.
    #[tactic(auto, unfolding(crate::specs::Preamble::state_byte, fields::specs::Le::le_bytes))]
    pub fn device_constant_byte(self) -> u8
        ensures { result ≡ state_byte 3 self }
    {
        self.state.to_le_bytes()[3]
    }

    // Whether the first step index is one that IMA ADPCM has. Refuses nothing.
    pub fn step_index_in_ima_range(self) -> bool
        ensures { result ≡ leb (state_byte 2 self) 88 }
    {
        self.initial_step_index() <= IMA_STEP_INDEX_MAX
    }
}
