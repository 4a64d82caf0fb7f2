// A sound block decoded: IMA ADPCM, from the bytes of a block to signed 16-bit samples.
#![tactic(auto)]

mod rises;
mod state;

ghost use Rattle.std.specs.Prelude.{◌≡◌, ◌*◌, ◌≤◌, length, take};
ghost use Rattle.std.proofs.lemmas.List.Edits.{sets};
ghost use Rattle.error.specs.Refusal.{said};
ghost use Rattle.sound.specs.Sound.{Decodes, decode_nibbles, nibbles, sample_questions};

use error::AmvError;
use parse::preamble::{AMV_AUDIO_PREAMBLE_LEN, AmvAudioPreamble};
use state::State;

// Puts the samples of nibbles to the front of a buffer: two for each byte, the high nibble's first, and of an odd count one for the last byte.
// The buffer is written by index: over `chunks_exact_mut` it was tried, and of what the chunks leave in the buffer no clause of the library speaks.
fn put_samples(samples: &mut [i16], bytes: &[u8], first: State, count: usize)
    requires count_bound { count ≤ 2 * length bytes.now }
    requires count_in_bounds { count ≤ length samples.old }
    ensures { samples.new ≡ sets samples.old 0 (decode_nibbles first (take count (nibbles bytes.now))) }
{
    let mut state = first;
    let whole = &bytes[..count / 2];
    for (i, byte) in whole.iter().enumerate() {
        let byte = usize::from(*byte);
        state = state.after(byte / 16);
        samples[2 * i] = state.sample();
        state = state.after(byte % 16);
        samples[2 * i + 1] = state.sample();
    }
    if count % 2 == 1 {
        let last = state.after(usize::from(bytes[count / 2]) / 16);
        samples[count - 1] = last.sample();
    }
}

// The questions 71, 72 and 73, of a block's preamble, the block's length and the buffer's.
#[tactic(auto, using(std::proofs::lemmas::Bool::Decides::nat_tests), unfolding(crate::specs::Sound::sample_questions))]
fn ask_block(preamble: AmvAudioPreamble, len: usize, room: usize) -> Result<(), AmvError>
    requires { 8 ≤ len }
    ensures { said result ≡ sample_questions preamble len room }
{
    if !preamble.step_index_in_ima_range() {
        return Err(AmvError::StepIndexTooLarge);
    }
    if (len as u64) - AMV_AUDIO_PREAMBLE_LEN < preamble.nibble_body_len() {
        return Err(AmvError::NibblesMissing);
    }
    if room < preamble.decoded_sample_count as usize {
        return Err(AmvError::SampleBufferTooShort);
    }
    Ok(())
}

// Decodes a sound block to the front of a buffer, and answers how many samples it has; what the buffer has past them stays. Refused in this
// order, with the buffer as it was: a block shorter than its preamble with 25, a step index above 88 with 71 at 2, a count that the block has
// too few nibbles for with 72 at 4, and a buffer that does not hold all samples with 73. A count of 0 is accepted.
#[tactic(auto, using(error::proofs::Answers::passed_on), unfolding(crate::specs::Sound::decode_of, crate::specs::Sound::block_questions, crate::specs::Sound::sample_questions, parse::specs::Preamble::preamble_of))]
pub fn decode_block(block: &[u8], samples: &mut [i16]) -> Result<u32, AmvError>
    ensures { Decodes block.now samples.old result samples.new }
{
    let preamble = AmvAudioPreamble::parse(block)?;
    ask_block(preamble, block.len(), samples.len())?;
    let (_, bytes) = block.split_at(AMV_AUDIO_PREAMBLE_LEN as usize);
    let count = preamble.decoded_sample_count;
    put_samples(samples, bytes, State::start(preamble), count as usize);
    Ok(count)
}
