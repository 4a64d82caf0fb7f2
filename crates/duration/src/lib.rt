// The run length: hours, minutes and seconds, a byte each.
#![tactic(auto)]

ghost use Rattle.std.specs.Prelude.{◌≡◌};
ghost use Rattle.duration.specs.Duration.{unpacked_of, packed_of, total_seconds, run_length, same_duration, consistency, device_conformant};

// A run length as the file has it. Two are equal where all three parts are.
#[derive(Clone, Copy, Debug, PartialEq, Eq)]
pub struct AmvDuration {
    pub seconds: u8,
    pub minutes: u8,
    pub hours: u8,
}

// How a header's run length relates to the one that a frame count gives.
#[derive(Clone, Copy, Debug, PartialEq, Eq)]
pub enum DurationConsistency {
    Exact,
    // One second less, as some devices write it.
    TruncatedByOneSecond,
    Mismatch,
}

impl AmvDuration {
    // The longest run length of a frame count, in seconds: 255 h 59 min 59 s.
    pub const MAX_SECONDS: u64 = 921599;

    // The run length of a packed number; its fourth byte is not looked at. Refuses nothing. No `From`: the name is the original's, and so is that of
    // `to_packed`.
    pub fn from_packed(packed: u32) -> AmvDuration
        ensures { result ≡ unpacked_of packed }
    {
        let [seconds, minutes, hours, _] = packed.to_le_bytes();
        AmvDuration {
            seconds,
            minutes,
            hours,
        }
    }

    // The packed number, its fourth byte 0: what the writer patches into the header. Refuses nothing.
    pub fn to_packed(self) -> u32
        ensures { result ≡ packed_of self }
    {
        u32::from_le_bytes([self.seconds, self.minutes, self.hours, 0])
    }

    // The run length in seconds. Refuses nothing.
    pub fn total_seconds(self) -> u32
        ensures { result ≡ total_seconds self }
    {
        (self.hours as u32) * 3600 + (self.minutes as u32) * 60 + (self.seconds as u32)
    }

    // The run length of so many frames, rounded down to seconds, zeros for fps 0. More than `MAX_SECONDS` are 255 h 59 min 59 s, so minutes and
    // seconds are at most 59. Refuses nothing.
    pub fn from_frame_count(frame_count: u64, fps: u32) -> AmvDuration
        ensures { result ≡ run_length frame_count fps }
    {
        let whole_seconds = frame_count.checked_div(fps as u64).unwrap_or(0);
        let total_seconds = whole_seconds.min(AmvDuration::MAX_SECONDS);
        let hours = total_seconds / 3600;
        let after_hours = total_seconds - 3600 * hours;
        AmvDuration {
            seconds: (after_hours % 60) as u8,
            minutes: (after_hours / 60) as u8,
            hours: hours as u8,
        }
    }

    // Whether this is the run length of so many frames, as `from_frame_count` has it. Refuses nothing.
    pub fn is_consistent_with_frame_count(self, frame_count: u64, fps: u32) -> bool
        ensures { result ≡ same_duration self (run_length frame_count fps) }
    {
        self == AmvDuration::from_frame_count(frame_count, fps)
    }

    // The same as a grade, since some devices write one second less. What the original's rule gives above `MAX_SECONDS` is a mismatch. Refuses
    // nothing.
    pub fn consistency_with_frame_count(self, frame_count: u64, fps: u32) -> DurationConsistency
        ensures { result ≡ consistency self (run_length frame_count fps) }
    {
        let derived = AmvDuration::from_frame_count(frame_count, fps);
        if self == derived {
            return DurationConsistency::Exact;
        }
        if self.total_seconds() + 1 == derived.total_seconds() {
            return DurationConsistency::TruncatedByOneSecond;
        }
        DurationConsistency::Mismatch
    }
}

impl DurationConsistency {
    // Whether a device may have written it: exact, or one second less. Refuses nothing.
    pub fn is_device_conformant(self) -> bool
        ensures { result ≡ device_conformant self }
    {
        self != DurationConsistency::Mismatch
    }
}
