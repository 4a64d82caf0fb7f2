// A packet, and its payload as a part of the file.
ghost use Rattle.std.specs.Prelude.{◌≡◌};
ghost use Rattle.demuxer.specs.Packet.{payload_of, packet_duration};

// What a read gives: the stream, where its payload stands in the file, and when and how long it is shown.
#[derive(Clone, Copy, Debug, PartialEq, Eq)]
pub struct Packet {
    // 0 for frames, 1 for sound: a number, since calls are given any and refuse another (42, 53), and C has it as a word.
    pub stream: u32,
    pub start: usize,
    pub len: usize,
    pub stamp: u64,
    pub duration: Option<u64>,
}

// A sound block's duration by its count; a zero one is shown as none. Refuses nothing.
pub fn shown(count: u32) -> Option<u64>
    ensures { result ≡ packet_duration count }
{
    if count == 0 { None } else { Some(count as u64) }
}

// The part of the file that a packet names, so that a packet carries no bytes. Refuses nothing: empty where the file does not reach so far.
#[tactic(auto, unfolding(crate::specs::Packet::payload_of))]
pub fn payload(file: &[u8], packet: Packet) -> &[u8]
    ensures { result.now ≡ payload_of file.now packet }
{
    let Packet { start, len, .. } = packet;
    if start <= file.len() && len <= file.len() - start {
        &file[start..start + len]
    } else {
        &file[0..0]
    }
}
