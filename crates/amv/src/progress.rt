// What a walker tells of the reads so far, for callers that keep one; the methods of `AmvDemuxer` of these names ask here. None of these functions
// refuses: each reads fields.
ghost use Rattle.std.specs.Prelude.{◌≡◌, eqb};
ghost use Rattle.amv.specs.Progress.{matches_eof};

use demuxer::walker::Walker;

// The frames before the next read; the next frame's stamp.
pub fn video_frames_emitted(walker: Walker) -> u64
    ensures { result ≡ walker.position.frames.0 }
{
    walker.position.frames.0
}

// The blocks of sound before the next read: blocks, not samples.
pub fn audio_blocks_emitted(walker: Walker) -> u64
    ensures { result ≡ walker.position.blocks.0 }
{
    walker.position.blocks.0
}

// Whether as many blocks as frames stand before the next read.
pub fn movi_interleave_balanced(walker: Walker) -> bool
    ensures { result ≡ eqb walker.position.frames.0 walker.position.blocks.0 }
{
    video_frames_emitted(walker) == audio_blocks_emitted(walker)
}

// Whether a read has found that the file is cut: that it ends before its trailer, at a chunk or inside one.
pub fn is_truncated(walker: Walker) -> bool
    ensures { result ≡ walker.cut }
{
    walker.cut
}

// Where the trailer stands, once a read has met it.
pub fn trailer_offset(walker: Walker) -> Option<u64>
    ensures { result ≡ walker.trailer }
{
    walker.trailer
}

// Whether the trailer's 8 bytes, once met, are the last of a stream of a length. A difference is asked, since the sum may be past a u64.
pub fn trailer_matches_eof(walker: Walker, stream_len: u64) -> Option<bool>
    ensures { result ≡ matches_eof walker.trailer stream_len }
{
    walker
        .trailer
        .map(|offset| stream_len >= 8 && stream_len - 8 == offset)
}
