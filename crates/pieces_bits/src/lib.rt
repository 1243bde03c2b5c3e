// The bits of a key that one payload shows, so that a film's bits are found while its chunks are read one by one.
// Rule D5a. Ours: the Rust has nothing of the kind.
#![tactic(auto)]

ghost use Rattle.std.specs.Prelude.{◌≡◌};
ghost use Rattle.pieces_bits.specs.PayloadBits.{video_bits, payload_bits};

use mask::SHORTEST_VIDEO;
use unmasking::Mask;

// The bits that a video payload of so many bytes shows.
fn video_bits(len: usize) -> u64
    ensures { result ≡ video_bits len }
{
    if len < SHORTEST_VIDEO {
        0
    } else {
        clip::bits_shown(len)
    }
}

// The bits that a payload shows, by the mask that it has and its length.
pub fn payload_bits(mask: Mask, len: usize) -> u64
    ensures { result ≡ payload_bits mask len }
{
    match mask {
        Mask::Clear => 0,
        Mask::VideoMask => video_bits(len),
        Mask::AudioMask => clip::bits_shown(len),
    }
}
