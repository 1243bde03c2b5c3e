// Which mask the payload of a chunk has. Rule C7, without the key.
// From the Rust: the masks that `extract_usm_to_memory` chooses.
#![tactic(auto)]

ghost use Rattle.std.specs.Prelude.{◌≡◌};
ghost use Rattle.chunk_mask.specs.ChunkMasks.{mask_of};

use chunk::Kind;
use unmasking::Mask;

// The mask that the payload of a chunk has, in a film whose audio codec this is.
pub fn mask_of(codec: Option<u32>, kind: Kind, data_type: u8) -> Mask
    ensures { result ≡ mask_of codec kind data_type }
{
    match kind {
        Kind::Video => unmasking::video_mask(data_type),
        Kind::Audio => unmasking::audio_mask(codec, data_type),
        Kind::Other => Mask::Clear,
        Kind::End => Mask::Clear,
    }
}
