// The letters and markers by which blocks and chunks are told. Rules H and C.
#![tactic(auto)]

ghost use Rattle.std.specs.Prelude.{◌≡◌};
ghost use Rattle.signature.specs.Signatures.{stands_at};

// `CRID`, which a container begins with.
pub const CRID: usize = 0x43524944;

// `@SFV`, a block or chunk of video.
pub const SFV: usize = 0x40534656;

// `@SFA`, a block or chunk of audio.
pub const SFA: usize = 0x40534641;

// The bytes of a block's or a chunk's letters.
pub const LETTERS: usize = 4;

// Where a block has its table or marker, and a chunk its payload or marker.
pub const INSIDE: usize = 0x20;

// Whether a marker stands whole at a place.
#[tactic(auto, using(crate::proofs::SameLaws::equal_slices))]
pub fn stands_at(marker: &[u8], bytes: &[u8], place: usize) -> bool
    ensures { result ≡ stands_at marker.now bytes.now place }
{
    part::part_at(bytes, place, marker.len()) == marker
}
