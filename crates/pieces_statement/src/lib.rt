// The statement of a film that is read piece by piece. What it goes by is gathered chunk by chunk: the bits of a key that the payloads
// show, whether one of them is masked, and how many bytes both streams have.
// Rules S. Ours: the Rust has nothing of the kind.
#![tactic(auto)]

ghost use Rattle.std.specs.Prelude.{◌≡◌};
ghost use Rattle.list.specs.Listing.{list_reply};
ghost use Rattle.statement.specs.Statements.{refused_by};
ghost use Rattle.pieces_statement.specs.Tallies.{is_masked, nothing, with_chunk};
ghost use Rattle.pieces_statement.specs.Stating.{StatedAs};

use chunk::Chunk;
use list::ListReply;
use refusal::{Cause, LONGEST, Refusal};
use unmasking::Mask;

// What a statement goes by, of the chunks so far. Sizes saturate: those of a film never come to more than a size holds.
#[derive(Clone, Copy, Debug, Default, PartialEq, Eq)]
pub struct Tally {
    pub bits: u64,
    pub masked: bool,
    pub video: usize,
    pub audio: usize,
}

// Whether a payload that has such a mask is masked.
fn is_masked(mask: Mask) -> bool
    ensures { result ≡ is_masked mask }
{
    match mask {
        Mask::Clear => false,
        Mask::VideoMask | Mask::AudioMask => true,
    }
}

// The tally of no chunks.
pub fn begin() -> Tally
    ensures { result ≡ nothing }
{
    Tally::default()
}

// The tally with one chunk more, of a film whose audio codec this is.
pub fn with_chunk(tally: Tally, codec: Option<u32>, chunk: Chunk) -> Tally
    ensures { result ≡ with_chunk codec tally chunk }
{
    let mask = chunk_mask::mask_of(codec, chunk.kind, chunk.data_type);
    let video = walk::video_in(chunk.kind, chunk.len);
    let audio = walk::audio_in(chunk.kind, chunk.len);
    Tally {
        bits: tally.bits.max(pieces_bits::payload_bits(mask, chunk.len)),
        masked: tally.masked || is_masked(mask),
        video: tally.video.saturating_add(video),
        audio: tally.audio.saturating_add(audio),
    }
}

// The reply to a refusal of all that is asked, at place 0.
fn refused(cause: Cause) -> ListReply
    ensures { result ≡ list_reply (refused_by cause) }
{
    list::list_reply(refusal::refused(cause, 0))
}

// As `statement::state`, of a film of `total` bytes of which this was gathered, audio chosen.
pub fn state_as(
    total: usize,
    gathered: Result<Tally, Refusal>,
    tenants: &[[u64; 2]],
    lines: &mut [[u64; 3]],
) -> ListReply
    ensures { StatedAs total gathered tenants.now lines.old result lines.new }
{
    if LONGEST < total {
        return refused(Cause::TooLong);
    }
    if tenants::are_bad(tenants) {
        return refused(Cause::BadTenants);
    }
    match gathered {
        Ok(tally) => {
            let size = tally.video.saturating_add(tally.audio);
            statement::state_by(tally.bits, size, tenants, lines)
        }
        Err(refusal) => list::list_reply(Err(refusal)),
    }
}
