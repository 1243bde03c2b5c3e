// What is replied on a film that is read piece by piece: on its beginning, and on a window at a place.
// Ours, beyond the rules, as `replies` is.
#![tactic(auto)]

ghost use Rattle.std.specs.Prelude.{◌≡◌};
ghost use Rattle.piece_replies.specs.PieceReplies.{chunk_reply, found_reply, said_by, step_reply, answer_as, chunks_in, open_reply};

use chunk::Chunk;
use extract::Contents;
use header::Header;
use refusal::Refusal;
use replies::FilmReply;

// What stands at a place. `found` is 0 where the chunks are over, 1 where there is a chunk, 2 where the window is too short
// to say. What has no meaning in it is 0; no chunk is refused for a column's type.
#[repr(C)]
#[derive(Clone, Copy, Default)]
pub struct StepReply {
    pub refused_at: usize,
    pub next: usize,
    pub payload: usize,
    pub length: usize,
    pub number: u8,
    pub unknown_type: u8,
    pub found: u8,
    pub kind: u8,
    pub data_type: u8,
    pub channel: u8,
    pub mask: u8,
}

// What a film's beginning says: as on a film, without the sizes; where the chunks begin; and whether more bytes are needed to
// say. What has no meaning in it is 0.
#[repr(C)]
#[derive(Clone, Copy, Default)]
pub struct OpenReply {
    pub film: FilmReply,
    pub chunks: usize,
    pub more: u8,
}

// A chunk's numbers, and that of the mask its payload has.
fn chunk_reply(chunk: Chunk, codec: Option<u32>) -> StepReply
    ensures { result ≡ chunk_reply codec chunk }
{
    let kind = chunk.kind;
    let mask = chunk_mask::mask_of(codec, kind, chunk.data_type);
    StepReply {
        next: chunk.next,
        payload: chunk.payload,
        length: chunk.len,
        found: 1,
        kind: chunk::kind_number(kind),
        data_type: chunk.data_type,
        channel: chunk.channel,
        mask: unmasking::mask_number(mask),
        ..StepReply::default()
    }
}

// A reply that names no chunk.
fn bare(place: usize, number: u8, found: u8) -> StepReply
    ensures { result ≡ found_reply place number found }
{
    StepReply {
        refused_at: place,
        number,
        found,
        ..StepReply::default()
    }
}

// A step as C reads it.
fn said(step: Result<Option<Chunk>, Refusal>, codec: Option<u32>) -> StepReply
    ensures { result ≡ said_by codec step }
{
    match step {
        Ok(None) => bare(0, 0, 0),
        Ok(Some(chunk)) => chunk_reply(chunk, codec),
        Err(refusal) => bare(refusal.place, refusal::number_of(refusal.cause), 0),
    }
}

// What a window says of a film whose audio codec this is.
pub fn step_reply(stepped: Option<Result<Option<Chunk>, Refusal>>, codec: Option<u32>) -> StepReply
    ensures { result ≡ step_reply codec stepped }
{
    match stepped {
        None => bare(0, 0, 2),
        Some(step) => said(step, codec),
    }
}

// A header as an answer on a film of which no size is known.
fn answer_as(header: Result<Header, Refusal>) -> Result<Contents, Refusal>
    ensures { result ≡ answer_as header }
{
    Ok(extract::contents_of(header?, 0, 0))
}

// Where the chunks begin, 0 where that is not known.
fn chunks_in(header: Result<Header, Refusal>) -> usize
    ensures { result ≡ chunks_in header }
{
    header.map_or(0, |read| read.start)
}

// What a beginning says. A film without a name has none of its own: no fallback is given.
pub fn open_reply(opened: Option<Result<Header, Refusal>>) -> OpenReply
    ensures { result ≡ open_reply opened }
{
    match opened {
        None => OpenReply {
            more: 1,
            ..OpenReply::default()
        },
        Some(header) => OpenReply {
            film: replies::film_reply(answer_as(header), 0),
            chunks: chunks_in(header),
            more: 0,
        },
    }
}
