// One chunk of a container, and its payload as a part of the container. Rules C.
// From the Rust: `read_chunk_header`, `read_data_len`, and which chunks `extract_usm_chunks_to_memory` takes.
#![tactic(auto)]

ghost use Rattle.std.specs.Prelude.{◌≡◌, ◌+◌, ◌-◌, ◌≤◌, ◌<◌, ◌^◌, length};
ghost use Rattle.signature.specs.Signatures.{contents_end, stands_at};
ghost use Rattle.chunk.specs.Openings.{kind_at, opening_at};
ghost use Rattle.chunk.specs.Chunks.{kind_number, is_taken, offset_of, is_short, chunk_of, refused_at, ended_at, held_at, taken_at, opened_at, chunk_at, PayloadOf, PayloadAt};
ghost use Rattle.chunk.specs.Windows.{step_in};

use reading::{Applied, PayloadMode};
use refusal::{Cause, Refusal};

// What a chunk is.
#[derive(Clone, Copy)]
pub enum Kind {
    Video,
    Audio,
    Other,
    End,
}

// What the opening of a chunk says: what it is, the sizes of its block, header and footer, its channel, its data type.
#[derive(Clone, Copy)]
pub struct Opening {
    pub kind: Kind,
    pub block: u32,
    pub header: u16,
    pub footer: u16,
    pub channel: u8,
    pub data_type: u8,
}

// A chunk: where it starts, what it is, its channel, its data type, where the next one starts, where its payload starts and
// how long that is (0 if it is skipped).
#[derive(Clone, Copy)]
pub struct Chunk {
    pub start: usize,
    pub kind: Kind,
    pub channel: u8,
    pub data_type: u8,
    pub next: usize,
    pub payload: usize,
    pub len: usize,
}

// The bytes that every chunk has: as many as an end chunk needs.
pub const OPENING: usize = 45;

// The bytes of a chunk that its header size does not count.
const UNCOUNTED: usize = 8;

// The least header size of a payload that stands after its header.
const LEAST_HEADER: u16 = 0x18;

// The number of a kind, as C reads it.
pub fn kind_number(kind: Kind) -> u8
    ensures { result ≡ kind_number kind }
{
    match kind {
        Kind::Video => 0,
        Kind::Audio => 1,
        Kind::Other => 2,
        Kind::End => 3,
    }
}

// Whether the chunk is an end that some bytes begin with.
pub fn is_end(bytes: &[u8]) -> bool
    ensures { result ≡ stands_at contents_end bytes.now 0x20 }
{
    signature::stands_at(b"#CONTENTS END", bytes, signature::INSIDE)
}

// What the chunk is that some bytes begin with. Public, it would stay out of line, and every walk take 7 in 100 more
// instructions.
fn kind_of(bytes: &[u8]) -> Kind
    ensures { result ≡ kind_at bytes.now 0 }
{
    if is_end(bytes) {
        return Kind::End;
    }
    let letters = word::read32(bytes, 0);
    if letters == signature::SFV {
        return Kind::Video;
    }
    if letters == signature::SFA {
        return Kind::Audio;
    }
    Kind::Other
}

// The opening of the chunk that some bytes begin with.
fn opening_of(bytes: &[u8]) -> Opening
    ensures { result ≡ opening_at bytes.now 0 }
{
    let kind = kind_of(bytes);
    let block = word::read32(bytes, 4) as u32;
    let header = word::read16(bytes, 8) as u16;
    let footer = word::read16(bytes, 10) as u16;
    let channel = word::read8(bytes, 12) as u8;
    let data_type = (word::read8(bytes, 15) % 4) as u8;
    Opening {
        kind,
        block,
        header,
        footer,
        channel,
        data_type,
    }
}

// The opening of the chunk at a place. Reads of a part whose length is known need no test that the bytes are there.
fn opening_at(container: &[u8], place: usize) -> Opening
    requires { place + 45 ≤ length container.now }
    ensures { result ≡ opening_at container.now place }
{
    let end = place + OPENING;
    opening_of(&container[place..end])
}

// Whether the payload of a chunk of such a kind and channel is taken.
fn is_taken(reading: Applied, kind: Kind, channel: u8) -> bool
    ensures { result ≡ is_taken reading kind channel }
{
    match kind {
        Kind::Video => true,
        Kind::Audio => {
            let choice = reading.audio;
            reading::takes_channel(choice, channel)
        }
        Kind::Other => false,
        Kind::End => false,
    }
}

// How many bytes after a chunk's start its payload stands.
fn offset_of(mode: PayloadMode, opening: Opening) -> usize
    ensures { (result ≡ offset_of mode opening) × (result < 2 ^ 32) }
{
    match mode {
        PayloadMode::Original => signature::INSIDE,
        PayloadMode::AfterHeader => UNCOUNTED + opening.header as usize,
    }
}

// Whether the header is too short for a payload after it.
fn is_short(mode: PayloadMode, opening: Opening) -> bool
    ensures { result ≡ is_short mode opening }
{
    match mode {
        PayloadMode::Original => false,
        PayloadMode::AfterHeader => opening.header < LEAST_HEADER,
    }
}

// The chunk of an opening at a place, with a payload of a length so many bytes on.
fn chunk_of(place: usize, opening: Opening, offset: usize, len: usize) -> Chunk
    requires { (place < 2 ^ 63) × (offset < 2 ^ 32) }
    ensures { result ≡ chunk_of place opening offset len }
{
    let next = place + UNCOUNTED + opening.block as usize;
    let payload = place + offset;
    let kind = opening.kind;
    Chunk {
        start: place,
        kind,
        channel: opening.channel,
        data_type: opening.data_type,
        next,
        payload,
        len,
    }
}

// The chunk at a place of a container of `total` bytes, whose payload stands so many bytes on: it has to be there in full.
fn held_at(
    total: usize,
    place: usize,
    opening: Opening,
    offset: usize,
) -> Result<Option<Chunk>, Refusal>
    requires { (place < 2 ^ 63) × (offset < 2 ^ 32) }
    ensures { result ≡ held_at total place opening offset }
{
    let block = opening.block as usize;
    let spare = opening.header as usize + opening.footer as usize;
    if block < spare {
        return refusal::refused(Cause::TooSmall, place);
    }
    let len = block - spare;
    if total < place + offset + len {
        return refusal::refused(Cause::RanOut, place);
    }
    Ok(Some(chunk_of(place, opening, offset, len)))
}

// The chunk at a place, whose payload is taken.
fn taken_at(
    total: usize,
    place: usize,
    mode: PayloadMode,
    opening: Opening,
) -> Result<Option<Chunk>, Refusal>
    requires { place < 2 ^ 63 }
    ensures { result ≡ taken_at total mode place opening }
{
    if is_short(mode, opening) {
        return refusal::refused(Cause::ShortHeader, place);
    }
    held_at(total, place, opening, offset_of(mode, opening))
}

// The chunk at a place, by its opening: a payload that is not taken is not looked at.
fn opened_at(
    total: usize,
    place: usize,
    reading: Applied,
    opening: Opening,
) -> Result<Option<Chunk>, Refusal>
    requires { place < 2 ^ 63 }
    ensures { result ≡ opened_at total reading place opening }
{
    let kind = opening.kind;
    if is_taken(reading, kind, opening.channel) {
        let mode = reading.payloads;
        return taken_at(total, place, mode, opening);
    }
    Ok(Some(chunk_of(place, opening, signature::INSIDE, 0)))
}

// That the chunks end at a place, or are cut there: so few bytes are left that no opening is.
fn ended_at(left: usize, place: usize) -> Result<Option<Chunk>, Refusal>
    ensures { result ≡ ended_at left place }
{
    if left < signature::LETTERS {
        return Ok(None);
    }
    refusal::refused(Cause::RanOut, place)
}

// How many of so many bytes stand from a place on.
fn left_of(total: u32, place: usize) -> usize
    ensures { result ≡ total - place }
{
    let all = total as usize;
    if place < all {
        return all - place;
    }
    0
}

// The chunk at a place, or that the chunks end there, or why it is refused. `reading` is how this film is read: where the
// film has no audio, `reading::applied_to` has said so.
pub fn chunk_at(container: &[u8], place: usize, reading: Applied) -> Result<Option<Chunk>, Refusal>
    ensures { result ≡ chunk_at container.now reading place }
{
    let left = word::left_from(container, place);
    if left < OPENING {
        return ended_at(left, place);
    }
    opened_at(
        container.len(),
        place,
        reading,
        opening_at(container, place),
    )
}

// The chunk at a place of a container of `total` bytes, by a window: the bytes that stand there, or the first of them. 45 are
// enough. So a container is read piece by piece.
pub fn step_in(
    window: &[u8],
    place: usize,
    total: u32,
    reading: Applied,
) -> Option<Result<Option<Chunk>, Refusal>>
    ensures { result ≡ step_in window.now total reading place }
{
    let left = left_of(total, place);
    if left < OPENING {
        return Some(ended_at(left, place));
    }
    if window.len() < OPENING {
        return None;
    }
    Some(opened_at(total as usize, place, reading, opening_at(window, 0)))
}

// The payload of a chunk, a part of the container; its empty part at byte 0 where the container does not hold that much.
pub fn payload_of(container: &[u8], chunk: Chunk) -> &[u8]
    ensures { PayloadOf container.entry chunk result }
{
    part::part_at(container, chunk.payload, chunk.len)
}

// The payload of the chunk at a place: empty where the chunk is skipped or refused, or the chunks end.
pub fn read_payload(container: &[u8], place: usize, reading: Applied) -> &[u8]
    ensures { PayloadAt container.entry reading place result }
{
    match chunk_at(container, place, reading) {
        Ok(None) => &container[0..0],
        Ok(Some(chunk)) => payload_of(container, chunk),
        Err(_) => &container[0..0],
    }
}
