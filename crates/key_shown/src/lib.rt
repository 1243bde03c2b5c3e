// What a film shows of a key, found by one walk over its chunks: the length of a sound clip that shows as much, and by that the
// bits of a key.
// Request 13. Ours: the Rust has nothing of the kind.
#![tactic(auto)]

ghost use Rattle.std.specs.Prelude.{◌≡◌, cond, ltb};
ghost use Rattle.walk.specs.Walks.{walk_from};
ghost use Rattle.clip.specs.Clips.{bits_shown};
ghost use Rattle.film.specs.Films.{film_of};
ghost use Rattle.key_shown.specs.Shown.{shown_as, shown_in, shown_by};
ghost use Rattle.key_shown.specs.KeyBits.{key_bits_in, key_bits_reply};

use chunk::{Chunk, Kind};
use mask::SHORTEST_VIDEO;
use reading::{Applied, Reading};
use refusal::Refusal;

// The answer as C reads it. What has no meaning in it is 0.
#[repr(C)]
#[derive(Clone, Copy, Default)]
pub struct KeyBitsReply {
    pub refused_at: usize,
    pub bits: u64,
    pub number: u8,
    pub unknown_type: u8,
}

// The data type of a masked payload.
const MASKED: u8 = 0;

// What a picture of so many bytes shows.
fn picture_shows(len: usize) -> usize
    ensures { result ≡ cond (ltb len 0x240) 0 len }
{
    if len < SHORTEST_VIDEO { 0 } else { len }
}

// What a sound of so many bytes shows: nothing, unless it is ADX.
fn sound_shows(adx: bool, len: usize) -> usize
    ensures { result ≡ cond adx len 0 }
{
    if adx { len } else { 0 }
}

// What a payload of data type 0 shows, by its kind and length.
fn shown_as(adx: bool, kind: Kind, len: usize) -> usize
    ensures { result ≡ shown_as adx kind len }
{
    match kind {
        Kind::Video => picture_shows(len),
        Kind::Audio => sound_shows(adx, len),
        Kind::Other | Kind::End => 0,
    }
}

// What the payload of a chunk shows.
fn shown_in(adx: bool, chunk: Chunk) -> usize
    ensures { result ≡ shown_in adx chunk }
{
    if chunk.data_type != MASKED {
        return 0;
    }
    shown_as(adx, chunk.kind, chunk.len)
}

// What the chunks from a place on show, those before a refusal where there is one. `adx` says whether the film's audio is
// ADX, `reading` how the film is read, as `chunk::chunk_at` has it.
fn shown_from(container: &[u8], place: usize, reading: Applied, adx: bool) -> usize
    ensures { result ≡ shown_by adx (walk_from container.now reading place).chunks }
{
    let mut at = place;
    let mut most: usize = 0;
    while let Ok(Some(chunk)) = chunk::chunk_at(container, at, reading) {
        most = most.max(shown_in(adx, chunk));
        at = chunk.next;
    }
    most
}

// The bits of a key that these chunks show.
pub fn bits_from(container: &[u8], place: usize, reading: Applied, adx: bool) -> u64
    ensures { result ≡ bits_shown (shown_by adx (walk_from container.now reading place).chunks) }
{
    clip::bits_shown(shown_from(container, place, reading, adx))
}

// The bits of a key that a film shows. Two keys that agree in them have the same two streams of it, and no other two do.
pub fn key_bits(container: &[u8], reading: Reading) -> Result<u64, Refusal>
    ensures { result ≡ key_bits_in (film_of container.now reading) }
{
    let survey = film::survey(container, reading)?;
    let adx = unmasking::is_adx(survey.header.audio_codec);
    Ok(bits_from(container, survey.header.start, survey.reading, adx))
}

// An answer as C reads it.
pub fn key_bits_reply(answer: Result<u64, Refusal>) -> KeyBitsReply
    ensures { result ≡ key_bits_reply answer }
{
    match answer {
        Ok(bits) => KeyBitsReply {
            bits,
            ..KeyBitsReply::default()
        },
        Err(refusal) => KeyBitsReply {
            refused_at: refusal.place,
            number: refusal::number_of(refusal.cause),
            unknown_type: refusal::beside_of(refusal.cause).unknown_type,
            ..KeyBitsReply::default()
        },
    }
}
