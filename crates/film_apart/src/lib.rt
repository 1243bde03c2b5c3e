// What two keys make of one film, found by masks and lengths: why the streams are the same, or the first byte at which they differ. No stream
// is unpacked.
// Rules D. Ours: the Rust has nothing of the kind.
#![tactic(auto)]

ghost use Rattle.std.specs.Prelude.{◌≡◌};
ghost use Rattle.walk.specs.Walks.{walk_from};
ghost use Rattle.film.specs.Films.{film_of};
ghost use Rattle.film_apart.specs.Reasons.{why_same, why_number};
ghost use Rattle.film_apart.specs.FilmsApart.{part_in, apart_from, chunks_apart, film_apart, stream_number, apart_reply};

use chunk::Kind;
use header::Header;
use reading::{Applied, Reading};
use refusal::Refusal;

// Why two keys give the same streams of a film.
#[derive(Clone, Copy)]
pub enum WhySame {
    // They do not.
    Differ,
    // They are one key.
    OneKey,
    // They differ in bits alone that count for no film.
    NeverCount,
    // They differ in bits that count, and this film shows none of those.
    NotShown,
}

// One of a film's two streams.
#[derive(Clone, Copy)]
pub enum Stream {
    VideoStream,
    AudioStream,
}

// Where the streams of a film first differ under two keys. The byte is counted from the first of its stream;
// it stands in the chunk that starts at a byte of the container, at an offset of its payload.
#[derive(Clone, Copy)]
pub struct Parting {
    pub stream: Stream,
    pub byte: usize,
    pub chunk: usize,
    pub offset: usize,
}

// The answer as C reads it. `stream` is 0 where the streams are the same. What has no meaning in it is 0.
#[repr(C)]
#[derive(Clone, Copy, Default)]
pub struct ApartReply {
    pub refused_at: usize,
    pub byte: usize,
    pub chunk: usize,
    pub offset: usize,
    pub number: u8,
    pub unknown_type: u8,
    pub stream: u8,
}

// How many bytes of a payload go to a stream.
fn part_in(stream: Stream, kind: Kind, len: usize) -> usize
    ensures { result ≡ part_in stream kind len }
{
    match stream {
        Stream::VideoStream => walk::video_in(kind, len),
        Stream::AudioStream => walk::audio_in(kind, len),
    }
}

// The first byte of a stream that differs under two keys, of the chunks from a place on; those before a refusal where there is one.
fn stream_apart(
    container: &[u8],
    place: usize,
    reading: Applied,
    codec: Option<u32>,
    stream: Stream,
    key: u64,
    other: u64,
) -> Option<Parting>
    ensures { result ≡ apart_from stream codec key other 0 (walk_from container.now reading place).chunks }
{
    let mut at = place;
    let mut passed: usize = 0;
    while let Ok(Some(chunk)) = chunk::chunk_at(container, at, reading) {
        let part = part_in(stream, chunk.kind, chunk.len);
        let mask = chunk_mask::mask_of(codec, chunk.kind, chunk.data_type);
        let first = key_apart::payload_apart(mask, part, key, other);
        if first < part {
            let byte = passed + first;
            return Some(Parting {
                stream,
                byte,
                chunk: chunk.start,
                offset: first,
            });
        }
        passed += part;
        at = chunk.next;
    }
    None
}

// The first byte of both streams: of the video, or of the audio where no byte of the video differs.
fn chunks_apart(
    container: &[u8],
    place: usize,
    reading: Applied,
    codec: Option<u32>,
    key: u64,
    other: u64,
) -> Option<Parting>
    ensures { result ≡ chunks_apart codec key other (walk_from container.now reading place).chunks }
{
    let first_in = |stream| stream_apart(container, place, reading, codec, stream, key, other);
    first_in(Stream::VideoStream).or_else(|| first_in(Stream::AudioStream))
}

// Where the streams of a film first differ under two keys, or that they are the same, or why the film is refused.
pub fn film_apart(
    container: &[u8],
    reading: Reading,
    key: u64,
    other: u64,
) -> Result<Option<Parting>, Refusal>
    ensures { result ≡ film_apart key other (film_of container.now reading) }
{
    let survey = film::survey(container, reading)?;
    let Header {
        start,
        audio_codec,
        ..
    } = survey.header;
    Ok(chunks_apart(container, start, survey.reading, audio_codec, key, other))
}

// Why two keys give the same streams of a film that shows these bits of a key, or that they do not.
pub fn why_same(bits: u64, key: u64, other: u64) -> WhySame
    ensures { result ≡ why_same bits key other }
{
    if key == other {
        return WhySame::OneKey;
    }
    if key & bits != other & bits {
        return WhySame::Differ;
    }
    if key::counting_bits(key) == key::counting_bits(other) {
        return WhySame::NeverCount;
    }
    WhySame::NotShown
}

// The number of a reason, as C reads it: 0 where the streams differ.
pub fn why_number(why: WhySame) -> u8
    ensures { result ≡ why_number why }
{
    match why {
        WhySame::Differ => 0,
        WhySame::OneKey => 1,
        WhySame::NeverCount => 2,
        WhySame::NotShown => 3,
    }
}

// The number of a stream, as C reads it: 1 for the video, 2 for the audio.
fn stream_number(stream: Stream) -> u8
    ensures { result ≡ stream_number stream }
{
    match stream {
        Stream::VideoStream => 1,
        Stream::AudioStream => 2,
    }
}

// An answer as C reads it.
pub fn apart_reply(answer: Result<Option<Parting>, Refusal>) -> ApartReply
    ensures { result ≡ apart_reply answer }
{
    match answer {
        Ok(None) => ApartReply::default(),
        Ok(Some(parting)) => ApartReply {
            byte: parting.byte,
            chunk: parting.chunk,
            offset: parting.offset,
            stream: stream_number(parting.stream),
            ..ApartReply::default()
        },
        Err(refusal) => ApartReply {
            refused_at: refusal.place,
            number: refusal::number_of(refusal.cause),
            unknown_type: refusal::beside_of(refusal.cause).unknown_type,
            ..ApartReply::default()
        },
    }
}
