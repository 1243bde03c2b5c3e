// Where the streams of a film that is read piece by piece first differ under two keys, found chunk by chunk.
// Rule D5b. Ours: the Rust has nothing of the kind.
#![tactic(auto)]

ghost use Rattle.std.specs.Prelude.{◌≡◌};
ghost use Rattle.film_apart.specs.FilmsApart.{part_in};
ghost use Rattle.pieces_apart.specs.Passing.{or_else, unparted, parted_in, past, parting_of};

use chunk::{Chunk, Kind};
use film_apart::{Parting, Stream};
use refusal::Refusal;

// What two keys make of the chunks so far in one stream: how many of its bytes were passed, and where the first stands that differs.
// Sizes saturate: those of a film never come to more than a size holds.
#[derive(Clone, Copy)]
pub struct Passed {
    pub bytes: usize,
    // No chunk is refused here, and an Option would do; docs/CONTRACTS.md names `with_chunk`, which takes each of these values.
    pub parting: Result<Option<Parting>, Refusal>,
}

// How many bytes of a payload go to a stream.
fn part_in(stream: Stream, kind: Kind, len: usize) -> usize
    ensures { result ≡ part_in stream kind len }
{
    match stream {
        Stream::VideoStream => walk::video_in(kind, len),
        Stream::AudioStream => walk::audio_in(kind, len),
    }
}

// A parting, or another where there is none.
fn or_else(
    parting: Result<Option<Parting>, Refusal>,
    other: Result<Option<Parting>, Refusal>,
) -> Result<Option<Parting>, Refusal>
    ensures { result ≡ or_else parting other }
{
    match parting {
        Ok(None) => other,
        _ => parting,
    }
}

// Where a chunk's share of a stream first differs, after so many bytes of the stream.
fn parted_in(
    stream: Stream,
    codec: Option<u32>,
    key: u64,
    other: u64,
    bytes: usize,
    chunk: Chunk,
) -> Option<Parting>
    ensures { result ≡ parted_in stream codec key other bytes chunk }
{
    let part = part_in(stream, chunk.kind, chunk.len);
    let mask = chunk_mask::mask_of(codec, chunk.kind, chunk.data_type);
    let first = key_apart::payload_apart(mask, part, key, other);
    if first < part {
        return Some(Parting {
            stream,
            byte: bytes.saturating_add(first),
            chunk: chunk.start,
            offset: first,
        });
    }
    None
}

// No chunk was passed yet.
pub fn begin() -> Passed
    ensures { result ≡ unparted }
{
    Passed {
        bytes: 0,
        parting: Ok(None),
    }
}

// One chunk more was passed, of a film whose audio codec this is.
pub fn with_chunk(
    passed: Passed,
    stream: Stream,
    codec: Option<u32>,
    key: u64,
    other: u64,
    chunk: Chunk,
) -> Passed
    ensures { result ≡ past stream codec key other passed chunk }
{
    let here = parted_in(stream, codec, key, other, passed.bytes, chunk);
    let part = part_in(stream, chunk.kind, chunk.len);
    Passed {
        bytes: passed.bytes.saturating_add(part),
        parting: or_else(passed.parting, Ok(here)),
    }
}

// The first byte of both streams: of the video, or of the audio where no byte of the video differs.
pub fn parting_of(video: Passed, audio: Passed) -> Result<Option<Parting>, Refusal>
    ensures { result ≡ parting_of video audio }
{
    or_else(video.parting, audio.parting)
}
