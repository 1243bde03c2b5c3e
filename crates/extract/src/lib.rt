// Both streams of a film, written into lent outputs. What is answered is decided before a byte is written, so a refusal
// leaves both outputs as they were.
// Rules R and C. From the Rust: `extract_usm_to_memory`, `extract_usm_chunks_to_memory`
// and `read_usm_chunk_into`.
#![tactic(auto)]

ghost use Rattle.std.specs.Prelude.{◌≡◌, ◌||◌, ◌+◌, ◌≤◌, length, ltb};
ghost use Rattle.std.proofs.lemmas.List.Edits.{sets};
ghost use Rattle.unmasking.specs.Unmasking.{clear_video, clear_audio};
ghost use Rattle.walk.specs.Walks.{walk_from, video_size, audio_size};
ghost use Rattle.extract.specs.Streams.{video_part, audio_part, video_stream, audio_stream};
ghost use Rattle.extract.specs.Extraction.{refused_by, contents_of, Extraction};

use chunk::Kind;
use codec::{AudioKind, VideoKind};
use film_name::Name;
use header::Header;
use reading::{Applied, Reading};
use refusal::{Cause, Refusal};
use unmasking::Unmasking;

// What a film holds, besides the bytes of its streams.
#[derive(Clone, Copy)]
pub struct Contents {
    pub name: Option<Name>,
    pub audio: bool,
    pub mpeg_codec: Option<u32>,
    pub audio_codec: Option<u32>,
    pub video_kind: VideoKind,
    pub audio_kind: AudioKind,
    pub video_size: usize,
    pub audio_size: usize,
}

// A payload's share in the video stream: all of a video payload, nothing of another.
fn video_part(kind: Kind, payload: &[u8]) -> &[u8]
    ensures { result.now ≡ video_part kind payload.now }
{
    match kind {
        Kind::Video => payload,
        Kind::Audio => &payload[0..0],
        Kind::Other => &payload[0..0],
        Kind::End => &payload[0..0],
    }
}

// A payload's share in the audio stream.
fn audio_part(kind: Kind, payload: &[u8]) -> &[u8]
    ensures { result.now ≡ audio_part kind payload.now }
{
    match kind {
        Kind::Video => &payload[0..0],
        Kind::Audio => payload,
        Kind::Other => &payload[0..0],
        Kind::End => &payload[0..0],
    }
}

// Puts a video payload, made clear, into an output from a place on.
fn put_video(payload: &[u8], data_type: u8, unmasking: Unmasking, out: &mut [u8], at: usize)
    requires { at + length payload.now ≤ length out.old }
    ensures { out.new ≡ sets out.old at (clear_video unmasking data_type payload.now) }
{
    let end = at + payload.len();
    out[at..end].copy_from_slice(payload);
    unmasking::unmask_video(&mut out[at..end], data_type, unmasking);
}

// Puts an audio payload, made clear, into an output from a place on. One function for both streams would take what makes a payload
// clear as a closure over a lent slice, and be no plainer.
fn put_audio(payload: &[u8], data_type: u8, unmasking: Unmasking, out: &mut [u8], at: usize)
    requires { at + length payload.now ≤ length out.old }
    ensures { out.new ≡ sets out.old at (clear_audio unmasking data_type payload.now) }
{
    let end = at + payload.len();
    out[at..end].copy_from_slice(payload);
    unmasking::unmask_audio(&mut out[at..end], data_type, unmasking);
}

// Writes both streams: each payload goes to its place in its stream. Where the chunks are refused, they end; a film that
// was surveyed before has no such chunk.
fn write_streams(
    container: &[u8],
    start: usize,
    reading: Applied,
    unmasking: Unmasking,
    video: &mut [u8],
    audio: &mut [u8],
)
    requires { (video_size (walk_from container.now reading start).chunks ≤ length video.old) × (audio_size (walk_from container.now reading start).chunks ≤ length audio.old) }
    ensures { (video.new ≡ sets video.old 0 (video_stream container.now unmasking (walk_from container.now reading start).chunks))
        × (audio.new ≡ sets audio.old 0 (audio_stream container.now unmasking (walk_from container.now reading start).chunks)) }
{
    let mut at = start;
    let mut seen: usize = 0;
    let mut heard: usize = 0;
    while let Ok(Some(chunk)) = chunk::chunk_at(container, at, reading) {
        let kind = chunk.kind;
        let payload = chunk::payload_of(container, chunk);
        let for_video = video_part(kind, payload);
        let for_audio = audio_part(kind, payload);
        put_video(for_video, chunk.data_type, unmasking, video, seen);
        put_audio(for_audio, chunk.data_type, unmasking, audio, heard);
        seen += for_video.len();
        heard += for_audio.len();
        at = chunk.next;
    }
}

// Whether one of two outputs is shorter than what goes into it.
fn lacks(video: usize, seen: usize, audio: usize, heard: usize) -> bool
    ensures { result ≡ (ltb video seen || ltb audio heard) }
{
    if video < seen {
        return true;
    }
    audio < heard
}

// What a film of a header and two sizes holds.
pub fn contents_of(header: Header, video: usize, audio: usize) -> Contents
    ensures { result ≡ contents_of header video audio }
{
    let name = header.name;
    let mpeg_codec = header.mpeg_codec;
    let audio_codec = header.audio_codec;
    Contents {
        name,
        audio: header.audio,
        mpeg_codec,
        audio_codec,
        video_kind: codec::video_kind(mpeg_codec),
        audio_kind: codec::audio_kind(audio_codec),
        video_size: video,
        audio_size: audio,
    }
}

// Extracts both streams of a film into two outputs. Bytes past a stream stay; a refusal leaves both as they were.
pub fn extract(
    container: &[u8],
    reading: Reading,
    key: Option<u64>,
    video: &mut [u8],
    audio: &mut [u8],
) -> Result<Contents, Refusal>
    ensures { Extraction container.now reading key video.old audio.old result video.new audio.new }
{
    let survey = film::survey(container, reading)?;
    if lacks(video.len(), survey.video, audio.len(), survey.audio) {
        return refusal::refused(
            Cause::ShortOutput {
                video: survey.video,
                audio: survey.audio,
            },
            0,
        );
    }
    let header = survey.header;
    let codec = header.audio_codec;
    let unmasking = unmasking::unmasking_of(key, codec);
    let applied = survey.reading;
    write_streams(container, header.start, applied, unmasking, video, audio);
    Ok(contents_of(header, survey.video, survey.audio))
}
