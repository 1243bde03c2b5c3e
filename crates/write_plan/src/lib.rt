// What a film to be written comes to: its blocks, its size, and what is refused before an output is looked at. Rules W5 to W8.
// From the Rust: nothing. Its builder writes another container.
#![tactic(auto)]

ghost use Rattle.std.specs.Prelude.{◌≡◌, ◌&&◌, not, ◌<◌, ◌^◌, length, take, drop};
ghost use Rattle.part.specs.Parts.{IsPart};
ghost use Rattle.write_plan.specs.Payloads.{payloads_of, payload_start};
ghost use Rattle.signature.specs.Signatures.{contents_end};
ghost use Rattle.write_blocks.specs.Tables.{marker_of};
ghost use Rattle.write_plan.specs.Films.{bytes_of, in_each, audio_in};
ghost use Rattle.write_plan.specs.Sizes.{block_size, codec_size, frame_size, header_size, last_size, stream_size, film_size, size_in};
ghost use Rattle.write_plan.specs.Planning.{is_given, any_marked, refused_by, within_limit, sized_of, headed_by, planned_of};

use refusal::{Cause, LONGEST, Refusal};
use write_blocks::{CHUNK, PAYLOAD};

// How a film is packed: whether there is audio, both codecs, and the key that masks.
#[derive(Clone, Copy)]
pub struct Packing {
    pub audio: bool,
    pub mpeg_codec: Option<u32>,
    pub audio_codec: Option<u32>,
    pub key: Option<u64>,
}

// Which stream a block belongs to.
#[derive(Clone, Copy)]
pub enum Stream {
    Video,
    Audio,
}

// The size of a block that holds `len` bytes.
fn block_size(len: usize) -> usize
    requires { len < 2 ^ 32 }
    ensures { result ≡ block_size len }
{
    0x20 + len + word::padding(len)
}

// The size of a block with a codec's table.
fn codec_size(codec: Option<u32>) -> usize
    ensures { result ≡ codec_size codec }
{
    match codec {
        Some(_) => 0x60,
        None => 0x40,
    }
}

// The size of the blocks beside the name's that hold no payload.
fn frame_size(packing: Packing) -> usize
    ensures { result ≡ frame_size packing }
{
    let video = packing.mpeg_codec;
    let audio = packing.audio_codec;
    if packing.audio {
        return codec_size(video) + codec_size(audio) + 8 * 0x40;
    }
    codec_size(video) + 4 * 0x40
}

// How many bytes the ends of the streams take.
pub fn ends_size(audio: bool) -> usize
    ensures { result ≡ length (bytes_of (in_each audio (λ stream. marker_of contents_end))) }
{
    if audio { 0x80 } else { 0x40 }
}

// The size of the header, by the length of the name.
fn header_size(name: usize, packing: Packing) -> usize
    requires { name < 2 ^ 31 }
    ensures { result ≡ header_size name packing }
{
    block_size(54 + name) + (frame_size(packing) - ends_size(packing.audio))
}

// The size of a stream's last chunk, whose payload has `len` bytes; without a byte there is none.
fn last_size(len: usize) -> usize
    requires { len < 2 ^ 32 }
    ensures { result ≡ last_size len }
{
    if len == 0 { 0 } else { block_size(len) }
}

// The size of the chunks of a stream of `len` bytes.
fn stream_size(len: usize) -> usize
    requires { len < 2 ^ 32 }
    ensures { result ≡ stream_size len }
{
    len / PAYLOAD * CHUNK + last_size(len % PAYLOAD)
}

// The size of a film, by the lengths of its name and streams.
fn film_size(name: usize, video: usize, audio: usize, packing: Packing) -> usize
    requires { (name < 2 ^ 31) × (video < 2 ^ 31) × (audio < 2 ^ 31) }
    ensures { result ≡ film_size name video audio packing }
{
    block_size(54 + name) + frame_size(packing) + (stream_size(video) + stream_size(audio))
}

// The payload that begins at a byte of a stream; past its end there is none.
pub fn payload_from(stream: &[u8], from: usize) -> &[u8]
    ensures { IsPart stream.entry (payload_start stream.now from) (take 0x10000 (drop from stream.now)) result }
{
    if stream.len() <= from {
        return &stream[0..0];
    }
    if stream.len() - from <= PAYLOAD {
        return &stream[from..];
    }
    let end = from + PAYLOAD;
    &stream[from..end]
}

// Whether a payload of a stream begins with the end marker.
fn any_marked(stream: &[u8]) -> bool
    ensures { result ≡ any_marked (payloads_of stream.now) }
{
    for payload in stream.chunks(PAYLOAD) {
        if signature::stands_at(b"#CONTENTS END", payload, 0) {
            return true;
        }
    }
    false
}

// Whether an audio codec is given, and no audio.
fn is_alone(packing: Packing) -> bool
    ensures { result ≡ (not packing.audio && is_given packing.audio_codec) }
{
    !packing.audio && packing.audio_codec.is_some()
}

// What there is of the audio.
pub fn audio_in(packing: Packing, audio: &[u8]) -> &[u8]
    ensures { IsPart audio.entry 0 (audio_in packing audio.now) result }
{
    if packing.audio {
        return audio;
    }
    &audio[0..0]
}

// The size of a film by the lengths of its name and streams, or that it is over the limit.
fn within_limit(name: usize, video: usize, audio: usize, packing: Packing) -> Result<usize, Refusal>
    ensures { result ≡ within_limit (film_size name video audio packing) }
{
    let longest = name.max(video).max(audio);
    if LONGEST < longest {
        return refusal::refused(Cause::TooLong, 0);
    }
    let size = film_size(name, video, audio, packing);
    if LONGEST < size {
        return refusal::refused(Cause::TooLong, 0);
    }
    Ok(size)
}

// The size of a film by the lengths of its name and streams, or why it is refused whatever they hold.
fn plan_sizes(name: usize, video: usize, audio: usize, packing: Packing) -> Result<usize, Refusal>
    ensures { result ≡ sized_of name video audio packing }
{
    if is_alone(packing) {
        return refusal::refused(Cause::CodecAlone, 0);
    }
    within_limit(name, video, audio, packing)
}

// The size of the audio that there is.
pub fn audio_size(packing: Packing, audio: usize) -> usize
    ensures { result ≡ size_in packing audio }
{
    if packing.audio { audio } else { 0 }
}

// The size of the header of a film by the lengths of its name and streams, or why the film is refused whatever they hold.
pub fn plan_header(
    name: usize,
    video: usize,
    audio: usize,
    packing: Packing,
) -> Result<usize, Refusal>
    ensures { result ≡ headed_by (header_size name packing) (sized_of name video (size_in packing audio) packing) }
{
    plan_sizes(name, video, audio_size(packing, audio), packing)?;
    Ok(header_size(name, packing))
}

// The size of a film, or why it is refused whatever the output. Where there is no audio, `audio` is not looked at.
pub fn plan(name: &[u8], video: &[u8], audio: &[u8], packing: Packing) -> Result<usize, Refusal>
    ensures { result ≡ planned_of name.now video.now (audio_in packing audio.now) packing }
{
    let audio = audio_in(packing, audio);
    let size = plan_sizes(name.len(), video.len(), audio.len(), packing)?;
    if any_marked(video) || any_marked(audio) {
        return refusal::refused(Cause::MarkedPayload, 0);
    }
    Ok(size)
}
