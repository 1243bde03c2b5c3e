// A codec: what a cell of a table says of the stream, and the kind of stream that follows.
// Rules T and R. From the Rust: `utf_first_u32`, `video_ext`, `audio_ext`.
#![tactic(auto)]

ghost use Rattle.std.specs.Prelude.{◌≡◌};
ghost use Rattle.codec.specs.Codecs.{codec_of};
ghost use Rattle.codec.specs.Kinds.{video_kind, audio_kind};
ghost use Rattle.codec.specs.Numbers.{codec_by, presence_of, value_of, video_number, audio_number};

use cell::Cell;

// What a video stream is.
#[derive(Clone, Copy, Debug, PartialEq, Eq)]
pub enum VideoKind {
    Ivf,
    M2v,
}

// What an audio stream is.
#[derive(Clone, Copy, Debug, PartialEq, Eq)]
pub enum AudioKind {
    Hca,
    Adx,
}

// The codec of an `ivf` stream.
const IVF: u32 = 9;

// The codec of an `hca` stream.
const HCA: u32 = 4;

// The codec that a cell is.
pub fn codec_of(cell: Cell) -> Option<u32>
    ensures { result ≡ codec_of cell }
{
    match cell {
        Cell::Unsigned(number) => Some((number % 0x1_0000_0000) as u32),
        Cell::Signed(number) => Some(number.cast_unsigned()),
        _ => None,
    }
}

// The codec by two numbers, as C gives it: with 0 for the first there is none.
pub fn codec_by(given: u8, number: u32) -> Option<u32>
    ensures { result ≡ codec_by given number }
{
    (given != 0).then_some(number)
}

// The kind of a video stream.
pub fn video_kind(codec: Option<u32>) -> VideoKind
    ensures { result ≡ video_kind codec }
{
    match codec {
        Some(IVF) => VideoKind::Ivf,
        _ => VideoKind::M2v,
    }
}

// The kind of an audio stream.
pub fn audio_kind(codec: Option<u32>) -> AudioKind
    ensures { result ≡ audio_kind codec }
{
    match codec {
        Some(HCA) => AudioKind::Hca,
        _ => AudioKind::Adx,
    }
}

// Whether there is a codec, as a number, which C reads.
pub fn presence_of(codec: Option<u32>) -> u8
    ensures { result ≡ presence_of codec }
{
    u8::from(codec.is_some())
}

// A codec's number, 0 where there is none.
pub fn value_of(codec: Option<u32>) -> u32
    ensures { result ≡ value_of codec }
{
    codec.unwrap_or(0)
}

// The number of a video stream's kind, as C has it. No `From`: docs/CONTRACTS.md and a wrong answer have this name.
pub fn video_number(kind: VideoKind) -> u8
    ensures { result ≡ video_number kind }
{
    match kind {
        VideoKind::M2v => 0,
        VideoKind::Ivf => 1,
    }
}

// The number of an audio stream's kind, as C has it. No `From`: docs/CONTRACTS.md has this name.
pub fn audio_number(kind: AudioKind) -> u8
    ensures { result ≡ audio_number kind }
{
    match kind {
        AudioKind::Adx => 0,
        AudioKind::Hca => 1,
    }
}
