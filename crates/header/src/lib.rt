// The header walk: what a container says of its film, and where its chunks begin.
// Rules H, whose steps 1 to 8 are a function each, from the last to the first, since each goes on to the next.
// From the Rust: `parse_usm_header`, `parse_usm_header_chunks`, `skip_metadata_section`.
#![tactic(auto)]

ghost use Rattle.std.specs.Prelude.{◌≡◌};
ghost use Rattle.header.specs.Headers.{step8, step7_audio, step7_video, step7_table, step7, step6, step5, step4, finish, step3_audio, step3, step2, step1, header_of};

use block::{Ahead, CodecBlock, NameBlock};
use film_name::Name;
use reading::Reading;
use refusal::{Cause, LONGEST, Refusal};

// What the header says of a film, and where its chunks begin.
#[derive(Clone, Copy)]
pub struct Header {
    pub name: Option<Name>,
    pub mpeg_codec: Option<u32>,
    // Whether there is audio.
    pub audio: bool,
    // Absent without audio.
    pub audio_codec: Option<u32>,
    // Where the chunks begin.
    pub start: usize,
}

// 8: `@SFV` with `#METADATA END`, whose size is not read; chunks begin after its marker.
fn step_8(container: &[u8], place: usize) -> Result<usize, Refusal>
    ensures { result ≡ step8 container.now place }
{
    block::last_block(container, place)
}

// 7, its last block: `@SFA` with `#METADATA END`; chunks follow it.
fn step_7_audio(container: &[u8], place: usize) -> Result<usize, Refusal>
    ensures { result ≡ step7_audio container.now place }
{
    block::marker_block(
        container,
        signature::SFA,
        Cause::NoAudio,
        b"#METADATA END",
        Cause::NoMetadataEnd,
        place,
    )
}

// 7, its second block: `@SFV` with `#METADATA END`.
fn step_7_video(container: &[u8], place: usize) -> Result<usize, Refusal>
    ensures { result ≡ step7_video container.now place }
{
    let next = block::marker_block(
        container,
        signature::SFV,
        Cause::NoVideo,
        b"#METADATA END",
        Cause::NoMetadataEnd,
        place,
    )?;
    step_7_audio(container, next)
}

// 7, its first block: `@SFA`, table.
fn step_7_table(container: &[u8], reading: Reading, place: usize) -> Result<usize, Refusal>
    ensures { result ≡ step7_table container.now reading place }
{
    let next = block::table_block(container, reading, signature::SFA, Cause::NoAudio, place)?;
    step_7_video(container, next)
}

// 7: with audio and `@SFA` next, its three blocks; otherwise 8.
fn step_7(container: &[u8], reading: Reading, audio: bool, place: usize) -> Result<usize, Refusal>
    ensures { result ≡ step7 container.now reading audio place }
{
    if audio {
        return match block::ahead_at(container, place) {
            Ahead::Sound => step_7_table(container, reading, place),
            Ahead::Other => step_8(container, place),
            Ahead::Cut => refusal::refused(Cause::RanOut, place),
        };
    }
    step_8(container, place)
}

// 6: `@SFV`, table.
fn step_6(container: &[u8], reading: Reading, audio: bool, place: usize) -> Result<usize, Refusal>
    ensures { result ≡ step6 container.now reading audio place }
{
    let next = block::table_block(container, reading, signature::SFV, Cause::NoVideo, place)?;
    step_7(container, reading, audio, next)
}

// 5: with audio, `@SFA` with `#HEADER END`.
fn step_5(container: &[u8], reading: Reading, audio: bool, place: usize) -> Result<usize, Refusal>
    ensures { result ≡ step5 container.now reading audio place }
{
    if audio {
        let next = block::marker_block(
            container,
            signature::SFA,
            Cause::NoAudio,
            b"#HEADER END",
            Cause::NoHeaderEnd,
            place,
        )?;
        return step_6(container, reading, audio, next);
    }
    step_6(container, reading, audio, place)
}

// 4: `@SFV` with `#HEADER END`.
fn step_4(container: &[u8], reading: Reading, audio: bool, place: usize) -> Result<usize, Refusal>
    ensures { result ≡ step4 container.now reading audio place }
{
    let next = block::marker_block(
        container,
        signature::SFV,
        Cause::NoVideo,
        b"#HEADER END",
        Cause::NoHeaderEnd,
        place,
    )?;
    step_5(container, reading, audio, next)
}

// What the first steps gave, the name and both codecs, and where the others found that chunks begin.
fn finished(
    name: Option<Name>,
    video: Option<u32>,
    audio: bool,
    sound: Option<u32>,
    end: Result<usize, Refusal>,
) -> Result<Header, Refusal>
    ensures { result ≡ finish name video audio sound end }
{
    let start = end?;
    Ok(Header {
        name,
        mpeg_codec: video,
        audio,
        audio_codec: sound,
        start,
    })
}

// 3, with audio: `@SFA`, table, which gives `audio_codec`.
fn step_3_audio(
    container: &[u8],
    reading: Reading,
    name: Option<Name>,
    video: Option<u32>,
    place: usize,
) -> Result<Header, Refusal>
    ensures { result ≡ step3_audio container.now reading name video place }
{
    let CodecBlock { codec, next } = block::codec_block(
        container,
        reading,
        signature::SFA,
        Cause::NoAudio,
        b"audio_codec",
        place,
    )?;
    let end = step_4(container, reading, true, next);
    finished(name, video, true, codec, end)
}

// 3: if `@SFA` is next, there is audio.
fn step_3(
    container: &[u8],
    reading: Reading,
    name: Option<Name>,
    video: Option<u32>,
    place: usize,
) -> Result<Header, Refusal>
    ensures { result ≡ step3 container.now reading name video place }
{
    match block::ahead_at(container, place) {
        Ahead::Sound => step_3_audio(container, reading, name, video, place),
        Ahead::Other => {
            let end = step_4(container, reading, false, place);
            finished(name, video, false, None, end)
        }
        Ahead::Cut => refusal::refused(Cause::RanOut, place),
    }
}

// 2: `@SFV`, table, which gives `mpeg_codec`.
fn step_2(
    container: &[u8],
    reading: Reading,
    name: Option<Name>,
    place: usize,
) -> Result<Header, Refusal>
    ensures { result ≡ step2 container.now reading name place }
{
    let CodecBlock { codec, next } = block::codec_block(
        container,
        reading,
        signature::SFV,
        Cause::NoVideo,
        b"mpeg_codec",
        place,
    )?;
    step_3(container, reading, name, codec, next)
}

// 1: `CRID` at 0, table, which gives the name.
fn step_1(container: &[u8], reading: Reading) -> Result<Header, Refusal>
    ensures { result ≡ step1 container.now reading }
{
    let NameBlock { name, next } = block::name_block(container, reading)?;
    step_2(container, reading, name, next)
}

// The header of a container, or why it is refused: too long, or the walk's first refusal.
pub fn read_header(container: &[u8], reading: Reading) -> Result<Header, Refusal>
    ensures { result ≡ header_of container.now reading }
{
    if LONGEST < container.len() {
        return refusal::refused(Cause::TooLong, 0);
    }
    step_1(container, reading)
}
