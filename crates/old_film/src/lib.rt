// The container of the old builder: the bytes of its blocks, and whether a container is one that it wrote, for one video and at most one audio.
// Recognising is rebuilding: the parts are read where the builder puts them, and what it writes from them is compared with the container. Rules O.
// From the Rust: `builder.rs`.
#![tactic(auto)]

ghost use Rattle.std.specs.Prelude.{◌≡◌, ◌&&◌, ◌++◌, ◌+◌, ◌-◌, ◌<◌, ◌^◌, length, drop};
ghost use Rattle.word.specs.Numbers.{be32};
ghost use Rattle.part.specs.Parts.{PartAt};
ghost use Rattle.signature.specs.Signatures.{CRID, SFV, SFA, stands_at};
ghost use Rattle.word.specs.Bytes.{zeros, padding};
ghost use Rattle.old_film.specs.Blocks.{old_head, table_block, end_block};
ghost use Rattle.old_film.specs.Tables.{name_start, old_video, old_audio};
ghost use Rattle.old_film.specs.Finding.{name_size, audio_count, closes_with, stands_around, found_in};

use turns::{Form, Turns};

// A film of the builder: the length of its name, whether there is audio, where its chunks start, and what they hold.
#[derive(Clone, Copy)]
pub struct OldFilm {
    pub name: usize,
    pub audio: bool,
    pub start: usize,
    pub turns: Turns,
}

// Where a name stands.
pub const NAME: usize = 96;

// What the first block's size is more than its name.
const MORE: usize = 89;

// The size of the video's block, of an audio's, and of an end.
pub const VIDEO: usize = 0x80;

pub const AUDIO: usize = 0x60;

const END: usize = 28;

// The first block up to a name of `len` bytes.
pub fn name_head(len: u32) -> [u8; 96]
    ensures { result ≡ old_head CRID (89 + len) ++ name_start len }
{
    let len = len as usize;
    let mut head =
        *b"CRID\0\0\0\0\0\x01\0\x18\0\0\0\0\0\0\0\0\0\0\0\0\0\0\0\0@UTF\0\0\0\0\0\x01\0\x19\0\0\0\x1d\0\0\0\0\0\0\0\0\0\x01\0\x04\0\0\0\x01\x5a\0\0\0\x12\0\0\0\x1bCRIUSF_DIR_STREAM\0filename\0";
    head[4..8].copy_from_slice(&write_blocks::low32(MORE + len));
    head[32..36].copy_from_slice(&write_blocks::low32(61 + len));
    head[44..48].copy_from_slice(&write_blocks::low32(57 + len));
    head
}

// The block of a video of `len` bytes.
pub fn video_block(len: usize) -> [u8; 128]
    ensures { result ≡ table_block SFV (old_video len) }
{
    let frames = len / 1000;
    let mut block =
        *b"@SFV\0\0\0\x77\0\x01\0\x18\0\0\0\0\0\0\0\0\0\0\0\0\0\0\0\0@UTF\0\0\0\x5b\0\x01\0\x1f\0\0\0\x2b\0\0\0\x53\0\0\0\0\0\x03\0\x0c\0\0\0\x01\x54\0\0\0\x0e\x54\0\0\0\x14\x54\0\0\0\x1b\0\0\x07\x80\0\0\x04\x38\0\0\0\0VIDEO_HDRINFO\0width\0height\0total_frames\0\0";
    block[83..87].copy_from_slice(&write_blocks::low32(frames));
    block
}

// The block of an audio, by its number.
pub fn audio_block(number: u32) -> [u8; 96]
    ensures { result ≡ table_block SFA (old_audio number) }
{
    let mut block =
        *b"@SFA\0\0\0\x55\0\x01\0\x18\0\0\0\0\0\0\0\0\0\0\0\0\0\0\0\0@UTF\0\0\0\x39\0\x01\0\x10\0\0\0\x14\0\0\0\x30\0\0\0\0\0\x01\0\x04\0\0\0\x01\x54\0\0\0\x0e\0\0\0\0AUDIO_HDRINFO\0stream_id\0\0\0\0";
    block[65..69].copy_from_slice(&word::bytes32(number));
    block
}

// Whether the audio's block stands at a place.
fn audio_stands(container: &[u8], place: usize) -> bool
    ensures { result ≡ stands_at (table_block SFA (old_audio 0)) container.now place }
{
    let block = audio_block(0);
    signature::stands_at(&block, container, place)
}

// The name of a film, where the builder puts it, as a part of the container.
pub fn name_in(container: &[u8]) -> &[u8]
    ensures { PartAt container.entry 96 (be32 container.now 4 - 89) result × (length result.now < 2 ^ 32) }
{
    let size = word::read32(container, 4);
    part::part_at(container, NAME, size.saturating_sub(MORE))
}

// The size of the first block, with a name of `len` bytes.
pub fn name_size(len: u32) -> usize
    ensures { result ≡ name_size len }
{
    let len = len as usize;
    97 + len + word::padding(97 + len)
}

// How many audios there are, of which there is one or none.
fn audio_count(audio: bool) -> usize
    ensures { result ≡ audio_count audio }
{
    usize::from(audio)
}

// The bytes of a slice from a place on.
fn tail(bytes: &[u8], place: usize) -> &[u8]
    ensures { result.now ≡ drop place bytes.now }
{
    bytes.get(place..).unwrap_or(&[])
}

// Whether the first block stands at the front, around a name of `len` bytes.
fn name_stands(container: &[u8], len: u32) -> bool
    ensures { result ≡ (stands_at (old_head CRID (89 + len) ++ name_start len) container.now 0 && stands_at (zeros (1 + padding (97 + len))) container.now (96 + len)) }
{
    let head = name_head(len);
    let none = [0u8; 33];
    let len = len as usize;
    let count = 1 + word::padding(97 + len);
    signature::stands_at(&head, container, 0)
        && signature::stands_at(&none[..count], container, NAME + len)
}

// Whether an end stands at a place.
fn end_stands(container: &[u8], place: usize) -> bool
    ensures { result ≡ stands_at end_block container.now place }
{
    signature::stands_at(
        b"@END\0\0\0\x18\0\x01\0\x18\0\0\0\0\0\0\0\0\0\0\0\0\0\0\0\0",
        container,
        place,
    )
}

// Whether a container closes with the ends of its streams: a video, and so many audios.
fn ends_stand(container: &[u8], place: usize, count: usize) -> bool
    ensures { result ≡ closes_with container.now place count }
{
    let mut at = place;
    for _audio in 0..count {
        if !end_stands(container, at) {
            return false;
        }
        at += END;
    }
    end_stands(container, at) && word::left_from(container, at) == END
}

// Whether all that the builder writes around the blocks of audios and the chunks stands where it writes it.
pub fn is_rebuilt(container: &[u8], name: u32, video: usize, end: usize, count: usize) -> bool
    ensures { result ≡ stands_around container.now name video end count }
{
    let block = video_block(video);
    let first = name_size(name);
    name_stands(container, name)
        && signature::stands_at(&block, container, first)
        && ends_stand(container, end, count)
}

// What a container is.
pub fn find(container: &[u8]) -> Option<OldFilm>
    ensures { result ≡ found_in container.now }
{
    let name = name_in(container);
    let len = name.len();
    let first = name_size(len as u32);
    let audio = audio_stands(container, first + VIDEO);
    let count = audio_count(audio);
    let start = first + VIDEO + count * AUDIO;
    let turns = turns::read_turns(tail(container, start), Form::Old, audio);
    if utf8::is_utf8(name) {
        let end = start + turns.end;
        if is_rebuilt(container, len as u32, turns.video, end, count) {
            return Some(OldFilm {
                name: len,
                audio,
                start,
                turns,
            });
        }
        return None;
    }
    None
}
