// The chunks of a film's two streams, by turns, in both containers that a film is moved between: the old builder's and request 1's.
// They are read by rebuilding each from its own payload. Rules O4 and O5.
// From the Rust: `write_stream_data`, `write_video_chunk` and `write_audio_chunk` of `builder.rs`, for at most one audio.
#![tactic(auto)]

ghost use Rattle.std.specs.Prelude.{◌≡◌, ◌+◌, ◌-◌, ◌≤◌, ◌<◌, ◌^◌, length, [], true};
ghost use Rattle.part.specs.Parts.{part_at, PartAt};
ghost use Rattle.signature.specs.Signatures.{stands_at};
ghost use Rattle.word.specs.Bytes.{zeros};
ghost use Rattle.turns.specs.Chunks.{letters_in, number_of, shape_of, head_by, laid_by, chunk_size, len_in, gap_of, is_end, payload_in, seen_as};
ghost use Rattle.turns.specs.Turns.{stream_size, seen_in, heard_in, read_in, turn_by, turns_by};

use write_blocks::{CHUNK, PAYLOAD};

// The container that chunks lie in: the old builder's, or request 1's.
#[derive(Clone, Copy)]
pub enum Form {
    Old,
    New,
}

// A stream of a container: the video, or an audio by its number. Request 1's container has one audio, and says no number.
#[derive(Clone, Copy)]
pub enum Track {
    Video,
    Audio(u32),
}

// What is particular to a chunk: its numbers, how many zeros stand before the payload, and how many after it.
#[derive(Clone, Copy)]
pub struct Shape {
    pub letters: usize,
    pub size: usize,
    pub sizes: usize,
    pub from: usize,
    pub number: usize,
    pub gap: usize,
    pub pads: usize,
}

// A payload that was read: its length, 0 where there is none, and whether it begins with the end marker. Both stay numbers and no Option:
// `seen_as` in specs/ says them of every payload, of one of no bytes too.
#[derive(Clone, Copy)]
pub struct Seen {
    pub len: usize,
    pub marked: bool,
}

// What was read: the lengths of both streams, how many bytes their chunks take, and whether a payload begins with the end marker.
#[derive(Clone, Copy)]
pub struct Turns {
    pub video: usize,
    pub audio: usize,
    pub end: usize,
    pub marked: bool,
}

// The letters of a stream's chunks.
fn letters_in(form: Form, track: Track) -> usize
    ensures { result ≡ letters_in form track }
{
    match form {
        Form::Old => match track {
            Track::Video => 0x40534256,
            Track::Audio(_) => 0x40534241,
        },
        Form::New => match track {
            Track::Video => signature::SFV,
            Track::Audio(_) => signature::SFA,
        },
    }
}

// The number that the builder gives a stream.
fn number_of(track: Track) -> usize
    ensures { result ≡ number_of track }
{
    match track {
        Track::Video => 0,
        Track::Audio(number) => number as usize,
    }
}

// What is particular to a chunk of `len` bytes that begins at a byte of its stream.
pub fn shape_of(form: Form, track: Track, from: usize, len: u32) -> Shape
    ensures { result ≡ shape_of form track from len }
{
    let letters = letters_in(form, track);
    let len = len as usize;
    match form {
        Form::Old => Shape {
            letters,
            size: 0x18 + len,
            sizes: 0x00010018,
            from,
            number: number_of(track),
            gap: 0,
            pads: word::padding(28 + len),
        },
        Form::New => {
            let pads = word::padding(len);
            Shape {
                letters,
                size: 0x18 + len + pads,
                sizes: 0x00180000 + pads,
                from: 0,
                number: 0,
                gap: 4,
                pads,
            }
        }
    }
}

// A chunk's first 28 bytes.
pub fn head_by(shape: Shape) -> [u8; 28]
    ensures { result ≡ head_by shape }
{
    let mut head = [0; 28];
    head[..4].copy_from_slice(&write_blocks::low32(shape.letters));
    head[4..8].copy_from_slice(&write_blocks::low32(shape.size));
    head[8..12].copy_from_slice(&write_blocks::low32(shape.sizes));
    head[12..16].copy_from_slice(&write_blocks::low32(shape.from));
    head[16..20].copy_from_slice(&write_blocks::low32(shape.number));
    head
}

// The size of a chunk of `len` bytes; there is none of 0.
pub fn chunk_size(form: Form, len: u32) -> usize
    ensures { result ≡ chunk_size form len }
{
    if len == 0 {
        return 0;
    }
    let shape = shape_of(form, Track::Video, 0, len);
    28 + shape.gap + len as usize + shape.pads
}

// The size of the chunks of a stream of `len` bytes.
pub fn stream_size(form: Form, len: u32) -> usize
    ensures { result ≡ stream_size form len }
{
    (len / 0x10000) as usize * CHUNK + chunk_size(form, len % 0x10000)
}

// The payload of `len` bytes of the chunk that bytes begin with; none where they do not hold that much.
pub fn payload_of(bytes: &[u8], form: Form, len: usize) -> &[u8]
    ensures { PartAt bytes.entry (28 + gap_of form) len result }
{
    match form {
        Form::Old => part::part_at(bytes, 28, len),
        Form::New => part::part_at(bytes, 0x20, len),
    }
}

// How long the payload of the chunk is that bytes begin with, by its own sizes.
fn len_in(form: Form, bytes: &[u8]) -> usize
    ensures { (result ≡ len_in form bytes.now) × (result < 2 ^ 32) }
{
    let size = word::read32(bytes, 4);
    let len = size.saturating_sub(0x18);
    match form {
        Form::Old => len,
        Form::New => len.saturating_sub(word::read16(bytes, 10)),
    }
}

// Whether a payload marks the end of a stream.
fn is_end(form: Form, payload: &[u8]) -> bool
    ensures { result ≡ is_end form payload.now }
{
    match form {
        Form::Old => false,
        Form::New => signature::stands_at(b"#CONTENTS END", payload, 0),
    }
}

// Whether so many zeros stand at a place.
fn zeros_at(bytes: &[u8], place: usize, count: usize) -> bool
    requires { count ≤ 0x20 }
    ensures { result ≡ stands_at (zeros count) bytes.now place }
{
    let none = [0u8; 32];
    signature::stands_at(&none[..count], bytes, place)
}

// Whether bytes begin with a chunk of this shape, whose payload of `len` bytes is there.
fn stands_whole(bytes: &[u8], shape: Shape, len: usize) -> bool
    requires { (28 + shape.gap + len ≤ length bytes.now) × (shape.gap ≤ 0x20) × (shape.pads ≤ 0x20) }
    ensures { result ≡ stands_at (laid_by shape (part_at bytes.now (28 + shape.gap) len)) bytes.now 0 }
{
    let head = head_by(shape);
    signature::stands_at(&head, bytes, 0)
        && zeros_at(bytes, 28, shape.gap)
        && zeros_at(bytes, 28 + shape.gap + len, shape.pads)
}

// The payload of the chunk that bytes begin with: its length, 0 where there is none.
fn held_by(bytes: &[u8], form: Form, track: Track, from: usize) -> Seen
    ensures { (result ≡ seen_as (payload_in form track from true bytes.now)) × (result.len ≤ 0x10000) × (chunk_size form result.len ≤ length bytes.now) }
{
    let len = len_in(form, bytes);
    let shape = shape_of(form, track, from, len as u32);
    let start = 28 + shape.gap;
    if bytes.len() < start + len {
        return nothing();
    }
    if PAYLOAD < len {
        return nothing();
    }
    let payload = part::part_at(bytes, start, len);
    if is_end(form, payload) {
        return nothing();
    }
    if stands_whole(bytes, shape, len) {
        let marked = signature::stands_at(b"#CONTENTS END", payload, 0);
        return Seen { len, marked };
    }
    nothing()
}

// No payload.
fn nothing() -> Seen
    ensures { result ≡ seen_as [] }
{
    Seen {
        len: 0,
        marked: false,
    }
}

// The payload of the chunk that bytes begin with, if its stream goes on: its length, 0 where there is none.
pub fn payload_in(bytes: &[u8], form: Form, track: Track, from: usize, going: bool) -> Seen
    ensures { (result ≡ seen_as (payload_in form track from going bytes.now)) × (result.len ≤ 0x10000) × (chunk_size form result.len ≤ length bytes.now) }
{
    if going {
        return held_by(bytes, form, track, from);
    }
    nothing()
}

// The next turn: the payload of each stream that goes on, and the size of their chunks.
pub fn turn_in(bytes: &[u8], form: Form, from: usize, seen: bool, heard: bool) -> Turns
    ensures { (result ≡ turn_by form (seen_in form from seen bytes.now) (heard_in form from seen heard bytes.now)) × (result.video ≤ 0x10000) × (result.audio ≤ 0x10000) × (result.end ≤ length bytes.now) }
{
    let video = payload_in(bytes, form, Track::Video, from, seen);
    let middle = chunk_size(form, video.len as u32);
    let audio = payload_in(&bytes[middle..], form, Track::Audio(0), from, heard);
    let last = chunk_size(form, audio.len as u32);
    Turns {
        video: video.len,
        audio: audio.len,
        end: middle + last,
        marked: video.marked | audio.marked,
    }
}

// All turns that bytes begin with, with audio or without: the lengths of both streams, and the size of their chunks. No `for`: the
// size of each turn says where the next begins, and its payloads whether there is one.
pub fn read_turns(bytes: &[u8], form: Form, audio: bool) -> Turns
    ensures { (result ≡ turns_by (read_in form audio bytes.now)) × (result.end ≤ length bytes.now) }
{
    let mut place = 0;
    let mut from = 0;
    let mut seen = true;
    let mut heard = audio;
    let mut video = 0;
    let mut sound = 0;
    let mut marked = false;
    while seen || heard {
        let turn = turn_in(&bytes[place..], form, from, seen, heard);
        marked |= turn.marked;
        video += turn.video;
        sound += turn.audio;
        seen = turn.video == PAYLOAD;
        heard = turn.audio == PAYLOAD;
        place += turn.end;
        from += PAYLOAD;
    }
    Turns {
        video,
        audio: sound,
        end: place,
        marked,
    }
}
