// Replays a stored list of films to be written: reads their lengths and packings from standard input, and writes what
// `usm_write` answers, the digest of its output, and what `usm_extract` reads back. README.md beside this crate has the format.
#![tactic(auto)]

mod numbers;

use gate_size_line::{with_bytes, with_number};
use numbers::Numbers;
use print_line::Line;
use reading::ReadingBytes;
use replies::FilmReply;
use usm::KeyBytes;
use usm::writing::PackingBytes;

// The bytes that names and streams are parts of, and those of an output.
const SPACE: usize = 0x50000;

// Where a name, a video and an audio stream start in them.
const NAME: usize = 0;

const VIDEO: usize = 0x1000;

const AUDIO: usize = 0x28000;

// The bytes that a stream is read back into.
const STREAM: usize = 0x28000;

// The key of a line.
fn key_of(n: Numbers) -> KeyBytes {
    KeyBytes {
        number: (n.key_high % 0x1_0000_0000) as u64 * 0x1_0000_0000
            + (n.key_low % 0x1_0000_0000) as u64,
        given: (n.has_key % 256) as u8,
    }
}

// The packing of a line.
fn packing_of(n: Numbers) -> PackingBytes {
    PackingBytes {
        key: key_of(n),
        video_codec: (n.video_codec % 0x1_0000_0000) as u32,
        audio_codec: (n.audio_codec % 0x1_0000_0000) as u32,
        has_audio: (n.has_audio % 256) as u8,
        has_video_codec: (n.has_video_codec % 256) as u8,
        has_audio_codec: (n.has_audio_codec % 256) as u8,
    }
}

// A line with a codec after it: whether it is given, and its number.
fn with_codec(line: Line, has: u8, codec: u32) -> Line {
    with_number(with_number(line, has as usize), codec as usize)
}

// A line with what a film's reply says after it: number, presence of audio, both codecs.
fn with_reply(line: Line, reply: FilmReply) -> Line {
    let line = with_number(
        with_number(line, reply.number as usize),
        reply.has_audio as usize,
    );
    let line = with_codec(line, reply.has_video_codec, reply.video_codec);
    with_codec(line, reply.has_audio_codec, reply.audio_codec)
}

// Writes what was read of a film: the reply, the name and both streams.
fn write_read(film: &[u8], reply: FilmReply, video: &[u8], audio: &[u8]) {
    let line = with_reply(print_line::empty().word(b"read"), reply);
    let name = part::part_at(film, reply.name_start, reply.name_length);
    let line = with_bytes(
        with_bytes(line, name),
        part::part_at(video, 0, reply.video_size),
    );
    with_bytes(line, part::part_at(audio, 0, reply.audio_size)).end();
}

// Reads a film back under a key into outputs, and writes what was read.
fn read_into(film: &[u8], key: KeyBytes, video: &mut [u8], audio: &mut [u8]) {
    let asked = ReadingBytes {
        audio: 1,
        channel: 0,
        payloads: 0,
        tables: 0,
    };
    let reply = usm::usm_extract(film, asked, key, b"", video, audio);
    write_read(film, reply, video, audio);
}

// Reads a film back under a key, and writes what was read.
fn read_back(film: &[u8], key: KeyBytes) {
    let mut video = [0u8; STREAM];
    let mut audio = [0u8; STREAM];
    read_into(film, key, &mut video, &mut audio);
}

// Writes the film of a line from these bytes into an output, then the answer and the output, and what is read back.
fn replay_write(n: Numbers, space: &[u8], out: &mut [u8]) {
    let name = part::part_at(space, NAME, n.name);
    let video = part::part_at(space, VIDEO, n.video);
    let audio = part::part_at(space, AUDIO, n.audio);
    let reply = usm::writing::usm_write(name, video, audio, packing_of(n), out);
    gate_size_line::print(b"write", reply, out);
    if reply.number == 0 {
        read_back(part::part_at(out, 0, reply.size), key_of(n));
    }
}

// Puts the end marker at a place; nowhere at place 0.
fn put_marker(space: &mut [u8], place: usize) {
    if place == 0 {
        return;
    }
    text::put_bytes(space, place, b"#CONTENTS END");
}

// Does what a line says, and answers whether it is one.
fn replay_line(line: &[u8]) -> bool {
    let Some(n) = numbers::numbers_on(line) else {
        return false;
    };
    let mut out = [0xEEu8; SPACE];
    let Some(out) = out.get_mut(..n.room) else {
        return false;
    };
    let mut space = [0u8; SPACE];
    gate_sample::fill(&mut space);
    put_marker(&mut space, n.marker);
    replay_write(n, &space, out);
    true
}

// Does what each line of the list says, up to the first that says nothing.
fn main() {
    let mut list = io::large_buffer();
    gate_fields::replay(&mut list, b"stdin is not a list of films\n", replay_line);
}
