// Films of the old builder with several audios: whether a container is one. However many there are, the work is in proportion to the container's length, and nothing is
// kept for each. Rules O3 to O8.
// From the Rust: `builder.rs`.
#![tactic(auto)]

ghost use Rattle.std.specs.Prelude.{◌≡◌, Bool, true, ◌&&◌, List, map, ℕ, ◌+◌, ◌-◌, ◌*◌, ◌≤◌, ◌<◌, ◌^◌, ltb, length, drop, replicate};
ghost use Rattle.signature.specs.Signatures.{SFA, stands_at};
ghost use Rattle.turns.specs.declared.Form.TheVariants.{Old};
ghost use Rattle.turns.specs.declared.Track.TheVariants.{Audio};
ghost use Rattle.turns.specs.Chunks.{chunk_size, payload_in};
ghost use Rattle.turns.specs.Turns.{goes_on};
ghost use Rattle.old_film.specs.Blocks.{table_block};
ghost use Rattle.old_film.specs.Tables.{old_audio};
ghost use Rattle.old_film_many.specs.Audios.{count_in, payloads_in, sizes_of, seen_from, heard_from, turn_at, streams_in, sizes_by, is_many};

use turns::{Form, Track};
use write_blocks::PAYLOAD;

// How many numbers audios can have.
const NUMBERS: usize = 0x100000000;

// A turn: the length of the video's payload, and where the chunks of the audios begin and end.
#[derive(Clone, Copy)]
struct Turn {
    video: usize,
    start: usize,
    end: usize,
}

// All turns: the length of the video, and where they end.
#[derive(Clone, Copy)]
struct Sizes {
    video: usize,
    end: usize,
}

// Whether there is an audio of this number: its block stands behind those of the others, which begin at a place.
fn is_there(container: &[u8], place: usize, number: usize) -> bool
    requires { place ≤ 2 ^ 33 }
    ensures { result ≡ (ltb number (2 ^ 32) && stands_at (table_block SFA (old_audio number)) container.now (place + number * 0x60)) }
{
    if number < NUMBERS {
        let block = old_film::audio_block(number as u32);
        return signature::stands_at(&block, container, place + number * old_film::AUDIO);
    }
    false
}

// How many audios have a block, one after the other from a place on.
fn count_in(container: &[u8], place: usize) -> usize
    requires { place ≤ 2 ^ 33 }
    ensures { (result ≡ count_in (drop place container.now)) × (result ≤ 2 ^ 32) × (0 < result → place + result * 0x60 ≤ length container.now) }
{
    let mut count = 0;
    // No `for` over the numbers: it would say a second time that there are no more than NUMBERS, and be no plainer.
    while is_there(container, place, count) {
        count += 1;
    }
    count
}

// How long the payload is whose chunk stands at a place.
fn len_at(bytes: &[u8], place: usize, track: Track, from: usize, going: bool) -> usize
    requires { place ≤ length bytes.now }
    ensures { (result ≡ length (payload_in Old track from going (drop place bytes.now))) × (result ≤ 0x10000) × (place + chunk_size Old result ≤ length bytes.now) }
{
    let seen = turns::payload_in(&bytes[place..], Form::Old, track, from, going);
    seen.len
}

// Where the chunk of an audio ends that stands at a place; there, if there is none.
fn end_at(bytes: &[u8], place: usize, number: u32, from: usize, going: bool) -> usize
    requires { place ≤ length bytes.now }
    ensures { (result ≡ place + chunk_size Old (length (payload_in Old (Audio number) from going (drop place bytes.now)))) × (result ≤ length bytes.now) }
{
    let len = len_at(bytes, place, Track::Audio(number), from, going);
    place + turns::chunk_size(Form::Old, len as u32)
}

// Where the chunks of the first turn's audios end, which begin at a place.
fn first_audios(bytes: &[u8], place: usize, count: usize) -> usize
    requires { (place ≤ length bytes.now) × (count ≤ 2 ^ 32) }
    ensures { (result ≡ place + sizes_of (payloads_in 0 0 (replicate count true) (drop place bytes.now))) × (result ≤ length bytes.now) }
{
    let mut at = place;
    for number in 0..count {
        let next = end_at(bytes, at, number as u32, 0, true);
        at = next;
    }
    at
}

// Where the chunks of the next turn's audios end, which begin at a place. Those of the turn before, from `start` to `end`, say which audios go on.
fn next_audios(bytes: &[u8], start: usize, end: usize, place: usize, from: usize) -> usize
    requires { (end ≤ length bytes.now) × (place ≤ length bytes.now) × (from ≤ length bytes.now) }
    ensures { (result ≤ length bytes.now) × ((goings : List Bool) → length goings ≤ 2 ^ 32 → start + sizes_of (payloads_in from 0 goings (drop start bytes.now)) ≡ end → result ≡ place + sizes_of (payloads_in (from + 0x10000) 0 (map goes_on (payloads_in from 0 goings (drop start bytes.now))) (drop place bytes.now))) }
{
    let mut at = start;
    let mut last = place;
    // No `for`: each chunk's own length says where the next begins.
    while at < end {
        let number = word::read32(bytes, at + 16) as u32;
        let len = len_at(bytes, at, Track::Audio(number), from, true);
        // Where chunks of a turn stand, this is never so. Without it a length of 0 would keep the loop from ending.
        if len == 0 {
            return last;
        }
        let next = end_at(bytes, last, number, from + PAYLOAD, len == PAYLOAD);
        last = next;
        at += turns::chunk_size(Form::Old, len as u32);
    }
    last
}

// The first turn, which begins at a place.
fn first_turn(bytes: &[u8], place: usize, count: usize) -> Turn
    requires { (place ≤ length bytes.now) × (count ≤ 2 ^ 32) }
    ensures { (result ≡ turn_at 0 true (replicate count true) bytes.now place) × (result.end ≤ length bytes.now) }
{
    let video = len_at(bytes, place, Track::Video, 0, true);
    let start = place + turns::chunk_size(Form::Old, video as u32);
    let end = first_audios(bytes, start, count);
    Turn { video, start, end }
}

// The turn after one that has this byte of the streams first.
fn next_turn(bytes: &[u8], turn: Turn, from: usize) -> Turn
    requires { (turn.end ≤ length bytes.now) × (from ≤ length bytes.now) }
    ensures { (result.end ≤ length bytes.now) × ((seen : Bool) (goings : List Bool) (place : ℕ) → length goings ≤ 2 ^ 32 → turn ≡ turn_at from seen goings bytes.now place → result ≡ turn_at (from + 0x10000) (goes_on (seen_from from seen (drop place bytes.now))) (map goes_on (heard_from from seen goings (drop place bytes.now))) bytes.now turn.end) }
{
    let going = turn.video == PAYLOAD;
    let video = len_at(bytes, turn.end, Track::Video, from + PAYLOAD, going);
    let start = turn.end + turns::chunk_size(Form::Old, video as u32);
    let end = next_audios(bytes, turn.start, turn.end, start, from);
    Turn { video, start, end }
}

// All turns, which begin at a place.
fn read_streams(bytes: &[u8], place: usize, count: usize) -> Sizes
    requires { (place ≤ length bytes.now) × (count ≤ 2 ^ 32) }
    ensures { (result ≡ sizes_by place (streams_in count (drop place bytes.now))) × (result.end ≤ length bytes.now) }
{
    let mut turn = first_turn(bytes, place, count);
    let mut video = turn.video;
    let rounds = (bytes.len() - place) / PAYLOAD;
    for round in 0..rounds {
        let next = next_turn(bytes, turn, round * PAYLOAD);
        video += next.video;
        turn = next;
    }
    Sizes {
        video,
        end: turn.end,
    }
}

// Whether a container is a film of the builder with several audios.
pub fn is_many(container: &[u8]) -> bool
    ensures { result ≡ is_many container.now }
{
    let name = old_film::name_in(container);
    let len = name.len() as u32;
    let place = old_film::name_size(len) + old_film::VIDEO;
    let count = count_in(container, place);
    if count < 2 {
        return false;
    }
    let start = place + count * old_film::AUDIO;
    let sizes = read_streams(container, start, count);
    if utf8::is_utf8(name) {
        return old_film::is_rebuilt(container, len, sizes.video, sizes.end, count);
    }
    false
}
