// A film written piece by piece: which payload comes next, by numbers alone; the head of its chunk, into a small output; the payload as it is
// stored. Ours, beyond the rules: a caller holds one payload, and nothing else of the film. The header and the ends stand in `write`.
#![tactic(auto)]

ghost use Rattle.std.specs.Prelude.{◌≡◌, ◌<◌, ◌^◌};
ghost use Rattle.write_pieces.specs.Turns.{payload_len, turn_after, piece_of, turn_in};
ghost use Rattle.write_pieces.specs.Storing.{mask_of, mask_in, stored_by, Storing};
ghost use Rattle.write_pieces.specs.TurnReplies.{kind_of, over_reply, piece_reply, TurnWriting};

use chunk::Kind;
use lent::SizeReply;
use refusal::{Cause, Refusal};
use unmasking::Mask;
use write_blocks::PAYLOAD;
use write_plan::{Packing, Stream};

// The data type of every payload that is written.
const WRITTEN: u8 = 0;

// A payload that is written next: its stream, the byte of the stream that it begins with, how many bytes it has, and the turn after it.
#[derive(Clone, Copy)]
pub struct Piece {
    pub stream: Stream,
    pub from: usize,
    pub len: u32,
    pub next: usize,
}

// What is written at a turn, as C reads it: the answer on the head's output; the payload, the zeros behind it, and the mask that it has.
// `found` is 0 where both streams are over, and all else then.
#[repr(C)]
#[derive(Clone, Copy)]
pub struct TurnReply {
    pub head: SizeReply,
    pub next: usize,
    pub from: usize,
    pub length: usize,
    pub padding: usize,
    pub found: u8,
    pub kind: u8,
    pub mask: u8,
}

// ---- turns: the first payload of video, the first of audio, the second of video ..; a stream that is over has no turn

// How many bytes the payload of a round has, in a stream of `size` bytes; 0 where the stream is over.
fn payload_len(size: usize, round: usize) -> u32
    ensures { result ≡ payload_len size round }
{
    let whole = size / PAYLOAD;
    if round < whole {
        return PAYLOAD as u32;
    }
    if round == whole {
        return (size % PAYLOAD) as u32;
    }
    0
}

// The turn after that of a stream in a round.
fn turn_after(stream: Stream, round: usize) -> usize
    requires { round < 2 ^ 48 }
    ensures { result ≡ turn_after stream round }
{
    match stream {
        Stream::Video => 2 * round + 1,
        Stream::Audio => 2 * round + 2,
    }
}

// The payload of a round in a stream of `size` bytes.
fn piece_of(stream: Stream, size: usize, round: usize) -> Option<Piece>
    ensures { result ≡ piece_of stream size round }
{
    let len = payload_len(size, round);
    if len == 0 {
        return None;
    }
    Some(Piece {
        stream,
        from: round * PAYLOAD,
        len,
        next: turn_after(stream, round),
    })
}

// What is written at a turn, in a film whose streams have these lengths. Turn 0 is the first.
pub fn turn_in(video: usize, audio: usize, turn: usize) -> Option<Piece>
    ensures { result ≡ turn_in video audio turn }
{
    let round = turn / 2;
    let sound = piece_of(Stream::Audio, audio, round);
    if turn % 2 == 0 {
        return piece_of(Stream::Video, video, round).or(sound);
    }
    sound.or(piece_of(Stream::Video, video, round + 1))
}

// ---- a payload as it is stored

// The mask that a stream's payloads have under a key.
fn mask_of(stream: Stream, codec: Option<u32>) -> Mask
    ensures { result ≡ mask_of stream codec }
{
    match stream {
        Stream::Video => unmasking::video_mask(WRITTEN),
        Stream::Audio => unmasking::audio_mask(codec, WRITTEN),
    }
}

// The mask that a stream's payloads have in a film. Without a key they have none.
fn mask_in(packing: Packing, stream: Stream) -> Mask
    ensures { result ≡ mask_in packing.key packing.audio_codec stream }
{
    let key = packing.key;
    let codec = packing.audio_codec;
    match key {
        None => Mask::Clear,
        Some(_) => mask_of(stream, codec),
    }
}

// Masks a clear payload under a key, as it is stored.
fn store_by(payload: &mut [u8], number: u64, mask: Mask)
    ensures { payload.new ≡ stored_by number mask payload.old }
{
    match mask {
        Mask::Clear => {}
        Mask::VideoMask => mask::mask_video(payload, key::key_table(number)),
        Mask::AudioMask => mask::mask_audio(payload, key::key_table(number)),
    }
}

// Masks a clear payload as it is stored, and answers its length. One that begins with the end marker is refused, and left.
pub fn store(payload: &mut [u8], number: u64, mask: Mask) -> Result<usize, Refusal>
    ensures { Storing number mask payload.old result payload.new }
{
    if signature::stands_at(b"#CONTENTS END", payload, 0) {
        return refusal::refused(Cause::MarkedPayload, 0);
    }
    let len = payload.len();
    store_by(payload, number, mask);
    Ok(len)
}

// ---- the head of a turn's chunk

// The number of a stream's chunks, as a listing for C gives it.
fn kind_of(stream: Stream) -> u8
    ensures { result ≡ kind_of stream }
{
    match stream {
        Stream::Video => chunk::kind_number(Kind::Video),
        Stream::Audio => chunk::kind_number(Kind::Audio),
    }
}

// The reply where both streams are over.
fn over() -> TurnReply
    ensures { result ≡ over_reply }
{
    TurnReply {
        head: lent::size_reply(Ok(0)),
        next: 0,
        from: 0,
        length: 0,
        padding: 0,
        found: 0,
        kind: 0,
        mask: 0,
    }
}

// The reply on a payload that is written next, where this was answered on its head.
fn piece_reply(piece: Piece, packing: Packing, written: Result<usize, Refusal>) -> TurnReply
    ensures { result ≡ piece_reply packing written piece }
{
    let stream = piece.stream;
    let length = piece.len as usize;
    TurnReply {
        head: lent::size_reply(written),
        next: piece.next,
        from: piece.from,
        length,
        padding: word::padding(length),
        found: 1,
        kind: kind_of(stream),
        mask: unmasking::mask_number(mask_in(packing, stream)),
    }
}

// What is written at a turn, and the head of its chunk at the start of an output. Where there is no audio, its length is not looked at.
pub fn write_turn(
    video: usize,
    audio: usize,
    turn: usize,
    packing: Packing,
    head: &mut [u8],
) -> TurnReply
    ensures { TurnWriting video audio turn packing head.old result head.new }
{
    let audio = write_plan::audio_size(packing, audio);
    match turn_in(video, audio, turn) {
        None => over(),
        Some(piece) => {
            let stream = piece.stream;
            let written = write::write_head(stream, piece.len, head);
            piece_reply(piece, packing, written)
        }
    }
}
