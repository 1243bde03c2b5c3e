// Bytes put into the output, from a place on; each function answers where they end. Rules O.
ghost use Rattle.std.specs.Prelude.{◌≡◌, ◌+◌, ◌≤◌, length};
ghost use Rattle.laws.specs.Outputs.{Put};
ghost use Rattle.word.specs.Bytes.{zeros};
ghost use Rattle.turns.specs.Chunks.{chunk_of};
ghost use Rattle.turns.specs.Turns.{next_of};
ghost use Rattle.film_move.specs.Moving.{moved_from};

use turns::{Form, Track};

// Puts bytes. A twin of `write`'s, as `put_zeros` is: a public function has no `requires` (docs/CONTRACTS.md).
pub(crate) fn put(out: &mut [u8], at: usize, bytes: &[u8]) -> usize
    requires { at + length bytes.now ≤ length out.old }
    ensures { Put bytes.now out.old at out.new result }
{
    let end = at + bytes.len();
    out[at..end].copy_from_slice(bytes);
    end
}

// Puts zeros.
pub(crate) fn put_zeros(out: &mut [u8], at: usize, count: usize) -> usize
    requires { (at + count ≤ length out.old) × (count ≤ 0x20) }
    ensures { Put (zeros count) out.old at out.new result }
{
    let none = [0u8; 32];
    put(out, at, &none[..count])
}

// Puts a chunk.
pub(crate) fn put_chunk(
    out: &mut [u8],
    at: usize,
    form: Form,
    track: Track,
    from: usize,
    payload: &[u8],
) -> usize
    requires { (at + length (chunk_of form track from payload.now) ≤ length out.old) × (length payload.now ≤ 0x10000) }
    ensures { Put (chunk_of form track from payload.now) out.old at out.new result }
{
    let shape = turns::shape_of(form, track, from, payload.len() as u32);
    let head = turns::head_by(shape);
    let at = put(out, at, &head);
    let at = put_zeros(out, at, shape.gap);
    let at = put(out, at, payload);
    put_zeros(out, at, shape.pads)
}

// Puts the chunk of a payload, if there is one.
pub(crate) fn put_next(
    out: &mut [u8],
    at: usize,
    form: Form,
    track: Track,
    from: usize,
    payload: &[u8],
) -> usize
    requires { (at + length (next_of form track from payload.now) ≤ length out.old) × (length payload.now ≤ 0x10000) }
    ensures { Put (next_of form track from payload.now) out.old at out.new result }
{
    if payload.len() == 0 {
        return at;
    }
    put_chunk(out, at, form, track, from, payload)
}

// Puts the turns that bytes begin with in one container as those of the other. No `for`, as in `turns::read_turns`.
pub(crate) fn move_turns(
    out: &mut [u8],
    start: usize,
    bytes: &[u8],
    old: Form,
    new: Form,
    audio: bool,
) -> usize
    requires { start + length (moved_from old new audio bytes.now) ≤ length out.old }
    ensures { Put (moved_from old new audio bytes.now) out.old start out.new result }
{
    let mut at = start;
    let mut place = 0;
    let mut from = 0;
    let mut seen = true;
    let mut heard = audio;
    while seen || heard {
        let turn = turns::turn_in(&bytes[place..], old, from, seen, heard);
        let v = turn.video;
        let a = turn.audio;
        let video = turns::payload_of(&bytes[place..], old, v);
        let middle = place + turns::chunk_size(old, v as u32);
        let sound = turns::payload_of(&bytes[middle..], old, a);
        let next = put_next(out, at, new, Track::Video, from, video);
        let end = put_next(out, next, new, Track::Audio(0), from, sound);
        at = end;
        seen = v == 0x10000;
        heard = a == 0x10000;
        place += turn.end;
        from += 0x10000;
    }
    at
}
