// Video and audio payloads, unmasked and masked in place, of any length.
// Rules K and M. From the Rust: `mask_video` and `mask_audio`, which unmask,
// and `apply_video_mask` and `apply_audio_mask`, which mask a copy.
#![tactic(auto)]

ghost use Rattle.std.specs.Prelude.{◌≡◌, ◌≤◌, ◌<◌, length, eqb};
ghost use Rattle.mask.specs.Rows.{xored, xored_rows, cleared_where, cleared_rows, cleared_on};
ghost use Rattle.mask.specs.Audio.{masked_audio};
ghost use Rattle.mask.specs.Video.{clear_tail, xored_head, stored_tail, unmasked_video, masked_video};

use key::Keys;

// Where the head of a video payload starts; bytes below stay.
const HEAD: usize = 0x40;

// Where the tail starts, and what is masked of audio.
pub const TAIL: usize = 0x140;

// The bytes of a row.
pub const ROW: usize = 0x20;

// The bytes of eight rows.
const EIGHT: usize = 0x100;

// A shorter video payload is not masked.
pub const SHORTEST_VIDEO: usize = 0x240;

// XORs each byte with the row's byte in its lane.
fn xor_in(bytes: &mut [u8], row: [u8; 32])
    requires { length bytes.old ≤ 32 }
    ensures { bytes.new ≡ xored bytes.old row }
{
    for (lane, byte) in bytes.iter_mut().enumerate() {
        *byte ^= row[lane];
    }
}

// A row of the payload, XORed with another. A loop of its own: as a copy and then `xor_in`, masking 64 KiB of video takes 13
// times as long (measured).
fn xor_of(bytes: &[u8], row: [u8; 32]) -> [u8; 32]
    requires { length bytes.now ≡ 32 }
    ensures { result ≡ xored bytes.now row }
{
    let mut xors = [0; 32];
    for (lane, byte) in bytes.iter().enumerate() {
        xors[lane] = *byte ^ row[lane];
    }
    xors
}

// XORs rows with A; the last may be short. Rows are cut by number: of what `chunks_mut` and `as_chunks_mut` lend, std says
// nothing of what the slice ends as; and byte by byte, 64 KiB take 22 times as long (measured).
fn xor_rows(rows: &mut [u8], a: [u8; 32])
    ensures { rows.new ≡ xored_rows a rows.old }
{
    let whole = rows.len() / ROW;
    for r in 0..whole {
        let start = r * ROW;
        xor_in(&mut rows[start..start + ROW], a);
    }
    let start = whole * ROW;
    // Without this test the compiler lays A out once more, byte by byte, for a rest of no bytes.
    if start < rows.len() {
        xor_in(&mut rows[start..], a);
    }
}

// Unmasks or masks an audio payload in place: the act is its own reverse.
// The Rust's `mask_audio` and `apply_audio_mask`.
pub fn mask_audio(payload: &mut [u8], keys: Keys)
    ensures { payload.new ≡ masked_audio keys payload.old }
{
    if payload.len() < TAIL {
        return;
    }
    xor_rows(&mut payload[TAIL..], keys.a);
}

// Goes on with an audio payload in place, from a row that is masked.
pub fn mask_audio_on(rows: &mut [u8], keys: Keys)
    ensures { rows.new ≡ xored_rows keys.a rows.old }
{
    xor_rows(rows, keys.a);
}

// Makes the row after a clear one clear, as far as it goes.
fn clear_row(rows: &mut [u8], v: &[u8; 32])
    requires { (0x20 ≤ length rows.old) × (length rows.old ≤ 0x40) }
    ensures { rows.new ≡ cleared_rows v.now rows.old }
{
    for lane in 0..rows.len() - ROW {
        rows[ROW + lane] ^= rows[lane] ^ v[lane];
    }
}

// Makes the rows after a clear one clear, one by one; the last may be short. A copy for each caller, since out of line the
// compiler can't know that V is no part of the rows: it would clear byte by byte, and a video payload of 600 bytes would take
// twice as long. As one loop over the bytes it takes 5 times as long (measured).
#[inline(always)]
fn clear_each(rows: &mut [u8], v: &[u8; 32])
    requires { 0x20 ≤ length rows.old }
    ensures { rows.new ≡ cleared_rows v.now rows.old }
{
    let whole = rows.len() / ROW - 1;
    for r in 0..whole {
        let start = r * ROW;
        clear_row(&mut rows[start..start + 2 * ROW], v);
    }
    clear_row(&mut rows[whole * ROW..], v);
}

// Makes one lane of the eight rows after a clear one clear. V's byte is read once; read in each turn it costs 7 in 100.
fn clear_lane(rows: &mut [u8], v: &[u8; 32], lane: usize)
    requires { (length rows.old ≡ 0x120) × (lane < 0x20) }
    ensures { rows.new ≡ cleared_where (λ l. eqb l lane) v.now rows.old }
{
    let mask = v[lane];
    let mut clear = rows[lane];
    for r in 1..9 {
        let at = r * ROW + lane;
        clear = rows[at] ^ (clear ^ mask);
        rows[at] = clear;
    }
}

// Makes the eight rows after a clear one clear, lane by lane. The compiler takes 16 lanes at a time, and keeps their clear bytes
// in registers; row by row through the buffer, each row would wait until the one before it is stored.
fn clear_eight(rows: &mut [u8], v: &[u8; 32])
    requires { length rows.old ≡ 0x120 }
    ensures { rows.new ≡ cleared_rows v.now rows.old }
{
    for lane in 0..ROW {
        clear_lane(rows, v, lane);
    }
}

// Makes the rows after a clear one clear, eight in a turn, and then what is left. A copy for each caller, as `clear_each`.
#[inline(always)]
fn clear_rows(rows: &mut [u8], v: &[u8; 32])
    requires { 0x20 ≤ length rows.old }
    ensures { rows.new ≡ cleared_rows v.now rows.old }
{
    let turns = (rows.len() - ROW) / EIGHT;
    for turn in 0..turns {
        let start = turn * EIGHT;
        clear_eight(&mut rows[start..start + EIGHT + ROW], v);
    }
    clear_each(&mut rows[turns * EIGHT..], v);
}

// Makes the tail clear: its first row by V, and each other by the clear row before it and V.
fn clear_tail(payload: &mut [u8], v: &[u8; 32])
    requires { 0x160 ≤ length payload.old }
    ensures { payload.new ≡ clear_tail v.now payload.old }
{
    xor_in(&mut payload[TAIL..TAIL + ROW], *v);
    clear_rows(&mut payload[TAIL..], v);
}

// XORs the head's eight rows, by a clear tail: `mask` is T, XORed with the tail's rows so far.
fn xor_head(payload: &mut [u8], t: [u8; 32])
    requires { 0x240 ≤ length payload.old }
    ensures { payload.new ≡ xored_head t payload.old }
{
    let mut mask = t;
    for r in 0..8 {
        let tail = TAIL + r * ROW;
        let head = HEAD + r * ROW;
        let next = xor_of(&payload[tail..tail + ROW], mask);
        xor_in(&mut payload[head..head + ROW], next);
        mask = next;
    }
}

// Masks a clear tail, row by row: `mask` is the clear row before, XORed with V.
fn mask_tail(payload: &mut [u8], v: [u8; 32])
    requires { 0x140 ≤ length payload.old }
    ensures { payload.new ≡ stored_tail v payload.old }
{
    let rows = (payload.len() - TAIL) / ROW;
    let mut mask = v;
    for r in 0..rows {
        let start = TAIL + r * ROW;
        let row = &mut payload[start..start + ROW];
        let next = xor_of(row, v);
        xor_in(row, mask);
        mask = next;
    }
    xor_in(&mut payload[TAIL + rows * ROW..], mask);
}

// Unmasks a video payload in place. The Rust's `mask_video`.
pub fn unmask_video(payload: &mut [u8], keys: Keys)
    ensures { payload.new ≡ unmasked_video keys payload.old }
{
    if payload.len() < SHORTEST_VIDEO {
        return;
    }
    let first_mask = keys.t;
    // V is lent, so that no second copy of it is made.
    clear_tail(payload, &keys.v);
    xor_head(payload, first_mask);
}

// Goes on with a tail in place, after a row that is clear: the first row by that one and V, and then the others.
pub fn unmask_video_on(rows: &mut [u8], last: [u8; 32], keys: Keys)
    ensures { rows.new ≡ cleared_on keys.v last rows.old }
{
    let first = xor_of(&last, keys.v);
    if rows.len() < ROW {
        xor_in(rows, first);
        return;
    }
    xor_in(&mut rows[0..ROW], first);
    // A copy of V alone: to lend `&keys.v` makes the compiler copy all three tables to the stack.
    let v = keys.v;
    clear_rows(rows, &v);
}

// Masks a video payload in place: the head first, while the tail is clear. The Rust's `apply_video_mask`.
pub fn mask_video(payload: &mut [u8], keys: Keys)
    ensures { payload.new ≡ masked_video keys payload.old }
{
    if payload.len() < SHORTEST_VIDEO {
        return;
    }
    xor_head(payload, keys.t);
    mask_tail(payload, keys.v);
}
