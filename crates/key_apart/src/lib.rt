// The first byte of a payload that differs under two keys. It is found by positions and lanes; no byte of the payload is read.
// Rules D. Ours: the Rust has nothing of the kind.
#![tactic(auto)]

ghost use Rattle.std.specs.Prelude.{◌≡◌, ◌%◌};
ghost use Rattle.laws.specs.Lists.{at};
ghost use Rattle.mask.specs.Positions.{head_row_differs, video_differs, audio_differs};
ghost use Rattle.key_apart.specs.PayloadsApart.{differs_in, is_masked_in, parts_at, first_by, apart_in};

use key::Keys;
use mask::{ROW, SHORTEST_VIDEO, TAIL};
use unmasking::Mask;

// Whether two keys can differ in a head row of a video payload.
fn head_row_differs(row: usize) -> bool
    ensures { result ≡ head_row_differs row }
{
    matches!(row, 2 | 3 | 6 | 7)
}

// Whether they can at a position of a video payload.
fn video_differs(p: usize) -> bool
    ensures { result ≡ video_differs p }
{
    if p < 0x40 {
        false
    } else if p < TAIL {
        head_row_differs((p - 0x40) / ROW)
    } else {
        (p - TAIL) / ROW % 2 == 0
    }
}

// Whether they can at a position of an audio payload.
fn audio_differs(p: usize) -> bool
    ensures { result ≡ audio_differs p }
{
    TAIL <= p && p % ROW % 2 == 0
}

// Whether they can at a position of a payload that has a mask.
fn differs(mask: Mask, p: usize) -> bool
    ensures { result ≡ differs_in mask p }
{
    match mask {
        Mask::Clear => false,
        Mask::VideoMask => video_differs(p),
        Mask::AudioMask => audio_differs(p),
    }
}

// Whether a payload of a mask is long enough to be masked.
fn is_masked_in(mask: Mask, len: usize) -> bool
    ensures { result ≡ is_masked_in mask len }
{
    match mask {
        Mask::Clear => false,
        Mask::VideoMask => SHORTEST_VIDEO <= len,
        Mask::AudioMask => true,
    }
}

// Whether a masked payload differs under two keys at a position. The lane is read after the test: as one expression with `&&`,
// `usm_payload_apart` takes 3 times as long; with T lent, 32 bytes of stack more (measured).
fn parts(mask: Mask, keys: Keys, others: Keys, p: usize) -> bool
    ensures { result ≡ parts_at mask keys.t others.t p }
{
    if differs(mask, p) {
        let t = keys.t;
        let u = others.t;
        let lane = p % ROW;
        return t[lane] != u[lane];
    }
    false
}

// The first position at which a masked payload differs under two keys, or its length.
fn first_parting(mask: Mask, keys: Keys, others: Keys, len: usize) -> usize
    ensures { result ≡ first_by (parts_at mask keys.t others.t) 0 len }
{
    for p in 0..len {
        if parts(mask, keys, others, p) {
            return p;
        }
    }
    len
}

// The first position of a payload of a length that differs under two keys, or that length. Keys that agree in all bits that count are not
// tried position by position: a long payload would take its time for nothing. Others differ within 0x160 bytes, or nowhere.
pub fn payload_apart(mask: Mask, len: usize, key: u64, other: u64) -> usize
    ensures { result ≡ apart_in mask key other len }
{
    if is_masked_in(mask, len) {
        if key::counting_bits(key) != key::counting_bits(other) {
            return first_parting(mask, key::key_table(key), key::key_table(other), len);
        }
    }
    len
}
