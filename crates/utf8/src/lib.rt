// Whether bytes are well-formed UTF-8, as the names of the old builder are: they were `String`s of the Rust. Rule O8.
#![tactic(auto)]

ghost use Rattle.std.specs.Prelude.{◌≡◌};
ghost use Rattle.utf8.specs.Utf8.{due, due_after, due_next, is_utf8};

// What is due within a character: so many bytes, the next of which lies between these two.
#[derive(Clone, Copy)]
struct Due {
    more: u8,
    low: u8,
    high: u8,
}

// A character may begin.
const NONE: Due = Due {
    more: 0,
    low: 0,
    high: 0,
};

// No byte may follow, and one has to.
const NEVER: Due = Due {
    more: 1,
    low: 1,
    high: 0,
};

// So many more bytes are due, the next of which lies between these two.
fn more(count: u8, low: u8, high: u8) -> Due
    ensures { result ≡ due count low high }
{
    Due {
        more: count,
        low,
        high,
    }
}

// What is due after a character's first byte: the rows of the Unicode Standard's table 3-7. Tests in the order of the bytes: as a
// `match` over ranges, a long name in ASCII takes 1.4 times the instructions (docs/LOOK-BACK.md).
#[tactic(auto, unfolding(crate::specs::Utf8::due_after))]
fn due_after(byte: u8) -> Due
    ensures { result ≡ due_after byte }
{
    if byte < 0x80 {
        return NONE;
    }
    if byte < 0xC2 {
        return NEVER;
    }
    if byte < 0xE0 {
        return more(1, 0x80, 0xBF);
    }
    if byte == 0xE0 {
        return more(2, 0xA0, 0xBF);
    }
    if byte == 0xED {
        return more(2, 0x80, 0x9F);
    }
    if byte < 0xF0 {
        return more(2, 0x80, 0xBF);
    }
    if byte == 0xF0 {
        return more(3, 0x90, 0xBF);
    }
    if byte < 0xF4 {
        return more(3, 0x80, 0xBF);
    }
    if byte == 0xF4 {
        return more(3, 0x80, 0x8F);
    }
    NEVER
}

// What is due after one more byte.
#[tactic(auto, unfolding(crate::specs::Utf8::due_next))]
fn due_next(now: Due, byte: u8) -> Due
    ensures { result ≡ due_next now byte }
{
    if now.more == 0 {
        return due_after(byte);
    }
    if byte < now.low || now.high < byte {
        return NEVER;
    }
    more(now.more - 1, 0x80, 0xBF)
}

// Whether bytes are well-formed UTF-8.
#[tactic(auto, using(crate::proofs::Utf8Laws::next_byte, crate::proofs::Utf8Laws::no_byte))]
pub fn is_utf8(bytes: &[u8]) -> bool
    ensures { result ≡ is_utf8 bytes.now }
{
    let mut now = NONE;
    for byte in bytes {
        now = due_next(now, *byte);
    }
    now.more == 0
}
