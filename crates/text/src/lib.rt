// Text that is put into an output: bytes as they are or in hex, and numbers in decimal or hex digits. Each function puts its
// text from a place on, as far as the output goes, and answers how many bytes it has, whether they had room or not. So an
// empty output measures a text.
// No rule comes from the Rust, which prints nothing. It serves the programs' lines.
#![tactic(auto)]

ghost use Rattle.std.specs.Prelude.{◌≡◌, ◌+◌, ◌<◌, set};
ghost use Rattle.io.specs.Digits.{hex_digit_ascii};
ghost use Rattle.text.specs.Numbers.{decimal, hex, hex_bytes};
ghost use Rattle.laws.specs.Outputs.{Put};

// Puts the byte that is `i` bytes after a place, if the output has that. Its first test is the same for all bytes of a text, so
// that the compiler asks it once, and an output that ends before the text is measured without a loop over its bytes.
fn put_byte(out: &mut [u8], place: usize, i: usize, byte: u8)
    ensures { out.new ≡ set out.old (place + i) byte }
{
    if place < out.len() && i < out.len() - place {
        out[place + i] = byte;
    }
}

// Puts bytes.
pub fn put_bytes(out: &mut [u8], place: usize, bytes: &[u8]) -> usize
    ensures { Put bytes.now out.old place out.new (place + result) }
{
    for (i, byte) in bytes.iter().enumerate() {
        put_byte(out, place, i, *byte);
    }
    bytes.len()
}

// The hex digit of a number below 16.
fn hex_digit(n: u8) -> u8
    requires { n < 16 }
    ensures { result ≡ hex_digit_ascii n }
{
    match n {
        0..=9 => b'0' + n,
        _ => b'a' + (n - 10),
    }
}

// Puts two hex digits for each of some bytes.
pub fn put_hex_bytes(out: &mut [u8], place: usize, bytes: &[u8]) -> usize
    ensures { Put (hex_bytes bytes.now) out.old place out.new (place + result) }
{
    for (i, byte) in bytes.iter().enumerate() {
        put_byte(out, place, 2 * i, hex_digit(*byte / 16));
        put_byte(out, place, 2 * i + 1, hex_digit(*byte % 16));
    }
    2 * bytes.len()
}

// Puts a number in decimal digits.
pub fn put_decimal(out: &mut [u8], place: usize, n: u64) -> usize
    ensures { Put (decimal n) out.old place out.new (place + result) }
{
    let mut digits = [0u8; 20];
    let count = io::decimal(n, &mut digits);
    put_bytes(out, place, &digits[..count])
}

// Puts a number in hex digits, with zeros in front up to `width` digits.
pub fn put_hex(out: &mut [u8], place: usize, n: u64, width: usize) -> usize
    ensures { Put (hex width n) out.old place out.new (place + result) }
{
    let mut digits = [0u8; 16];
    let count = io::hex(n, width, &mut digits);
    put_bytes(out, place, &digits[..count])
}
