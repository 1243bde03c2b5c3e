// The bytes that recorded answers are given for, and the digest that stands for an answer's bytes.
// No rule of this crate comes from the Rust: it serves the programs that replay recorded answers.
#![tactic(auto)]

ghost use Rattle.std.specs.Prelude.{◌≡◌, ◌<◌, length};
ghost use Rattle.laws.specs.Lists.{tab};
ghost use Rattle.gate_sample.specs.Recorded.{number_after, sample_byte, digest_after, digest_of};

// The generator's next number.
fn number_after(x: u64) -> u64
    requires { x < 0x80000000 }
    ensures { result ≡ number_after x }
{
    (x * 1103515245 + 12345) % 0x8000_0000
}

// Fills a slice with the generator's bytes, from its start.
pub fn fill(bytes: &mut [u8])
    ensures { bytes.new ≡ tab sample_byte (length bytes.old) }
{
    let mut x = 1;
    for byte in bytes.iter_mut() {
        x = number_after(x);
        *byte = (x / 65536 % 256) as u8;
    }
}

// The digest with one byte more.
fn digest_after(h: u64, b: u8) -> u64
    requires { h < 4294967291 }
    ensures { result ≡ digest_after h b }
{
    (h * 65599 + b as u64 + 1) % 4294967291
}

// The digest of bytes.
pub fn digest(bytes: &[u8]) -> u64
    ensures { result ≡ digest_of bytes.now }
{
    let mut h = 0;
    for byte in bytes {
        h = digest_after(h, *byte);
    }
    h
}
