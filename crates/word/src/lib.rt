// Bytes and big-endian numbers at a place of a slice, numbers as bytes, and padding. A byte past the end reads as 0, so every place has an answer:
// whether enough bytes are there is another question, which `left_from` answers.
// Rules T: "Big-endian throughout." From the Rust: the reads of `reader.rs`.
#![tactic(auto)]

ghost use Rattle.std.specs.Prelude.{◌≡◌, ℕ, ◌+◌, ◌-◌, ◌≤◌, ◌<◌, ◌^◌, length, slice_index, drop};
ghost use Rattle.laws.specs.Lists.{at};
ghost use Rattle.word.specs.Numbers.{be16, be32, be64};
ghost use Rattle.word.specs.Bytes.{bytes32, padding};

// What is padded with zeros is padded to a multiple of this.
const ROUND: usize = 0x20;

// How many bytes a slice has from a place on.
pub fn left_from(bytes: &[u8], place: usize) -> usize
    ensures { result ≡ length bytes.now - place }
{
    bytes.len().saturating_sub(place)
}

// What a slice has from a place on.
fn rest_at(bytes: &[u8], place: usize) -> &[u8]
    ensures { result.now ≡ drop place bytes.now }
{
    bytes.get(place..).unwrap_or(&[])
}

// Fewer bytes than N, and zeros after them. Byte by byte, since a copy of a slice becomes a call of `memcpy`; inlined, since a call costs
// stack in every function that reads.
#[inline]
fn with_zeros<const N: usize>(bytes: &[u8]) -> [u8; N]
    ensures { (k : ℕ) → k < N → slice_index result k ≡ at bytes.now k }
{
    let mut padded = [0; N];
    for k in 0..N {
        padded[k] = read8(bytes, k) as u8;
    }
    padded
}

// The N bytes at a place. Where they are all there, the compiler makes one read of them.
fn array_at<const N: usize>(bytes: &[u8], place: usize) -> [u8; N]
    ensures { (k : ℕ) → k < N → slice_index result k ≡ at bytes.now (place + k) }
{
    let rest = rest_at(bytes, place);
    match rest.first_chunk::<N>() {
        Some(whole) => *whole,
        None => with_zeros(rest),
    }
}

// The byte at a place, as a wider number.
pub fn read8(bytes: &[u8], place: usize) -> usize
    ensures { (result ≡ at bytes.now place) × (result < 2 ^ 8) }
{
    bytes.get(place).map_or(0, |byte| usize::from(*byte))
}

// The number of the two bytes at a place.
pub fn read16(bytes: &[u8], place: usize) -> usize
    ensures { (result ≡ be16 bytes.now place) × (result < 2 ^ 16) }
{
    usize::from(u16::from_be_bytes(array_at(bytes, place)))
}

// The number of the four bytes at a place.
pub fn read32(bytes: &[u8], place: usize) -> usize
    ensures { (result ≡ be32 bytes.now place) × (result < 2 ^ 32) }
{
    u32::from_be_bytes(array_at(bytes, place)) as usize
}

// The number of the eight bytes at a place.
pub fn read64(bytes: &[u8], place: usize) -> usize
    ensures { result ≡ be64 bytes.now place }
{
    usize::from_be_bytes(array_at(bytes, place))
}

// How many bytes are missing to a multiple of 0x20.
pub fn padding(len: usize) -> usize
    ensures { result ≡ padding len }
{
    (ROUND - len % ROUND) % ROUND
}

// A number's four bytes, the highest first.
pub fn bytes32(number: u32) -> [u8; 4]
    ensures { result ≡ bytes32 number }
{
    number.to_be_bytes()
}
