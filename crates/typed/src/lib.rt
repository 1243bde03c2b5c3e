// A key as an operator knows it: 1 to 16 hex digits. It is read as it was typed, taken apart into
// its digits, and set beside a second one; a clip's length and a tenant's number are read too. No rule of this crate comes from the
// Rust: the rules rest on the bits of a key that count, and specs/Promises.antt says how.
#![tactic(auto)]

ghost use Rattle.std.specs.Prelude.{◌≡◌, ◌≤◌, ◌<◌};
ghost use Rattle.typed.specs.TypedNumbers.{value_from, digits_read, number_typed, key_typed, length_typed, tenant_typed};
ghost use Rattle.typed.specs.KeyDigits.{digit_at, digit_counts, digits_differ};
ghost use Rattle.typed.specs.Verdicts.{verdict_on};

// What two keys have in common: every bit, every bit that counts, or not even those.
#[derive(Clone, Copy)]
pub enum Verdict {
    SameKey,
    SameStreams,
    StreamsCanDiffer,
}

// A key has this many hex digits.
pub const PLACES: usize = 16;

// The largest number of 64 bits has this many decimal digits.
const DECIMALS: usize = 20;

// The base of a number after `0x` or `0X`, and of one with neither in front.
const HEX: u32 = 16;

const DECIMAL: u32 = 10;

// The number that digits of a base write; none where a byte is no digit, or where it has more than 64 bits.
fn value_of(digits: &[u8], base: u32) -> Option<u64>
    requires { (2 ≤ base) × (base ≤ 16) }
    ensures { result ≡ value_from base 0 digits.now }
{
    let mut value: u64 = 0;
    for byte in digits {
        let Some(digit) = char::from(*byte).to_digit(base) else {
            return None;
        };
        let Some(raised) = value.checked_mul(u64::from(base)) else {
            return None;
        };
        let Some(next) = raised.checked_add(u64::from(digit)) else {
            return None;
        };
        value = next;
    }
    Some(value)
}

// A number from its digits, so many at most. A word with too many is refused unread.
#[tactic(auto, unfolding(crate::specs::TypedNumbers::digits_read, crate::specs::TypedNumbers::between))]
fn read_digits(digits: &[u8], base: u32, most: usize) -> Option<u64>
    requires { (2 ≤ base) × (base ≤ 16) }
    ensures { result ≡ digits_read base most digits.now }
{
    if digits.is_empty() || most < digits.len() {
        return None;
    }
    value_of(digits, base)
}

// A number as typed: hex after `0x` or `0X`, and where neither stands in front in so many digits of a base at most.
#[tactic(auto, unfolding(crate::specs::TypedNumbers::number_typed, crate::specs::TypedNumbers::prefixed))]
fn read_number(word: &[u8], base: u32, most: usize) -> Option<u64>
    requires { (2 ≤ base) × (base ≤ 16) }
    ensures { result ≡ number_typed base most word.now }
{
    match word {
        [b'0', b'x' | b'X', digits @ ..] => read_digits(digits, HEX, PLACES),
        _ => read_digits(word, base, most),
    }
}

// A key as typed: 1 to 16 hex digits of either case, with or without `0x` or `0X` in front.
pub fn read_key(word: &[u8]) -> Option<u64>
    ensures { result ≡ key_typed word.now }
{
    read_number(word, HEX, PLACES)
}

// A clip's length as typed: 1 to 16 decimal digits, or hex digits after `0x` or `0X`.
pub fn read_length(word: &[u8]) -> Option<u64>
    ensures { result ≡ length_typed word.now }
{
    read_number(word, DECIMAL, PLACES)
}

// A tenant's number as typed: 1 to 20 decimal digits that make a number of 64 bits, or hex digits after `0x` or `0X`.
pub fn read_tenant(word: &[u8]) -> Option<u64>
    ensures { result ≡ tenant_typed word.now }
{
    read_number(word, DECIMAL, DECIMALS)
}

// The hex digit of a key at a place, from 0, the leftmost, to 15, the rightmost; past these it is 0. The
// bound follows from the equation, and spares a caller the proof of it.
#[tactic(auto, unfolding(crate::specs::KeyDigits::digit_at))]
pub fn digit_of(key: u64, place: usize) -> u8
    ensures value { result ≡ digit_at key place }
    ensures upper_bound { result < 16 }
{
    if PLACES <= place {
        return 0;
    }
    ((key >> (4 * (15 - place))) % 16) as u8
}

// Whether the digit at a place can touch a picture or ADX sound at all. Bits 56 to 63 are the digits at
// places 0 and 1, and bits 36 to 39 the digit at place 6: these never count.
#[tactic(auto, unfolding(crate::specs::KeyDigits::digit_counts))]
pub fn digit_counts(place: usize) -> bool
    ensures { result ≡ digit_counts place }
{
    matches!(place, 2..=5 | 7..=15)
}

// Whether two keys have different digits at a place.
#[tactic(auto, unfolding(crate::specs::KeyDigits::digits_differ))]
pub fn digits_differ(first: u64, second: u64, place: usize) -> bool
    ensures { result ≡ digits_differ first second place }
{
    digit_of(first, place) != digit_of(second, place)
}

// The verdict on two keys.
#[tactic(auto, unfolding(crate::specs::Verdicts::verdict_on))]
pub fn verdict_on(first: u64, second: u64) -> Verdict
    ensures { result ≡ verdict_on first second }
{
    if first == second {
        return Verdict::SameKey;
    }
    if key::counting_bits(first) == key::counting_bits(second) {
        return Verdict::SameStreams;
    }
    Verdict::StreamsCanDiffer
}
