// The lines of a list and their fields: hex digits that stand for bytes, and decimal numbers.
// No rule of this crate comes from the Rust: it serves the programs that replay recorded answers.
// Where a contract has a second clause, it follows from the first and spares a caller the proof. No contract can say what is
// read and written, so the functions that replay a list ensure nothing.
#![tactic(auto)]

ghost use Rattle.std.specs.Prelude.{true, false, ◌≡◌, ◌≤◌, ◌<◌, IsTrue, MatchOption, length, drop};
ghost use Rattle.io.specs.Counts.{IsPrefixLen};
ghost use Rattle.part.specs.Parts.{IsPart};
ghost use Rattle.gate_fields.specs.Fields.{next_line, ends_in_line, is_marked, rest_start, gap_in, digit_value, is_digits, is_hex, byte_of, decoded, decoded_count, decoded_into, number_of, after_field, number_in};

use descriptors::{STDIN_FILENO, STDOUT_FILENO};

// The largest number that a field writes.
const MOST: usize = 0xFFFF_FFFF;

// One past the line that starts at a place, and past its LF; the place itself where it is past the list's end.
pub fn next_line(list: &[u8], at: usize) -> usize
    ensures value { result ≡ next_line list.now at }
    ensures lower_bound { at < length list.now → (at < result) × (result ≤ length list.now) }
{
    for i in at..list.len() {
        if list[i] == b'\n' {
            return i + 1;
        }
    }
    at.max(list.len())
}

// Whether a list has a line, and LF ends the last one.
pub fn ends_in_line(list: &[u8]) -> bool
    ensures { result ≡ ends_in_line list.now }
{
    list.ends_with(b"\n")
}

// Hands each line of a list to `take`, without its LF, up to the first that it does not take, and answers whether it took
// all of them: never where LF does not end the list. A loop, since `next_line` says where a line ends, and `split` would cut by a
// closure of which no contract here speaks.
pub fn takes_lines<F: FnMut(&[u8]) -> bool>(list: &[u8], mut take: F) -> bool
    requires { F.IsAlwaysCallable take }
    ensures { IsTrue result → IsTrue (ends_in_line list.now) }
{
    if !ends_in_line(list) {
        return false;
    }
    let mut at = 0;
    while at < list.len() {
        let next = next_line(list, at);
        if !take(&list[at..next - 1]) {
            return false;
        }
        at = next;
    }
    true
}

// Replays the list on standard input, as far as there is room for it: hands its lines to `take`, and writes `refusal` where it
// did not take all of them.
pub fn replay<F: FnMut(&[u8]) -> bool>(room: &mut [u8], refusal: &[u8], take: F)
    requires { F.IsAlwaysCallable take }
{
    let size = io::read_full(STDIN_FILENO, room);
    if !takes_lines(&room[..size], take) {
        io::write_all(STDOUT_FILENO, refusal);
    }
}

// Whether standard input holds more than was read.
fn more_comes() -> bool {
    0 < io::read_full(STDIN_FILENO, &mut [0])
}

// Replays the list on standard input in the same way, and none of it where it has more than 65,536 bytes.
pub fn replay_whole<F: FnMut(&[u8]) -> bool>(refusal: &[u8], take: F)
    requires { F.IsAlwaysCallable take }
{
    let mut room = io::large_buffer();
    let size = io::read_full(STDIN_FILENO, &mut room);
    if more_comes() {
        io::write_all(STDOUT_FILENO, b"stdin has more than 65536 bytes\n");
    } else if !takes_lines(&room[..size], take) {
        io::write_all(STDOUT_FILENO, refusal);
    }
}

// Whether a line begins with a letter and a space.
pub fn is_marked(line: &[u8], letter: u8) -> bool
    ensures { result ≡ is_marked line.now letter }
{
    line.starts_with(&[letter, b' '])
}

// The part of a line from a place on; its empty part at byte 0 where it ends before.
pub fn rest_from(line: &[u8], at: usize) -> &[u8]
    ensures { IsPart line.entry (rest_start line.now at) (drop at line.now) result }
{
    if line.len() < at {
        return &line[..0];
    }
    &line[at..]
}

// Where the first space of a text stands, or where the text ends.
pub fn gap_in(text: &[u8]) -> usize
    ensures value { result ≡ gap_in text.now }
    ensures prefix_len { IsPrefixLen result text.now }
{
    for (i, byte) in text.iter().enumerate() {
        if *byte == b' ' {
            return i;
        }
    }
    text.len()
}

// The value of a lower-case hex digit.
#[tactic(auto, using(std::proofs::lemmas::Bool::Decides::nat_tests), unfolding(crate::specs::Fields::digit_value))]
fn digit_value(byte: u8) -> Option<u8>
    ensures { MatchOption result (digit_value byte ≡ 16) (λ d. (d ≡ digit_value byte) × (d < 16)) }
{
    match byte {
        b'0'..=b'9' => Some(byte - b'0'),
        b'a'..=b'f' => Some(byte - b'a' + 10),
        _ => None,
    }
}

// Whether each byte of a text is a lower-case hex digit.
fn is_digits(text: &[u8]) -> bool
    ensures { result ≡ is_digits text.now }
{
    for byte in text {
        if digit_value(*byte).is_none() {
            return false;
        }
    }
    true
}

// Whether a text stands for at most `most` bytes.
pub fn is_hex(text: &[u8], most: usize) -> bool
    ensures { result ≡ is_hex text.now most }
{
    text.len() % 2 == 0 && text.len() / 2 <= most && is_digits(text)
}

// The byte that two digits stand for.
fn byte_of(high: u8, low: u8) -> u8
    ensures { result ≡ byte_of high low }
{
    digit_value(high).unwrap_or(0) * 16 + digit_value(low).unwrap_or(0)
}

// Puts the bytes that a text stands for at the start of a buffer, as many as it holds, and answers how many.
pub fn decode(text: &[u8], bytes: &mut [u8]) -> usize
    ensures value { (result ≡ decoded_count text.now bytes.old) × (bytes.new ≡ decoded_into text.now bytes.old) }
    ensures prefix_len { IsPrefixLen result bytes.new }
{
    let count = (text.len() / 2).min(bytes.len());
    for i in 0..count {
        bytes[i] = byte_of(text[2 * i], text[2 * i + 1]);
    }
    count
}

// The bytes that digits stand for, put at the start of `room`, if they are hex digits and it holds as many bytes.
pub fn bytes_of<'a>(digits: &[u8], room: &'a mut [u8]) -> Option<&'a [u8]>
    ensures { MatchOption result (is_hex digits.now (length room.old) ≡ false) (λ bytes. (is_hex digits.now (length room.old) ≡ true) × (bytes.now ≡ decoded digits.now)) }
{
    if !is_hex(digits, room.len()) {
        return None;
    }
    let size = decode(digits, room);
    Some(&room[..size])
}

// The number that a text writes in decimal digits.
pub fn number_of(text: &[u8]) -> Option<usize>
    ensures { result ≡ number_of text.now }
{
    if text.is_empty() {
        return None;
    }
    let mut number = 0;
    for byte in text {
        let digit = digit_value(*byte)?;
        if 9 < digit {
            return None;
        }
        number = number * 10 + usize::from(digit);
        if MOST < number {
            return None;
        }
    }
    Some(number)
}

// Where the field starts that comes after the one at a place; the line's end where none comes.
pub fn after_field(line: &[u8], at: usize) -> usize
    ensures value { result ≡ after_field line.now at }
    ensures upper_bound { result ≤ length line.now }
{
    if line.len() <= at {
        return line.len();
    }
    let gap = gap_in(rest_from(line, at));
    line.len().min(at + gap + 1)
}

// The number that the field at a place writes.
pub fn number_in(line: &[u8], at: usize) -> Option<usize>
    ensures { result ≡ number_in line.now at }
{
    let rest = rest_from(line, at);
    number_of(&rest[..gap_in(rest)])
}
