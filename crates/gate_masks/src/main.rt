// Replays recorded answers of the original Rust: reads keys from standard input and writes what the
// library's five exported functions answer for each. README.md beside this crate has the format.
#![tactic(auto)]

ghost use Rattle.std.specs.Prelude.{◌≤◌};

use descriptors::{STDIN_FILENO, STDOUT_FILENO};
use print_line::Line;

// The bytes of a line of the list: a key's digits, and LF.
const LINE: usize = 17;

// The lengths of the payloads: around each place where a rule of the masks begins, and a long one.
const LENGTHS: [usize; 20] = [
    0, 0x13F, 0x140, 0x141, 0x158, 0x159, 0x15A, 0x15B, 0x15C, 0x15D, 0x15E, 0x15F, 0x160, 0x23F,
    0x240, 0x241, 0x25F, 0x260, 0x261, 4096,
];

// The digest of what is made of a fresh payload of `len` bytes.
fn answer<F: Fn(&mut [u8])>(change: F, len: usize) -> u64
    requires callable { F.IsAlwaysCallable change }
    requires room { len ≤ 4096 }
{
    let mut space = io::buffer();
    let payload = &mut space[..len];
    gate_sample::fill(payload);
    change(payload);
    gate_sample::digest(payload)
}

// A line that begins with a key.
fn line_of(key: u64) -> Line {
    print_line::empty().hex(key, 16)
}

// A line with a space and a digest's eight digits after it.
fn with_digest(line: Line, digest: u64) -> Line {
    line.word(b" ").hex(digest, 8)
}

// Writes the line of a key's T, V and A, or none where the library does not give 96 bytes.
fn replay_table(key: u64) {
    let mut table = [0u8; 96];
    let given = player::usm_key_table(key, &mut table);
    if given != 96 {
        return;
    }
    line_of(key).word(b" table ").hex_bytes(&table).end();
}

// Writes the line of a key and a payload's length: the digests after the four acts.
fn replay_payload(key: u64, len: usize)
    requires { len ≤ 4096 }
{
    let unmasked_video = answer(|payload| player::usm_unmask_video(key, payload), len);
    let masked_video = answer(|payload| player::usm_mask_video(key, payload), len);
    let unmasked_audio = answer(|payload| player::usm_unmask_audio(key, payload), len);
    let masked_audio = answer(|payload| player::usm_mask_audio(key, payload), len);
    let line = line_of(key).word(b" ").decimal(len as u64);
    let video = with_digest(with_digest(line, unmasked_video), masked_video);
    with_digest(with_digest(video, unmasked_audio), masked_audio).end();
}

// Writes all lines of a key.
fn replay_key(key: u64) {
    replay_table(key);
    for len in LENGTHS {
        replay_payload(key, len);
    }
}

// The key on a line.
fn key_on(line: &[u8]) -> Option<u64> {
    match line.strip_suffix(b"\n") {
        Some(digits) if line.len() == LINE => typed::read_key(digits),
        _ => None,
    }
}

// Writes the lines of the key on a line, and answers whether it has one.
fn replay_line(line: &[u8]) -> bool {
    let Some(key) = key_on(line) else {
        return false;
    };
    replay_key(key);
    true
}

// Writes the lines of each key of a list, up to the first line that is no key, and answers whether all of it was a list, of
// one key at least.
fn replay(list: &[u8]) -> bool {
    !list.is_empty() && list.chunks(LINE).all(replay_line)
}

fn main() {
    let mut list = io::buffer();
    let size = io::read_full(STDIN_FILENO, &mut list);
    if !replay(&list[..size]) {
        io::write_all(STDOUT_FILENO, b"stdin is not a list of keys\n");
    }
}
