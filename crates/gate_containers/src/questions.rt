// The questions of the list: what an extraction and a listing are asked with, read from the text of a line.
use reading::{Reading, ReadingBytes};

// The digits of a key.
const KEY_DIGITS: usize = 16;

// Whether a text is a choice of audio: 0 or 1.
fn is_choice(text: &[u8]) -> bool {
    matches!(text, [b'0' | b'1'])
}

// The reading by such a choice.
fn reading_of(text: &[u8]) -> ReadingBytes {
    ReadingBytes {
        audio: u8::from(!matches!(text, [b'0'])),
        channel: 0,
        payloads: 0,
        tables: 0,
    }
}

// Writes the list of the chunks by the choice of audio, and answers whether it is one.
pub(crate) fn replay_list(text: &[u8], container: &[u8]) -> bool {
    if !is_choice(text) {
        return false;
    }
    crate::answers::write_list(container, reading_of(text));
    true
}

// Whether a text is a key's: a dash where there is none, or its digits.
fn is_key(text: &[u8]) -> bool {
    matches!(text, [b'-']) || text.len() == KEY_DIGITS && gate_fields::is_hex(text, 8)
}

// The key that such a text stands for.
fn key_of(text: &[u8]) -> Option<u64> {
    if matches!(text, [b'-']) {
        return None;
    }
    let mut bytes = [0u8; 8];
    gate_fields::decode(text, &mut bytes);
    Some(word::read64(&bytes, 0) as u64)
}

// Writes the answer on an extraction by the digits of the fallback name, and answers whether they are some.
fn replay_named(container: &[u8], reading: Reading, key: Option<u64>, digits: &[u8]) -> bool {
    let mut space = io::buffer();
    let Some(fallback) = gate_fields::bytes_of(digits, &mut space) else {
        return false;
    };
    crate::answers::write_film(container, reading, key, fallback);
    true
}

// Writes the answer on an extraction by a text of a key and a fallback name, and answers whether it is one.
fn replay_keyed(container: &[u8], reading: Reading, text: &[u8]) -> bool {
    let gap = gate_fields::gap_in(text);
    if gap == text.len() || !is_key(&text[..gap]) {
        return false;
    }
    let key = key_of(&text[..gap]);
    replay_named(
        container,
        reading,
        key,
        gate_fields::rest_from(text, gap + 1),
    )
}

// Writes the answer on an extraction by a text of a choice of audio, a key and a fallback name, and answers whether
// it is one.
pub(crate) fn replay_film(text: &[u8], container: &[u8]) -> bool {
    let gap = gate_fields::gap_in(text);
    if !is_choice(&text[..gap]) {
        return false;
    }
    let reading = reading::reading_by(reading_of(&text[..gap]));
    replay_keyed(container, reading, gate_fields::rest_from(text, gap + 1))
}
