// The answer about two keys, printed for an operator and a billing analyst.
//
// What is decided is decided by functions of `typed` and `clip`, which have contracts. What is here only
// prints. No contract can say what is written, so the functions that print have none.
#![tactic(auto)]

use descriptors::STDOUT_FILENO;
use typed::Verdict;

// The hex digits, as they are printed.
const HEX: [u8; 16] = *b"0123456789ABCDEF";

// So many bytes of a word that is no key are shown.
const SHOWN: usize = 40;

// Prints a text.
fn print(text: &[u8]) {
    io::write_all(STDOUT_FILENO, text);
}

// The mark of a digit: itself.
fn digit_mark(key: u64, place: usize) -> u8 {
    let digit = typed::digit_of(key, place) as usize;
    HEX[digit]
}

// The mark of a place that counts, and of one that never does.
fn count_mark(place: usize) -> u8 {
    if typed::digit_counts(place) {
        return b'+';
    }
    b'-'
}

// The mark of a place where two keys differ, and of one where they do not.
fn difference_mark(first: u64, second: u64, place: usize) -> u8 {
    if typed::digits_differ(first, second, place) {
        return b'^';
    }
    b'.'
}

// Prints a row of 16 marks, one for each place of a key.
fn print_row<F: Fn(usize) -> u8>(mark: F)
    requires { F.IsAlwaysCallable mark }
{
    let mut marks = [b' '; typed::PLACES];
    for (place, byte) in marks.iter_mut().enumerate() {
        *byte = mark(place);
    }
    print(&marks);
}

// Prints both keys, which of their digits count, and where they differ.
fn print_digits(first: u64, second: u64) {
    print(b"first key   ");
    print_row(|place| digit_mark(first, place));
    print(b"\nsecond key  ");
    print_row(|place| digit_mark(second, place));
    print(b"\ncounts      ");
    print_row(count_mark);
    print(b"  + can touch a picture and ADX sound, - never does\n");
    print(b"differs     ");
    print_row(|place| difference_mark(first, second, place));
    print(b"  ^ the two keys have different digits here\n\n");
}

// Prints what follows where both words are the same key.
fn print_same_key() {
    print(b"Both are the same key, so they give the same streams for every film.\n");
}

// Prints what follows where two keys have the same counting bits.
fn print_same_streams() {
    print(
        b"The two keys differ, but only in digits that never count. They give the same\n\
          streams for every film: the same pictures and the same sound, byte for byte.\n",
    );
}

// Prints what follows where two keys have different counting bits.
fn print_streams_can_differ() {
    print(
        b"The two keys differ in at least one digit that counts.\n\
          They give different pictures for a film exactly if it has a video payload of\n\
          data type 0 and 0x240 bytes or more.\n\
          They give different ADX sound for a film surely if it has an audio payload of\n\
          data type 0 and 0x159 bytes or more, perhaps if the longest of data type 0 has\n\
          0x141 to 0x158 bytes, and never if none of data type 0 has more than 0x140.\n\
          A film whose payloads are all short (video below 0x240 bytes, sound below\n\
          0x141) or plain (of a data type other than 0) is the same under all keys, and\n\
          so is all sound of a codec other than ADX.\n",
    );
}

// Prints what follows for the films.
fn print_verdict(verdict: Verdict) {
    match verdict {
        Verdict::SameKey => print_same_key(),
        Verdict::SameStreams => print_same_streams(),
        Verdict::StreamsCanDiffer => print_streams_can_differ(),
    }
}

// A byte as it is shown: `?` for one that could break the line.
fn shown(byte: u8) -> u8 {
    match byte {
        0x20..=0x7E => byte,
        _ => b'?',
    }
}

// Prints the start of a word, whatever its bytes are.
fn print_start(word: &[u8]) {
    let mut text = [b' '; SHOWN];
    for (place, byte) in text.iter_mut().zip(word) {
        *place = shown(*byte);
    }
    print(&text[..word.len().min(SHOWN)]);
}

// Prints a word on one line: its start, and `...` for the rest.
fn print_word(word: &[u8]) {
    print_start(word);
    if SHOWN < word.len() {
        print(b"...");
    }
}

// Prints the start of a line about a word, whose argument is named by its number.
fn print_argument(number: &[u8], word: &[u8]) {
    print(b"argument ");
    print(number);
    print(b" (\"");
    print_word(word);
    print(b"\")");
}

// Prints that a word, whose argument is named by its number, is no key.
fn print_no_key(number: &[u8], word: &[u8]) {
    print_argument(number, word);
    print(b" is no key: a key is 1 to 16 hex digits, with or without 0x\n");
}

// Prints that the third word is no length.
fn print_no_length(word: &[u8]) {
    print_argument(b"3", word);
    print(
        b" is no length: a length in bytes is 1 to 16 decimal digits, or 0x and 1 to 16 hex digits\n",
    );
}

// Prints what two keys have in common.
fn print_about(first: u64, second: u64) {
    print_digits(first, second);
    print_verdict(typed::verdict_on(first, second));
}

// Two words as typed: both keys, or none where a line is printed about the first that is no key.
fn read_pair(first: &[u8], second: &[u8]) -> Option<(u64, u64)> {
    let Some(one) = typed::read_key(first) else {
        print_no_key(b"1", first);
        return None;
    };
    let Some(two) = typed::read_key(second) else {
        print_no_key(b"2", second);
        return None;
    };
    Some((one, two))
}

// Prints whether a sound clip, whose length is shown as typed, tells two keys apart.
fn print_clip(length: &[u8], tells: bool) {
    print(b"\nA sound clip (one ADX payload of data type 0) of ");
    print_word(length);
    if tells {
        print(
            b" bytes\ntells the two keys apart: whatever it holds, it is not the same under both.\n",
        );
        return;
    }
    print(
        b" bytes\ncannot tell the two keys apart: whatever it holds, it is the same under both.\n",
    );
}

// Prints the answer for two words as typed, or one line about the first that is no key.
pub fn print_answer(first: &[u8], second: &[u8]) {
    let Some((one, two)) = read_pair(first, second) else {
        return;
    };
    print_about(one, two);
}

// Prints the same, and whether a sound clip of a length as typed tells the keys apart; or one line about
// the first word that is no key or no length.
pub fn print_answer_on_clip(first: &[u8], second: &[u8], length: &[u8]) {
    let Some((one, two)) = read_pair(first, second) else {
        return;
    };
    let Some(bytes) = typed::read_length(length) else {
        print_no_length(length);
        return;
    };
    print_about(one, two);
    print_clip(length, clip::clip_tells(bytes as usize, one, two));
}

// Prints how the program is called.
pub fn print_usage() {
    print(
        b"usage: two_keys FIRST SECOND [LENGTH]\n\
          FIRST and SECOND are keys: 1 to 16 hex digits, with or without 0x. LENGTH is a\n\
          sound clip's, in bytes: 1 to 16 decimal digits, or 0x and 1 to 16 hex digits.\n",
    );
}
