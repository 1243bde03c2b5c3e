// Prints the answers for stored words: each verdict, each way to write a key and a length, clips that tell
// keys apart and clips that do not, and words that are no keys and no lengths. The gate compares them with the
// file stdout.
#![tactic(auto)]

use descriptors::STDOUT_FILENO;

// Prints the answer for two words, and an empty line.
fn pair(first: &[u8], second: &[u8]) {
    two_keys_print::print_answer(first, second);
    io::write_all(STDOUT_FILENO, b"\n");
}

// Prints the answer for key 0 and a key with a few bits set.
fn beside_zero(second: &[u8]) {
    pair(b"0", second);
}

// Prints the line about a word that is no key.
fn no_key(word: &[u8]) {
    two_keys_print::print_answer(word, b"1");
}

// Bits 36, 39, 56 and 63, and all bits that never count.
fn never_count() {
    beside_zero(b"1000000000");
    beside_zero(b"8000000000");
    beside_zero(b"100000000000000");
    beside_zero(b"8000000000000000");
    beside_zero(b"FF0000F000000000");
}

// Bits 0, 35, 40 and 55, and all bits.
fn count() {
    beside_zero(b"1");
    beside_zero(b"800000000");
    beside_zero(b"10000000000");
    beside_zero(b"80000000000000");
    beside_zero(b"FFFFFFFFFFFFFFFF");
}

// Two keys that differ only in digits that never count, as an operator types them; one key, written in two ways.
fn spellings() {
    pair(b"7F123456789ABCDE", b"0x1234F6789abcde");
    pair(b"1", b"0000000000000001");
    pair(b"abcdef0123456789", b"ABCDEF0123456789");
    pair(b"0xFEDCBA9876543210", b"0Xfedcba9876543210");
    pair(b"0x0", b"0");
}

// No digit, and 0x where it does not belong.
fn prefixes() {
    no_key(b"");
    no_key(b"0x");
    no_key(b"0X");
    no_key(b"0x0x1");
    no_key(b"x1");
}

// 17 digits.
fn too_many() {
    no_key(b"12345678901234567");
    no_key(b"0x12345678901234567");
    no_key(b"00000000000000000");
}

// A sign, a space, and bytes that would break the line.
fn other_bytes() {
    no_key(b"-1");
    no_key(b"+1");
    no_key(b" 1");
    no_key(b"1 ");
    no_key(b"1\n");
}

// Bytes that the line does not show: control bytes, and those from 0x7F on.
fn hidden_bytes() {
    no_key(b"\x1B[2J");
    no_key(b"\x00");
    no_key(b"\x1F \x7E\x7F");
    no_key(b"\xFF");
}

// The bytes before and after each kind of hex digit.
fn neighbours() {
    no_key(b"/");
    no_key(b":");
    no_key(b"@");
    no_key(b"G");
    no_key(b"`");
    no_key(b"g");
}

// 40 bytes are shown, and no more.
fn long_words() {
    no_key(b"1234567890123456789012345678901234567890");
    no_key(b"12345678901234567890123456789012345678901");
    no_key(&[b'F'; 4096]);
}

// Prints the answer for key 0, a key with a few bits set, and a clip's length.
fn clip(second: &[u8], length: &[u8]) {
    two_keys_print::print_answer_on_clip(b"0", second, length);
    io::write_all(STDOUT_FILENO, b"\n");
}

// Prints the line about a word that is no length.
fn no_length(word: &[u8]) {
    two_keys_print::print_answer_on_clip(b"1", b"2", word);
}

// A key that differs in bits 40 to 47: lane 0x18 tells it, the last byte of 0x159.
fn clips_and_byte_5() {
    clip(b"FF0000000000", b"0x158");
    clip(b"FF0000000000", b"344");
    clip(b"FF0000000000", b"0X159");
    clip(b"FF0000000000", b"345");
}

// Bit 0 shows in lane 0, in a clip of 0x141 bytes; clips of no byte and of the most that can be typed.
fn clips_and_bit_0() {
    clip(b"1", b"0x140");
    clip(b"1", b"321");
    clip(b"1", b"0");
    clip(b"1", b"9999999999999999");
    clip(b"1", b"0xFFFFFFFFFFFFFFFF");
}

// No clip tells keys apart that are one, or agree in all that counts.
fn clips_and_equal_keys() {
    clip(b"0", b"4096");
    clip(b"FF0000F000000000", b"4096");
}

// Words that are no lengths, and keys that come before them.
fn no_lengths() {
    no_length(b"");
    no_length(b"0x");
    no_length(b"158h");
    no_length(b"15A");
    no_length(b"-1");
    no_length(b"1.5");
    no_length(b"12345678901234567");
    no_length(b"0x12345678901234567");
    no_length(b"1\n");
    two_keys_print::print_answer_on_clip(b"one", b"two", b"three");
    two_keys_print::print_answer_on_clip(b"1", b"two", b"three");
}

// The second argument is no key, and both are none.
fn second_arguments() {
    two_keys_print::print_answer(b"1", b"two");
    two_keys_print::print_answer(b"1", b"");
    two_keys_print::print_answer(b"one", b"two");
}

// Prints all cases, and the line for a wrong number of arguments.
fn main() {
    never_count();
    count();
    spellings();
    prefixes();
    too_many();
    other_bytes();
    hidden_bytes();
    neighbours();
    long_words();
    second_arguments();
    clips_and_byte_5();
    clips_and_bit_0();
    clips_and_equal_keys();
    no_lengths();
    two_keys_print::print_usage();
}
