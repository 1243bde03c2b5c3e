// What a function that writes into an output answered, as a line of text, with the output after it.
//
// These functions make lines that are written, and have no contract. Every line is compared with stored output in the gate.
#![tactic(auto)]

use lent::SizeReply;
use print_line::Line;

// A line with a space and a number after it.
pub fn with_number(line: Line, number: usize) -> Line {
    line.word(b" ").decimal(number as u64)
}

// A line with the length and the digest of bytes after it.
pub fn with_bytes(line: Line, bytes: &[u8]) -> Line {
    with_number(line, bytes.len())
        .word(b" ")
        .hex(gate_sample::digest(bytes), 8)
}

// A line with a reply after it: number, place and size.
fn with_size(line: Line, reply: SizeReply) -> Line {
    let line = with_number(line, reply.number as usize);
    with_number(with_number(line, reply.refused_at), reply.size)
}

// Writes a word, a reply, and the length and the digest of the whole output after it.
pub fn print(word: &[u8], reply: SizeReply, out: &[u8]) {
    with_bytes(with_size(print_line::empty().word(word), reply), out).end();
}
