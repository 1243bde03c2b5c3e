// The answers on a film, a line each: its verdict, its index, and the jumps by it.
use print_line::Line;
use seek::Sought;

// The most entries that a film of the list has.
const MOST: usize = 16;

// The bytes of the stream that are asked for.
const BYTES: u64 = 64;

// A line with an entry after it.
fn with_entry(line: Line, [chunk, start, len]: [u64; 3]) -> Line {
    let line = line.word(b" ").decimal(chunk);
    let line = line.word(b":").decimal(start);
    line.word(b":").decimal(len)
}

// The line of an index.
fn index_line(index: &[[u64; 3]]) -> Line {
    let mut line = print_line::empty().word(b"index");
    for entry in index {
        line = with_entry(line, *entry);
    }
    line
}

// A line with the answer to a jump after it.
fn with_jump(line: Line, index: &[[u64; 3]], byte: u64) -> Line {
    match seek::seek(index, byte) {
        Some(Sought { chunk, offset }) => {
            let line = line.word(b" ");
            let line = line.decimal(chunk);
            let line = line.word(b"+");
            line.decimal(offset)
        }
        None => line.word(b" -"),
    }
}

// The line of the jumps to the first bytes of the stream.
fn jump_line(index: &[[u64; 3]]) -> Line {
    let mut line = print_line::empty().word(b"jumps");
    for byte in 0..BYTES {
        line = with_jump(line, index, byte);
    }
    line
}

// Writes the first entries of a list, and the jumps by them.
fn write_entries(list: &[[u64; 3]], count: usize) {
    if let Some(index) = list.get(..count) {
        index_line(index).end();
        jump_line(index).end();
    }
}

// Writes the index of a film, built into a list, and the jumps by it, or why there is none.
fn write_jumps(film: &[u8], list: &mut [[u64; 3]]) {
    let reply = index::build(film, list);
    if reply.number != 0 {
        plain_film_print::refusal_line(reply.number, reply.refused_at).end();
        return;
    }
    write_entries(list, reply.count);
}

// Writes the answers on a film.
pub fn write_film(film: &[u8]) {
    plain_film_print::print(film);
    let mut list = [[0u64; 3]; MOST];
    write_jumps(film, &mut list);
}
