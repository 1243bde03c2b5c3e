// Replays recorded CSV of @UTF tables: reads tables from standard input, and writes what `table_csv::write_csv` answers and leaves in an
// output. README.md beside this crate has the format.
#![tactic(auto)]

use reading::TableMode;
use refusal::{Cause, Refusal};

// The longest table of the list.
const MOST_TABLE: usize = 4096;

// The output's bytes.
const ROOM: usize = 4096;

// Writes a refusal's number, and the size that it tells.
fn write_refusal(refusal: Refusal) {
    let cause = refusal.cause;
    let line = print_line::empty()
        .word(b"refused ")
        .decimal(refusal::number_of(cause) as u64);
    match cause {
        Cause::ShortRoom(size) => line.word(b" size ").decimal(size as u64).end(),
        _ => line.end(),
    }
}

// Writes the answer on the table that the bytes begin with.
fn write_answer(table: &[u8], mode: TableMode) {
    let mut out = [0u8; ROOM];
    match table_csv::write_csv(table, 0, mode, &mut out) {
        Ok(size) => print_line::empty()
            .word(b"csv ")
            .hex_bytes(part::part_at(&out, 0, size))
            .end(),
        Err(refusal) => write_refusal(refusal),
    }
}

// Writes the answer on a table by its hex digits, and answers whether they are a table's.
fn replay_table(digits: &[u8], mode: TableMode) -> bool {
    let mut space = [0u8; MOST_TABLE];
    let Some(table) = gate_fields::bytes_of(digits, &mut space) else {
        return false;
    };
    write_answer(table, mode);
    true
}

// Writes the answer on the table of a line, and answers whether it is one.
fn replay_line_of(line: &[u8]) -> bool {
    let digits = gate_fields::rest_from(line, 2);
    if gate_fields::is_marked(line, b't') {
        return replay_table(digits, TableMode::Original);
    }
    gate_fields::is_marked(line, b'z') && replay_table(digits, TableMode::ZeroColumns)
}

// Writes the answers on each table of the list, up to the first line that is none.
fn main() {
    gate_fields::replay_whole(b"stdin is not a list of tables\n", replay_line_of);
}
