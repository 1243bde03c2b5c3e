// The lines that are written: what our functions answer on a table, and on a name and a row of it.
use cell::Cell;
use reading::TableMode;
use refusal::{Cause, Refusal};

// The least number of 64 bits that stands for a negative one.
const NEGATIVE: u64 = 0x8000_0000_0000_0000;

// Writes a word and a number.
fn write_number(word: &[u8], n: u64) {
    print_line::empty().word(word).decimal(n).end();
}

// Writes a refusal's number, and the type where it is one that is unknown.
fn write_refusal(refusal: Refusal) {
    let cause = refusal.cause;
    let line = print_line::empty()
        .word(b"refused ")
        .decimal(refusal::number_of(cause) as u64);
    match cause {
        Cause::UnknownType(kind) => line.word(b" type ").decimal(kind as u64).end(),
        _ => line.end(),
    }
}

// Writes a signed number by its 64 bits.
fn write_signed(bits: u64) {
    if bits < NEGATIVE {
        write_number(b"signed ", bits);
        return;
    }
    write_number(b"signed -", !bits + 1);
}

// Writes a float by its bits.
fn write_float(bits: u64) {
    print_line::empty().word(b"float ").hex(bits, 8).end();
}

// Writes a word and the bytes of a string or data cell.
fn write_part(word: &[u8], bytes: &[u8], cell: Cell) {
    print_line::empty()
        .word(word)
        .hex_bytes(cell::part_of(bytes, cell))
        .end();
}

// Writes what a cell holds.
fn write_held(bytes: &[u8], cell: Cell) {
    match cell {
        Cell::Nothing => print_line::empty().word(b"nothing").end(),
        Cell::Unsigned(_) => write_number(b"unsigned ", cell::value_of(cell)),
        Cell::Signed(_) => write_signed(cell::value_of(cell)),
        Cell::Float(_) => write_float(cell::value_of(cell)),
        Cell::NotANumber(_) => write_float(cell::value_of(cell)),
        Cell::Text { start: _, len: _ } => write_part(b"string ", bytes, cell),
        Cell::Data { start: _, len: _ } => write_part(b"data ", bytes, cell),
    }
}

// Writes the answer on the table that the bytes begin with.
pub(crate) fn write_table(bytes: &[u8]) {
    match table::read_table(bytes, 0, TableMode::Original) {
        Ok(layout) => write_number(b"table ", layout.rows as u64),
        Err(refusal) => write_refusal(refusal),
    }
}

// Writes the answer on a name and a row of that table.
pub(crate) fn write_cell(bytes: &[u8], name: &[u8], row: usize) {
    match lookup::cell_of(bytes, 0, TableMode::Original, name, row) {
        Ok(cell) => write_held(bytes, cell),
        Err(refusal) => write_refusal(refusal),
    }
}
