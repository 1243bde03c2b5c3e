// Writes a table as CSV by RFC 4180 into a lent output: its names, then its rows, cell by cell. It is measured first; what is refused leaves
// the output as it was. Rules V. From the Rust: nothing. It writes no tables out.
//
// The work is in proportion to the table and its CSV. A column's name is read once, and not again for each row.
#![tactic(auto)]

ghost use Rattle.std.specs.Prelude.{◌≡◌, ◌+◌, ◌≤◌, ◌<◌, ◌^◌, length, drop, Ok};
ghost use Rattle.laws.specs.Outputs.{Put};
ghost use Rattle.text.specs.Numbers.{decimal, hex, hex_bytes};
ghost use Rattle.layout.specs.Layouts.{body_of};
ghost use Rattle.csv_text.specs.Written.{escaped, doubled, field_of, mark_after, record_of, csv_of};
ghost use Rattle.table_csv.specs.Texts.{signed_text, text_of, text_in, row_cell, cell_on, line_from, row_end, row_texts, texts_of};
ghost use Rattle.table_csv.specs.Writing.{WritingOf, Writing};

use cell::Cell;
use column::Storage;
use layout::Layout;
use reading::TableMode;
use refusal::{Cause, Refusal};

// What a line shows of its columns: their names, or their cells in a row.
#[derive(Clone, Copy)]
enum Line {
    Names,
    Cells,
}

// Where a line ends in the output, and where its cells end in the body.
#[derive(Clone, Copy)]
struct Ends {
    end: usize,
    next: usize,
}

// ---- a field; each function puts it from a place on, as far as the output goes, and answers where it ends

// Puts bytes.
fn put(out: &mut [u8], place: usize, bytes: &[u8]) -> usize
    requires { place + length bytes.now < 2 ^ 64 }
    ensures { Put bytes.now out.old place out.new result }
{
    place + text::put_bytes(out, place, bytes)
}

// Puts a byte of a field that is in quotes.
fn put_escaped(out: &mut [u8], place: usize, byte: u8) -> usize
    requires { place + length (escaped byte) < 2 ^ 64 }
    ensures { Put (escaped byte) out.old place out.new result }
{
    if byte == b'"' {
        return put(out, place, b"\"\"");
    }
    put(out, place, &[byte])
}

// Puts what stands within a field's quotes.
fn put_doubled(out: &mut [u8], place: usize, field: &[u8]) -> usize
    requires { place + length (doubled field.now) < 2 ^ 64 }
    ensures { Put (doubled field.now) out.old place out.new result }
{
    let mut end = place;
    for byte in field {
        end = put_escaped(out, end, *byte);
    }
    end
}

// Puts a field, in quotes where it needs them.
fn put_field(out: &mut [u8], place: usize, field: &[u8]) -> usize
    requires { place + length (field_of field.now) < 2 ^ 64 }
    ensures { Put (field_of field.now) out.old place out.new result }
{
    if csv_text::is_quoted(field) {
        let at = put(out, place, b"\"");
        let at = put_doubled(out, at, field);
        return put(out, at, b"\"");
    }
    put(out, place, field)
}

// Puts a number in decimal digits.
fn put_number(out: &mut [u8], place: usize, number: u64) -> usize
    requires { place + length (decimal number) < 2 ^ 64 }
    ensures { Put (decimal number) out.old place out.new result }
{
    place + text::put_decimal(out, place, number)
}

// Puts a signed number in decimal digits.
fn put_signed(out: &mut [u8], place: usize, number: i32) -> usize
    requires { place + length (signed_text number) < 2 ^ 64 }
    ensures { Put (signed_text number) out.old place out.new result }
{
    if number < 0 {
        let at = put(out, place, b"-");
        return put_number(out, at, u64::from(number.unsigned_abs()));
    }
    put_number(out, place, u64::from(number.unsigned_abs()))
}

// Puts a float's bits in eight hex digits.
fn put_float(out: &mut [u8], place: usize, bits: u64) -> usize
    requires { place + length (hex 8 bits) < 2 ^ 64 }
    ensures { Put (hex 8 bits) out.old place out.new result }
{
    place + text::put_hex(out, place, bits, 8)
}

// Puts data in hex digits.
fn put_data(out: &mut [u8], place: usize, bytes: &[u8]) -> usize
    requires { place + length (hex_bytes bytes.now) < 2 ^ 64 }
    ensures { Put (hex_bytes bytes.now) out.old place out.new result }
{
    place + text::put_hex_bytes(out, place, bytes)
}

// ---- a cell

// Puts the field of a cell. Digits need no quotes.
fn put_cell(out: &mut [u8], place: usize, body: &[u8], cell: Cell) -> usize
    requires { place + length (field_of (text_of body.now cell)) < 2 ^ 64 }
    ensures { Put (field_of (text_of body.now cell)) out.old place out.new result }
{
    match cell {
        Cell::Nothing => place,
        Cell::Unsigned(number) => put_number(out, place, number),
        Cell::Signed(number) => put_signed(out, place, number),
        Cell::Float(_) => put_float(out, place, cell::value_of(cell)),
        Cell::NotANumber(_) => put_float(out, place, cell::value_of(cell)),
        Cell::Text { .. } => put_field(out, place, cell::part_of(body, cell)),
        Cell::Data { .. } => put_data(out, place, cell::part_of(body, cell)),
    }
}

// The same of a cell that is read. A table that is accepted has no other.
fn put_answer(out: &mut [u8], place: usize, body: &[u8], answer: Result<Cell, Cause>) -> usize
    requires { place + length (field_of (text_in body.now answer)) < 2 ^ 64 }
    ensures { Put (field_of (text_in body.now answer)) out.old place out.new result }
{
    match answer {
        Ok(cell) => put_cell(out, place, body, cell),
        Err(_) => place,
    }
}

// Puts what stands after a field, with so many more in its record.
fn put_mark(out: &mut [u8], place: usize, more: usize) -> usize
    requires { place + length (mark_after more) < 2 ^ 64 }
    ensures { Put (mark_after more) out.old place out.new result }
{
    if more == 0 {
        return put(out, place, b"\r\n");
    }
    put(out, place, b",")
}

// The cell of the column whose record stands at a body byte, in a row where it has its bytes at one.
fn row_cell(body: &[u8], entry: usize, at: usize, layout: Layout) -> Result<Cell, Cause>
    requires { entry < 2 ^ 32 }
    ensures { result ≡ row_cell body.now layout entry at }
{
    let tag = word::read8(body, entry);
    let kind = column::kind_of(tag);
    match column::storage_of(tag, layout.mode) {
        Storage::Constant => cell::read_cell(body, kind, entry + column::RECORD, layout),
        Storage::Stored => cell::read_cell(body, kind, at, layout),
        Storage::Zero => cell::zero_cell(kind),
        Storage::Unknown => Err(Cause::UnknownStorage),
    }
}

// The type of a string.
const STRING: u8 = 0x0A;

// What such a column shows on a line. Its name is read as a string is, by the offset after the type byte.
fn cell_on(body: &[u8], line: Line, entry: usize, at: usize, layout: Layout) -> Result<Cell, Cause>
    requires { entry < 2 ^ 32 }
    ensures { result ≡ cell_on body.now layout line entry at }
{
    match line {
        Line::Names => cell::read_cell(body, STRING, entry + 1, layout),
        Line::Cells => row_cell(body, entry, at, layout),
    }
}

// ---- lines

// Puts a line, whose cells stand from a body byte on.
fn put_line(
    out: &mut [u8],
    place: usize,
    body: &[u8],
    line: Line,
    from: usize,
    layout: Layout,
) -> Ends
    requires { (layout.columns ≤ 64) × (from < 2 ^ 40) × (place + length (record_of (line_from body.now layout line layout.columns 0 from)) < 2 ^ 64) }
    ensures { (Put (record_of (line_from body.now layout line layout.columns 0 from)) out.old place out.new result.end) × ((result.next ≡ row_end body.now layout layout.columns 0 from) × (result.next ≤ from + 16384)) }
{
    let mut entry = 0;
    let mut at = from;
    let mut end = place;
    for i in 0..layout.columns {
        let middle = put_answer(out, end, body, cell_on(body, line, entry, at, layout));
        end = put_mark(out, middle, layout.columns - i - 1);
        let tag = word::read8(body, entry);
        entry += column::in_record(tag, layout.mode);
        at += column::in_row(tag, layout.mode);
    }
    Ends { end, next: at }
}

// Puts all rows.
fn put_rows(out: &mut [u8], place: usize, body: &[u8], layout: Layout) -> usize
    requires { (layout.columns ≤ 64) × (layout.rows ≤ 256) × (place + length (csv_of (row_texts body.now layout layout.rows layout.start)) < 2 ^ 64) }
    ensures { Put (csv_of (row_texts body.now layout layout.rows layout.start)) out.old place out.new result }
{
    let mut at = layout.start as usize;
    let mut reached = place;
    for _ in 0..layout.rows {
        let ends = put_line(out, reached, body, Line::Cells, at, layout);
        reached = ends.end;
        at = ends.next;
    }
    reached
}

// Puts the CSV of a table at the start of the output, as far as that goes, and answers how long it is.
fn put_table(out: &mut [u8], body: &[u8], layout: Layout) -> usize
    requires { (layout.columns ≤ 64) × (layout.rows ≤ 256) × (length body.now < 2 ^ 32) }
    ensures { Put (csv_of (texts_of body.now layout)) out.old 0 out.new result }
{
    let names = put_line(out, 0, body, Line::Names, 0, layout);
    put_rows(out, names.end, body, layout)
}

// ---- the table

// Writes a table of a layout: it is measured, and put where it has room.
fn write_body(body: &[u8], layout: Layout, out: &mut [u8]) -> Result<usize, Refusal>
    requires { (layout.columns ≤ 64) × (layout.rows ≤ 256) × (length body.now < 2 ^ 32) }
    ensures { WritingOf (csv_of (texts_of body.now layout)) (Ok layout) out.old result out.new }
{
    let mut none = [0u8; 0];
    let size = put_table(&mut none, body, layout);
    let size = lent::written_in(out.len(), Ok(size))?;
    put_table(out, body, layout);
    Ok(size)
}

// The same of a table that was read, at a place of a slice.
fn write_table(bytes: &[u8], place: usize, layout: Layout, out: &mut [u8]) -> Result<usize, Refusal>
    requires { ((layout.columns ≤ 64) × (layout.rows ≤ 256) × (layout.size < 2 ^ 32)) × (place + (32 + layout.size) ≤ length bytes.now) }
    ensures { WritingOf (csv_of (texts_of (body_of (drop place bytes.now) layout) layout)) (Ok layout) out.old result out.new }
{
    let by = place + layout::HEADER;
    let end = by + layout.size;
    write_body(&bytes[by..end], layout, out)
}

// Writes the table at a place of a slice, read in a mode, as CSV into an output, and answers its size. Bytes past it stay; a refusal leaves the output as it was.
pub fn write_csv(
    bytes: &[u8],
    place: usize,
    mode: TableMode,
    out: &mut [u8],
) -> Result<usize, Refusal>
    ensures { Writing bytes.now place mode out.old result out.new }
{
    let layout = table::read_table(bytes, place, mode)?;
    write_table(bytes, place, layout, out)
}
