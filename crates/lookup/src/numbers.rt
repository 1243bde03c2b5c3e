// A column's name, and its cell in a row, by the column's number. Of a table only the layout, the column's record and what is asked for are read:
// whether all of it is accepted is for `table::read_table` to say. Rules T.
ghost use Rattle.std.specs.Prelude.{◌≡◌, ◌+◌, ◌*◌, ◌≤◌, ◌<◌, ◌^◌, length, true, Ok};
ghost use Rattle.lookup.specs.Numbers.{record_at, offset_at, on_line, line_cell, numbered_in, cell_by, tag_in, tag_by};

use crate::{column_cell, moved_cell, placed_at};
use cell::Cell;
use layout::Layout;
use reading::TableMode;
use refusal::{Cause, Refusal};

// What is asked of a column: its name, or its cell in a row.
#[derive(Clone, Copy)]
pub enum Line {
    Names,
    Row(usize),
}

// Where a column has its record, and its cell in a row.
#[derive(Clone, Copy)]
struct Slot {
    entry: usize,
    offset: usize,
}

// The type of a string.
const STRING: u8 = 0x0A;

// The slot of the column of a number: the columns before it are passed over.
fn slot_of(body: &[u8], layout: Layout, number: usize) -> Slot
    requires { number ≤ 64 }
    ensures { (result.entry ≡ record_at body.now layout number) × (result.offset ≡ offset_at body.now layout number) × (result.entry ≤ 261 * number) × (result.offset ≤ 256 * number) }
{
    let mut entry = 0;
    let mut offset = 0;
    for _ in 0..number {
        let tag = word::read8(body, entry);
        entry += column::in_record(tag, layout.mode);
        offset += column::in_row(tag, layout.mode);
    }
    Slot { entry, offset }
}

// What a line shows of a column of a body, in a slice where the body starts at byte `by`.
fn line_cell(
    body: &[u8],
    by: usize,
    layout: Layout,
    line: Line,
    number: usize,
) -> Result<Cell, Cause>
    requires { (layout.columns ≤ 64) × (number < 64) × (layout.rows ≤ 256) × (on_line layout line ≡ true) × (by + length body.now < 2 ^ 64) }
    ensures { result ≡ line_cell body.now by layout line number }
{
    let slot = slot_of(body, layout, number);
    match line {
        Line::Names => moved_cell(cell::read_cell(body, STRING, slot.entry + 1, layout), by),
        Line::Row(row) => {
            let end = slot_of(body, layout, layout.columns);
            let at = (layout.start as usize) + row * end.offset;
            column_cell(body, by, slot.entry, at, slot.offset, layout)
        }
    }
}

// Whether a table of a layout has a line.
fn has_line(layout: Layout, line: Line) -> bool
    ensures { result ≡ on_line layout line }
{
    match line {
        Line::Names => true,
        Line::Row(row) => row < layout.rows,
    }
}

// What a line shows of a column of the table of a layout.
fn cell_in_table(
    bytes: &[u8],
    place: usize,
    layout: Layout,
    line: Line,
    number: usize,
) -> Result<Cell, Refusal>
    requires { ((layout.columns ≤ 64) × (layout.rows ≤ 256)) × (place + (32 + layout.size) ≤ length bytes.now) }
    ensures { result ≡ numbered_in bytes.now place line number (Ok layout) }
{
    if layout.columns <= number {
        return Ok(Cell::Nothing);
    }
    if has_line(layout, line) {
        let by = place + layout::HEADER;
        let end = by + layout.size;
        return placed_at(line_cell(&bytes[by..end], by, layout, line, number), place);
    }
    Ok(Cell::Nothing)
}

// The name of the column of a number, or its cell in a row, of the table at a place of a slice, read in a mode.
pub fn cell_by(
    bytes: &[u8],
    place: usize,
    mode: TableMode,
    line: Line,
    number: usize,
) -> Result<Cell, Refusal>
    ensures { result ≡ cell_by bytes.now place mode line number }
{
    if bytes.len() < place {
        return refusal::refused(Cause::RanOut, place);
    }
    match layout::read_layout(&bytes[place..], mode) {
        Ok(layout) => cell_in_table(bytes, place, layout, line, number),
        Err(cause) => refusal::refused(cause, place),
    }
}

// The type byte of the column of a number of a table of a layout.
fn tag_in_table(bytes: &[u8], place: usize, layout: Layout, number: usize) -> u8
    requires { (layout.columns ≤ 64) × (place + (32 + layout.size) ≤ length bytes.now) }
    ensures { result ≡ tag_in bytes.now place number (Ok layout) }
{
    if layout.columns <= number {
        return 0;
    }
    let by = place + layout::HEADER;
    let end = by + layout.size;
    let body = &bytes[by..end];
    word::read8(body, slot_of(body, layout, number).entry) as u8
}

// The type byte of the column of a number of the table at a place of a slice, or 0.
pub fn tag_by(bytes: &[u8], place: usize, mode: TableMode, number: usize) -> u8
    ensures { result ≡ tag_by bytes.now place mode number }
{
    if bytes.len() < place {
        return 0;
    }
    match layout::read_layout(&bytes[place..], mode) {
        Ok(layout) => tag_in_table(bytes, place, layout, number),
        Err(_) => 0,
    }
}
