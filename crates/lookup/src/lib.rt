// A cell of an @UTF table by its column's name and its row.
// Rules T. From the Rust: the rows of `get_utf_table`, which it keeps as maps by name.
#![tactic(auto)]

pub mod numbers;

ghost use Rattle.std.specs.Prelude.{◌≡◌, ◌+◌, ◌-◌, ◌*◌, ◌≤◌, ◌<◌, ◌^◌, length, None};
ghost use Rattle.word.specs.Numbers.{be32};
ghost use Rattle.cell.specs.Cells.{cell_at};
ghost use Rattle.column.specs.Storages.{cell_in};
ghost use Rattle.column.specs.Columns.{column_at};
ghost use Rattle.lookup.specs.Names.{spells};
ghost use Rattle.lookup.specs.Search.{mark_if, search_from};
ghost use Rattle.lookup.specs.Lookups.{column_cell, marked_cell, body_cell, end_of_part, end_of_answer, shifted, moved, shift_in, placed, cell_from, cell_of, last_cell_of};

use cell::Cell;
use column::{Column, Storage};
use layout::Layout;
use reading::TableMode;
use refusal::{Cause, Refusal};

// Where the last column of a name has its record, and its cell in a row.
#[derive(Clone, Copy, Debug, PartialEq, Eq)]
struct Mark {
    entry: usize,
    offset: usize,
}

// What a search over all columns gives: the last column of the name, and the bytes of one row.
#[derive(Clone, Copy)]
struct Search {
    mark: Option<Mark>,
    width: usize,
}

// Whether a name stands at a body byte, with a zero byte after it and none in it.
fn spelled(body: &[u8], at: usize, name: &[u8]) -> bool
    requires { at < 2 ^ 33 }
    ensures { result ≡ spells body.now at name.now }
{
    for (i, letter) in name.iter().enumerate() {
        let byte = word::read8(body, at + i);
        if byte == 0 {
            return false;
        }
        if byte != usize::from(*letter) {
            return false;
        }
    }
    word::read8(body, at + name.len()) == 0
}

// Whether the column whose record stands at a body byte has the name.
fn has_name(body: &[u8], entry: usize, layout: Layout, name: &[u8]) -> bool
    requires { entry < 2 ^ 32 }
    ensures { result ≡ spells body.now (layout.strings + be32 body.now (entry + 1) - 24) name.now }
{
    let place = (layout.strings as usize) + word::read32(body, entry + 1);
    spelled(body, place.saturating_sub(layout::BODY), name)
}

// A column of the name takes the place of the one marked so far.
fn mark_if(named: bool, entry: usize, offset: usize, best: Option<Mark>) -> Option<Mark>
    ensures { result ≡ mark_if named entry offset best }
{
    if named {
        Some(Mark { entry, offset })
    } else {
        best
    }
}

// The last column of the name. No text is read further than it agrees with the name.
fn last_named(body: &[u8], layout: Layout, name: &[u8]) -> Search
    requires { layout.columns ≤ 64 }
    ensures { (result ≡ search_from body.now layout name.now layout.columns 0 0 None) × (result.width ≤ 256 * layout.columns) }
{
    let mut best = None;
    let mut entry = 0;
    let mut offset = 0;
    for _ in 0..layout.columns {
        let tag = word::read8(body, entry);
        let named = has_name(body, entry, layout, name);
        best = mark_if(named, entry, offset, best);
        entry += column::in_record(tag, layout.mode);
        offset += column::in_row(tag, layout.mode);
    }
    Search {
        mark: best,
        width: offset,
    }
}

// The cell of a type at a body byte that is a sum, which may not fit.
fn cell_past(body: &[u8], kind: u8, at: usize, offset: usize, layout: Layout) -> Result<Cell, Cause>
    ensures { result ≡ cell_at body.now kind (at + offset) layout }
{
    if word::left_from(body, at) < offset {
        return cell::read_cell(body, kind, body.len(), layout);
    }
    cell::read_cell(body, kind, at + offset, layout)
}

// The cell of a column in the row that starts at a body byte: its constant, what stands there, or zero.
fn cell_in(
    body: &[u8],
    column: Column,
    at: usize,
    offset: usize,
    layout: Layout,
) -> Result<Cell, Cause>
    ensures { result ≡ cell_in body.now column.storage column.constant column.kind (at + offset) layout }
{
    match column.storage {
        Storage::Constant => Ok(column.constant),
        Storage::Stored => cell_past(body, column.kind, at, offset, layout),
        Storage::Zero => cell::zero_cell(column.kind),
        Storage::Unknown => Err(Cause::UnknownStorage),
    }
}

// By how much a cell of the body is moved to be one of the slice. A zero cell is a part of neither, and starts at 0.
fn shift_in(storage: Storage, by: usize) -> usize
    ensures { result ≡ shift_in storage by }
{
    match storage {
        Storage::Zero => 0,
        Storage::Constant | Storage::Stored | Storage::Unknown => by,
    }
}

// A cell of the body as a cell of the slice in which the body starts at byte `by`. An empty data cell starts at 0.
fn shifted_cell(cell: Cell, by: usize) -> Cell
    requires { by + end_of_part cell < 2 ^ 64 }
    ensures { result ≡ shifted by cell }
{
    match cell {
        Cell::Text { start, len } => Cell::Text {
            start: by + start,
            len,
        },
        Cell::Data { len: 0, .. } => Cell::Data { start: 0, len: 0 },
        Cell::Data { start, len } => Cell::Data {
            start: by + start,
            len,
        },
        _ => cell,
    }
}

// The same of an answer.
fn moved_cell(answer: Result<Cell, Cause>, by: usize) -> Result<Cell, Cause>
    requires { by + end_of_answer answer < 2 ^ 64 }
    ensures { result ≡ moved by answer }
{
    Ok(shifted_cell(answer?, by))
}

// The cell of the column whose record stands at a body byte, in the row that starts at one, in a slice where the body starts at byte `by`.
fn column_cell(
    body: &[u8],
    by: usize,
    entry: usize,
    at: usize,
    offset: usize,
    layout: Layout,
) -> Result<Cell, Cause>
    requires { by + length body.now < 2 ^ 64 }
    ensures { result ≡ column_cell body.now by (at + offset) layout (column_at body.now entry layout) }
{
    match column::read_column(body, entry, layout) {
        Ok(column) => moved_cell(
            cell_in(body, column, at, offset, layout),
            shift_in(column.storage, by),
        ),
        Err(_) => Ok(Cell::Nothing),
    }
}

// The cell of a mark in the row that starts at a body byte.
fn marked_cell(
    body: &[u8],
    by: usize,
    mark: Option<Mark>,
    at: usize,
    layout: Layout,
) -> Result<Cell, Cause>
    requires { by + length body.now < 2 ^ 64 }
    ensures { result ≡ marked_cell body.now by at layout mark }
{
    match mark {
        None => Ok(Cell::Nothing),
        Some(Mark { entry, offset }) => column_cell(body, by, entry, at, offset, layout),
    }
}

// The cell of the last column of the name, in a row of a body.
fn body_cell(body: &[u8], by: usize, layout: Layout, name: &[u8], row: usize) -> Result<Cell, Cause>
    requires { (layout.columns ≤ 64) × ((row < 256) × (by + length body.now < 2 ^ 64)) }
    ensures { result ≡ body_cell body.now by layout name.now row }
{
    let found = last_named(body, layout, name);
    let at = (layout.start as usize) + row * found.width;
    marked_cell(body, by, found.mark, at, layout)
}

// A cell's answer as that of a table at a place.
fn placed_at(answer: Result<Cell, Cause>, place: usize) -> Result<Cell, Refusal>
    ensures { result ≡ placed place answer }
{
    match answer {
        Ok(cell) => Ok(cell),
        Err(cause) => refusal::refused(cause, place),
    }
}

// The cell of the last column of the name, in a row of a table that was read.
fn row_cell(
    bytes: &[u8],
    place: usize,
    layout: Layout,
    name: &[u8],
    row: usize,
) -> Result<Cell, Refusal>
    requires { ((layout.columns ≤ 64) × (layout.rows ≤ 256)) × (place + (32 + layout.size) ≤ length bytes.now) }
    ensures { result ≡ cell_from bytes.now place name.now row layout }
{
    if layout.rows <= row {
        return Ok(Cell::Nothing);
    }
    let by = place + layout::HEADER;
    let end = by + layout.size;
    placed_at(body_cell(&bytes[by..end], by, layout, name, row), place)
}

// The cell of the last column of a name, in a row of the table at a place of a slice, read in a mode.
pub fn cell_of(
    bytes: &[u8],
    place: usize,
    mode: TableMode,
    name: &[u8],
    row: usize,
) -> Result<Cell, Refusal>
    ensures { result ≡ cell_of bytes.now place mode name.now row }
{
    let layout = table::read_table(bytes, place, mode)?;
    row_cell(bytes, place, layout, name, row)
}

// The cell of the last column of a name, in the last row of the table at a place of a slice.
pub fn last_cell_of(
    bytes: &[u8],
    place: usize,
    mode: TableMode,
    name: &[u8],
) -> Result<Cell, Refusal>
    ensures { result ≡ last_cell_of bytes.now place mode name.now }
{
    let layout = table::read_table(bytes, place, mode)?;
    // Without rows there is no cell in row 0.
    let row = layout.rows.saturating_sub(1);
    row_cell(bytes, place, layout, name, row)
}
