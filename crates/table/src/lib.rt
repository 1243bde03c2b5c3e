// An @UTF table: all of its columns and then all of its rows are checked, in the order of refusals.
// Rules T. From the Rust: `get_utf_table`.
//
// A text is fine where a zero byte stands at or after its start in the body. With `ends`, one past the body's last zero,
// that is one comparison, so the walk searches no text and costs a little for each column and each cell.
#![tactic(auto)]

ghost use Rattle.std.specs.Prelude.{◌≡◌, ◌+◌, ◌%◌, ◌≤◌, length, Ok, Err};
ghost use Rattle.layout.specs.Layouts.{body_of};
ghost use Rattle.cell.specs.declared.Cell.TheVariants.{Nothing};
ghost use Rattle.cell.specs.Types.{kind_of, width_of};
ghost use Rattle.cell.specs.Parts.{end_of, text_at, data_at};
ghost use Rattle.cell.specs.Cells.{value_at, cell_at, zero_cell};
ghost use Rattle.column.specs.Storages.{storage_of, in_record, in_row, constant_at, cell_in};
ghost use Rattle.column.specs.Columns.{column_at};
ghost use Rattle.table.specs.Walks.{after_cell, after_column, columns_from, row_from, rows_from, walk_of};
ghost use Rattle.table.specs.LastZero.{is_at, zeros_end};
ghost use Rattle.table.specs.Tables.{table_to, table_of, table_at};

use column::Storage;
use layout::Layout;
use reading::TableMode;
use refusal::{Cause, Refusal};

// One past the last zero byte, or 0 where there is none. Counted down by hand: with `rposition` the proof stayed open.
fn zeros_end(body: &[u8]) -> usize
    ensures { result ≡ zeros_end body.now }
{
    let mut n = body.len();
    while 0 < n {
        if body[n - 1] == 0 {
            return n;
        }
        n -= 1;
    }
    0
}

// The check of data: on to `next`, or why not.
fn check_data(body: &[u8], place: usize, size: usize, next: usize) -> Result<usize, Cause>
    ensures { result ≡ after_cell (Ok next) (data_at body.now place size) }
{
    cell::data_at(body, place, size)?;
    Ok(next)
}

// The check of a cell for which nothing is stored: on to `next`, or why not.
fn check_zero(kind: u8, next: usize) -> Result<usize, Cause>
    ensures { result ≡ after_cell (Ok next) (zero_cell kind) }
{
    cell::zero_cell(kind)?;
    Ok(next)
}

// A walk over the columns and rows of a table's body. Each check of it answers where it goes on, or why it stops.
#[derive(Clone, Copy)]
struct Walk<'a> {
    body: &'a [u8],
    layout: Layout,
    // One past the body's last zero.
    ends: usize,
    ghost last_zero: { ends ≡ zeros_end body.now },
    ghost few: { layout.columns ≤ 64 },
}

impl<'a> Walk<'a> {
    fn new(body: &'a [u8], layout: Layout) -> Walk<'a>
        requires { layout.columns ≤ 64 }
        ensures { (result.body.now ≡ body.now) × (result.layout ≡ layout) }
    {
        Walk {
            body,
            layout,
            ends: zeros_end(body),
        }
    }

    // Whether the text at a place ends in the body.
    fn has_end(&self, place: usize) -> bool
        ensures { result ≡ is_at (end_of self.now.body.now place) }
    {
        layout::BODY <= place && place - layout::BODY < self.ends
    }

    // A text.
    fn check_text(&self, place: usize, next: usize) -> Result<usize, Cause>
        ensures { result ≡ after_cell (Ok next) (text_at self.now.body.now place) }
    {
        if !self.has_end(place) {
            return Err(Cause::RanOut);
        }
        Ok(next)
    }

    // A value whose bytes stand at a body byte. The two types that lead elsewhere go by their numbers, since `read_cell` is asked by
    // number.
    fn check_value(&self, kind: u8, at: usize, next: usize) -> Result<usize, Cause>
        requires { at + width_of kind ≤ length self.now.body.now }
        ensures { result ≡ after_cell (Ok next) (value_at (kind_of kind) self.now.body.now at self.now.layout) }
    {
        match kind {
            10 => self.check_text(
                (self.layout.strings as usize) + word::read32(self.body, at),
                next,
            ),
            11 => check_data(
                self.body,
                (self.layout.blobs as usize) + word::read32(self.body, at),
                word::read32(self.body, at + 4),
                next,
            ),
            _ => Ok(next),
        }
    }

    // A cell: on to where it ends.
    fn check_cell(&self, kind: u8, at: usize) -> Result<usize, Cause>
        ensures { result ≡ after_cell (Ok (at + width_of kind)) (cell_at self.now.body.now kind at self.now.layout) }
    {
        let width = cell::width_of(kind);
        if width == 0 {
            return Err(Cause::UnknownType(kind));
        }
        if word::left_from(self.body, at) < width {
            return Err(Cause::RanOut);
        }
        self.check_value(kind, at, at + width)
    }

    // What follows a column's name offset: on to where its record ends.
    fn check_constant(&self, tag: usize, at: usize) -> Result<usize, Cause>
        requires { at + 5 ≤ length self.now.body.now }
        ensures { result ≡ after_cell (Ok (at + in_record self.now.layout.mode tag)) (constant_at self.now.body.now (storage_of self.now.layout.mode tag) (tag % 16) (at + 5) self.now.layout) }
    {
        match column::storage_of(tag, self.layout.mode) {
            Storage::Constant => self.check_cell(column::kind_of(tag), at + column::RECORD),
            Storage::Stored | Storage::Zero => Ok(at + column::RECORD),
            Storage::Unknown => Err(Cause::UnknownStorage),
        }
    }

    // A column: on to where its record ends.
    fn check_column(&self, at: usize) -> Result<usize, Cause>
        ensures { result ≡ after_column (λ n. Ok n) (column_at self.now.body.now at self.now.layout) }
    {
        if word::left_from(self.body, at) < column::RECORD {
            return Err(Cause::RanOut);
        }
        let tag = word::read8(self.body, at);
        let name = (self.layout.strings as usize) + word::read32(self.body, at + 1);
        if !self.has_end(name) {
            return Err(Cause::RanOut);
        }
        self.check_constant(tag, at)
    }

    // All columns: on to where their records end.
    fn check_columns(&self) -> Result<usize, Cause>
        ensures { result ≡ columns_from self.now.body.now self.now.layout self.now.layout.columns 0 }
    {
        let mut at = 0;
        for _ in 0..self.layout.columns {
            at = self.check_column(at)?;
        }
        Ok(at)
    }

    // A column's cell in a row: on to where the next column's stands. A constant was checked with its column.
    fn check_in_row(&self, tag: usize, at: usize) -> Result<usize, Cause>
        ensures { result ≡ after_cell (Ok (at + in_row self.now.layout.mode tag)) (cell_in self.now.body.now (storage_of self.now.layout.mode tag) Nothing (tag % 16) at self.now.layout) }
    {
        match column::storage_of(tag, self.layout.mode) {
            Storage::Constant => Ok(at),
            Storage::Stored => self.check_cell(column::kind_of(tag), at),
            Storage::Zero => check_zero(column::kind_of(tag), at),
            Storage::Unknown => Err(Cause::UnknownStorage),
        }
    }

    // The cells of one row, from a body byte on.
    fn check_row(&self, from: usize) -> Result<usize, Cause>
        ensures { result ≡ row_from self.now.body.now self.now.layout self.now.layout.columns 0 from }
    {
        let mut entry = 0;
        let mut at = from;
        for _ in 0..self.layout.columns {
            let tag = word::read8(self.body, entry);
            at = self.check_in_row(tag, at)?;
            entry += column::in_record(tag, self.layout.mode);
        }
        Ok(at)
    }

    // All rows.
    fn check_rows(&self) -> Result<usize, Cause>
        ensures { result ≡ rows_from self.now.body.now self.now.layout self.now.layout.rows self.now.layout.start }
    {
        let mut at = self.layout.start as usize;
        for _ in 0..self.layout.rows {
            at = self.check_row(at)?;
        }
        Ok(at)
    }
}

// All columns, then all rows.
fn walk_table(body: &[u8], layout: Layout) -> Result<usize, Cause>
    requires { layout.columns ≤ 64 }
    ensures { result ≡ walk_of body.now layout }
{
    let walk = Walk::new(body, layout);
    walk.check_columns()?;
    walk.check_rows()
}

// The table of a layout that a slice begins with: its columns and rows are checked.
fn checked(table: &[u8], layout: Layout, place: usize) -> Result<Layout, Refusal>
    requires { (layout.columns ≤ 64) × (32 + layout.size ≤ length table.now) }
    ensures { result ≡ table_to place layout (walk_of (body_of table.now layout) layout) }
{
    let end = layout::HEADER + layout.size;
    match walk_table(&table[layout::HEADER..end], layout) {
        Ok(_) => Ok(layout),
        Err(cause) => refusal::refused(cause, place),
    }
}

// The table that a slice begins with; `place` is where that is.
fn read_from(table: &[u8], place: usize, mode: TableMode) -> Result<Layout, Refusal>
    ensures { result ≡ table_of place table.now mode }
{
    match layout::read_layout(table, mode) {
        Ok(layout) => checked(table, layout, place),
        Err(cause) => refusal::refused(cause, place),
    }
}

// The table at a place of a slice, read in a mode: its layout, or why it is refused. A place past the end has no bytes.
pub fn read_table(bytes: &[u8], place: usize, mode: TableMode) -> Result<Layout, Refusal>
    ensures { result ≡ table_at bytes.now place mode }
{
    if bytes.len() < place {
        return refusal::refused(Cause::RanOut, place);
    }
    read_from(&bytes[place..], place, mode)
}
