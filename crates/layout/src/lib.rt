// The layout of an @UTF table: what its header says, read once. Cells, columns, rows and look-ups go by it.
// Rules T. From the Rust: the first reads of `get_utf_table`.
#![tactic(auto)]

ghost use Rattle.std.specs.Prelude.{◌≡◌, ◌<◌, ◌^◌};
ghost use Rattle.layout.specs.Layouts.{start_of, counted_in, layout_in};

use reading::TableMode;
use refusal::Cause;

// What a table's header says, as far as anything depends on it, and how its columns are read.
// No ghost field keeps its limits: `cell::read_cell` and `column::read_column`, which docs/CONTRACTS.md names, take any layout.
#[derive(Clone, Copy, Debug, PartialEq, Eq)]
pub struct Layout {
    // The bytes of the body.
    pub size: usize,
    pub columns: usize,
    pub rows: usize,
    // The body byte where the rows start.
    pub start: u32,
    // The string offset: names and strings count their places from it.
    pub strings: u32,
    // The data offset.
    pub blobs: u32,
    pub mode: TableMode,
}

// The header's bytes. The body follows them.
pub const HEADER: usize = 32;

// Place p of a table is body byte p - 24.
pub const BODY: usize = 24;

// `@UTF`.
const SIGNATURE: usize = 0x40555446;

// The bytes of the signature.
const LETTERS: usize = 4;

// Where the header has its numbers.
const SIZE: usize = 4;

const ROW_OFFSET: usize = 10;

const STRING_OFFSET: usize = 12;

const DATA_OFFSET: usize = 16;

const COLUMNS: usize = 24;

const ROWS: usize = 28;

// A table with more columns is refused.
const MOST_COLUMNS: usize = 64;

// A table with more rows is refused.
const MOST_ROWS: usize = 256;

// Where the rows start in a body of a size. Before the body there is nothing to read, as there is nothing past its end.
fn start_of(size: usize, offset: usize) -> usize
    ensures { result ≡ start_of size offset }
{
    offset.checked_sub(BODY).unwrap_or(size)
}

// The layout of a table whose body is there.
#[tactic(auto, unfolding(crate::specs::Layouts::counted_in))]
fn counted(table: &[u8], mode: TableMode, size: usize) -> Result<Layout, Cause>
    requires { size < 2 ^ 32 }
    ensures { result ≡ counted_in table.now mode size }
{
    let columns = word::read16(table, COLUMNS);
    if MOST_COLUMNS < columns {
        return Err(Cause::TooMany);
    }
    let rows = word::read32(table, ROWS);
    if MOST_ROWS < rows {
        return Err(Cause::TooMany);
    }
    let start = start_of(size, word::read16(table, ROW_OFFSET)) as u32;
    let strings = word::read32(table, STRING_OFFSET) as u32;
    let blobs = word::read32(table, DATA_OFFSET) as u32;
    Ok(Layout {
        size,
        columns,
        rows,
        start,
        strings,
        blobs,
        mode,
    })
}

// The layout of the table that a slice begins with, or why it is refused before its columns are read.
#[tactic(auto, unfolding(crate::specs::Layouts::layout_in))]
pub fn read_layout(table: &[u8], mode: TableMode) -> Result<Layout, Cause>
    ensures { result ≡ layout_in table.now mode }
{
    if table.len() < LETTERS {
        return Err(Cause::RanOut);
    }
    if word::read32(table, 0) != SIGNATURE {
        return Err(Cause::NoTable);
    }
    if table.len() < HEADER {
        return Err(Cause::RanOut);
    }
    let size = word::read32(table, SIZE);
    if size < BODY {
        return Err(Cause::TooSmall);
    }
    let body = size - BODY;
    if table.len() < HEADER + body {
        return Err(Cause::RanOut);
    }
    counted(table, mode, body)
}
