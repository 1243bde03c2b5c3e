// A column of an @UTF table: where its values stand, the place of its name, its type and its constant.
// Rules T. From the Rust: the column loop of `get_utf_table`.
#![tactic(auto)]

ghost use Rattle.std.specs.Prelude.{◌≡◌, ◌+◌, ◌%◌, ◌≤◌, ◌<◌, length};
ghost use Rattle.column.specs.Storages.{other_storage, storage_of, in_record, in_row, constant_at};
ghost use Rattle.column.specs.Columns.{column_from, column_at};

use cell::Cell;
use layout::Layout;
use reading::TableMode;
use refusal::Cause;

// Where a column has its values.
#[derive(Clone, Copy, Debug, PartialEq, Eq)]
pub enum Storage {
    // One value for every row, in the column's record.
    Constant,
    // A value in each row.
    Stored,
    // Nowhere: every value is 0 or empty.
    Zero,
    // A nibble that says nothing.
    Unknown,
}

// A column's record: the place of its name, where its values stand, their type, its constant (`Nothing` where it has none),
// and the body byte where the next record stands.
#[derive(Clone, Copy)]
pub struct Column {
    pub name: usize,
    pub storage: Storage,
    pub kind: u8,
    pub constant: Cell,
    pub next: usize,
}

// The bytes of a record's type and name offset; a constant follows them.
pub const RECORD: usize = 5;

// The type in a type byte: its low nibble.
pub fn kind_of(tag: usize) -> u8
    ensures { result ≡ tag % 16 }
{
    (tag % 16) as u8
}

// What a nibble that tells of no constant says where zero columns take no room.
fn known_storage(nibble: usize) -> Storage
    ensures { result ≡ other_storage TableMode.ZeroColumns nibble }
{
    match nibble {
        1 => Storage::Zero,
        5 => Storage::Stored,
        _ => Storage::Unknown,
    }
}

// What a nibble that tells of no constant says in a mode.
fn other_storage(nibble: usize, mode: TableMode) -> Storage
    ensures { result ≡ other_storage mode nibble }
{
    match mode {
        TableMode::Original => Storage::Stored,
        TableMode::ZeroColumns => known_storage(nibble),
    }
}

// Where a column has its values, by the high nibble of its type byte.
pub fn storage_of(tag: usize, mode: TableMode) -> Storage
    ensures { result ≡ storage_of mode tag }
{
    match tag / 16 {
        3 | 7 => Storage::Constant,
        nibble => other_storage(nibble, mode),
    }
}

// The bytes that a column takes in its record.
pub fn in_record(tag: usize, mode: TableMode) -> usize
    ensures { (result ≡ in_record mode tag) × (result < 261) }
{
    match storage_of(tag, mode) {
        Storage::Constant => RECORD + cell::width_of(kind_of(tag)),
        Storage::Stored | Storage::Zero | Storage::Unknown => RECORD,
    }
}

// The bytes that a column takes in each row.
pub fn in_row(tag: usize, mode: TableMode) -> usize
    ensures { (result ≡ in_row mode tag) × (result < 256) }
{
    match storage_of(tag, mode) {
        Storage::Stored => cell::width_of(kind_of(tag)),
        Storage::Constant | Storage::Zero | Storage::Unknown => 0,
    }
}

// The constant that follows at a body byte, or nothing where a column has none. An unknown storage is refused here, after the name.
fn constant_at(
    body: &[u8],
    storage: Storage,
    kind: u8,
    at: usize,
    layout: Layout,
) -> Result<Cell, Cause>
    ensures { result ≡ constant_at body.now storage kind at layout }
{
    match storage {
        Storage::Constant => cell::read_cell(body, kind, at, layout),
        Storage::Stored | Storage::Zero => Ok(Cell::Nothing),
        Storage::Unknown => Err(Cause::UnknownStorage),
    }
}

// The column of a name, whose record stands at a body byte.
fn named_column(body: &[u8], at: usize, name: usize, layout: Layout) -> Result<Column, Cause>
    requires { at + 5 ≤ length body.now }
    ensures { result ≡ column_from body.now at name layout }
{
    let tag = word::read8(body, at);
    let storage = storage_of(tag, layout.mode);
    let kind = kind_of(tag);
    let constant = constant_at(body, storage, kind, at + RECORD, layout)?;
    Ok(Column {
        name,
        storage,
        kind,
        constant,
        next: at + in_record(tag, layout.mode),
    })
}

// The column whose record stands at a body byte.
pub fn read_column(body: &[u8], at: usize, layout: Layout) -> Result<Column, Cause>
    ensures { result ≡ column_at body.now at layout }
{
    if word::left_from(body, at) < RECORD {
        return Err(Cause::RanOut);
    }
    let name = (layout.strings as usize) + word::read32(body, at + 1);
    cell::end_of(body, name).ok_or(Cause::RanOut)?;
    named_column(body, at, name, layout)
}
