// A cell of an @UTF table: its type's width, its value, its text or data in the table's body, and the cell as numbers.
// Rules T. From the Rust: `read_column_data`, `read_cstring`.
#![tactic(auto)]

ghost use Rattle.std.specs.Prelude.{◌≡◌, ◌+◌, ◌≤◌, ◌<◌, ◌^◌, length};
ghost use Rattle.std.specs.Float.{binary32};
ghost use Rattle.std.specs.Float.Ieee.{to_bits};
ghost use Rattle.cell.specs.Types.{width, width_of};
ghost use Rattle.cell.specs.ValueTypes.{type_by, kind_by};
ghost use Rattle.cell.specs.Parts.{zero_from, end_of, text_at, data_at};
ghost use Rattle.cell.specs.Cells.{float_cell, value_at, cell_at, zero_of, zero_cell};
ghost use Rattle.cell.specs.CellNumbers.{case_of, value_of, length_of};
ghost use Rattle.cell.specs.CellParts.{start_of, PartOf};

use layout::{BODY, Layout};
use refusal::Cause;

// What a cell holds. A float whose bits are a NaN's keeps its bits. Parts are parts of the table's body.
#[derive(Clone, Copy, Debug, PartialEq)]
pub enum Cell {
    Nothing,
    Unsigned(u64),
    Signed(i32),
    Float(f32),
    NotANumber(u32),
    Text { start: usize, len: usize },
    Data { start: usize, len: usize },
}

// The types that a value can have.
#[derive(Clone, Copy, Debug, PartialEq, Eq)]
enum ValueType {
    U8,
    I8,
    U16,
    I16,
    U32,
    I32,
    U64,
    F32,
    // The offset of a string.
    Text,
    // The offset and the size of data.
    Blob,
}

// A type by its number. 7, 9 and all from 12 on are unknown.
impl TryFrom<u8> for ValueType {
    type Error = Cause;

    ghost try_from_gives = { λ kind answer. answer ≡ type_by kind };

    fn try_from(kind: u8) -> Result<Self, Cause> {
        match kind {
            0 => Ok(ValueType::U8),
            1 => Ok(ValueType::I8),
            2 => Ok(ValueType::U16),
            3 => Ok(ValueType::I16),
            4 => Ok(ValueType::U32),
            5 => Ok(ValueType::I32),
            6 => Ok(ValueType::U64),
            8 => Ok(ValueType::F32),
            10 => Ok(ValueType::Text),
            11 => Ok(ValueType::Blob),
            _ => Err(Cause::UnknownType(kind)),
        }
    }
}

// The bytes that a value of each type takes; 0 marks an unknown type. A table: a `match` over the types takes `usm_column` two thirds
// more instructions (docs/LOOK-BACK.md).
const WIDTHS: [u8; 16] = [1, 1, 2, 2, 4, 4, 8, 0, 4, 0, 4, 8, 0, 0, 0, 0];

// The bytes that a value of a type takes, 0 for an unknown type.
pub fn width_of(kind: u8) -> usize
    ensures { (result ≡ width_of kind) × (result < 256) }
{
    if kind < 16 {
        return usize::from(WIDTHS[usize::from(kind)]);
    }
    0
}

// The float that 32 bits stand for, or a NaN's bits.
fn float_of(pattern: usize) -> Cell
    requires { pattern < 2 ^ 32 }
    ensures { result ≡ float_cell pattern }
{
    let bits = pattern as u32;
    if bits % 0x8000_0000 <= 0x7F80_0000 {
        return Cell::Float(f32::from_bits(bits));
    }
    Cell::NotANumber(bits)
}

// The first zero byte at or after a body byte.
fn zero_from(body: &[u8], from: usize) -> Option<usize>
    ensures { result ≡ zero_from body.now from }
{
    for i in from..body.len() {
        if body[i] == 0 {
            return Some(i);
        }
    }
    None
}

// Where the text at a place of the table ends. The Rust's `read_cstring`.
pub fn end_of(body: &[u8], place: usize) -> Option<usize>
    ensures { result ≡ end_of body.now place }
{
    if place < BODY {
        return None;
    }
    zero_from(body, place - BODY)
}

// The text at a place of the table.
fn text_at(body: &[u8], place: usize) -> Result<Cell, Cause>
    ensures { result ≡ text_at body.now place }
{
    let end = end_of(body, place).ok_or(Cause::RanOut)?;
    let start = place - BODY;
    Ok(Cell::Text {
        start,
        len: end - start,
    })
}

// The data of a size at a place of the table. None at all lies anywhere.
pub fn data_at(body: &[u8], place: usize, size: usize) -> Result<Cell, Cause>
    ensures { result ≡ data_at body.now place size }
{
    if size == 0 {
        return Ok(Cell::Data { start: 0, len: 0 });
    }
    if place < BODY {
        return Err(Cause::RanOut);
    }
    let start = place - BODY;
    if word::left_from(body, start) < size {
        return Err(Cause::RanOut);
    }
    Ok(Cell::Data { start, len: size })
}

// The value of a type whose bytes stand at a body byte.
#[tactic(auto, unfolding(crate::specs::Cells::value_at))]
fn value_at(body: &[u8], value: ValueType, at: usize, layout: Layout) -> Result<Cell, Cause>
    requires { at + width (kind_by value) ≤ length body.now }
    ensures { result ≡ value_at (kind_by value) body.now at layout }
{
    match value {
        ValueType::U8 => Ok(Cell::Unsigned(word::read8(body, at) as u64)),
        ValueType::I8 => Ok(Cell::Signed(i32::from((word::read8(body, at) as u8).cast_signed()))),
        ValueType::U16 => Ok(Cell::Unsigned(word::read16(body, at) as u64)),
        ValueType::I16 => Ok(Cell::Signed(i32::from(
            (word::read16(body, at) as u16).cast_signed(),
        ))),
        ValueType::U32 => Ok(Cell::Unsigned(word::read32(body, at) as u64)),
        ValueType::I32 => Ok(Cell::Signed((word::read32(body, at) as u32).cast_signed())),
        ValueType::U64 => Ok(Cell::Unsigned(word::read64(body, at) as u64)),
        ValueType::F32 => Ok(float_of(word::read32(body, at))),
        ValueType::Text => text_at(body, (layout.strings as usize) + word::read32(body, at)),
        ValueType::Blob => data_at(
            body,
            (layout.blobs as usize) + word::read32(body, at),
            word::read32(body, at + 4),
        ),
    }
}

// The cell of a type at a body byte. The Rust's `read_column_data`.
pub fn read_cell(body: &[u8], kind: u8, at: usize, layout: Layout) -> Result<Cell, Cause>
    ensures { result ≡ cell_at body.now kind at layout }
{
    let value = ValueType::try_from(kind)?;
    if word::left_from(body, at) < width_of(kind) {
        return Err(Cause::RanOut);
    }
    value_at(body, value, at, layout)
}

// What a cell of a type holds where nothing is stored for it.
fn zero_of(value: ValueType) -> Cell
    ensures { result ≡ zero_of (kind_by value) }
{
    match value {
        ValueType::U8 | ValueType::U16 | ValueType::U32 | ValueType::U64 => Cell::Unsigned(0),
        ValueType::I8 | ValueType::I16 | ValueType::I32 => Cell::Signed(0),
        ValueType::F32 => float_of(0),
        ValueType::Text => Cell::Text { start: 0, len: 0 },
        ValueType::Blob => Cell::Data { start: 0, len: 0 },
    }
}

// The cell of a type in a column that stores nothing: 0, or an empty part at byte 0 of the slice.
pub fn zero_cell(kind: u8) -> Result<Cell, Cause>
    ensures { result ≡ zero_cell kind }
{
    Ok(zero_of(ValueType::try_from(kind)?))
}

// The number of a cell's case, as C has it.
pub fn case_of(cell: Cell) -> u8
    ensures { result ≡ case_of cell }
{
    match cell {
        Cell::Nothing => 0,
        Cell::Unsigned(_) => 1,
        Cell::Signed(_) => 2,
        Cell::Float(_) | Cell::NotANumber(_) => 3,
        Cell::Text { .. } => 4,
        Cell::Data { .. } => 5,
    }
}

// The bits given for a `Float` that is a NaN. No cell that was read holds one: a NaN that was read is a `NotANumber`.
const NAN: u32 = 0x7FC0_0000;

// The 32 bits of a float.
fn float_bits(number: f32) -> u32
    ensures { result ≡ to_bits binary32 number }
{
    if number == number {
        return f32::to_bits(number);
    }
    NAN
}

// A cell's value, or where its part starts.
pub fn value_of(cell: Cell) -> u64
    ensures { result ≡ value_of cell }
{
    match cell {
        Cell::Nothing => 0,
        Cell::Unsigned(number) => number,
        Cell::Signed(number) => i64::from(number).cast_unsigned(),
        Cell::Float(number) => u64::from(float_bits(number)),
        Cell::NotANumber(bits) => u64::from(bits),
        Cell::Text { start, .. } | Cell::Data { start, .. } => start as u64,
    }
}

// Where a cell's part starts, 0 where it has none.
fn start_of(cell: Cell) -> usize
    ensures { result ≡ start_of cell }
{
    match cell {
        Cell::Text { start, .. } | Cell::Data { start, .. } => start,
        _ => 0,
    }
}

// How long a cell's part is, 0 where it has none.
pub fn length_of(cell: Cell) -> usize
    ensures { result ≡ length_of cell }
{
    match cell {
        Cell::Text { len, .. } | Cell::Data { len, .. } => len,
        _ => 0,
    }
}

// The bytes of a string or data cell, a part of the slice that holds the table; the empty part at byte 0 for any other cell.
pub fn part_of(bytes: &[u8], cell: Cell) -> &[u8]
    ensures { PartOf bytes.entry cell result }
{
    part::part_at(bytes, start_of(cell), length_of(cell))
}
