// A block of the header: four letters, a size, and inside it a table or a marker. Each refusal has the block's start as its place.
// Rules H. From the Rust: `seek_and_check_signature`, `align_stream`, and what `parse_usm_header`,
// `parse_usm_header_chunks` and `skip_metadata_section` do with each block.
#![tactic(auto)]

ghost use Rattle.std.specs.Prelude.{◌≡◌, ◌+◌, ◌≤◌, ◌<◌, ◌^◌, length};
ghost use Rattle.signature.specs.Signatures.{filename};
ghost use Rattle.table.specs.Tables.{table_at};
ghost use Rattle.lookup.specs.Lookups.{cell_of, last_cell_of};
ghost use Rattle.block.specs.Blocks.{refused_at, head_at, marked_at, tabled, coded, named, marker_block, table_block, codec_block, name_block, ahead_at, chunks_after, last_block};

use film_name::Name;
use reading::Reading;
use refusal::{Cause, Refusal};

// The codec that a block's table gives, and where the next block stands.
#[derive(Clone, Copy)]
pub struct CodecBlock {
    pub codec: Option<u32>,
    pub next: usize,
}

// The name that the first block's table gives, and where the next block stands.
#[derive(Clone, Copy)]
pub struct NameBlock {
    pub name: Option<Name>,
    pub next: usize,
}

// What stands next: `@SFA`, other letters, or fewer than four bytes.
#[derive(Clone, Copy)]
pub enum Ahead {
    Sound,
    Other,
    Cut,
}

// The bytes of a block's letters and its size.
const HEAD: usize = 8;

// Where the marker of a last block ends, from the block's start.
const MARKED: usize = 45;

// The bytes between a last block and the chunks.
const GAP: usize = 16;

// The letters and the size of the block at a place: where the next stands. Other letters are refused as `missing`. Out of line:
// otherwise most kinds of block below are too large to be inlined, and what each of them is handed takes up stack in `header`.
#[inline(never)]
fn head_at(bytes: &[u8], letters: usize, missing: Cause, place: usize) -> Result<usize, Refusal>
    ensures { result ≡ head_at bytes.now letters missing place }
{
    let left = word::left_from(bytes, place);
    if left < signature::LETTERS {
        return refusal::refused(Cause::RanOut, place);
    }
    if word::read32(bytes, place) != letters {
        return refusal::refused(missing, place);
    }
    if left < HEAD {
        return refusal::refused(Cause::RanOut, place);
    }
    Ok(place + HEAD + word::read32(bytes, place + signature::LETTERS))
}

// The marker of the block at a place. Another is refused as `unmarked`.
fn marked_at(
    bytes: &[u8],
    marker: &[u8],
    unmarked: Cause,
    place: usize,
    next: usize,
) -> Result<usize, Refusal>
    ensures { result ≡ marked_at bytes.now marker.now unmarked place next }
{
    if word::left_from(bytes, place) < signature::INSIDE + marker.len() {
        return refusal::refused(Cause::RanOut, place);
    }
    if signature::stands_at(marker, bytes, place + signature::INSIDE) {
        return Ok(next);
    }
    refusal::refused(unmarked, place)
}

// The table of a block whose head was read, which is checked. Past such a head no sum overflows.
fn table_at(bytes: &[u8], reading: Reading, place: usize, next: usize) -> Result<usize, Refusal>
    requires { place + 8 ≤ length bytes.now }
    ensures { result ≡ tabled place next (table_at bytes.now (place + 0x20) reading.tables) }
{
    let mode = reading.tables;
    match table::read_table(bytes, place + signature::INSIDE, mode) {
        Ok(_) => Ok(next),
        Err(refusal) => {
            let cause = refusal.cause;
            refusal::refused(cause, place)
        }
    }
}

// The table of a block whose head was read: its column's cell in the first row is a codec.
fn codec_at(
    bytes: &[u8],
    reading: Reading,
    column: &[u8],
    place: usize,
    next: usize,
) -> Result<CodecBlock, Refusal>
    requires { place + 8 ≤ length bytes.now }
    ensures { result ≡ coded place next (cell_of bytes.now (place + 0x20) reading.tables column.now 0) }
{
    let mode = reading.tables;
    match lookup::cell_of(bytes, place + signature::INSIDE, mode, column, 0) {
        Ok(cell) => Ok(CodecBlock {
            codec: codec::codec_of(cell),
            next,
        }),
        Err(refusal) => {
            let cause = refusal.cause;
            refusal::refused(cause, place)
        }
    }
}

// The table of the block at 0: its `filename` in the last row is the name.
fn name_at(bytes: &[u8], reading: Reading, next: usize) -> Result<NameBlock, Refusal>
    ensures { result ≡ named 0 next (last_cell_of bytes.now 0x20 reading.tables filename) }
{
    let mode = reading.tables;
    match lookup::last_cell_of(bytes, signature::INSIDE, mode, b"filename") {
        Ok(cell) => Ok(NameBlock {
            name: film_name::name_in(cell),
            next,
        }),
        Err(refusal) => {
            let cause = refusal.cause;
            refusal::refused(cause, 0)
        }
    }
}

// The block at a place, with a marker.
pub fn marker_block(
    bytes: &[u8],
    letters: usize,
    missing: Cause,
    marker: &[u8],
    unmarked: Cause,
    place: usize,
) -> Result<usize, Refusal>
    ensures { result ≡ marker_block bytes.now letters missing marker.now unmarked place }
{
    let next = head_at(bytes, letters, missing, place)?;
    marked_at(bytes, marker, unmarked, place, next)
}

// The block at a place, with a table.
pub fn table_block(
    bytes: &[u8],
    reading: Reading,
    letters: usize,
    missing: Cause,
    place: usize,
) -> Result<usize, Refusal>
    ensures { result ≡ table_block bytes.now reading letters missing place }
{
    let next = head_at(bytes, letters, missing, place)?;
    table_at(bytes, reading, place, next)
}

// The block at a place, with a table that gives a codec.
pub fn codec_block(
    bytes: &[u8],
    reading: Reading,
    letters: usize,
    missing: Cause,
    column: &[u8],
    place: usize,
) -> Result<CodecBlock, Refusal>
    ensures { result ≡ codec_block bytes.now reading letters missing column.now place }
{
    let next = head_at(bytes, letters, missing, place)?;
    codec_at(bytes, reading, column, place, next)
}

// The block at 0, with a table that gives the name.
pub fn name_block(bytes: &[u8], reading: Reading) -> Result<NameBlock, Refusal>
    ensures { result ≡ name_block bytes.now reading }
{
    let next = head_at(bytes, signature::CRID, Cause::NoFilm, 0)?;
    name_at(bytes, reading, next)
}

// What stands next, at a place.
pub fn ahead_at(bytes: &[u8], place: usize) -> Ahead
    ensures { result ≡ ahead_at bytes.now place }
{
    if word::left_from(bytes, place) < signature::LETTERS {
        return Ahead::Cut;
    }
    if word::read32(bytes, place) == signature::SFA {
        return Ahead::Sound;
    }
    Ahead::Other
}

// Where chunks begin after a last block: past its marker, rounded up to a multiple of 4, plus 16.
fn chunks_after(place: usize) -> usize
    requires { place < 2 ^ 63 }
    ensures { result ≡ chunks_after place }
{
    (place + MARKED + 3) / 4 * 4 + GAP
}

// The last block, at a place, whose size is not read: where chunks begin.
pub fn last_block(bytes: &[u8], place: usize) -> Result<usize, Refusal>
    ensures { result ≡ last_block bytes.now place }
{
    if word::left_from(bytes, place) < signature::LETTERS {
        return refusal::refused(Cause::RanOut, place);
    }
    if word::read32(bytes, place) != signature::SFV {
        return refusal::refused(Cause::NoVideo, place);
    }
    let chunks = chunks_after(place);
    marked_at(bytes, b"#METADATA END", Cause::NoMetadataEnd, place, chunks)
}
