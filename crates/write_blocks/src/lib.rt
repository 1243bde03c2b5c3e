// The bytes with which the blocks and tables of a written film begin. Rules W1 to W4.
// From the Rust: nothing. Its builder writes another container.
#![tactic(auto)]

ghost use Rattle.std.specs.Prelude.{◌≡◌, ◌+◌, ◌++◌};
ghost use Rattle.word.specs.Bytes.{bytes16, bytes32};
ghost use Rattle.write_blocks.specs.Blocks.{head_of};
ghost use Rattle.write_blocks.specs.Tables.{table_head};

// The longest payload, and the size of its chunk, in both containers.
pub const PAYLOAD: usize = 0x10000;

pub const CHUNK: usize = 0x10020;

// The header size that a block claims.
const HEADER: usize = 0x18;

// The remainders by these are a number's low two and low four bytes.
const LOW16: usize = 0x1_0000;

const LOW32: usize = 0x1_0000_0000;

// The place of a table's rows: its body begins at place 24, and the column's record has 5 bytes.
const ROWS: usize = 29;

// A number's low two bytes, the highest first.
fn low16(number: usize) -> [u8; 2]
    ensures { result ≡ bytes16 number }
{
    ((number % LOW16) as u16).to_be_bytes()
}

// A number's low four bytes, the highest first.
pub fn low32(number: usize) -> [u8; 4]
    ensures { result ≡ bytes32 number }
{
    word::bytes32((number % LOW32) as u32)
}

// The cell of a name of so many bytes: data at offset 0, and its size.
pub fn name_cell(len: u32) -> [u8; 8]
    ensures { result ≡ bytes32 0 ++ bytes32 len }
{
    let mut cell = [0; 8];
    cell[4..].copy_from_slice(&word::bytes32(len));
    cell
}

// The bytes in front of the `len` bytes that a block holds.
pub fn block_head(letters: usize, len: u32) -> [u8; 32]
    ensures { result ≡ head_of letters len }
{
    let pad = word::padding(len as usize);
    let mut head = [0; 32];
    head[..4].copy_from_slice(&low32(letters));
    head[4..8].copy_from_slice(&low32(HEADER + len as usize + pad));
    head[8..10].copy_from_slice(&low16(HEADER));
    head[10..12].copy_from_slice(&low16(pad));
    head
}

// The bytes of a table with one column and one row up to its cell: the table's header and the column's record.
// The cell, the column's name and the data have these lengths.
pub fn table_head(tag: u8, cell: u32, column: u32, blob: u32) -> [u8; 37]
    ensures { result ≡ table_head tag cell column blob }
{
    let strings = ROWS + cell as usize;
    let blobs = strings + column as usize + 1;
    let mut head = [0; 37];
    head[..4].copy_from_slice(b"@UTF");
    head[4..8].copy_from_slice(&low32(blobs + blob as usize));
    head[10..12].copy_from_slice(&low16(ROWS));
    head[12..16].copy_from_slice(&low32(strings));
    head[16..20].copy_from_slice(&low32(blobs));
    head[20..24].copy_from_slice(&word::bytes32(column));
    head[25] = 1;
    head[26..28].copy_from_slice(&low16(cell as usize));
    head[31] = 1;
    head[32] = tag;
    head
}
