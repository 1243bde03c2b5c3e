// Tables for C: a column and a cell by the column's number, and a table written as CSV. Rules T and V.
ghost use Rattle.std.specs.Prelude.{◌≡◌};
ghost use Rattle.lookup.specs.declared.numbers.Line.TheVariants.{Row};
ghost use Rattle.lookup.specs.Numbers.{cell_by};
ghost use Rattle.replies.specs.TableReplies.{cell_reply};
ghost use Rattle.reading.specs.Choices.{mode_by};
ghost use Rattle.usm.specs.Tables.{column_for, CsvFor};

use lent::SizeReply;
use reading::ReadingBytes;
use replies::{CellReply, ColumnReply};

// The name, storage and type of the column of a number, of the table at a place of a slice. Columns are counted from 0.
#[unsafe(no_mangle)]
pub extern "C" fn usm_column(
    bytes: &[u8],
    place: usize,
    column: usize,
    reading: ReadingBytes,
) -> ColumnReply
    ensures { result ≡ column_for bytes.now place (mode_by reading.tables) column }
{
    usm::tables::usm_column(bytes, place, column, reading)
}

// The cell of the column of a number in a row of such a table.
#[unsafe(no_mangle)]
pub extern "C" fn usm_cell_at(
    bytes: &[u8],
    place: usize,
    column: usize,
    row: usize,
    reading: ReadingBytes,
) -> CellReply
    ensures { result ≡ cell_reply (cell_by bytes.now place (mode_by reading.tables) (Row row) column) }
{
    usm::tables::usm_cell_at(bytes, place, column, row, reading)
}

// Writes the table at a place of a slice as CSV into an output, and returns its size. Bytes past it stay; a refusal leaves the output as it was.
#[unsafe(no_mangle)]
pub extern "C" fn usm_csv(
    bytes: &[u8],
    place: usize,
    reading: ReadingBytes,
    out: &mut [u8],
) -> SizeReply
    ensures { CsvFor bytes.now place (mode_by reading.tables) out.old result out.new }
{
    usm::tables::usm_csv(bytes, place, reading, out)
}
