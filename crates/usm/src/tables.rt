// Tables for C: a column and a cell by the column's number, and a table written as CSV. Rules T and V.
ghost use Rattle.std.specs.Prelude.{◌≡◌};
ghost use Rattle.lookup.specs.declared.numbers.Line.TheVariants.{Row};
ghost use Rattle.lookup.specs.Numbers.{cell_by};
ghost use Rattle.replies.specs.TableReplies.{cell_reply};
ghost use Rattle.reading.specs.Choices.{mode_by};
ghost use Rattle.usm.specs.Tables.{column_for, CsvFor};

use lent::SizeReply;
use lookup::numbers::Line;
use reading::ReadingBytes;
use replies::{CellReply, ColumnReply};

// The name, storage and type of the column of a number, of the table at a place of a slice. Columns are counted from 0.
#[unsafe(no_mangle)]
pub extern "C" fn usm_column(
    bytes: &[u8],
    place: usize,
    column: usize,
    reading: ReadingBytes,
) -> ColumnReply
    ensures { result ≡ column_for bytes.now place (mode_by reading.tables) column }
{
    let mode = reading::mode_by(reading.tables);
    let name = lookup::numbers::cell_by(bytes, place, mode, Line::Names, column);
    replies::column_reply(
        name,
        lookup::numbers::tag_by(bytes, place, mode, column),
        mode,
    )
}

// The cell of the column of a number in a row of such a table.
#[unsafe(no_mangle)]
pub extern "C" fn usm_cell_at(
    bytes: &[u8],
    place: usize,
    column: usize,
    row: usize,
    reading: ReadingBytes,
) -> CellReply
    ensures { result ≡ cell_reply (cell_by bytes.now place (mode_by reading.tables) (Row row) column) }
{
    let mode = reading::mode_by(reading.tables);
    replies::cell_reply(lookup::numbers::cell_by(bytes, place, mode, Line::Row(row), column))
}

// Writes the table at a place of a slice as CSV into an output, and returns its size. Bytes past it stay; a refusal leaves the output as it was.
#[unsafe(no_mangle)]
pub extern "C" fn usm_csv(
    bytes: &[u8],
    place: usize,
    reading: ReadingBytes,
    out: &mut [u8],
) -> SizeReply
    ensures { CsvFor bytes.now place (mode_by reading.tables) out.old result out.new }
{
    let mode = reading::mode_by(reading.tables);
    lent::size_reply(table_csv::write_csv(bytes, place, mode, out))
}
