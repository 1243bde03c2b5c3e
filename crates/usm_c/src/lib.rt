// libusm.a: the functions of `usm` as another program links them. Each calls the function of its name, in the module of its
// name. Declared for C in include/usm.h; `rt lib` in this folder builds the library.
#![tactic(auto)]

mod jumps;
mod keys;
mod moving;
mod partings;
mod profiles;
mod putting;
mod salvaging;
mod stating;
mod stepping;
mod tables;
mod writing;

ghost use Rattle.std.specs.Prelude.{◌≡◌};
ghost use Rattle.table.specs.Tables.{table_at};
ghost use Rattle.lookup.specs.Lookups.{cell_of};
ghost use Rattle.reading.specs.Choices.{reading_by, mode_by};
ghost use Rattle.unmasking.specs.Unmasking.{key_by};
ghost use Rattle.list.specs.Listing.{Listing};
ghost use Rattle.replies.specs.TableReplies.{table_reply, cell_reply};
ghost use Rattle.usm.specs.Exports.{FilmReplied};

use list::{ChunkRecord, ListReply};
use reading::ReadingBytes;
use replies::{CellReply, FilmReply, TableReply};
use usm::KeyBytes;

// The table at a place of a slice.
#[unsafe(no_mangle)]
pub extern "C" fn usm_table(bytes: &[u8], place: usize, reading: ReadingBytes) -> TableReply
    ensures { result ≡ table_reply (table_at bytes.now place (mode_by reading.tables)) }
{
    usm::usm_table(bytes, place, reading)
}

// The cell of the last column of a name, in a row of the table at a place of a slice.
#[unsafe(no_mangle)]
pub extern "C" fn usm_cell(
    bytes: &[u8],
    place: usize,
    name: &[u8],
    row: usize,
    reading: ReadingBytes,
) -> CellReply
    ensures { result ≡ cell_reply (cell_of bytes.now place (mode_by reading.tables) name.now row) }
{
    usm::usm_cell(bytes, place, name, row, reading)
}

// Both streams of a film, and what it holds.
#[unsafe(no_mangle)]
pub extern "C" fn usm_extract(
    container: &[u8],
    reading: ReadingBytes,
    key: KeyBytes,
    fallback: &[u8],
    video: &mut [u8],
    audio: &mut [u8],
) -> FilmReply
    ensures { FilmReplied container.now (reading_by reading) (key_by key.given key.number) fallback.now video.old audio.old result video.new audio.new }
{
    usm::usm_extract(container, reading, key, fallback, video, audio)
}

// Fills a lent list with a record for each chunk of a film, and returns their count. A refusal leaves the list as it was.
#[unsafe(no_mangle)]
pub extern "C" fn usm_list(
    container: &[u8],
    reading: ReadingBytes,
    list: &mut [ChunkRecord],
) -> ListReply
    ensures { Listing container.now (reading_by reading) list.old result list.new }
{
    usm::usm_list(container, reading, list)
}
