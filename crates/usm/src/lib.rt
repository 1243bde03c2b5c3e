// What another program links: tables and cells, whole films and their chunks. Each function returns its reply by value.
// Declared for C in include/usm.h and exported by the crate `usm_c`.
#![tactic(auto)]

pub mod jumps;
pub mod keys;
pub mod moving;
pub mod partings;
pub mod profiles;
pub mod putting;
pub mod salvaging;
pub mod stating;
pub mod stepping;
pub mod tables;
pub mod writing;

ghost use Rattle.std.specs.Prelude.{◌≡◌};
ghost use Rattle.table.specs.Tables.{table_at};
ghost use Rattle.lookup.specs.Lookups.{cell_of};
ghost use Rattle.reading.specs.Choices.{reading_by, mode_by};
ghost use Rattle.unmasking.specs.Unmasking.{key_by};
ghost use Rattle.list.specs.Listing.{Listing};
ghost use Rattle.replies.specs.TableReplies.{table_reply, cell_reply};
ghost use Rattle.usm.specs.Exports.{FilmReplied};

use list::{ChunkRecord, ListReply};
use reading::ReadingBytes;
use replies::{CellReply, FilmReply, TableReply};

// A key as C gives it. Where `given` is 0 there is none; with every other number it is `number`.
#[repr(C)]
#[derive(Clone, Copy)]
pub struct KeyBytes {
    pub number: u64,
    pub given: u8,
}

// The table at a place of a slice.
#[unsafe(no_mangle)]
pub extern "C" fn usm_table(bytes: &[u8], place: usize, reading: ReadingBytes) -> TableReply
    ensures { result ≡ table_reply (table_at bytes.now place (mode_by reading.tables)) }
{
    let mode = reading::mode_by(reading.tables);
    replies::table_reply(table::read_table(bytes, place, mode))
}

// The cell of the last column of a name, in a row of the table at a place of a slice.
#[unsafe(no_mangle)]
pub extern "C" fn usm_cell(
    bytes: &[u8],
    place: usize,
    name: &[u8],
    row: usize,
    reading: ReadingBytes,
) -> CellReply
    ensures { result ≡ cell_reply (cell_of bytes.now place (mode_by reading.tables) name.now row) }
{
    let mode = reading::mode_by(reading.tables);
    replies::cell_reply(lookup::cell_of(bytes, place, mode, name, row))
}

// Both streams of a film, and what it holds.
#[unsafe(no_mangle)]
pub extern "C" fn usm_extract(
    container: &[u8],
    reading: ReadingBytes,
    key: KeyBytes,
    fallback: &[u8],
    video: &mut [u8],
    audio: &mut [u8],
) -> FilmReply
    ensures { FilmReplied container.now (reading_by reading) (key_by key.given key.number) fallback.now video.old audio.old result video.new audio.new }
{
    let asked = reading::reading_by(reading);
    let given = unmasking::key_by(key.given, key.number);
    let answer = extract::extract(container, asked, given, video, audio);
    replies::film_reply(answer, fallback.len())
}

// Fills a lent list with a record for each chunk of a film, and returns their count. A refusal leaves the list as it was.
#[unsafe(no_mangle)]
pub extern "C" fn usm_list(
    container: &[u8],
    reading: ReadingBytes,
    list: &mut [ChunkRecord],
) -> ListReply
    ensures { Listing container.now (reading_by reading) list.old result list.new }
{
    let plan = list::list_plan(container, reading, list.len());
    let mut place = plan.start;
    for filled in 0..plan.records {
        let step = list::record_at(container, place, plan.reading);
        list[filled] = step.made;
        place = step.next;
    }
    plan.reply
}
