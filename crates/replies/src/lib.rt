// Answers as C reads them: one struct for each, with a name for each thing in it. What has no meaning in an answer is 0.
// Ours, beyond the rules: it has the numbers and what is also returned, and names no struct. A listing's reply is in `list`.
#![tactic(auto)]

ghost use Rattle.std.specs.Prelude.{◌≡◌};
ghost use Rattle.replies.specs.TableReplies.{table_reply, cell_reply, storage_number, column_reply};
ghost use Rattle.replies.specs.FilmReplies.{bit_of, name_source, name_start, name_length, contents_reply, film_reply};

use cell::Cell;
use column::Storage;
use extract::Contents;
use film_name::Name;
use layout::Layout;
use reading::TableMode;
use refusal::Refusal;

// The reply on a table.
#[repr(C)]
#[derive(Clone, Copy, Default)]
pub struct TableReply {
    pub refused_at: usize,
    pub columns: usize,
    pub rows: usize,
    pub number: u8,
    pub unknown_type: u8,
}

// The reply on a cell. `value` is a number, a float's bits, or where a string or data starts.
#[repr(C)]
#[derive(Clone, Copy, Default)]
pub struct CellReply {
    pub refused_at: usize,
    pub value: u64,
    pub length: usize,
    pub number: u8,
    pub unknown_type: u8,
    pub kind: u8,
}

// The reply on a column. `storage` is what its type byte says in the table's mode; where there is no such column both are 0.
#[repr(C)]
#[derive(Clone, Copy, Default)]
pub struct ColumnReply {
    pub refused_at: usize,
    pub name_start: usize,
    pub name_length: usize,
    pub number: u8,
    pub unknown_type: u8,
    pub storage: u8,
    pub type_byte: u8,
}

// The reply on a film.
#[repr(C)]
#[derive(Clone, Copy, Default)]
pub struct FilmReply {
    pub refused_at: usize,
    pub name_start: usize,
    pub name_length: usize,
    pub video_size: usize,
    pub audio_size: usize,
    pub video_codec: u32,
    pub audio_codec: u32,
    pub number: u8,
    pub unknown_type: u8,
    pub name_source: u8,
    pub has_audio: u8,
    pub has_video_codec: u8,
    pub has_audio_codec: u8,
    pub video_kind: u8,
    pub audio_kind: u8,
}

// A table's counts, or why there is none.
pub fn table_reply(answer: Result<Layout, Refusal>) -> TableReply
    ensures { result ≡ table_reply answer }
{
    match answer {
        Ok(layout) => TableReply {
            columns: layout.columns,
            rows: layout.rows,
            ..TableReply::default()
        },
        Err(refusal) => TableReply {
            refused_at: refusal.place,
            number: refusal::number_of(refusal.cause),
            unknown_type: refusal::beside_of(refusal.cause).unknown_type,
            ..TableReply::default()
        },
    }
}

// A cell as numbers, or why there is no table.
pub fn cell_reply(answer: Result<Cell, Refusal>) -> CellReply
    ensures { result ≡ cell_reply answer }
{
    match answer {
        Ok(held) => CellReply {
            value: cell::value_of(held),
            length: cell::length_of(held),
            kind: cell::case_of(held),
            ..CellReply::default()
        },
        Err(refusal) => CellReply {
            refused_at: refusal.place,
            number: refusal::number_of(refusal.cause),
            unknown_type: refusal::beside_of(refusal.cause).unknown_type,
            ..CellReply::default()
        },
    }
}

// The number of a storage, as C reads it.
fn storage_number(storage: Storage) -> u8
    ensures { result ≡ storage_number storage }
{
    match storage {
        Storage::Constant => 1,
        Storage::Stored => 2,
        Storage::Zero => 3,
        Storage::Unknown => 4,
    }
}

// A column by its name and its type byte, in a table mode, or why there is no table.
pub fn column_reply(name: Result<Cell, Refusal>, tag: u8, mode: TableMode) -> ColumnReply
    ensures { result ≡ column_reply mode tag name }
{
    match name {
        Ok(Cell::Nothing) => ColumnReply::default(),
        Ok(held) => ColumnReply {
            name_start: cell::value_of(held) as usize,
            name_length: cell::length_of(held),
            storage: storage_number(column::storage_of(usize::from(tag), mode)),
            type_byte: tag,
            ..ColumnReply::default()
        },
        Err(refusal) => ColumnReply {
            refused_at: refusal.place,
            number: refusal::number_of(refusal.cause),
            unknown_type: refusal::beside_of(refusal.cause).unknown_type,
            ..ColumnReply::default()
        },
    }
}

// Where a name comes from: 0 the container, 1 the fallback.
fn name_source(name: Option<Name>) -> u8
    ensures { result ≡ name_source name }
{
    u8::from(name.is_none())
}

// Where a name starts there: the fallback is a name as a whole.
fn name_start(name: Option<Name>) -> usize
    ensures { result ≡ name_start name }
{
    name.map_or(0, |part| part.start)
}

// How long a name is, with a fallback of a length.
fn name_length(name: Option<Name>, fallback: usize) -> usize
    ensures { result ≡ name_length fallback name }
{
    name.map_or(fallback, |part| part.len)
}

// What a film holds that is accepted.
fn contents_reply(contents: Contents, fallback: usize) -> FilmReply
    ensures { result ≡ contents_reply fallback contents }
{
    let name = contents.name;
    let video = contents.mpeg_codec;
    let audio = contents.audio_codec;
    let video_kind = contents.video_kind;
    let audio_kind = contents.audio_kind;
    FilmReply {
        name_start: name_start(name),
        name_length: name_length(name, fallback),
        video_size: contents.video_size,
        audio_size: contents.audio_size,
        video_codec: codec::value_of(video),
        audio_codec: codec::value_of(audio),
        name_source: name_source(name),
        has_audio: u8::from(contents.audio),
        has_video_codec: codec::presence_of(video),
        has_audio_codec: codec::presence_of(audio),
        video_kind: codec::video_number(video_kind),
        audio_kind: codec::audio_number(audio_kind),
        ..FilmReply::default()
    }
}

// What a film holds, or why it is refused, with a fallback name of a length.
pub fn film_reply(answer: Result<Contents, Refusal>, fallback: usize) -> FilmReply
    ensures { result ≡ film_reply fallback answer }
{
    match answer {
        Ok(contents) => contents_reply(contents, fallback),
        Err(refusal) => {
            let beside = refusal::beside_of(refusal.cause);
            FilmReply {
                refused_at: refusal.place,
                video_size: beside.video_size,
                audio_size: beside.audio_size,
                number: refusal::number_of(refusal.cause),
                unknown_type: beside.unknown_type,
                ..FilmReply::default()
            }
        }
    }
}
