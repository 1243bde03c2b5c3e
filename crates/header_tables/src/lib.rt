// Where the tables of a film's header stand. Rules H. Ours, beyond the rules: the Rust reads them and keeps no places.
#![tactic(auto)]

ghost use Rattle.std.specs.Prelude.{◌≡◌, ◌+◌, ◌<◌, ◌^◌, true};
ghost use Rattle.pieces.specs.Pieces.{header_in};
ghost use Rattle.header_tables.specs.HeaderTables.{next_after, video_block, audio_block, last_table, tables_in, reply_on, tables_reply};

use header::Header;
use reading::Reading;
use refusal::Refusal;
use signature::{INSIDE, LETTERS};

// Where the tables of a header stand: that with the film's name, those of video and audio, and their metadata. Of audio
// that is not there the place is 0.
#[repr(C)]
#[derive(Clone, Copy, Default)]
pub struct HeaderTables {
    pub name: usize,
    pub video: usize,
    pub audio: usize,
    pub video_metadata: usize,
    pub audio_metadata: usize,
}

// What a film's beginning says of its header's tables: where they stand, or the film's refusal, or that more bytes are
// needed to say. What has no meaning in it is 0.
#[repr(C)]
#[derive(Clone, Copy, Default)]
pub struct TablesReply {
    pub refused_at: usize,
    pub tables: HeaderTables,
    pub number: u8,
    pub unknown_type: u8,
    pub more: u8,
}

// The bytes of a block's letters and its size.
const HEAD: usize = 8;

// Where the block after the one at a place starts.
fn next_after(bytes: &[u8], place: usize) -> usize
    requires { place < 2 ^ 36 }
    ensures { (result ≡ next_after bytes.now place) × (result < place + 2 ^ 33) }
{
    place + HEAD + word::read32(bytes, place + LETTERS)
}

// Where the table of the audio's metadata stands, if the last block but two has its letters.
fn last_table(bytes: &[u8], place: usize) -> usize
    requires { place < 2 ^ 40 }
    ensures { result ≡ last_table bytes.now place }
{
    if word::read32(bytes, place) == signature::SFA {
        place + INSIDE
    } else {
        0
    }
}

// The tables of a header with audio, whose video and audio tables' blocks start at these places.
fn with_audio(bytes: &[u8], video: usize, audio: usize) -> HeaderTables
    requires { (video ≡ video_block bytes.now) × (audio ≡ audio_block bytes.now) × (video < 2 ^ 33) × (audio < 2 ^ 34) }
    ensures { result ≡ tables_in bytes.now true }
{
    let video_end = next_after(bytes, audio);
    let audio_end = next_after(bytes, video_end);
    let metadata = next_after(bytes, audio_end);
    let last = next_after(bytes, metadata);
    HeaderTables {
        name: INSIDE,
        video: video + INSIDE,
        audio: audio + INSIDE,
        video_metadata: metadata + INSIDE,
        audio_metadata: last_table(bytes, last),
    }
}

// Where the tables of a header stand which some bytes begin with, with audio or without.
fn tables_in(bytes: &[u8], audio: bool) -> HeaderTables
    ensures { result ≡ tables_in bytes.now audio }
{
    let video = next_after(bytes, 0);
    let end = next_after(bytes, video);
    if audio {
        return with_audio(bytes, video, end);
    }
    HeaderTables {
        name: INSIDE,
        video: video + INSIDE,
        audio: 0,
        video_metadata: next_after(bytes, end) + INSIDE,
        audio_metadata: 0,
    }
}

// What a beginning says of its tables, where it says that of the header.
fn reply_on(bytes: &[u8], header: Result<Header, Refusal>) -> TablesReply
    ensures { result ≡ reply_on bytes.now header }
{
    match header {
        Ok(read) => TablesReply {
            tables: tables_in(bytes, read.audio),
            ..TablesReply::default()
        },
        Err(refusal) => TablesReply {
            refused_at: refusal.place,
            number: refusal::number_of(refusal.cause),
            unknown_type: refusal::beside_of(refusal.cause).unknown_type,
            ..TablesReply::default()
        },
    }
}

// Where the tables stand in the header of a film of `total` bytes, by its first bytes.
pub fn header_tables(beginning: &[u8], total: usize, reading: Reading) -> TablesReply
    ensures { result ≡ tables_reply beginning.now (header_in beginning.now total reading) }
{
    match pieces::header_in(beginning, total, reading) {
        None => TablesReply {
            more: 1,
            ..TablesReply::default()
        },
        Some(header) => reply_on(beginning, header),
    }
}
