// A film read piece by piece, for C: its header from a beginning, each chunk from a window, each payload made clear by
// itself, or piece by piece. Nothing is kept between two calls.
ghost use Rattle.std.specs.Prelude.{◌≡◌, cond, length};
ghost use Rattle.reading.specs.Choices.{reading_by};
ghost use Rattle.unmasking.specs.Unmasking.{cleared_by, mask_by};
ghost use Rattle.payload_pieces.specs.Pieces.{is_piece, piece_left};
ghost use Rattle.pieces.specs.Pieces.{header_in};
ghost use Rattle.piece_replies.specs.PieceReplies.{open_reply};
ghost use Rattle.header_tables.specs.HeaderTables.{tables_reply};
ghost use Rattle.usm.specs.Steps.{stepped_by};

use header_tables::TablesReply;
use piece_replies::{OpenReply, StepReply};
use reading::ReadingBytes;

// What a film's header says of its audio. Where `present` is 0 there is none, and where `has_codec` is 0 no codec of it.
#[repr(C)]
#[derive(Clone, Copy)]
pub struct AudioBytes {
    pub codec: u32,
    pub present: u8,
    pub has_codec: u8,
}

// What a film of `total` bytes is, by its first bytes.
#[unsafe(no_mangle)]
pub extern "C" fn usm_open(beginning: &[u8], total: usize, reading: ReadingBytes) -> OpenReply
    ensures { result ≡ open_reply (header_in beginning.now total (reading_by reading)) }
{
    let asked = reading::reading_by(reading);
    piece_replies::open_reply(pieces::header_in(beginning, total, asked))
}

// Where the tables of a film's header stand, by its first bytes.
#[unsafe(no_mangle)]
pub extern "C" fn usm_header_tables(
    beginning: &[u8],
    total: usize,
    reading: ReadingBytes,
) -> TablesReply
    ensures { result ≡ tables_reply beginning.now (header_in beginning.now total (reading_by reading)) }
{
    header_tables::header_tables(beginning, total, reading::reading_by(reading))
}

// What stands at a place of a film of `total` bytes, by a window: the bytes that stand there, 45 of them or all that are left.
#[unsafe(no_mangle)]
pub extern "C" fn usm_step(
    window: &[u8],
    place: usize,
    total: usize,
    reading: ReadingBytes,
    audio: AudioBytes,
) -> StepReply
    ensures { result ≡ stepped_by window.now place total (reading_by reading) audio }
{
    let asked = reading::reading_by(reading);
    let applied = reading::applied_to(audio.present != 0, asked);
    let codec = codec::codec_by(audio.has_codec, audio.codec);
    piece_replies::step_reply(pieces::step_in(window, place, total, applied), codec)
}

// Makes a payload clear under a key, in place. `mask` is the number that its step gave.
#[unsafe(no_mangle)]
pub extern "C" fn usm_clear(key: u64, mask: u8, payload: &mut [u8])
    ensures { payload.new ≡ cleared_by key (mask_by mask) payload.old }
{
    unmasking::clear_by(payload, key, unmasking::mask_by(mask));
}

// Makes the bytes at a place of a payload of `total` bytes clear under a key, in place, after the clear row that stands before them, and gives 1.
// Bytes that can't be made clear by themselves stay, and give 0.
#[unsafe(no_mangle)]
pub extern "C" fn usm_clear_piece(
    key: u64,
    mask: u8,
    total: usize,
    place: usize,
    row: &[u8],
    piece: &mut [u8],
) -> u8
    ensures { (result ≡ cond (is_piece total place (length row.now) (length piece.old)) 1 0) × (piece.new ≡ piece_left key (mask_by mask) total place row.now piece.old) }
{
    let mask = unmasking::mask_by(mask);
    u8::from(payload_pieces::clear_piece(key, mask, total, place, row, piece))
}
