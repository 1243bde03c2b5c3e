// A film read piece by piece, for C: its header from a beginning, each chunk from a window, each payload made clear by
// itself, or piece by piece. Nothing is kept between two calls.
ghost use Rattle.std.specs.Prelude.{◌≡◌, cond, length};
ghost use Rattle.reading.specs.Choices.{reading_by};
ghost use Rattle.unmasking.specs.Unmasking.{cleared_by, mask_by};
ghost use Rattle.payload_pieces.specs.Pieces.{is_piece, piece_left};
ghost use Rattle.pieces.specs.Pieces.{header_in};
ghost use Rattle.piece_replies.specs.PieceReplies.{open_reply};
ghost use Rattle.header_tables.specs.HeaderTables.{tables_reply};
ghost use Rattle.usm.specs.Steps.{stepped_by};

use header_tables::TablesReply;
use piece_replies::{OpenReply, StepReply};
use reading::ReadingBytes;
use usm::stepping::AudioBytes;

// What a film of `total` bytes is, by its first bytes.
#[unsafe(no_mangle)]
pub extern "C" fn usm_open(beginning: &[u8], total: usize, reading: ReadingBytes) -> OpenReply
    ensures { result ≡ open_reply (header_in beginning.now total (reading_by reading)) }
{
    usm::stepping::usm_open(beginning, total, reading)
}

// Where the tables of a film's header stand, by its first bytes.
#[unsafe(no_mangle)]
pub extern "C" fn usm_header_tables(
    beginning: &[u8],
    total: usize,
    reading: ReadingBytes,
) -> TablesReply
    ensures { result ≡ tables_reply beginning.now (header_in beginning.now total (reading_by reading)) }
{
    usm::stepping::usm_header_tables(beginning, total, reading)
}

// What stands at a place of a film of `total` bytes, by a window: the bytes that stand there, 45 of them or all that are left.
#[unsafe(no_mangle)]
pub extern "C" fn usm_step(
    window: &[u8],
    place: usize,
    total: usize,
    reading: ReadingBytes,
    audio: AudioBytes,
) -> StepReply
    ensures { result ≡ stepped_by window.now place total (reading_by reading) audio }
{
    usm::stepping::usm_step(window, place, total, reading, audio)
}

// Makes a payload clear under a key, in place. `mask` is the number that its step gave.
#[unsafe(no_mangle)]
pub extern "C" fn usm_clear(key: u64, mask: u8, payload: &mut [u8])
    ensures { payload.new ≡ cleared_by key (mask_by mask) payload.old }
{
    usm::stepping::usm_clear(key, mask, payload);
}

// Makes the bytes at a place of a payload of `total` bytes clear under a key, in place, after the clear row that stands before them, and gives 1.
// Bytes that can't be made clear by themselves stay, and give 0.
#[unsafe(no_mangle)]
pub extern "C" fn usm_clear_piece(
    key: u64,
    mask: u8,
    total: usize,
    place: usize,
    row: &[u8],
    piece: &mut [u8],
) -> u8
    ensures { (result ≡ cond (is_piece total place (length row.now) (length piece.old)) 1 0) × (piece.new ≡ piece_left key (mask_by mask) total place row.now piece.old) }
{
    usm::stepping::usm_clear_piece(key, mask, total, place, row, piece)
}
