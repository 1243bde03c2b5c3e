// A payload made clear piece by piece, in place, for callers that do not hold all of it.
// Rules M and F5. Not in the Rust.
#![tactic(auto)]

ghost use Rattle.std.specs.Prelude.{◌≡◌, length};
ghost use Rattle.payload_pieces.specs.Pieces.{is_edge, begins, ends, is_piece, cleared_after, piece_left};

use unmasking::Mask;

// Whether a place is one between two rows at which a payload can be cut.
fn is_edge(place: usize) -> bool
    ensures { result ≡ is_edge place }
{
    if place < mask::SHORTEST_VIDEO {
        return false;
    }
    place % mask::ROW == 0
}

// Whether a piece can begin at a place, after so many clear bytes that are lent.
fn begins(place: usize, lent: usize) -> bool
    ensures { result ≡ begins place lent }
{
    if place == 0 {
        return true;
    }
    if lent == mask::ROW {
        return is_edge(place);
    }
    false
}

// Whether a piece of a payload of `total` bytes can end at a place.
fn ends(total: usize, place: usize) -> bool
    ensures { result ≡ ends total place }
{
    if place == total {
        return true;
    }
    is_edge(place)
}

// Whether so many bytes at a place of a payload of `total` bytes can be made clear by themselves, after so many clear bytes.
pub fn is_piece(total: usize, place: usize, lent: usize, bytes: usize) -> bool
    ensures { result ≡ is_piece total place lent bytes }
{
    if total < place {
        return false;
    }
    if total - place < bytes {
        return false;
    }
    if begins(place, lent) {
        return ends(total, place + bytes);
    }
    false
}

// A row of bytes by value. By number, so that the compiler copies 32 bytes at once: `copy_from_slice` makes a piece of 32 bytes take
// 289 instructions in place of 266 (measured).
fn row_of(bytes: &[u8]) -> [u8; 32]
    requires { length bytes.now ≡ 32 }
    ensures { result ≡ bytes.now }
{
    let mut row = [0; 32];
    for lane in 0..32 {
        row[lane] = bytes[lane];
    }
    row
}

// Makes a piece clear that follows a clear row.
fn clear_after(piece: &mut [u8], row: [u8; 32], number: u64, mask: Mask)
    ensures { piece.new ≡ cleared_after number mask row piece.old }
{
    match mask {
        Mask::Clear => {}
        Mask::VideoMask => mask::unmask_video_on(piece, row, key::key_table(number)),
        Mask::AudioMask => mask::mask_audio_on(piece, key::key_table(number)),
    }
}

// Makes the piece at a place of a payload of `total` bytes clear, after the clear row that stands before it, and says so; or leaves it.
pub fn clear_piece(
    number: u64,
    mask: Mask,
    total: usize,
    place: usize,
    row: &[u8],
    piece: &mut [u8],
) -> bool
    ensures { (result ≡ is_piece total place (length row.now) (length piece.old)) × (piece.new ≡ piece_left number mask total place row.now piece.old) }
{
    if is_piece(total, place, row.len(), piece.len()) {
        if place == 0 {
            unmasking::clear_by(piece, number, mask);
            return true;
        }
        clear_after(piece, row_of(row), number, mask);
        return true;
    }
    false
}
