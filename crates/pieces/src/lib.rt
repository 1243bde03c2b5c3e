// A film read piece by piece: its header from a beginning, each chunk from a window. Ours, beyond the rules: a caller holds
// no more of a film than that, and one payload.
#![tactic(auto)]

ghost use Rattle.std.specs.Prelude.{◌≡◌};
ghost use Rattle.laws_prefix.specs.Needs.{laid_at};
ghost use Rattle.pieces.specs.Pieces.{is_open, settled_as, header_in, film_step};

use chunk::Chunk;
use header::Header;
use reading::{Applied, Reading, TableMode};
use refusal::{Cause, LONGEST, Refusal};
use signature::INSIDE;

// Whether the block at a place has a table, all bytes of which are there.
fn is_laid(beginning: &[u8], place: usize, mode: TableMode) -> bool
    ensures { result ≡ laid_at beginning.now mode place }
{
    word::left_from(beginning, place) >= INSIDE
        && layout::read_layout(&beginning[place + INSIDE..], mode).is_ok()
}

// Whether more bytes can change a refusal of a beginning: its bytes run out, and not inside a table that is there.
fn is_open(beginning: &[u8], mode: TableMode, refusal: Refusal) -> bool
    ensures { result ≡ is_open beginning.now mode refusal }
{
    refusal.cause == Cause::RanOut && !is_laid(beginning, refusal.place, mode)
}

// The answer that a beginning gives on the header of a film of `total` bytes, if it stands.
fn settled(
    beginning: &[u8],
    total: usize,
    mode: TableMode,
    answer: Result<Header, Refusal>,
) -> Option<Result<Header, Refusal>>
    ensures { result ≡ settled_as beginning.now total mode answer }
{
    match answer {
        Err(refusal) if beginning.len() < total && is_open(beginning, mode, refusal) => None,
        _ => Some(answer),
    }
}

// The header of a film of `total` bytes by its first bytes, or why it is refused, or that more of them are needed to say.
pub fn header_in(
    beginning: &[u8],
    total: usize,
    reading: Reading,
) -> Option<Result<Header, Refusal>>
    ensures { result ≡ header_in beginning.now total reading }
{
    if LONGEST < total {
        return Some(refusal::refused(Cause::TooLong, 0));
    }
    let answer = header::read_header(beginning, reading);
    settled(beginning, total, reading.tables, answer)
}

// What stands at a place of a film of `total` bytes, by a window: the bytes that stand there, or the first of them. 45 are
// enough.
pub fn step_in(
    window: &[u8],
    place: usize,
    total: usize,
    reading: Applied,
) -> Option<Result<Option<Chunk>, Refusal>>
    ensures { result ≡ film_step window.now total reading place }
{
    if LONGEST < total {
        return Some(refusal::refused(Cause::TooLong, 0));
    }
    chunk::step_in(window, place, total as u32, reading)
}
