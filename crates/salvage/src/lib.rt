// Uploads that stopped early: the longest beginning of a container that is accepted. Request 12.
// One walk tells which cut holds what the chunks before it need; then the header is read once more, in what that cut leaves.
#![tactic(auto)]

ghost use Rattle.std.specs.Prelude.{◌≡◌, ◌+◌, ◌<◌, ◌^◌, Ok};
ghost use Rattle.walk.specs.Walks.{walk_from};
ghost use Rattle.header.specs.Headers.{header_of};
ghost use Rattle.part.specs.Parts.{part_at};
ghost use Rattle.laws_prefix.specs.Needs.{need_of};
ghost use Rattle.salvage.specs.Salvage.{how, cut_as, salvage_from, salvage_of, BeginningOf, salvage_reply};
ghost use Rattle.salvage.specs.Fits.{fitted, fit_in, if_read};

use chunk::{Chunk, OPENING};
use header::Header;
use reading::{Applied, AudioChoice, Reading};
use refusal::{Cause, Refusal};

// How much of a container is kept, how much is dropped, and the number of the refusal that caused the cut.
#[derive(Clone, Copy)]
pub struct Kept {
    pub kept: usize,
    pub dropped: usize,
    pub cause: u8,
}

// The answer as C reads it. What has no meaning in it is 0.
#[repr(C)]
#[derive(Clone, Copy, Default)]
pub struct SalvageReply {
    pub refused_at: usize,
    pub kept: usize,
    pub dropped: usize,
    pub number: u8,
    pub unknown_type: u8,
    pub cause: u8,
}

// Up to where a container can be cut, as its chunks go, and why.
#[derive(Clone, Copy)]
struct Cut {
    place: usize,
    refusal: Refusal,
}

// Up to where a chunk has to be there.
fn need_of(chunk: Chunk) -> usize
    requires { (chunk.start + 45 < 2 ^ 64) × (chunk.payload + chunk.len < 2 ^ 64) }
    ensures { result ≡ need_of chunk }
{
    (chunk.start + OPENING).max(chunk.payload + chunk.len)
}

// A place, if it holds what is needed, or the best one before.
fn fitted(need: usize, best: usize, place: usize) -> usize
    ensures { result ≡ fitted need best place }
{
    if need <= place { place } else { best }
}

// The last chunk start that holds what the chunks before it need, where the walk is refused. A `loop`, since the end and a refusal
// have an answer each.
fn last_fit(container: &[u8], start: usize, reading: Applied) -> Option<Cut>
    ensures { result ≡ fit_in 0 start (walk_from container.now reading start) }
{
    let mut at = start;
    let mut need = 0;
    let mut best = start;
    loop {
        match chunk::chunk_at(container, at, reading) {
            Ok(None) => return None,
            Ok(Some(chunk)) => {
                best = fitted(need, best, chunk.start);
                need = need.max(need_of(chunk));
                at = chunk.next;
            }
            Err(refusal) => {
                let place = fitted(need, best, refusal.place);
                return Some(Cut { place, refusal });
            }
        }
    }
}

// How the container is read: audio is chosen, and all else is as the Rust does it.
fn how() -> Reading
    ensures { result ≡ how }
{
    reading::as_original(AudioChoice::Chosen)
}

// The beginning up to a cut, if the header can be read in it.
fn cut_at(container: &[u8], cut: Cut) -> Result<Kept, Refusal>
    ensures { result ≡ cut_as container.now cut.refusal (if_read cut.place (header_of (part_at container.now 0 cut.place) how)) }
{
    let beginning = part::part_at(container, 0, cut.place);
    match header::read_header(beginning, how()) {
        Ok(_) => Ok(Kept {
            kept: cut.place,
            dropped: word::left_from(container, cut.place),
            cause: refusal::number_of(cut.refusal.cause),
        }),
        Err(_) => refusal::refused(Cause::NoBeginning, 0),
    }
}

// What is kept of a container with this header.
fn salvage_from(container: &[u8], header: Header) -> Result<Kept, Refusal>
    requires { header_of container.now how ≡ Ok header }
    ensures { result ≡ salvage_from container.now header }
{
    let applied = reading::applied_to(header.audio, how());
    match last_fit(container, header.start, applied) {
        None => Ok(Kept {
            kept: container.len(),
            dropped: 0,
            cause: 0,
        }),
        Some(cut) => cut_at(container, cut),
    }
}

// The longest beginning that is accepted, of those that end at a chunk start: its length, what is dropped, and why.
pub fn salvage(container: &[u8]) -> Result<Kept, Refusal>
    ensures { result ≡ salvage_of container.now }
{
    let header = header::read_header(container, how())?;
    salvage_from(container, header)
}

// That beginning, as a part of the container: its empty part at byte 0 where it is refused.
pub fn beginning_of(container: &[u8]) -> &[u8]
    ensures { BeginningOf container.entry result }
{
    let kept = salvage(container).map_or(0, |found| found.kept);
    part::part_at(container, 0, kept)
}

// An answer as C reads it.
pub fn salvage_reply(answer: Result<Kept, Refusal>) -> SalvageReply
    ensures { result ≡ salvage_reply answer }
{
    match answer {
        Ok(found) => SalvageReply {
            kept: found.kept,
            dropped: found.dropped,
            cause: found.cause,
            ..SalvageReply::default()
        },
        Err(refusal) => SalvageReply {
            refused_at: refusal.place,
            number: refusal::number_of(refusal.cause),
            unknown_type: refusal::beside_of(refusal.cause).unknown_type,
            ..SalvageReply::default()
        },
    }
}
