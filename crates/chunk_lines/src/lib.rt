// From the bytes of a container to lines of text: one for each chunk, or the one of the refusal.
// Rules C: what the program prints. No function of the Rust prints. `chunks_print` reads and writes.
#![tactic(auto)]

ghost use Rattle.std.specs.Prelude.{◌≡◌, ◌+◌, ◌≤◌, ◌<◌, ◌^◌, length};
ghost use Rattle.std.proofs.lemmas.List.Edits.{sets};
ghost use Rattle.laws.specs.Outputs.{Put};
ghost use Rattle.walk.specs.Walks.{walk_from};
ghost use Rattle.chunk_lines.specs.Lines.{number_then, kind_word, line_of, lines_of, refusal_line, text_of};

use chunk::{Chunk, Kind};
use reading::{Applied, AudioChoice};
use refusal::{Cause, Refusal};

// A longer container is refused.
pub const LONGEST: usize = 16384;

// Puts a word from a place on, and answers where it ends.
fn put_word(out: &mut [u8], place: usize, word: &[u8]) -> usize
    requires { place + length word.now < 2 ^ 64 }
    ensures { Put word.now out.old place out.new result }
{
    place + text::put_bytes(out, place, word)
}

// Puts a number in decimal digits and what stands after it, and answers where that ends.
fn put_number(out: &mut [u8], place: usize, number: u64, after: &[u8]) -> usize
    requires { place + length (number_then after.now number) < 2 ^ 64 }
    ensures { Put (number_then after.now number) out.old place out.new result }
{
    let end = place + text::put_decimal(out, place, number);
    put_word(out, end, after)
}

// Puts the word of a kind, and a space.
fn put_kind(out: &mut [u8], place: usize, kind: Kind) -> usize
    requires { place + length (kind_word kind) < 2 ^ 64 }
    ensures { Put (kind_word kind) out.old place out.new result }
{
    match kind {
        Kind::Video => put_word(out, place, b"video "),
        Kind::Audio => put_word(out, place, b"audio "),
        Kind::Other => put_word(out, place, b"other "),
        Kind::End => put_word(out, place, b"end "),
    }
}

// Puts the line of a chunk.
fn put_line(out: &mut [u8], place: usize, chunk: Chunk) -> usize
    requires { place + length (line_of chunk) < 2 ^ 64 }
    ensures { Put (line_of chunk) out.old place out.new result }
{
    let at = put_number(out, place, chunk.start as u64, b" ");
    let at = put_kind(out, at, chunk.kind);
    let at = put_number(out, at, chunk.data_type as u64, b" ");
    let at = put_number(out, at, chunk.len as u64, b" ");
    put_number(out, at, chunk.channel as u64, b"\n")
}

// Puts the lines of all chunks from a place of the container on, at the start of the output. Where the chunks are refused,
// they end; a film that was surveyed before has no such chunk.
fn put_chunks(out: &mut [u8], container: &[u8], place: usize, reading: Applied) -> usize
    requires { length container.now ≤ 16384 }
    ensures { Put (lines_of (walk_from container.now reading place).chunks) out.old 0 out.new result }
{
    let mut at = place;
    let mut end = 0;
    while let Ok(Some(chunk)) = chunk::chunk_at(container, at, reading) {
        end = put_line(out, end, chunk);
        at = chunk.next;
    }
    end
}

// Puts the line of a refusal at the start of the output.
fn put_refusal(out: &mut [u8], refusal: Refusal) -> usize
    ensures { Put (refusal_line refusal) out.old 0 out.new result }
{
    let at = put_word(out, 0, b"refused ");
    let at = put_number(out, at, refusal::number_of(refusal.cause) as u64, b" ");
    let at = put_word(out, at, b"at ");
    put_number(out, at, refusal.place as u64, b"\n")
}

// Puts what is printed of a container into an output, as far as it goes, and answers how long it is.
pub fn lines(container: &[u8], out: &mut [u8]) -> usize
    ensures { (result ≡ length (text_of container.now)) × (out.new ≡ sets out.old 0 (text_of container.now)) }
{
    if LONGEST < container.len() {
        let cause = Cause::TooLong;
        return put_refusal(out, Refusal { cause, place: 0 });
    }
    match film::survey(container, reading::as_original(AudioChoice::Chosen)) {
        Ok(survey) => put_chunks(out, container, survey.header.start, survey.reading),
        Err(refusal) => put_refusal(out, refusal),
    }
}
