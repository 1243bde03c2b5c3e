// Replays request 12 on films that stand in hex on standard input, one to a line: writes the answer on every beginning of
// each. README.md beside this crate has the format.
#![tactic(auto)]

use print_line::Line;
use refusal::{Cause, Refusal};
use salvage::Kept;

// The line of a refusal.
fn refused(refusal: Refusal) -> Line {
    let cause = refusal.cause;
    let line = plain_film_print::refusal_line(refusal::number_of(cause), refusal.place);
    match cause {
        Cause::UnknownType(kind) => line.word(b" type ").decimal(kind as u64),
        _ => line,
    }
}

// The line of an answer. What is kept is told as the length of the part that is handed out.
fn line_of(answer: Result<Kept, Refusal>, part: &[u8]) -> Line {
    match answer {
        Ok(found) => {
            let kept = print_line::empty()
                .word(b"kept ")
                .decimal(part.len() as u64);
            let both = kept.word(b" dropped ").decimal(found.dropped as u64);
            both.word(b" cause ").decimal(found.cause as u64)
        }
        Err(refusal) => refused(refusal),
    }
}

// Writes the answer on a film.
fn write_answer(film: &[u8]) {
    line_of(salvage::salvage(film), salvage::beginning_of(film)).end();
}

// Writes the answer on every beginning of a film.
fn write_answers(film: &[u8]) {
    for len in 0..=film.len() {
        write_answer(&film[..len]);
    }
}

// Writes the answers on the film of a line, and answers whether it is one.
fn replay_film(digits: &[u8], space: &mut [u8]) -> bool {
    let Some(film) = gate_fields::bytes_of(digits, space) else {
        return false;
    };
    write_answers(film);
    true
}

// Writes the answers on each film of the list.
fn main() {
    let mut list = io::large_buffer();
    let mut space = io::buffer();
    gate_fields::replay(&mut list, b"stdin is not a list of films\n", |line| {
        replay_film(line, &mut space)
    });
}
