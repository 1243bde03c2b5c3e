// The verdict of the delivery profile on a container, as a line of text. Request 14.
//
// No contract can say what is written, so the functions here have none. What is written is decided by
// `profile::profile`, which has one.
#![tactic(auto)]

use print_line::Line;
use profile::Verdict;

// A line with the rule of a number in words. Rule 3 is that of a stream.
fn in_words(line: Line, rule: u8, stream: u8) -> Line {
    line.word(match (rule, stream) {
        (1, _) => b"chunk header size 0x18",
        (2, _) => b"block size plus 8 a multiple of 0x20",
        (4, _) => b"no signatures but @SFV and @SFA",
        (_, 0) => b"video closed by exactly one end chunk",
        (_, _) => b"audio closed by exactly one end chunk",
    })
}

// The line of a verdict.
fn verdict_line(verdict: Verdict) -> Line {
    let line = print_line::empty();
    if verdict.rule == 0 {
        return line.word(b"plain");
    }
    let line = line.word(b"not plain: rule ");
    let line = line.decimal(verdict.rule as u64);
    let line = line.word(b" at ");
    let line = line.decimal(verdict.place as u64);
    let line = line.word(b", ");
    in_words(line, verdict.rule, verdict.stream)
}

// The line of a refusal, by its number and its place.
pub fn refusal_line(number: u8, place: usize) -> Line {
    let line = print_line::empty();
    let line = line.word(b"refused ");
    let line = line.decimal(number as u64);
    let line = line.word(b" at ");
    line.decimal(place as u64)
}

// Writes the verdict on a container, or its refusal.
pub fn print(container: &[u8]) {
    let line = match profile::profile(container) {
        Ok(verdict) => verdict_line(verdict),
        Err(refusal) => {
            let cause = refusal.cause;
            refusal_line(refusal::number_of(cause), refusal.place)
        }
    };
    line.end();
}
