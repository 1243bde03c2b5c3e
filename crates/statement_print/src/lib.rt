// A statement as a person reads it: a line for each tenant, and for each group why its tenants have one copy and where it parts
// from the group before it. Request 13.
//
// What is decided is decided by functions of `statement`, `tenants`, `statement_reasons` and `typed`, which have contracts. What is here
// only prints. No contract can say what is written, so the functions that print have none.
#![tactic(auto)]

use descriptors::STDOUT_FILENO;
use film_apart::{Parting, Stream};
use list::ListReply;
use reading::AudioChoice;
use refusal::Refusal;
use statement_reasons::Why;

// A film of more bytes is refused here.
pub const LONGEST: usize = 16384;

// So many tenants at most have a statement.
const MOST: usize = 16;

// What a film's groups are known by: the bits of a key that it shows, and both sizes.
#[derive(Clone, Copy)]
struct Shown {
    bits: u64,
    video: usize,
    audio: usize,
}

// Prints a text.
fn print(text: &[u8]) {
    io::write_all(STDOUT_FILENO, text);
}

// Prints a number in decimal digits.
fn print_number(number: u64) {
    io::print_decimal(STDOUT_FILENO, number);
}

// Prints a refusal.
fn print_refusal(number: u64, place: u64) {
    print(b"refused ");
    print_number(number);
    print(b" at ");
    print_number(place);
    print(b"\n");
}

// Prints how long a copy is.
fn print_copy(shown: Shown) {
    print(b"a copy has ");
    print_number(shown.video as u64);
    print(b" bytes of picture and ");
    print_number(shown.audio as u64);
    print(b" of sound\n");
}

// Prints the line of a tenant.
fn print_line([tenant, group, share]: [u64; 3]) {
    print(b"tenant ");
    print_number(tenant);
    print(b": group ");
    print_number(group);
    print(b", share ");
    print_number(share);
    print(b"\n");
}

// Prints why the tenants of a group have one copy.
fn print_why(why: Why) {
    match why {
        Why::Alone => print(b"one copy: no other tenant has it\n"),
        Why::KeysAgree => print(b"one copy: the keys agree where it counts\n"),
        Why::NothingShown => { print(b"one copy: nothing in this film depends on a key\n") }
        Why::NotShown => {
            print(
                b"one copy: nothing in this film depends on the digits in which the keys differ\n",
            )
        }
    }
}

// The mark of a place where two keys have different digits that count, and of any other.
fn mark(key: u64, other: u64, place: usize) -> u8 {
    if typed::digit_counts(place) && typed::digits_differ(key, other, place) {
        return b'^';
    }
    b'.'
}

// Prints a mark for each of the 16 places of two keys.
fn print_marks(key: u64, other: u64) {
    for place in 0..typed::PLACES {
        print(&[mark(key, other, place)]);
    }
}

// Prints a byte of a stream.
fn print_byte(stream: Stream, byte: usize) {
    print(b"  first byte that differs: ");
    print_number(byte as u64);
    match stream {
        Stream::VideoStream => print(b" of the picture\n"),
        Stream::AudioStream => print(b" of the sound\n"),
    }
}

// Prints the first byte of the streams that differs. Two groups have one, and their film is read.
fn print_parting(parting: Result<Option<Parting>, Refusal>) {
    match parting {
        Ok(None) => {}
        Ok(Some(parting)) => {
            let stream = parting.stream;
            print_byte(stream, parting.byte)
        }
        Err(_) => {}
    }
}

// Prints where a group parts from the one before it, by their keys.
fn print_apart(container: &[u8], key: u64, other: u64) {
    print(
        b"  apart from the group before it: the counting digits marked ^ differ\n    key before  ",
    );
    io::print_hex(STDOUT_FILENO, key, 16);
    print(b"\n    key         ");
    io::print_hex(STDOUT_FILENO, other, 16);
    print(b"\n                ");
    print_marks(key, other);
    print(b"\n");
    let reading = reading::as_original(AudioChoice::Chosen);
    print_parting(film_apart::film_apart(container, reading, key, other));
}

// Prints a group's reasons, after those of the group whose lowest tenant is `before`, if there is one.
fn print_group(
    container: &[u8],
    tenants: &[[u64; 2]],
    shown: Shown,
    group: u64,
    before: Option<u64>,
) {
    let key = tenants::key_of(tenants, group);
    print(b"group ");
    print_number(group);
    print(b": ");
    print_why(statement_reasons::why_one(tenants, shown.bits, key));
    if let Some(before) = before {
        print_apart(container, tenants::key_of(tenants, before), key);
    }
}

// Prints the reasons of each group of a list of lines, and answers how many copies the lines are of: as many as tenants who
// are the lowest of their group.
fn print_groups(container: &[u8], tenants: &[[u64; 2]], shown: Shown, lines: &[[u64; 3]]) -> usize {
    let mut before = None;
    let mut groups = 0;
    for [tenant, group, _] in lines {
        if *tenant == *group {
            print_group(container, tenants, shown, *group, before);
            before = Some(*group);
            groups += 1;
        }
    }
    groups
}

// Prints a statement of which it is known that the film is read.
fn print_statement(
    container: &[u8],
    tenants: &[[u64; 2]],
    shown: Shown,
    lines: &[[u64; 3]],
    reply: ListReply,
) {
    if reply.number != 0 {
        print_refusal(reply.number as u64, reply.refused_at as u64);
        return;
    }
    print_copy(shown);
    let lines = lines.get(..reply.count).unwrap_or(lines);
    for line in lines {
        print_line(*line);
    }
    let copies = print_groups(container, tenants, shown, lines);
    print(b"copies: ");
    print_number(copies as u64);
    print(b"\n");
}

// Prints the statement of a film for its tenants, or the refusal.
pub fn tell(container: &[u8], tenants: &[[u64; 2]]) {
    if LONGEST < container.len() {
        print_refusal(11, 0);
        return;
    }
    let mut lines = [[0; 3]; MOST];
    let reply = statement::state(container, tenants, &mut lines);
    match film::survey(container, reading::as_original(AudioChoice::Chosen)) {
        Ok(survey) => {
            let codec = survey.header.audio_codec;
            let adx = unmasking::is_adx(codec);
            let reading = survey.reading;
            let bits = key_shown::bits_from(container, survey.header.start, reading, adx);
            let video = survey.video;
            let audio = survey.audio;
            let shown = Shown { bits, video, audio };
            print_statement(container, tenants, shown, &lines, reply);
        }
        Err(_) => print_refusal(reply.number as u64, reply.refused_at as u64),
    }
}
