// Replays statements that were made by unpacking for every tenant: reads films and tenants from standard input and writes what
// `statement::state` answers, for the tenants as listed and in reverse. README.md beside this crate has the format.
#![tactic(auto)]

use descriptors::{STDIN_FILENO, STDOUT_FILENO};

// The bytes of a record on standard input, with its LF.
const RECORD: usize = 44;

// The longest input, and one byte.
const LIST: usize = 262144;

// The longest film.
const FILM: usize = 4096;

// One tenant more than a statement may have.
const TENANTS: usize = 17;

// How long the film is, and how many tenants there are.
#[derive(Clone, Copy)]
struct Counts {
    film: usize,
    tenants: usize,
}

// Prints a number and a space.
fn print(number: u64) {
    io::print_decimal(STDOUT_FILENO, number);
    io::write_all(STDOUT_FILENO, b" ");
}

// Prints the reply to a statement and, if it is not refused, its lines.
fn state(film: &[u8], tenants: &[[u64; 2]]) {
    let mut lines = [[0; 3]; TENANTS];
    let reply = statement::state(film, tenants, &mut lines);
    print(reply.number as u64);
    print(reply.refused_at as u64);
    print(reply.count as u64);
    if reply.number == 0 {
        for number in lines.iter().take(reply.count).flatten() {
            print(*number);
        }
    }
    io::write_all(STDOUT_FILENO, b"\n");
}

// Prints what is stated for the first of some tenants, as listed and in reverse.
fn state_both(film: &[u8], tenants: &[[u64; 2]], count: usize) {
    let mut list = [[0; 2]; TENANTS];
    let (Some(tenants), Some(reversed)) = (tenants.get(..count), list.get_mut(..count)) else {
        return;
    };
    reversed.copy_from_slice(tenants);
    reversed.reverse();
    state(film, tenants);
    state(film, reversed);
}

// Puts the bytes that digits stand for at a place of a film, as far as they fit.
fn put(space: &mut [u8], place: usize, digits: &[u8]) {
    if let Some(part) = space.get_mut(place..) {
        gate_fields::decode(digits, part);
    }
}

// A tenant from the digits of its number and its key.
fn tenant_from(digits: &[u8]) -> [u64; 2] {
    let mut bytes = [0u8; 16];
    gate_fields::decode(digits, &mut bytes);
    [
        word::read64(&bytes, 0) as u64,
        word::read64(&bytes, 8) as u64,
    ]
}

// Puts a tenant into a list, if there is room, and answers how many there are.
fn add_tenant(tenants: &mut [[u64; 2]], count: usize, tenant: [u64; 2]) -> usize {
    match tenants.get_mut(count) {
        Some(place) => {
            *place = tenant;
            count + 1
        }
        None => count,
    }
}

// The number that eight digits stand for.
fn number_from(digits: &[u8]) -> usize {
    let mut bytes = [0u8; 4];
    gate_fields::decode(digits, &mut bytes);
    word::read32(&bytes, 0)
}

// Does what a record says: a letter, a number in eight digits, and 32 digits.
fn follow(record: &[u8], counts: Counts, space: &mut [u8], tenants: &mut [[u64; 2]]) -> Counts {
    let number = number_from(part::part_at(record, 2, 8));
    let digits = part::part_at(record, 11, 32);
    if gate_fields::is_marked(record, b'n') {
        return Counts {
            film: number,
            tenants: 0,
        };
    }
    if gate_fields::is_marked(record, b'p') {
        put(space, number, digits);
        return counts;
    }
    if gate_fields::is_marked(record, b't') {
        return Counts {
            film: counts.film,
            tenants: add_tenant(tenants, counts.tenants, tenant_from(digits)),
        };
    }
    state_both(
        part::part_at(space, 0, counts.film),
        tenants,
        counts.tenants,
    );
    counts
}

// Does what each record of a list says. A record begins where a line does and has its bytes whatever the line's length is. No
// iterator of the library gives such records, so a loop goes on to what is left of the list.
fn replay(list: &[u8], space: &mut [u8], tenants: &mut [[u64; 2]]) {
    let mut counts = Counts {
        film: 0,
        tenants: 0,
    };
    let mut left = list;
    while !left.is_empty() {
        counts = follow(part::part_at(left, 0, RECORD), counts, space, tenants);
        left = gate_fields::rest_from(left, gate_fields::next_line(left, 0));
    }
}

// Reads films and tenants, and prints what is stated.
fn main() {
    let mut list = [0u8; LIST];
    let mut space = [0u8; FILM];
    let mut tenants = [[0; 2]; TENANTS];
    let size = io::read_full(STDIN_FILENO, &mut list);
    replay(&list[..size], &mut space, &mut tenants);
}
