// Prints the statement of the film on standard input for its tenants: who_pays NUMBER:KEY ..
#![tactic(auto)]

use descriptors::{STDIN_FILENO, STDOUT_FILENO};
use std::env::Env;

// One tenant more than a statement may have, so that too many are seen to be too many.
const TENANTS: usize = 17;

// One byte more than a film may have here, so that a longer one is seen to be longer.
const ROOM: usize = statement_print::LONGEST + 1;

// A tenant from its number and its key, both as typed.
fn tenant_by(number: &[u8], key: &[u8]) -> Option<[u64; 2]> {
    let Some(number) = typed::read_tenant(number) else {
        return None;
    };
    let Some(key) = typed::read_key(key) else {
        return None;
    };
    Some([number, key])
}

// A tenant as typed: NUMBER:KEY.
fn tenant_of(word: &[u8]) -> Option<[u64; 2]> {
    let colon = word.iter().position(|byte| *byte == b':')?;
    tenant_by(&word[..colon], &word[colon + 1..])
}

// Prints how the program is called.
fn print_usage() {
    io::write_all(
        STDOUT_FILENO,
        b"usage: who_pays NUMBER:KEY .. < FILM\n\
          NUMBER is a tenant's, of at most 64 bits: 1 to 20 decimal digits, or 0x and 1 to 16 hex\n\
          digits. KEY is its key: 1 to 16 hex digits, with or without 0x. FILM has at most 16384\n\
          bytes.\n",
    );
}

// The tenant that an argument names.
fn read_tenant(rt: &impl Env, number: usize) -> Option<[u64; 2]> {
    let mut room = [0u8; arguments::ROOM];
    tenant_of(arguments::read(rt, number, &mut room))
}

// Puts the tenants that so many words name into a list, as far as it goes, and answers whether all words name one. The first
// word is the program's own name.
fn read_tenants(rt: &impl Env, list: &mut [[u64; 2]], words: usize) -> bool {
    for number in 1..words {
        let Some(tenant) = read_tenant(rt, number) else {
            return false;
        };
        if let Some(place) = list.get_mut(number - 1) {
            *place = tenant;
        }
    }
    true
}

// Prints the statement for the first of some tenants.
fn tell(tenants: &[[u64; 2]], count: usize) {
    let mut container = [0u8; ROOM];
    let size = io::read_full(STDIN_FILENO, &mut container);
    let tenants = tenants.get(..count).unwrap_or(tenants);
    statement_print::tell(&container[..size], tenants);
}

// Prints the statement for the tenants that the arguments name, or how the program is called.
fn main(rt: HostRuntime) {
    let mut tenants = [[0; 2]; TENANTS];
    let words = arguments::count(&rt);
    if 0 < words && read_tenants(&rt, &mut tenants, words) {
        tell(&tenants, words - 1);
        return;
    }
    print_usage();
}
