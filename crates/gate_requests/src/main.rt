// Replays answers that `checks/records/requests.py` works out from the words of requests 8 and 14: reads films from
// standard input and writes what the profile, an index and jumps by it answer. README.md beside this crate has the format.
#![tactic(auto)]

mod answers;

// Writes the answers on the film of a line, and answers whether it is one.
fn replay_film(line: &[u8]) -> bool {
    if !gate_fields::is_marked(line, b'f') {
        return false;
    }
    let mut space = io::buffer();
    let Some(film) = gate_fields::bytes_of(gate_fields::rest_from(line, 2), &mut space) else {
        return false;
    };
    answers::write_film(film);
    true
}

// Writes the answers on each film of the list.
fn main() {
    let mut list = io::large_buffer();
    gate_fields::replay(&mut list, b"stdin is not a list of films\n", replay_film);
}
