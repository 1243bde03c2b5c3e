// Replays recorded answers of the original Rust on whole containers: reads containers and questions from standard
// input and writes what `extract::extract` answers, and a listing by `list::list_plan` and `list::record_at`.
// README.md beside this crate has the format.
#![tactic(auto)]

mod answers;
mod questions;

ghost use Rattle.std.specs.Prelude.{◌≤◌, length, IfSome};

// Puts the bytes that digits stand for at a place of the container, and answers whether they end inside it.
fn put_at(container: &mut [u8], place: usize, digits: &[u8]) -> bool {
    let Some(part) = container.get_mut(place..) else {
        return false;
    };
    gate_fields::bytes_of(digits, part).is_some()
}

// Puts what a text of a place and digits says, and answers whether it is one.
fn put(text: &[u8], container: &mut [u8]) -> bool {
    let gap = gate_fields::gap_in(text);
    if gap == text.len() {
        return false;
    }
    let Some(place) = gate_fields::number_of(&text[..gap]) else {
        return false;
    };
    put_at(container, place, gate_fields::rest_from(text, gap + 1))
}

// Does what a line says that leaves the container's length, and answers whether it is one.
fn replay_on(line: &[u8], container: &mut [u8]) -> bool {
    let text = gate_fields::rest_from(line, 2);
    if gate_fields::is_marked(line, b'p') {
        return put(text, container);
    }
    if gate_fields::is_marked(line, b'e') {
        return questions::replay_film(text, container);
    }
    gate_fields::is_marked(line, b'c') && questions::replay_list(text, container)
}

// The length that a line gives the container, if it is one within its space.
fn length_on(line: &[u8], space: &[u8]) -> Option<usize>
    ensures { IfSome result (λ len. len ≤ length space.now) }
{
    let len = gate_fields::number_of(gate_fields::rest_from(line, 2))?;
    if space.len() < len {
        return None;
    }
    Some(len)
}

// Does what a line says, and answers whether it is one. The container has the first bytes of its space, `len` of them. Past
// what a line keeps of it there are zeros: a new one has nothing else.
fn replay_line(line: &[u8], space: &mut [u8], len: &mut usize) -> bool {
    let is_new = gate_fields::is_marked(line, b'n');
    if is_new || gate_fields::is_marked(line, b'l') {
        let Some(given) = length_on(line, space) else {
            return false;
        };
        let kept = if is_new { 0 } else { given };
        space[kept..].fill(0);
        *len = given;
        return true;
    }
    match space.get_mut(..*len) {
        Some(container) => replay_on(line, container),
        None => false,
    }
}

// Does what each line of the list says, up to the first that says nothing. The container has no bytes at first.
fn main() {
    let mut space = io::buffer();
    let mut len = 0;
    gate_fields::replay_whole(b"stdin is not a list of containers\n", |line| {
        replay_line(line, &mut space, &mut len)
    });
}
