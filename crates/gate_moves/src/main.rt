// Replays films of the old builder, moved to request 1's container and back: reads containers from standard input, and
// writes what `usm_from_old` and `usm_to_old` answer, with the digest of the output. README.md beside this crate has the format.
#![tactic(auto)]

mod numbers;

use usm::moving::CodecBytes;

// The most bytes of the list.
const LIST: usize = 0x64000;

// The most bytes of a container, and of an output.
const SPACE: usize = 0x28000;

// Moves a container back into an output, and writes the answer under a word.
fn move_back(word: &[u8], container: &[u8], out: &mut [u8]) {
    let reply = usm::moving::usm_to_old(container, out);
    gate_size_line::print(word, reply, out);
}

// Moves a container back into an output of so many bytes, if there are as many, and writes the answer under a word.
fn move_back_in(word: &[u8], container: &[u8], room: usize) {
    let mut out = [0xEEu8; SPACE];
    if let Some(out) = out.get_mut(..room) {
        move_back(word, container, out);
    }
}

// Moves a film onward into an output and writes the answer; what was written is moved back, with room for 3 bytes more than the film has.
fn move_onward(film: &[u8], codecs: CodecBytes, out: &mut [u8]) {
    let reply = usm::moving::usm_from_old(film, codecs, out);
    gate_size_line::print(b"from", reply, out);
    if reply.number == 0 {
        move_back_in(b"back", part::part_at(out, 0, reply.size), film.len() + 3);
    }
}

// Moves the film of a line onward, if it is one.
fn replay_from(line: &[u8]) -> Option<()> {
    let numbers = numbers::numbers_on(line)?;
    let mut out = [0xEEu8; SPACE];
    let out = out.get_mut(..numbers.room)?;
    let mut space = [0u8; SPACE];
    let digits = gate_fields::rest_from(line, numbers.digits);
    let film = gate_fields::bytes_of(digits, &mut space)?;
    move_onward(film, numbers.codecs, out);
    Some(())
}

// Moves the container of a line back, if it is one.
fn replay_to(line: &[u8]) -> Option<()> {
    let room = gate_fields::number_in(line, 2)?;
    if SPACE < room {
        return None;
    }
    let mut space = [0u8; SPACE];
    let digits = gate_fields::rest_from(line, gate_fields::after_field(line, 2));
    let container = gate_fields::bytes_of(digits, &mut space)?;
    move_back_in(b"to", container, room);
    Some(())
}

// Does what a line says, and answers whether it is one.
fn replay_line(line: &[u8]) -> bool {
    if gate_fields::is_marked(line, b'f') {
        return replay_from(line).is_some();
    }
    gate_fields::is_marked(line, b't') && replay_to(line).is_some()
}

// Does what each line of the list says, up to the first that says nothing.
fn main() {
    let mut list = [0u8; LIST];
    gate_fields::replay(&mut list, b"stdin is not a list of films\n", replay_line);
}
