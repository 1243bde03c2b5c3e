// The lines of a container, printed: the reading and writing of the programs that show chunks. Rules C.
//
// No contract can say what is written, so the functions here have none. What is written is decided by
// `chunk_lines::lines`, which has one.
#![tactic(auto)]

use descriptors::{STDIN_FILENO, STDOUT_FILENO};

// One byte more than a container may have here, so that a longer one is seen to be longer.
const ROOM: usize = chunk_lines::LONGEST + 1;

// Prints a line for each chunk of a container, or the one of its refusal.
pub fn print(container: &[u8]) {
    let mut text = io::large_buffer();
    let length = chunk_lines::lines(container, &mut text);
    io::write_all(STDOUT_FILENO, &text[..length]);
}

// Prints the lines of the container on standard input.
pub fn run() {
    let mut container = [0u8; ROOM];
    let size = io::read_full(STDIN_FILENO, &mut container);
    print(&container[..size]);
}
