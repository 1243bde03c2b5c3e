// Prints whether the container on standard input is plain, or the first rule that it breaks, or why it is refused.
// Request 14.
#![tactic(auto)]

use descriptors::STDIN_FILENO;

// A longer container is refused.
const LONGEST: usize = 16384;

// The number of that refusal.
const TOO_LONG: u8 = 11;

fn main() {
    let mut container = [0u8; LONGEST + 1];
    let size = io::read_full(STDIN_FILENO, &mut container);
    if LONGEST < size {
        plain_film_print::refusal_line(TOO_LONG, 0).end();
        return;
    }
    plain_film_print::print(&container[..size]);
}
