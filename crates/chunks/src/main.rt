// Prints the chunks of the container on standard input, a line each, or why it is refused.
#![tactic(auto)]

fn main() {
    chunks_print::run();
}
