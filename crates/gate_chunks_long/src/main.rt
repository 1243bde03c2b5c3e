// The program `chunks`, run on a container of 16,385 bytes: one more than it takes.
#![tactic(auto)]

fn main() {
    chunks_print::run();
}
