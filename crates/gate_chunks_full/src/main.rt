// The program `chunks`, run on the longest container that is not refused for its length: 16,384 bytes, with some 2,000 chunks 8 bytes apart.
#![tactic(auto)]

fn main() {
    chunks_print::run();
}
