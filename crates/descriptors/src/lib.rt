// The numbers of a program's standard input and output, as POSIX gives them.
// No rule comes from the Rust, which reads and writes nothing. They serve the programs.
#![tactic(auto)]

// Standard input.
pub const STDIN_FILENO: i32 = 0;

// Standard output.
pub const STDOUT_FILENO: i32 = 1;
