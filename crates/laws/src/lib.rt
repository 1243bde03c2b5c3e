// Definitions and laws that every crate shares: lists by position, slices written from their front, xor. No code.
#![tactic(auto)]
