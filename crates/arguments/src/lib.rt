// The words that a program was called with.
// No rule of this crate comes from the Rust, which is a library. No contract can say which words they are.
#![tactic(auto)]

ghost use Rattle.std.specs.Prelude.{◌≤◌, length};

use std::env::{Env, FillError};

// So many bytes of a word are read: no word that a program understands is longer.
pub const ROOM: usize = 64;

// How many words the program was called with, its own name among them.
pub fn count(rt: &impl Env) -> usize {
    let mut word = [0u8; ROOM];
    for number in 0..usize::MAX {
        if let Err(FillError::NotPresent) = rt.arg(number, &mut word) {
            return number;
        }
    }
    usize::MAX
}

// A word, read into `room`: of one that is too long, as much as there is room for, and of one that is not there, nothing.
pub fn read<'a>(rt: &impl Env, number: usize, room: &'a mut [u8]) -> &'a [u8]
    ensures { length result.now ≤ length room.old }
{
    match rt.arg(number, room) {
        Ok(length) => &room[..length],
        Err(FillError::TooLong) => room,
        Err(FillError::NotPresent) => b"",
    }
}
