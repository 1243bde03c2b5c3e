// How short a sound clip tells two keys apart, and which bits of a key it shows. A clip is one ADX payload of data type 0.
// Request 7. Ours: the Rust has nothing of the kind.
#![tactic(auto)]

ghost use Rattle.std.specs.Prelude.{◌≡◌, ◌≤◌};
ghost use Rattle.mask.specs.Positions.{lanes_shown};
ghost use Rattle.key.specs.LaneBits.{showing};
ghost use Rattle.clip.specs.Clips.{clip_tells, bits_shown};

use mask::{ROW, TAIL};

// How many lanes of its mask a clip shows, from lane 0 on.
fn lanes_shown(bytes: usize) -> usize
    ensures { result ≡ lanes_shown bytes }
{
    bytes.saturating_sub(TAIL).min(ROW)
}

// Some bits if a lane is among those that are shown, none otherwise.
fn bits_if(shown: usize, lane: usize, bits: u64) -> u64
    ensures value { result ≡ showing shown lane bits }
    ensures upper_bound { result ≤ bits }
{
    if lane < shown { bits } else { 0 }
}

// The bits of a key that a clip of so many bytes shows: it tells two keys apart exactly when they differ in one of them.
pub fn bits_shown(bytes: usize) -> u64
    ensures { result ≡ bits_shown bytes }
{
    let shown = lanes_shown(bytes);
    bits_if(shown, 0, 0xFF)
        + bits_if(shown, 2, 0xFF_0000)
        + bits_if(shown, 4, 0xF_0000_0000)
        + bits_if(shown, 6, 0xFF_0000_0000_0000)
        + bits_if(shown, 8, 0xFF00)
        + bits_if(shown, 0xE, 0xFF00_0000)
        + bits_if(shown, 0x18, 0xFF00_0000_0000)
}

// Whether a clip of so many bytes can tell two keys apart: it then differs under them, whatever its bytes.
pub fn clip_tells(bytes: usize, first: u64, second: u64) -> bool
    ensures { result ≡ clip_tells bytes first second }
{
    let bits = bits_shown(bytes);
    first & bits != second & bits
}
