// A part of a slice, by its start and its length. Every start and every length has an answer.
#![tactic(auto)]

ghost use Rattle.part.specs.Parts.{PartAt};

// The part of a slice from a start on, or its empty part at byte 0 where the slice does not hold that much. It is a range, since
// `PartAt` says where a part lies, and `get` promises its bytes alone.
pub fn part_at(bytes: &[u8], start: usize, len: usize) -> &[u8]
    ensures { PartAt bytes.entry start len result }
{
    match bytes.len().checked_sub(start) {
        Some(left) if len <= left => &bytes[start..start + len],
        _ => &bytes[..0],
    }
}
