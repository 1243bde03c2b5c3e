// What is answered where bytes are written into a lent output: their count, or why none are written. Rules R4 and R5, and 16.
#![tactic(auto)]

ghost use Rattle.std.specs.Prelude.{◌≡◌};
ghost use Rattle.lent.specs.Written.{written_in, size_reply};

use refusal::{Cause, Refusal};

// The answer as C reads it. What has no meaning in it is 0.
#[repr(C)]
#[derive(Clone, Copy)]
pub struct SizeReply {
    pub refused_at: usize,
    pub size: usize,
    pub number: u8,
    pub unknown_type: u8,
}

// What is answered for an output of so many bytes, where so many are to be written.
pub fn written_in(room: usize, planned: Result<usize, Refusal>) -> Result<usize, Refusal>
    ensures { result ≡ written_in room planned }
{
    match planned {
        Ok(size) => {
            if room < size {
                return Err(Refusal {
                    cause: Cause::ShortRoom(size),
                    place: 0,
                });
            }
            Ok(size)
        }
        Err(refusal) => Err(refusal),
    }
}

// An answer as C reads it.
pub fn size_reply(answer: Result<usize, Refusal>) -> SizeReply
    ensures { result ≡ size_reply answer }
{
    match answer {
        Ok(size) => SizeReply {
            refused_at: 0,
            size,
            number: 0,
            unknown_type: 0,
        },
        Err(refusal) => {
            let cause = refusal.cause;
            let beside = refusal::beside_of(cause);
            SizeReply {
                refused_at: refusal.place,
                size: beside.size,
                number: refusal::number_of(cause),
                unknown_type: beside.unknown_type,
            }
        }
    }
}
