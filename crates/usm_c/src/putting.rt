// A film written piece by piece, for C: its header, the head of each chunk, each payload as it is stored, its ends. Nothing is kept between two
// calls.
ghost use Rattle.write_pieces.specs.TurnReplies.{TurnWriting};
ghost use Rattle.usm.specs.Writes.{packing_by};
ghost use Rattle.usm.specs.Pieces.{HeaderFor, StoredFor, EndsFor};

use lent::SizeReply;
use usm::writing::PackingBytes;
use write_pieces::TurnReply;

// Writes the header of a film whose streams have these lengths into an output, and returns its size. A refusal leaves the output as it was.
#[unsafe(no_mangle)]
pub extern "C" fn usm_write_open(
    name: &[u8],
    video: usize,
    audio: usize,
    packing: PackingBytes,
    out: &mut [u8],
) -> SizeReply
    ensures { HeaderFor name.now video audio (packing_by packing) out.old result out.new }
{
    usm::putting::usm_write_open(name, video, audio, packing, out)
}

// Writes the head of the chunk of a turn into an output, and returns which payload it has. Turn 0 is the first.
#[unsafe(no_mangle)]
pub extern "C" fn usm_write_chunk(
    video: usize,
    audio: usize,
    turn: usize,
    packing: PackingBytes,
    head: &mut [u8],
) -> TurnReply
    ensures { TurnWriting video audio turn (packing_by packing) head.old result head.new }
{
    usm::putting::usm_write_chunk(video, audio, turn, packing, head)
}

// Masks a clear payload as it is stored, in place, and returns its length. `mask` is the number that its turn gave. One that begins with the end
// marker is refused, and left.
#[unsafe(no_mangle)]
pub extern "C" fn usm_write_payload(key: u64, mask: u8, payload: &mut [u8]) -> SizeReply
    ensures { StoredFor key mask payload.old result payload.new }
{
    usm::putting::usm_write_payload(key, mask, payload)
}

// Writes the ends of a film's streams into an output, and returns their size. A refusal leaves the output as it was.
#[unsafe(no_mangle)]
pub extern "C" fn usm_write_end(packing: PackingBytes, out: &mut [u8]) -> SizeReply
    ensures { EndsFor (packing_by packing).audio out.old result out.new }
{
    usm::putting::usm_write_end(packing, out)
}
