// A film written for C. Rules W.
ghost use Rattle.usm.specs.Writes.{packing_by, WrittenFor};

use lent::SizeReply;
use usm::writing::PackingBytes;

// Writes a film into an output, and returns its size. Bytes past it stay; a refusal leaves the output as it was.
#[unsafe(no_mangle)]
pub extern "C" fn usm_write(
    name: &[u8],
    video: &[u8],
    audio: &[u8],
    packing: PackingBytes,
    out: &mut [u8],
) -> SizeReply
    ensures { WrittenFor name.now video.now audio.now (packing_by packing) out.old result out.new }
{
    usm::writing::usm_write(name, video, audio, packing, out)
}
