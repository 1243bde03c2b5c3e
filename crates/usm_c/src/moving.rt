// A film moved for C between the old builder's container and request 1's. Rules O.
ghost use Rattle.usm.specs.Moves.{FromOldFor, ToOldFor};

use lent::SizeReply;
use usm::moving::CodecBytes;

// Moves a film of the old builder into an output, and returns its size. Bytes past it stay; a refusal leaves the output as it was.
#[unsafe(no_mangle)]
pub extern "C" fn usm_from_old(container: &[u8], codecs: CodecBytes, out: &mut [u8]) -> SizeReply
    ensures { FromOldFor container.now codecs out.old result out.new }
{
    usm::moving::usm_from_old(container, codecs, out)
}

// Moves a film back to the old builder's container, and returns its size. Bytes past it stay; a refusal leaves the output as it was.
#[unsafe(no_mangle)]
pub extern "C" fn usm_to_old(container: &[u8], out: &mut [u8]) -> SizeReply
    ensures { ToOldFor container.now out.old result out.new }
{
    usm::moving::usm_to_old(container, out)
}
