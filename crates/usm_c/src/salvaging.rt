// An upload that stopped early, for C. Request 12.
ghost use Rattle.std.specs.Prelude.{◌≡◌};
ghost use Rattle.salvage.specs.Salvage.{salvage_of, salvage_reply};

use salvage::SalvageReply;

// How much of a container is kept: its longest beginning that is accepted, of those that end at a chunk start.
#[unsafe(no_mangle)]
pub extern "C" fn usm_salvage(container: &[u8]) -> SalvageReply
    ensures { result ≡ salvage_reply (salvage_of container.now) }
{
    usm::salvaging::usm_salvage(container)
}
