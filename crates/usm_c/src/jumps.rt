// An index of a film's picture stream, built and asked for C. Request 8.
ghost use Rattle.std.specs.Prelude.{◌≡◌};
ghost use Rattle.seek.specs.Seeking.{sought_in, seek_reply};
ghost use Rattle.index.specs.Indexing.{Indexing};

use list::ListReply;
use seek::SeekReply;

// Fills a lent list with an entry for each video payload of a film, and returns their count. A refusal leaves the list as
// it was.
#[unsafe(no_mangle)]
pub extern "C" fn usm_index(container: &[u8], index: &mut [[u64; 3]]) -> ListReply
    ensures { Indexing container.now index.old result index.new }
{
    usm::jumps::usm_index(container, index)
}

// Where a byte of the picture stream stands, by an index.
#[unsafe(no_mangle)]
pub extern "C" fn usm_seek(index: &[[u64; 3]], byte: u64) -> SeekReply
    ensures { result ≡ seek_reply (sought_in index.now byte) }
{
    usm::jumps::usm_seek(index, byte)
}
