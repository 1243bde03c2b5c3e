// An index of a film's picture stream: an entry for each video payload, into a lent list. Request 8. `seek` asks it.
// No function of the Rust makes one.
#![tactic(auto)]

ghost use Rattle.std.specs.Prelude.{◌≡◌, ◌+◌, ◌<◌, ◌^◌, length, set};
ghost use Rattle.std.proofs.lemmas.List.Edits.{sets};
ghost use Rattle.walk.specs.Walks.{walk_from};
ghost use Rattle.list.specs.Listing.{counted_in};
ghost use Rattle.index.specs.Entries.{entry_in, entries_of};
ghost use Rattle.index.specs.Indexing.{entered_by, Indexing};

use chunk::{Chunk, Kind};
use list::ListReply;
use reading::{Applied, AudioChoice};
use refusal::Refusal;

// Stores an entry, if the list goes as far. By `get_mut` its proof did not close.
fn store(index: &mut [[u64; 3]], at: usize, entry: [u64; 3])
    ensures { index.new ≡ set index.old at entry }
{
    if at < index.len() {
        index[at] = entry;
    }
}

// Stores the entry of a chunk, if it has a video payload, which begins at a place of the stream. Answers how many entries
// there are with it.
fn put_entry(index: &mut [[u64; 3]], count: usize, place: usize, chunk: Chunk) -> usize
    requires { count + 1 < 2 ^ 64 }
    ensures { (result ≡ count + length (entry_in place chunk)) × (index.new ≡ sets index.old count (entry_in place chunk)) }
{
    match chunk.kind {
        Kind::Video => {
            let entry = seek::entry(place as u64, chunk.start as u64, chunk.len as u64);
            store(index, count, entry);
            count + 1
        }
        Kind::Audio | Kind::Other | Kind::End => count,
    }
}

// Puts an entry for each video payload from a place of the container on, as far as the list goes, and answers how many
// there are. Where the chunks are refused, they end; a film that was surveyed before has no such chunk.
fn put_entries(index: &mut [[u64; 3]], container: &[u8], start: usize, reading: Applied) -> usize
    ensures { (result ≡ length (entries_of (walk_from container.now reading start).chunks))
        × (index.new ≡ sets index.old 0 (entries_of (walk_from container.now reading start).chunks)) }
{
    let mut at = start;
    let mut count: usize = 0;
    let mut place: usize = 0;
    while let Ok(Some(chunk)) = chunk::chunk_at(container, at, reading) {
        count = put_entry(index, count, place, chunk);
        place += walk::video_in(chunk.kind, chunk.len);
        at = chunk.next;
    }
    count
}

// Builds the index of a film whose chunks begin at a place: its entries are counted first, into no list at all.
fn index_chunks(
    index: &mut [[u64; 3]],
    container: &[u8],
    start: usize,
    reading: Applied,
) -> Result<usize, Refusal>
    ensures { (result ≡ counted_in (length index.old) (length (entries_of (walk_from container.now reading start).chunks)))
        × (index.new ≡ entered_by index.old (entries_of (walk_from container.now reading start).chunks) result) }
{
    let entries = put_entries(&mut index[0..0], container, start, reading);
    let count = list::counted_in(index.len(), entries)?;
    put_entries(index, container, start, reading);
    Ok(count)
}

// Builds the index of a film into a lent list, and replies how many entries it has. A refusal leaves the list as it was.
pub fn build(container: &[u8], index: &mut [[u64; 3]]) -> ListReply
    ensures { Indexing container.now index.old result index.new }
{
    let survey = match film::survey(container, reading::as_original(AudioChoice::NotChosen)) {
        Ok(survey) => survey,
        Err(refusal) => return list::list_reply(Err(refusal)),
    };
    list::list_reply(index_chunks(index, container, survey.header.start, survey.reading))
}
