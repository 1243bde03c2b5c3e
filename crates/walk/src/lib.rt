// The chunks of a container, one after the other: how many there are, and how many bytes both streams have.
// Rules C. From the Rust: the loop of `extract_usm_chunks_to_memory`.
#![tactic(auto)]

mod ahead;

ghost use Rattle.std.specs.Prelude.{◌≡◌};
ghost use Rattle.walk.specs.Walks.{video_in, audio_in, walk_from, measure_of};

use chunk::Kind;
use reading::Applied;
use refusal::Refusal;

// What the chunks come to.
#[derive(Clone, Copy)]
pub struct Sizes {
    pub count: usize,
    pub video: usize,
    pub audio: usize,
}

// How much of a payload goes to video.
pub fn video_in(kind: Kind, len: usize) -> usize
    ensures { result ≡ video_in kind len }
{
    match kind {
        Kind::Video => len,
        Kind::Audio => 0,
        Kind::Other => 0,
        Kind::End => 0,
    }
}

// How much of a payload goes to audio.
pub fn audio_in(kind: Kind, len: usize) -> usize
    ensures { result ≡ audio_in kind len }
{
    match kind {
        Kind::Video => 0,
        Kind::Audio => len,
        Kind::Other => 0,
        Kind::End => 0,
    }
}

// The count of the chunks from a place on and the sizes of both streams, or the first refusal. `reading` is how this film
// is read, as `chunk::chunk_at` has it.
pub fn measure(container: &[u8], place: usize, reading: Applied) -> Result<Sizes, Refusal>
    ensures { result ≡ measure_of (walk_from container.now reading place) }
{
    let mut at = place;
    let mut count: usize = 0;
    let mut video: usize = 0;
    let mut audio: usize = 0;
    let mut bits: usize = 0;
    while let Some(chunk) = chunk::chunk_at(container, at, reading)? {
        let kind = chunk.kind;
        count += 1;
        video += video_in(kind, chunk.len);
        audio += audio_in(kind, chunk.len);
        bits += ahead::touched(container, at, chunk.next);
        at = chunk.next;
    }
    Ok(Sizes {
        count: ahead::kept(count, bits),
        video,
        audio,
    })
}
