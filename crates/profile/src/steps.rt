// The delivery profile of a film that is read piece by piece: begun with what the header says, stepped with each chunk, ended
// with the film's length. Ours, beyond the rules: a caller holds a chunk's first bytes, and this.
ghost use Rattle.std.specs.Prelude.{◌≡◌};
ghost use Rattle.word.specs.Numbers.{be32};
ghost use Rattle.chunk.specs.Openings.{kind_at};
ghost use Rattle.profile.specs.Streams.{after_kind};
ghost use Rattle.profile.specs.Profiles.{first_broken};
ghost use Rattle.profile.specs.Steps.{state_number, state_by, verdict_in, streams_in, in_numbers, begun, stepped, ended};

use crate::{PLAIN, Stream, Streams, Verdict, after_end, first_of, judge_chunk, missing};

// What the chunks so far have shown: the first rule that was broken, as in a verdict, and how both streams stand: 0 absent,
// 1 open, 2 closed.
#[repr(C)]
#[derive(Clone, Copy)]
pub struct Profiling {
    pub place: usize,
    pub rule: u8,
    pub stream: u8,
    pub video: u8,
    pub audio: u8,
}

// The number of how a stream stands: what C keeps of it.
fn state_number(stream: Stream) -> u8
    ensures { result ≡ state_number stream }
{
    match stream {
        Stream::Absent => 0,
        Stream::Open => 1,
        Stream::Closed => 2,
    }
}

// How a stream stands, by a number.
#[tactic(auto, unfolding(crate::specs::Steps::state_by))]
fn state_by(number: u8) -> Stream
    ensures { result ≡ state_by number }
{
    match number {
        0 => Stream::Absent,
        1 => Stream::Open,
        _ => Stream::Closed,
    }
}

// How both streams stand so far.
fn streams_in(known: Profiling) -> Streams
    ensures { result ≡ streams_in known }
{
    Streams {
        video: state_by(known.video),
        audio: state_by(known.audio),
    }
}

// A verdict and both streams in numbers.
fn in_numbers(verdict: Verdict, streams: Streams) -> Profiling
    ensures { result ≡ in_numbers verdict streams }
{
    Profiling {
        place: verdict.place,
        rule: verdict.rule,
        stream: verdict.stream,
        video: state_number(streams.video),
        audio: state_number(streams.audio),
    }
}

// The first rule that is broken, or else what comes later.
fn first_broken(known: Profiling, later: Verdict) -> Verdict
    ensures { result ≡ first_broken (verdict_in known) later }
{
    if known.rule == 0 {
        return later;
    }
    Verdict {
        place: known.place,
        rule: known.rule,
        stream: known.stream,
    }
}

// Both streams after the chunk that some bytes begin with.
fn after_chunk(bytes: &[u8], streams: Streams) -> Streams
    ensures { result ≡ after_kind streams (kind_at bytes.now 0) (be32 bytes.now 0) }
{
    if chunk::is_end(bytes) {
        return after_end(streams, word::read32(bytes, 0));
    }
    streams
}

// What is known before the first chunk.
pub fn begin(audio: bool) -> Profiling
    ensures { result ≡ begun audio }
{
    in_numbers(PLAIN, first_of(audio))
}

// What is known after one chunk more, by the bytes that stand at its place. 45 are enough; those that are missing count as 0.
#[tactic(auto, unfolding(crate::specs::Steps::stepped))]
pub fn step(bytes: &[u8], place: usize, known: Profiling) -> Profiling
    ensures { result ≡ stepped bytes.now place known }
{
    let streams = streams_in(known);
    // Before the verdict, which would otherwise be kept on the stack while a marker is compared.
    let after = after_chunk(bytes, streams);
    let verdict = first_broken(known, judge_chunk(bytes, place, streams));
    in_numbers(verdict, after)
}

// What is answered of a film of so many bytes, after its last chunk.
pub fn end(total: usize, known: Profiling) -> Verdict
    ensures { result ≡ ended total known }
{
    first_broken(known, missing(total, streams_in(known)))
}
