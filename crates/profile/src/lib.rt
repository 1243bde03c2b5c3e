// Whether a film is plain: the delivery profile of request 14, over a film that is accepted with audio chosen.
// No function of the Rust asks it.
#![tactic(auto)]

pub mod steps;

ghost use Rattle.std.specs.Prelude.{◌≡◌, ◌+◌, ◌≤◌, length};
ghost use Rattle.walk.specs.Walks.{walk_from};
ghost use Rattle.profile.specs.Streams.{is_open, is_closed, closing, stream_of, stream_number, is_known, first_of, after_end, after_kind};
ghost use Rattle.profile.specs.Profiles.{plain, broken, broken_by, broken_in, judged_in, missing, judged, profile_of, profile_reply};

use chunk::Kind;
use header::Header;
use reading::{Applied, AudioChoice};
use refusal::Refusal;

// A stream so far: the film has none, or it is not closed yet, or an end chunk closed it.
#[derive(Clone, Copy)]
pub enum Stream {
    Absent,
    Open,
    Closed,
}

// Both streams so far.
#[derive(Clone, Copy)]
pub struct Streams {
    pub video: Stream,
    pub audio: Stream,
}

// The first rule that is broken, by its number, 0 where none is; at which place; and of rule 3, the number of the stream's
// kind. Numbers, and no enum: the replies for C and the promises (`FirstOf`) tell rules and streams by them.
#[derive(Clone, Copy)]
pub struct Verdict {
    pub place: usize,
    pub rule: u8,
    pub stream: u8,
}

// The answer as C reads it. What has no meaning in it is 0.
#[repr(C)]
#[derive(Clone, Copy, Default)]
pub struct ProfileReply {
    pub refused_at: usize,
    pub place: usize,
    pub number: u8,
    pub unknown_type: u8,
    pub rule: u8,
    pub stream: u8,
}

// The header size of a plain chunk.
const HEADER: u16 = 0x18;

// No rule is broken.
const PLAIN: Verdict = Verdict {
    place: 0,
    rule: 0,
    stream: 0,
};

// Whether a stream is not closed yet.
fn is_open(stream: Stream) -> bool
    ensures { result ≡ is_open stream }
{
    matches!(stream, Stream::Open)
}

// Whether an end chunk closed a stream.
fn is_closed(stream: Stream) -> bool
    ensures { result ≡ is_closed stream }
{
    matches!(stream, Stream::Closed)
}

// A stream after an end chunk of its letters.
fn closing(stream: Stream) -> Stream
    ensures { result ≡ closing stream }
{
    match stream {
        Stream::Absent => Stream::Absent,
        Stream::Open => Stream::Closed,
        Stream::Closed => Stream::Closed,
    }
}

// The stream of some letters. Other letters have none.
#[tactic(auto, unfolding(crate::specs::Streams::stream_of))]
fn stream_of(streams: Streams, letters: usize) -> Stream
    ensures { result ≡ stream_of streams letters }
{
    match letters {
        signature::SFV => streams.video,
        signature::SFA => streams.audio,
        _ => Stream::Absent,
    }
}

// Both streams before the first chunk: video is present, audio if the header says so.
#[tactic(auto, unfolding(crate::specs::Streams::first_of))]
fn first_of(audio: bool) -> Streams
    ensures { result ≡ first_of audio }
{
    Streams {
        video: Stream::Open,
        audio: if audio { Stream::Open } else { Stream::Absent },
    }
}

// Both streams after an end chunk of some letters.
#[tactic(auto, unfolding(crate::specs::Streams::after_end))]
fn after_end(streams: Streams, letters: usize) -> Streams
    ensures { result ≡ after_end streams letters }
{
    match letters {
        signature::SFV => Streams {
            video: closing(streams.video),
            ..streams
        },
        signature::SFA => Streams {
            audio: closing(streams.audio),
            ..streams
        },
        _ => streams,
    }
}

// Both streams after a chunk.
fn after_kind(streams: Streams, kind: Kind, letters: usize) -> Streams
    ensures { result ≡ after_kind streams kind letters }
{
    match kind {
        Kind::End => after_end(streams, letters),
        Kind::Video | Kind::Audio | Kind::Other => streams,
    }
}

// The number of the kind of a stream, by its letters, as C reads it: a verdict is a row of numbers in `Profiling`, which C keeps.
fn stream_number(letters: usize) -> u8
    ensures { result ≡ stream_number letters }
{
    if letters == signature::SFV { 0 } else { 1 }
}

// Whether letters are those of a stream.
fn is_known(letters: usize) -> bool
    ensures { result ≡ is_known letters }
{
    letters == signature::SFV || letters == signature::SFA
}

// A rule is broken at a place.
fn broken(place: usize, rule: u8, stream: u8) -> Verdict
    ensures { result ≡ broken place rule stream }
{
    Verdict {
        place,
        rule,
        stream,
    }
}

// The first rule that the chunk at a place breaks, by its numbers: its header size, its block size and its letters; and by how
// their stream stands.
#[tactic(auto, unfolding(crate::specs::Profiles::broken_in))]
fn broken_in(place: usize, header: u16, block: u32, letters: usize, stream: Stream) -> Verdict
    ensures { result ≡ broken_in place header block letters stream }
{
    if header != HEADER {
        return broken(place, 1, 0);
    }
    if (block as usize + 8) % 0x20 != 0 {
        return broken(place, 2, 0);
    }
    if is_closed(stream) {
        return broken(place, 3, stream_number(letters));
    }
    if !is_known(letters) {
        return broken(place, 4, 0);
    }
    PLAIN
}

// The same of a chunk of a container, of these letters.
fn broken_by(container: &[u8], place: usize, letters: usize, stream: Stream) -> Verdict
    requires { place + 45 ≤ length container.now }
    ensures { result ≡ broken_by container.now place letters stream }
{
    let header = word::read16(container, place + 8) as u16;
    let block = word::read32(container, place + 4) as u32;
    broken_in(place, header, block, letters, stream)
}

// The first rule that the chunk at a place breaks, which some bytes begin with, where both streams stand so.
fn judge_chunk(bytes: &[u8], place: usize, streams: Streams) -> Verdict
    ensures { result ≡ judged_in bytes.now place streams }
{
    let letters = word::read32(bytes, 0);
    let header = word::read16(bytes, 8) as u16;
    let block = word::read32(bytes, 4) as u32;
    broken_in(place, header, block, letters, stream_of(streams, letters))
}

// The end that is missing, video's first; none where both streams are closed.
fn missing(len: usize, streams: Streams) -> Verdict
    ensures { result ≡ missing len streams }
{
    if is_open(streams.video) {
        return broken(len, 3, 0);
    }
    if is_open(streams.audio) {
        return broken(len, 3, 1);
    }
    PLAIN
}

// The first rule that the chunks from a place on break, or the end that is missing. Where the chunks are refused, they
// end; a film that was surveyed before has no such chunk.
fn judge(container: &[u8], start: usize, reading: Applied, first: Streams) -> Verdict
    ensures { result ≡ judged container.now first (walk_from container.now reading start).chunks }
{
    let mut at = start;
    let mut streams = first;
    while let Ok(Some(chunk)) = chunk::chunk_at(container, at, reading) {
        let letters = word::read32(container, chunk.start);
        let verdict = broken_by(container, chunk.start, letters, stream_of(streams, letters));
        if verdict.rule != 0 {
            return verdict;
        }
        streams = after_kind(streams, chunk.kind, letters);
        at = chunk.next;
    }
    missing(container.len(), streams)
}

// Whether a film is plain: the first rule that it breaks, and where; or why it is refused.
pub fn profile(container: &[u8]) -> Result<Verdict, Refusal>
    ensures { result ≡ profile_of container.now }
{
    let survey = film::survey(container, reading::as_original(AudioChoice::Chosen))?;
    let Header { start, audio, .. } = survey.header;
    Ok(judge(container, start, survey.reading, first_of(audio)))
}

// An answer as C reads it.
pub fn profile_reply(answer: Result<Verdict, Refusal>) -> ProfileReply
    ensures { result ≡ profile_reply answer }
{
    match answer {
        Ok(verdict) => ProfileReply {
            place: verdict.place,
            rule: verdict.rule,
            stream: verdict.stream,
            ..ProfileReply::default()
        },
        Err(refusal) => ProfileReply {
            refused_at: refusal.place,
            number: refusal::number_of(refusal.cause),
            unknown_type: refusal::beside_of(refusal.cause).unknown_type,
            ..ProfileReply::default()
        },
    }
}
