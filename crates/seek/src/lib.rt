// Jumps to a byte of the picture stream, by an index of its payloads. Request 8.
// No function of the Rust jumps.
#![tactic(auto)]

ghost use Rattle.std.specs.Prelude.{◌≡◌, ◌+◌, ◌-◌, ◌≤◌, ◌<◌, length};
ghost use Rattle.seek.specs.Entries.{entry_of, place_at};
ghost use Rattle.seek.specs.Seeking.{half_of, begun_by, sought_in, seek_reply};

// A span of an index: its first entry, and how many entries it has.
#[derive(Clone, Copy)]
pub struct Span {
    pub low: usize,
    pub count: usize,
}

// Where a byte of the stream stands: the start of its chunk and its offset in that chunk's payload.
#[derive(Clone, Copy)]
pub struct Sought {
    pub chunk: u64,
    pub offset: u64,
}

// The answer as C reads it. Past the end all are 0.
#[repr(C)]
#[derive(Clone, Copy, Default)]
pub struct SeekReply {
    pub chunk: u64,
    pub offset: u64,
    pub found: u8,
}

// An entry of an index: where the payload begins in the stream, where its chunk starts, how long the payload is. It is three
// numbers in a row, which C sees as the struct `usm_index_entry`: the promises range over lists of such rows.
pub fn entry(place: u64, chunk: u64, length: u64) -> [u64; 3]
    ensures { result ≡ entry_of place chunk length }
{
    [place, chunk, length]
}

// The half of a span in which the first entry lies that begins after a byte.
#[tactic(auto, unfolding(crate::specs::Seeking::half_of))]
fn half_of(index: &[[u64; 3]], byte: u64, span: Span) -> Span
    requires { (0 < span.count) × (span.low + span.count ≤ length index.now) }
    ensures { result ≡ half_of index.now byte span }
{
    let half = span.count / 2;
    let middle = span.low + half;
    if index[middle][0] <= byte {
        return Span {
            low: middle + 1,
            count: span.count - half - 1,
        };
    }
    Span {
        low: span.low,
        count: half,
    }
}

// How many entries begin at or before a byte, found by halving. The last of them does begin there. `partition_point` promises
// nothing of entries that are not in order, and `sought_in` says what any slice of entries answers.
fn begun_by(index: &[[u64; 3]], byte: u64) -> usize
    ensures { (result ≡ begun_by index.now byte) × (result ≤ length index.now) × (0 < result → place_at index.now (result - 1) ≤ byte) }
{
    let mut span = Span {
        low: 0,
        count: index.len(),
    };
    while 0 < span.count {
        span = half_of(index, byte, span);
    }
    span.low
}

// Where a byte of the stream stands, by an index. Any slice of entries has an answer, in some twenty steps for a million.
#[tactic(auto, unfolding(crate::specs::Seeking::sought_in))]
pub fn seek(index: &[[u64; 3]], byte: u64) -> Option<Sought>
    ensures { result ≡ sought_in index.now byte }
{
    let last = begun_by(index, byte).checked_sub(1)?;
    let offset = byte - index[last][0];
    if offset < index[last][2] {
        return Some(Sought {
            chunk: index[last][1],
            offset,
        });
    }
    None
}

// An answer as C reads it.
pub fn seek_reply(answer: Option<Sought>) -> SeekReply
    ensures { result ≡ seek_reply answer }
{
    match answer {
        Some(place) => SeekReply {
            chunk: place.chunk,
            offset: place.offset,
            found: 1,
        },
        None => SeekReply::default(),
    }
}
