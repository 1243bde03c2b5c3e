// A listing of a film's chunks: what it answers, and each chunk as a record of plain numbers. Rules C.
// No function of the Rust lists chunks; its `read_chunk_header` reads one. `usm::usm_list` fills a lent list by what is here.
#![tactic(auto)]

ghost use Rattle.std.specs.Prelude.{◌≡◌, ◌-◌, ◌≤◌, ◌<◌, ◌^◌};
ghost use Rattle.film.specs.Films.{survey_of, film_of};
ghost use Rattle.reading.specs.Choices.{reading_by};
ghost use Rattle.list.specs.Listing.{counted_in, listed_in, list_reply, record_of};
ghost use Rattle.list.specs.Filling.{records_in, start_in, reading_in, plan_of, no_record, step_at};

use chunk::Chunk;
use film::Surveyed;
use reading::{Applied, Reading, ReadingBytes};
use refusal::{Cause, Refusal};

// A chunk as plain numbers: its start, the number of its kind, its data type, its channel, how many bytes after its start
// its payload stands, and its payload's length.
#[repr(C)]
#[derive(Clone, Copy)]
pub struct ChunkRecord {
    pub start: usize,
    pub kind: u8,
    pub data_type: u8,
    pub channel: u8,
    pub offset: u32,
    pub len: usize,
}

// The answer as C reads it. What has no meaning in it is 0.
#[repr(C)]
#[derive(Clone, Copy)]
pub struct ListReply {
    pub refused_at: usize,
    pub count: usize,
    pub number: u8,
    pub unknown_type: u8,
}

// What a filler of a lent list goes by: what it replies, how many records it makes, from which place on, and how the
// chunks are read.
#[derive(Clone, Copy)]
pub struct Plan {
    pub reply: ListReply,
    pub records: usize,
    pub start: usize,
    pub reading: Applied,
}

// A record, and where the next chunk starts.
#[derive(Clone, Copy)]
pub struct RecordStep {
    pub made: ChunkRecord,
    pub next: usize,
}

// What is answered where so many records are to go into a list: their count, or that the list is too short.
pub fn counted_in(room: usize, count: usize) -> Result<usize, Refusal>
    ensures { result ≡ counted_in room count }
{
    if room < count {
        return refusal::refused(Cause::ShortList(count), 0);
    }
    Ok(count)
}

// What a listing into a list of so many records answers on a film.
fn listed_in(room: usize, survey: Result<Surveyed, Refusal>) -> Result<usize, Refusal>
    ensures { result ≡ listed_in room survey }
{
    let survey = survey?;
    counted_in(room, survey.count)
}

// An answer as C reads it.
pub fn list_reply(answer: Result<usize, Refusal>) -> ListReply
    ensures { result ≡ list_reply answer }
{
    match answer {
        Ok(count) => ListReply {
            refused_at: 0,
            count,
            number: 0,
            unknown_type: 0,
        },
        Err(refusal) => {
            let cause = refusal.cause;
            let beside = refusal::beside_of(cause);
            ListReply {
                refused_at: refusal.place,
                count: beside.count,
                number: refusal::number_of(cause),
                unknown_type: beside.unknown_type,
            }
        }
    }
}

// How many records there are to make: none where the listing is refused.
fn records_in(answer: Result<usize, Refusal>) -> usize
    ensures { result ≡ records_in answer }
{
    match answer {
        Ok(count) => count,
        Err(_) => 0,
    }
}

// Where a film's chunks begin; 0 where it is refused.
fn start_in(survey: Result<Surveyed, Refusal>) -> usize
    ensures { result ≡ start_in survey }
{
    match survey {
        Ok(survey) => survey.header.start,
        Err(_) => 0,
    }
}

// How a film is read. Where it is refused, no audio is present.
fn reading_in(asked: Reading, survey: Result<Surveyed, Refusal>) -> Applied
    ensures { result ≡ reading_in asked survey }
{
    match survey {
        Ok(survey) => survey.reading,
        Err(_) => reading::applied_to(false, asked),
    }
}

// What a filler of a list of so many records goes by.
pub fn list_plan(container: &[u8], asked: ReadingBytes, room: usize) -> Plan
    ensures { result ≡ plan_of room (reading_by asked) (survey_of (film_of container.now (reading_by asked))) }
{
    let reading = reading::reading_by(asked);
    let survey = film::survey(container, reading);
    let answer = listed_in(room, survey);
    Plan {
        reply: list_reply(answer),
        records: records_in(answer),
        start: start_in(survey),
        reading: reading_in(reading, survey),
    }
}

// The record of a chunk.
fn record_of(chunk: Chunk) -> ChunkRecord
    requires { (chunk.start ≤ chunk.payload) × (chunk.payload - chunk.start < 2 ^ 32) }
    ensures { result ≡ record_of chunk }
{
    let kind = chunk.kind;
    let offset = (chunk.payload - chunk.start) as u32;
    ChunkRecord {
        start: chunk.start,
        kind: chunk::kind_number(kind),
        data_type: chunk.data_type,
        channel: chunk.channel,
        offset,
        len: chunk.len,
    }
}

// No record, where there is no chunk.
fn no_record() -> RecordStep
    ensures { result ≡ no_record }
{
    RecordStep {
        made: ChunkRecord {
            start: 0,
            kind: 0,
            data_type: 0,
            channel: 0,
            offset: 0,
            len: 0,
        },
        next: 0,
    }
}

// The record of the chunk at a place, and where the next one starts.
pub fn record_at(container: &[u8], place: usize, reading: Applied) -> RecordStep
    ensures { result ≡ step_at container.now reading place }
{
    match chunk::chunk_at(container, place, reading) {
        Ok(None) => no_record(),
        Ok(Some(chunk)) => RecordStep {
            made: record_of(chunk),
            next: chunk.next,
        },
        Err(_) => no_record(),
    }
}
