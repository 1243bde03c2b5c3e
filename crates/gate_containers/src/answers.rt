// The lines that are written: what our functions answer on a container, extracted or listed.
use codec::{AudioKind, VideoKind};
use extract::Contents;
use film_name::Name;
use list::{ChunkRecord, Plan};
use print_line::Line;
use reading::{Reading, ReadingBytes};

// Writes a refusal's number and place, and the type where it is one that is unknown.
fn write_refused(number: u8, place: usize, unknown_type: u8) {
    let line = print_line::empty()
        .word(b"refused ")
        .decimal(number as u64)
        .word(b" at ")
        .decimal(place as u64);
    if unknown_type == 0 {
        line.end();
        return;
    }
    line.word(b" type ").decimal(unknown_type as u64).end();
}

// A line with a codec's number after it, or a dash where there is none.
fn with_codec(line: Line, codec: Option<u32>) -> Line {
    if codec::presence_of(codec) == 0 {
        return line.word(b"-");
    }
    line.decimal(codec::value_of(codec) as u64)
}

// Writes a line with a stream after it: its size, and the bytes that it has in an output.
fn write_stream(line: Line, size: usize, output: &[u8]) {
    line.decimal(size as u64)
        .word(b" ")
        .hex_bytes(part::part_at(output, 0, size))
        .end();
}

// Writes the name: a part of the container, or the fallback.
fn write_name<'a>(container: &'a [u8], fallback: &'a [u8], name: Option<Name>) {
    print_line::empty()
        .word(b"name ")
        .hex_bytes(film_name::name_of(container, fallback, name))
        .end();
}

// Writes the video stream that an output holds.
fn write_video(contents: Contents, output: &[u8]) {
    let codec = contents.mpeg_codec;
    let kind = contents.video_kind;
    let line = with_codec(print_line::empty().word(b"video "), codec);
    match kind {
        VideoKind::Ivf => write_stream(line.word(b" ivf "), contents.video_size, output),
        VideoKind::M2v => write_stream(line.word(b" m2v "), contents.video_size, output),
    }
}

// Writes the audio stream that an output holds, or that there is no audio.
fn write_audio(contents: Contents, output: &[u8]) {
    if !contents.audio {
        print_line::empty().word(b"silent").end();
        return;
    }
    let codec = contents.audio_codec;
    let kind = contents.audio_kind;
    let line = with_codec(print_line::empty().word(b"audio "), codec);
    match kind {
        AudioKind::Hca => write_stream(line.word(b" hca "), contents.audio_size, output),
        AudioKind::Adx => write_stream(line.word(b" adx "), contents.audio_size, output),
    }
}

// Writes the answer on an extraction.
pub(crate) fn write_film<'a>(
    container: &'a [u8],
    reading: Reading,
    key: Option<u64>,
    fallback: &'a [u8],
) {
    let mut video = io::buffer();
    let mut audio = io::buffer();
    match extract::extract(container, reading, key, &mut video, &mut audio) {
        Ok(contents) => {
            let name = contents.name;
            write_name(container, fallback, name);
            write_video(contents, &video);
            write_audio(contents, &audio);
        }
        Err(refusal) => {
            let cause = refusal.cause;
            let beside = refusal::beside_of(cause);
            write_refused(
                refusal::number_of(cause),
                refusal.place,
                beside.unknown_type,
            );
        }
    }
}

// A line with the word of a kind's number after it.
fn with_kind(line: Line, kind: u8) -> Line {
    match kind {
        0 => line.word(b" video "),
        1 => line.word(b" audio "),
        2 => line.word(b" other "),
        _ => line.word(b" end "),
    }
}

// Writes a record.
fn write_record(made: ChunkRecord) {
    with_kind(print_line::empty().decimal(made.start as u64), made.kind)
        .decimal(made.data_type as u64)
        .word(b" ")
        .decimal(made.len as u64)
        .end();
}

// Writes so many records from a place on.
fn write_records(container: &[u8], plan: Plan) {
    let reading = plan.reading;
    let mut place = plan.start;
    for _ in 0..plan.records {
        let step = list::record_at(container, place, reading);
        write_record(step.made);
        place = step.next;
    }
}

// Writes the answer on a listing: by all that `usm::usm_list` decides by, with room for every chunk.
pub(crate) fn write_list(container: &[u8], reading: ReadingBytes) {
    let plan = list::list_plan(container, reading, container.len());
    let reply = plan.reply;
    if reply.number == 0 {
        write_records(container, plan);
        return;
    }
    write_refused(reply.number, reply.refused_at, reply.unknown_type);
}
