// From the old builder's container to request 1's. Rule O9.
ghost use Rattle.std.specs.Prelude.{◌≡◌, [], ◌+◌, ◌≤◌, length, None, Ok};
ghost use Rattle.std.proofs.lemmas.List.Edits.{sets};
ghost use Rattle.laws.specs.Outputs.{Put};
ghost use Rattle.signature.specs.Signatures.{contents_end};
ghost use Rattle.write_blocks.specs.Tables.{marker_of};
ghost use Rattle.write_plan.specs.Films.{bytes_of, in_each, film_bytes};
ghost use Rattle.write_plan.specs.Planning.{planned_of};
ghost use Rattle.write.specs.Writing.{WritingOf};
ghost use Rattle.turns.specs.declared.Form.TheVariants as form;
ghost use Rattle.turns.specs.Turns.{stream_size};
ghost use Rattle.old_film.specs.Finding.{parts_of, film_by};
ghost use Rattle.film_move.specs.FromOld.{planned_as, packing_of, cause_of, FromOld};

use crate::putting::{move_turns, put_chunk};
use old_film::OldFilm;
use refusal::{Cause, LONGEST, Refusal};
use turns::{Form, Track, Turns};
use write_plan::Packing;

// Puts the end of each stream that there is, video first, as request 1 does.
fn put_ends(out: &mut [u8], at: usize, audio: bool) -> usize
    requires { at + length (bytes_of (in_each audio (λ stream. marker_of contents_end))) ≤ length out.old }
    ensures { Put (bytes_of (in_each audio (λ stream. marker_of contents_end))) out.old at out.new result }
{
    let at = put_chunk(
        out,
        at,
        Form::New,
        Track::Video,
        0,
        b"#CONTENTS END\0\0\0\0\0\0\0\0\0\0\0\0\0\0\0\0\0\0\0",
    );
    if audio {
        return put_chunk(
            out,
            at,
            Form::New,
            Track::Audio(0),
            0,
            b"#CONTENTS END\0\0\0\0\0\0\0\0\0\0\0\0\0\0\0\0\0\0\0",
        );
    }
    at
}

// How a film is packed that is moved: as it is stored.
fn packing_of(audio: bool, mpeg_codec: Option<u32>, audio_codec: Option<u32>) -> Packing
    ensures { result ≡ packing_of audio mpeg_codec audio_codec }
{
    Packing {
        audio,
        mpeg_codec,
        audio_codec,
        key: None,
    }
}

// The size of a film with these turns, which has `frame` bytes without them, or why it is refused whatever the output.
fn plan_turns(frame: usize, turns: Turns) -> Result<usize, Refusal>
    requires { (frame ≤ 0x40000000) × (turns.video ≤ 0x40000000) × (turns.audio ≤ 0x40000000) }
    ensures { result ≡ planned_as (frame + (stream_size form.New turns.video + stream_size form.New turns.audio)) turns.marked }
{
    let video = turns::stream_size(Form::New, turns.video as u32);
    let audio = turns::stream_size(Form::New, turns.audio as u32);
    let size = frame + (video + audio);
    if LONGEST < size {
        return refusal::refused(Cause::TooLong, 0);
    }
    if turns.marked {
        return refusal::refused(Cause::MarkedPayload, 0);
    }
    Ok(size)
}

// Puts a film of the builder as request 1's at the start of the output: all but the turns, and these before its ends.
fn put_moved(out: &mut [u8], container: &[u8], film: OldFilm, packing: Packing, frame: usize)
    requires { (film ≡ film_by (parts_of container.now)) × (packing.key ≡ None) × (planned_of (parts_of container.now).name [] [] packing ≡ Ok frame) × (length (film_bytes (parts_of container.now).name (parts_of container.now).read.video (parts_of container.now).read.audio packing) ≤ length out.old) }
    ensures { out.new ≡ sets out.old 0 (film_bytes (parts_of container.now).name (parts_of container.now).read.video (parts_of container.now).read.audio packing) }
{
    let name = part::part_at(container, old_film::NAME, film.name);
    // The film was planned, so it is written.
    let _ = write::write(name, b"", b"", packing, out);
    let start = frame - write_plan::ends_size(packing.audio);
    let left = word::left_from(container, film.start);
    let chunks = part::part_at(container, film.start, left);
    let at = move_turns(out, start, chunks, Form::Old, Form::New, film.audio);
    put_ends(out, at, packing.audio);
}

// Moves a film of the builder that has `frame` bytes without its turns.
fn move_turned(
    container: &[u8],
    film: OldFilm,
    packing: Packing,
    frame: usize,
    out: &mut [u8],
) -> Result<usize, Refusal>
    requires { (length container.now ≤ 0x40000000) × (film ≡ film_by (parts_of container.now)) × (packing.key ≡ None) × (planned_of (parts_of container.now).name [] [] packing ≡ Ok frame) }
    ensures { WritingOf (parts_of container.now).name (parts_of container.now).read.video (parts_of container.now).read.audio packing out.old result out.new }
{
    let planned = plan_turns(frame, film.turns);
    let size = lent::written_in(out.len(), planned)?;
    put_moved(out, container, film, packing, frame);
    Ok(size)
}

// Moves a film of the builder.
fn move_film(
    container: &[u8],
    film: OldFilm,
    packing: Packing,
    out: &mut [u8],
) -> Result<usize, Refusal>
    requires { (length container.now ≤ 0x40000000) × (film ≡ film_by (parts_of container.now)) × (packing.key ≡ None) }
    ensures { WritingOf (parts_of container.now).name (parts_of container.now).read.video (parts_of container.now).read.audio packing out.old result out.new }
{
    let name = part::part_at(container, old_film::NAME, film.name);
    let frame = write_plan::plan(name, b"", b"", packing)?;
    move_turned(container, film, packing, frame, out)
}

// Why a container is refused that is no film of the builder with at most one audio.
fn cause_of(container: &[u8]) -> Cause
    ensures { result ≡ cause_of container.now }
{
    if old_film_many::is_many(container) {
        return Cause::ManyAudios;
    }
    Cause::Foreign
}

// Moves a film of the old builder, with at most one audio, to request 1's container, with the codecs that are given, and answers its size.
// Bytes past it stay; a refusal leaves the output as it was.
pub fn from_old(
    container: &[u8],
    mpeg_codec: Option<u32>,
    audio_codec: Option<u32>,
    out: &mut [u8],
) -> Result<usize, Refusal>
    ensures { FromOld container.now mpeg_codec audio_codec out.old result out.new }
{
    if LONGEST < container.len() {
        return refusal::refused(Cause::TooLong, 0);
    }
    match old_film::find(container) {
        Some(film) => {
            let packing = packing_of(film.audio, mpeg_codec, audio_codec);
            move_film(container, film, packing, out)
        }
        None => refusal::refused(cause_of(container), 0),
    }
}
