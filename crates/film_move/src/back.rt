// From request 1's container to the old builder's. Rule O11.
ghost use Rattle.std.specs.Prelude.{◌≡◌, true, [], ◌++◌, ◌+◌, ◌≤◌, length};
ghost use Rattle.std.proofs.lemmas.List.Edits.{sets};
ghost use Rattle.laws.specs.Outputs.{Put};
ghost use Rattle.signature.specs.Signatures.{CRID, SFV};
ghost use Rattle.turns.specs.declared.Form.TheVariants as form;
ghost use Rattle.turns.specs.Turns.{stream_size};
ghost use Rattle.old_film.specs.Blocks.{table_block};
ghost use Rattle.old_film.specs.Tables.{old_names, old_video};
ghost use Rattle.old_film.specs.Films.{audio_blocks, old_ends};
ghost use Rattle.old_film.specs.Finding.{name_size, audios_of};
ghost use Rattle.moved_film.specs.Finding.{parts_of, is_new, film_by};
ghost use Rattle.film_move.specs.ToOld.{old_of, ToOld};

use crate::putting::{move_turns, put, put_zeros};
use moved_film::NewFilm;
use refusal::{Cause, LONGEST, Refusal};
use turns::Form;

// Puts the builder's first block, with a film's name.
fn put_name(out: &mut [u8], at: usize, name: &[u8]) -> usize
    requires { (at + length (table_block CRID (old_names name.now)) ≤ length out.old) × (length name.now ≤ 0x40000000) }
    ensures { Put (table_block CRID (old_names name.now)) out.old at out.new result }
{
    let len = name.len();
    let head = old_film::name_head(len as u32);
    let at = put(out, at, &head);
    let at = put(out, at, name);
    put_zeros(out, at, 1 + word::padding(97 + len))
}

// Puts the blocks of a video of `video` bytes and, if there is one, of the audio.
fn put_blocks(out: &mut [u8], at: usize, video: usize, audio: bool) -> usize
    requires { at + length (table_block SFV (old_video video) ++ audio_blocks 0 (audios_of audio [])) ≤ length out.old }
    ensures { Put (table_block SFV (old_video video) ++ audio_blocks 0 (audios_of audio [])) out.old at out.new result }
{
    let block = old_film::video_block(video);
    let at = put(out, at, &block);
    if audio {
        let block = old_film::audio_block(0);
        return put(out, at, &block);
    }
    at
}

// Puts the end of each stream that there is, as the builder does.
fn put_ends(out: &mut [u8], at: usize, audio: bool) -> usize
    requires { at + length (old_ends (audios_of audio [])) ≤ length out.old }
    ensures { Put (old_ends (audios_of audio [])) out.old at out.new result }
{
    let end = b"@END\0\0\0\x18\0\x01\0\x18\0\0\0\0\0\0\0\0\0\0\0\0\0\0\0\0";
    let at = put(out, at, end);
    if audio {
        return put(out, at, end);
    }
    at
}

// The size of the blocks of all streams, and of their ends.
fn blocks_size(audio: bool) -> usize
    ensures { result ≡ 0x80 + (length (audio_blocks 0 (audios_of audio [])) + length (old_ends (audios_of audio []))) }
{
    if audio {
        return 0x80 + 0x60 + 2 * 28;
    }
    0x80 + 28
}

// The size of a film as the builder's.
fn old_size(film: NewFilm) -> usize
    requires { (film.name ≤ 0x40000000) × (film.turns.video ≤ 0x40000000) × (film.turns.audio ≤ 0x40000000) }
    ensures { result ≡ name_size film.name + (0x80 + (length (audio_blocks 0 (audios_of film.packing.audio [])) + length (old_ends (audios_of film.packing.audio [])))) + (stream_size form.Old film.turns.video + stream_size form.Old film.turns.audio) }
{
    let len = 97 + film.name;
    let frame = len + word::padding(len) + blocks_size(film.packing.audio);
    let video = turns::stream_size(Form::Old, film.turns.video as u32);
    let audio = turns::stream_size(Form::Old, film.turns.audio as u32);
    frame + (video + audio)
}

// Puts a film as the builder's at the start of the output.
fn put_back(out: &mut [u8], container: &[u8], film: NewFilm)
    requires { (length container.now ≤ 0x40000000) × (is_new container.now ≡ true) × (film ≡ film_by (parts_of container.now)) × (length (old_of (parts_of container.now)) ≤ length out.old) }
    ensures { out.new ≡ sets out.old 0 (old_of (parts_of container.now)) }
{
    let name = part::part_at(container, moved_film::NAME, film.name);
    let at = put_name(out, 0, name);
    let at = put_blocks(out, at, film.turns.video, film.packing.audio);
    let left = word::left_from(container, film.start);
    let chunks = part::part_at(container, film.start, left);
    let at = move_turns(out, at, chunks, Form::New, Form::Old, film.packing.audio);
    put_ends(out, at, film.packing.audio);
}

// Moves a film that the move writes back to the builder's container.
fn move_back(container: &[u8], film: NewFilm, out: &mut [u8]) -> Result<usize, Refusal>
    requires { (length container.now ≤ 0x40000000) × (is_new container.now ≡ true) × (film ≡ film_by (parts_of container.now)) }
    ensures { ToOld container.now out.old result out.new }
{
    let size = old_size(film);
    let size = lent::written_in(out.len(), Ok(size))?;
    put_back(out, container, film);
    Ok(size)
}

// Moves a film from request 1's container, where the move writes it, to the old builder's, and answers its size.
// Bytes past it stay; a refusal leaves the output as it was.
pub fn to_old(container: &[u8], out: &mut [u8]) -> Result<usize, Refusal>
    ensures { ToOld container.now out.old result out.new }
{
    if LONGEST < container.len() {
        return refusal::refused(Cause::TooLong, 0);
    }
    match moved_film::find(container) {
        Some(film) => move_back(container, film, out),
        None => refusal::refused(Cause::Foreign, 0),
    }
}
