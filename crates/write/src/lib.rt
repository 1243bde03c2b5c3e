// Writes a film that our own extractor reads: name, video, optional audio, optional codecs and optional key become a container
// in a lent output. What is answered is decided before a byte is written; payloads are copied into place and masked there. Rules W1 to W9.
// From the Rust: nothing. Its builder writes another container.
#![tactic(auto)]

ghost use Rattle.std.specs.Prelude.{◌≡◌, ◌+◌, ◌≤◌, ◌<◌, ◌^◌, length, drop};
ghost use Rattle.std.proofs.lemmas.List.Edits.{sets};
ghost use Rattle.laws.specs.Outputs.{Put};
ghost use Rattle.word.specs.Bytes.{zeros, padding};
ghost use Rattle.write_blocks.specs.Blocks.{head_of, block_of};
ghost use Rattle.write_blocks.specs.Tables.{table_with, codec_table};
ghost use Rattle.write_plan.specs.Payloads.{stored_as};
ghost use Rattle.write_plan.specs.Films.{letters_of, bytes_of, in_each, codec_in, header_blocks, next_chunk, chunk_blocks, film_bytes};
ghost use Rattle.write.specs.Writing.{Writing, HeaderWriting, HeadWriting, ends_of, EndsWriting};

use refusal::Refusal;
use unmasking::Unmasking;
use write_blocks::PAYLOAD;
use write_plan::{Packing, Stream};

// The type of a name's column: data, stored in the row.
const NAME: u8 = 0x5B;

// The type of a codec's column: a u32, stored in the row.
const CODEC: u8 = 0x54;

// The bytes of a table beside its cell, its column's name and its data.
const TABLE: usize = 38;

// The bytes of a block's head.
const HEAD: usize = 0x20;

// ---- bytes into the output, from a place on; each answers where they end

// Puts bytes.
fn put(out: &mut [u8], at: usize, bytes: &[u8]) -> usize
    requires { at + length bytes.now ≤ length out.old }
    ensures { Put bytes.now out.old at out.new result }
{
    let end = at + bytes.len();
    out[at..end].copy_from_slice(bytes);
    end
}

// Puts zeros.
fn put_zeros(out: &mut [u8], at: usize, count: usize) -> usize
    requires { (at + count ≤ length out.old) × (count ≤ 0x20) }
    ensures { Put (zeros count) out.old at out.new result }
{
    let none = [0u8; 32];
    put(out, at, &none[..count])
}

// Puts the zeros that `len` bytes lack to a multiple of 0x20.
fn put_padding(out: &mut [u8], at: usize, len: usize) -> usize
    requires { at + padding len ≤ length out.old }
    ensures { Put (zeros (padding len)) out.old at out.new result }
{
    put_zeros(out, at, word::padding(len))
}

// Puts the head of a block that holds `len` bytes.
fn put_head(out: &mut [u8], at: usize, letters: usize, len: usize) -> usize
    requires { (at + 0x20 ≤ length out.old) × (len < 2 ^ 32) }
    ensures { Put (head_of letters len) out.old at out.new result }
{
    let head = write_blocks::block_head(letters, len as u32);
    put(out, at, &head)
}

// Puts a block.
fn put_block(out: &mut [u8], at: usize, letters: usize, inside: &[u8]) -> usize
    requires { (at + length (block_of letters inside.now) ≤ length out.old) × (length inside.now < 2 ^ 32) }
    ensures { Put (block_of letters inside.now) out.old at out.new result }
{
    let at = put_head(out, at, letters, inside.len());
    let at = put(out, at, inside);
    put_padding(out, at, inside.len())
}

// Puts a table with one column and one row.
fn put_table(out: &mut [u8], at: usize, tag: u8, column: &[u8], cell: &[u8], blob: &[u8]) -> usize
    requires { (at + length (table_with tag column.now cell.now blob.now) ≤ length out.old) × (length column.now < 2 ^ 16) × (length cell.now < 2 ^ 16) × (length blob.now < 2 ^ 31) }
    ensures { Put (table_with tag column.now cell.now blob.now) out.old at out.new result }
{
    let head = write_blocks::table_head(
        tag,
        cell.len() as u32,
        column.len() as u32,
        blob.len() as u32,
    );
    let at = put(out, at, &head);
    let at = put(out, at, cell);
    let at = put(out, at, column);
    let at = put(out, at, b"\0");
    put(out, at, blob)
}

// Puts a block with such a table.
fn put_table_block(
    out: &mut [u8],
    at: usize,
    letters: usize,
    tag: u8,
    column: &[u8],
    cell: &[u8],
    blob: &[u8],
) -> usize
    requires { (at + length (block_of letters (table_with tag column.now cell.now blob.now)) ≤ length out.old) × (length column.now < 2 ^ 16) × (length cell.now < 2 ^ 16) × (length blob.now < 2 ^ 31) }
    ensures { Put (block_of letters (table_with tag column.now cell.now blob.now)) out.old at out.new result }
{
    let len = TABLE + cell.len() + column.len() + blob.len();
    let at = put_head(out, at, letters, len);
    let at = put_table(out, at, tag, column, cell, blob);
    put_padding(out, at, len)
}

// ---- the header

// Puts the block that says a codec, or that there is none.
fn put_codec(out: &mut [u8], at: usize, letters: usize, column: &[u8], codec: Option<u32>) -> usize
    requires { (at + length (block_of letters (codec_table column.now codec)) ≤ length out.old) × (length column.now < 2 ^ 16) }
    ensures { Put (block_of letters (codec_table column.now codec)) out.old at out.new result }
{
    match codec {
        Some(number) => {
            let cell = word::bytes32(number);
            put_table_block(out, at, letters, CODEC, column, &cell, b"")
        }
        None => put_block(
            out,
            at,
            letters,
            b"@UTF\0\0\0\x18\0\0\0\0\0\0\0\0\0\0\0\0\0\0\0\0\0\0\0\0\0\0\0\0",
        ),
    }
}

// Puts the blocks that say the codecs.
fn put_codecs(out: &mut [u8], at: usize, packing: Packing) -> usize
    requires { at + length (bytes_of (in_each packing.audio (codec_in packing))) ≤ length out.old }
    ensures { Put (bytes_of (in_each packing.audio (codec_in packing))) out.old at out.new result }
{
    let video = packing.mpeg_codec;
    let audio = packing.audio_codec;
    let at = put_codec(out, at, signature::SFV, b"mpeg_codec", video);
    if packing.audio {
        return put_codec(out, at, signature::SFA, b"audio_codec", audio);
    }
    at
}

// Puts a block for each stream that there is, video first. They hold the same.
fn put_each(out: &mut [u8], at: usize, audio: bool, inside: &[u8]) -> usize
    requires { (at + length (bytes_of (in_each audio (λ stream. inside.now))) ≤ length out.old) × (length inside.now < 2 ^ 32) }
    ensures { Put (bytes_of (in_each audio (λ stream. inside.now))) out.old at out.new result }
{
    let at = put_block(out, at, signature::SFV, inside);
    if audio {
        return put_block(out, at, signature::SFA, inside);
    }
    at
}

// Puts the header at the start of the output.
fn put_header(out: &mut [u8], name: &[u8], packing: Packing) -> usize
    requires { (length (bytes_of (header_blocks name.now packing)) ≤ length out.old) × (length name.now < 2 ^ 31) }
    ensures { Put (bytes_of (header_blocks name.now packing)) out.old 0 out.new result }
{
    let audio = packing.audio;
    let cell = write_blocks::name_cell(name.len() as u32);
    let at = put_table_block(out, 0, signature::CRID, NAME, b"filename", &cell, name);
    let at = put_codecs(out, at, packing);
    let at = put_each(
        out,
        at,
        audio,
        b"#HEADER END\0\0\0\0\0\0\0\0\0\0\0\0\0\0\0\0\0\0\0\0\0",
    );
    let at = put_each(
        out,
        at,
        audio,
        b"@UTF\0\0\0\x18\0\0\0\0\0\0\0\0\0\0\0\0\0\0\0\0\0\0\0\0\0\0\0\0",
    );
    put_each(
        out,
        at,
        audio,
        b"#METADATA END\0\0\0\0\0\0\0\0\0\0\0\0\0\0\0\0\0\0\0",
    )
}

// ---- the chunks

// Masks a payload as it is stored.
fn mask_payload(payload: &mut [u8], stream: Stream, unmasking: Unmasking)
    ensures { payload.new ≡ stored_as unmasking stream payload.old }
{
    let keys = unmasking.keys;
    match stream {
        Stream::Video => {
            if unmasking.video {
                mask::mask_video(payload, keys);
            }
        }
        Stream::Audio => {
            if unmasking.audio {
                mask::mask_audio(payload, keys);
            }
        }
    }
}

// Puts a payload, and masks it there.
fn put_payload(
    out: &mut [u8],
    at: usize,
    stream: Stream,
    payload: &[u8],
    unmasking: Unmasking,
) -> usize
    requires { at + length payload.now ≤ length out.old }
    ensures { Put (stored_as unmasking stream payload.now) out.old at out.new result }
{
    let end = at + payload.len();
    out[at..end].copy_from_slice(payload);
    mask_payload(&mut out[at..end], stream, unmasking);
    end
}

// The letters of a stream's blocks.
fn letters_of(stream: Stream) -> usize
    ensures { result ≡ letters_of stream }
{
    match stream {
        Stream::Video => signature::SFV,
        Stream::Audio => signature::SFA,
    }
}

// Puts a chunk with a payload.
fn put_chunk(
    out: &mut [u8],
    at: usize,
    stream: Stream,
    payload: &[u8],
    unmasking: Unmasking,
) -> usize
    requires { (at + length (block_of (letters_of stream) (stored_as unmasking stream payload.now)) ≤ length out.old) × (length payload.now < 2 ^ 32) }
    ensures { Put (block_of (letters_of stream) (stored_as unmasking stream payload.now)) out.old at out.new result }
{
    let at = put_head(out, at, letters_of(stream), payload.len());
    let at = put_payload(out, at, stream, payload, unmasking);
    put_padding(out, at, payload.len())
}

// Puts the chunk whose payload begins at a byte of a stream, if the stream has that byte.
fn put_next(
    out: &mut [u8],
    at: usize,
    stream: Stream,
    bytes: &[u8],
    from: usize,
    unmasking: Unmasking,
) -> usize
    requires { at + length (bytes_of (next_chunk unmasking stream (drop from bytes.now))) ≤ length out.old }
    ensures { Put (bytes_of (next_chunk unmasking stream (drop from bytes.now))) out.old at out.new result }
{
    if bytes.len() <= from {
        return at;
    }
    put_chunk(
        out,
        at,
        stream,
        write_plan::payload_from(bytes, from),
        unmasking,
    )
}

// Puts the chunks of both streams by turns.
fn put_chunks(
    out: &mut [u8],
    start: usize,
    video: &[u8],
    audio: &[u8],
    unmasking: Unmasking,
) -> usize
    requires { (start + length (bytes_of (chunk_blocks unmasking video.now audio.now)) ≤ length out.old) × (length video.now < 2 ^ 32) × (length audio.now < 2 ^ 32) }
    ensures { Put (bytes_of (chunk_blocks unmasking video.now audio.now)) out.old start out.new result }
{
    let longest = video.len().max(audio.len());
    let mut at = start;
    for round in 0..longest.div_ceil(PAYLOAD) {
        let from = round * PAYLOAD;
        let middle = put_next(out, at, Stream::Video, video, from, unmasking);
        let end = put_next(out, middle, Stream::Audio, audio, from, unmasking);
        at = end;
    }
    at
}

// ---- the ends

// Puts the end of each stream that there is, video first.
fn put_ends(out: &mut [u8], at: usize, audio: bool) -> usize
    requires { at + length (ends_of audio) ≤ length out.old }
    ensures { Put (ends_of audio) out.old at out.new result }
{
    put_each(
        out,
        at,
        audio,
        b"#CONTENTS END\0\0\0\0\0\0\0\0\0\0\0\0\0\0\0\0\0\0\0",
    )
}

// ---- the film

// Puts a film at the start of the output.
fn put_film(out: &mut [u8], name: &[u8], video: &[u8], audio: &[u8], packing: Packing)
    requires { (length (film_bytes name.now video.now audio.now packing) ≤ length out.old) × (length (film_bytes name.now video.now audio.now packing) ≤ 0x40000000) }
    ensures { out.new ≡ sets out.old 0 (film_bytes name.now video.now audio.now packing) }
{
    let key = packing.key;
    let codec = packing.audio_codec;
    let unmasking = unmasking::unmasking_of(key, codec);
    let at = put_header(out, name, packing);
    let at = put_chunks(out, at, video, audio, unmasking);
    put_ends(out, at, packing.audio);
}

// Writes a film into an output, and answers its size. Bytes past it stay; a refusal leaves the output as it was.
// Where there is no audio, `audio` is not looked at.
pub fn write(
    name: &[u8],
    video: &[u8],
    audio: &[u8],
    packing: Packing,
    out: &mut [u8],
) -> Result<usize, Refusal>
    ensures { Writing name.now video.now audio.now packing out.old result out.new }
{
    let planned = write_plan::plan(name, video, audio, packing);
    let size = lent::written_in(out.len(), planned)?;
    let audio = write_plan::audio_in(packing, audio);
    put_film(out, name, video, audio, packing);
    Ok(size)
}

// ---- the pieces of a film that hold no payload, each at the start of an output of its own

// Writes the header of a film whose streams have these lengths, and answers its size. Where there is no audio, its length is not looked at.
pub fn write_header(
    name: &[u8],
    video: usize,
    audio: usize,
    packing: Packing,
    out: &mut [u8],
) -> Result<usize, Refusal>
    ensures { HeaderWriting name.now video audio packing out.old result out.new }
{
    let planned = write_plan::plan_header(name.len(), video, audio, packing);
    let size = lent::written_in(out.len(), planned)?;
    put_header(out, name, packing);
    Ok(size)
}

// Writes the head of a chunk whose payload has `len` bytes, and answers its size.
pub fn write_head(stream: Stream, len: u32, out: &mut [u8]) -> Result<usize, Refusal>
    ensures { HeadWriting stream len out.old result out.new }
{
    let size = lent::written_in(out.len(), Ok(HEAD))?;
    put_head(out, 0, letters_of(stream), len as usize);
    Ok(size)
}

// Writes the ends of the streams, with audio or without, and answers their size.
pub fn write_ends(audio: bool, out: &mut [u8]) -> Result<usize, Refusal>
    ensures { EndsWriting audio out.old result out.new }
{
    let planned = Ok(write_plan::ends_size(audio));
    let size = lent::written_in(out.len(), planned)?;
    put_ends(out, 0, audio);
    Ok(size)
}
