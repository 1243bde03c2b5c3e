// Whether a container is one that the move from the old builder writes: request 1's, without a key, for a name that is UTF-8.
// Recognising is rebuilding: the parts are read as every film's are, and what is written from them is compared with the container. Rule O10.
// From the Rust: nothing. Its builder writes another container.
#![tactic(auto)]

ghost use Rattle.std.specs.Prelude.{◌≡◌, ◌&&◌, not, false, ◌++◌, ◌≤◌, length, None};
ghost use Rattle.signature.specs.Signatures.{CRID, contents_end, stands_at};
ghost use Rattle.write_blocks.specs.Blocks.{block_of};
ghost use Rattle.write_blocks.specs.Tables.{marker_of, name_table};
ghost use Rattle.write_plan.specs.Films.{bytes_of, in_each, header_blocks, end_blocks};
ghost use Rattle.write_plan.specs.Planning.{is_given};
ghost use Rattle.moved_film.specs.Finding.{packing_by, parts_from, found_as, found_in};

use header::Header;
use reading::AudioChoice;
use turns::{Form, Turns};
use write_plan::Packing;

// A film of request 1 without a key: the length of its name, how it is packed, where its chunks start, and what they hold.
#[derive(Clone, Copy)]
pub struct NewFilm {
    pub name: usize,
    pub packing: Packing,
    pub start: usize,
    pub turns: Turns,
}

// Where a name stands.
pub const NAME: usize = 86;

// Where the cell of a name stands, with its length.
const CELL: usize = 69;

// Where the name of its column stands.
const COLUMN: usize = 77;

// The type of a name's column.
const TAG: u8 = 0x5B;

// The bytes of a name's table beside the name.
const TABLE: usize = 54;

// The size of the first block where there is no name.
const FIRST: usize = 0x60;

// The size of the longest film without a name and without a payload.
const FRAME: usize = 800;

// One and the other.
fn both(some: bool, other: bool) -> bool
    ensures { result ≡ (some && other) }
{
    if some {
        return other;
    }
    false
}

// Whether the first block stands at the front, with this name.
fn name_stands(container: &[u8], name: &[u8]) -> bool
    requires { length name.now ≤ 0x40000000 }
    ensures { result ≡ stands_at (block_of CRID (name_table name.now)) container.now 0 }
{
    let len = name.len();
    let inside = TABLE + len;
    let head = write_blocks::block_head(signature::CRID, inside as u32);
    let table = write_blocks::table_head(TAG, 8, 8, len as u32);
    let cell = write_blocks::name_cell(len as u32);
    let none = [0u8; 32];
    let pads = word::padding(inside);
    let zeros = signature::stands_at(&none[..pads], container, NAME + len);
    let named = both(signature::stands_at(name, container, NAME), zeros);
    let column = both(
        signature::stands_at(b"filename\0", container, COLUMN),
        named,
    );
    let celled = both(signature::stands_at(&cell, container, CELL), column);
    let tabled = both(
        signature::stands_at(&table, container, signature::INSIDE),
        celled,
    );
    both(signature::stands_at(&head, container, 0), tabled)
}

// What a container is, by its name and packing: `rest` is the header behind the name's block, and `ends` what closes the film.
fn rebuild(
    container: &[u8],
    name: &[u8],
    packing: Packing,
    rest: &[u8],
    ends: &[u8],
) -> Option<NewFilm>
    requires { (length name.now ≤ 0x40000000) × (packing.key ≡ None) × (bytes_of (header_blocks name.now packing) ≡ block_of CRID (name_table name.now) ++ rest.now) × (ends.now ≡ bytes_of (end_blocks packing)) }
    ensures { result ≡ found_as container.now (parts_from container.now name.now packing) }
{
    let len = name.len();
    let first = NAME + len + word::padding(TABLE + len);
    let start = first + rest.len();
    let chunks = part::part_at(container, start, word::left_from(container, start));
    let turns = turns::read_turns(chunks, Form::New, packing.audio);
    let end = start + turns.end;
    let close = word::left_from(container, end) == ends.len();
    let closed = both(signature::stands_at(ends, container, end), close);
    let around = both(signature::stands_at(rest, container, first), closed);
    let same = both(name_stands(container, name), around);
    if both(utf8::is_utf8(name), same) {
        return Some(NewFilm {
            name: len,
            packing,
            start,
            turns,
        });
    }
    None
}

// What a container is, by its name and packing. All blocks but the name's and the chunks are those of a film without either.
fn found_as(container: &[u8], name: &[u8], packing: Packing) -> Option<NewFilm>
    requires { (length name.now ≤ 0x40000000) × (packing.key ≡ None) × ((not packing.audio && is_given packing.audio_codec) ≡ false) }
    ensures { result ≡ found_as container.now (parts_from container.now name.now packing) }
{
    let mut frame = [0u8; FRAME];
    match write::write(b"", b"", b"", packing, &mut frame) {
        Ok(size) => {
            let ends = write_plan::ends_size(packing.audio);
            let cut = size - ends;
            let rest = part::part_at(&frame, FIRST, cut - FIRST);
            let last = part::part_at(&frame, cut, ends);
            rebuild(container, name, packing, rest, last)
        }
        Err(_) => None,
    }
}

// How a film is packed, by its header: as it is stored.
fn packing_by(head: Header) -> Packing
    ensures { result ≡ packing_by head }
{
    let mpeg_codec = head.mpeg_codec;
    let audio_codec = head.audio_codec;
    Packing {
        audio: head.audio,
        mpeg_codec,
        audio_codec,
        key: None,
    }
}

// What a container is.
pub fn find(container: &[u8]) -> Option<NewFilm>
    ensures { result ≡ found_in container.now }
{
    match header::read_header(container, reading::as_original(AudioChoice::Chosen)) {
        Ok(head) => {
            let place = head.name;
            let name = film_name::name_of(container, b"", place);
            found_as(container, name, packing_by(head))
        }
        Err(_) => None,
    }
}
