// Prints the lines of stored containers, each below its title: example F, whole, cut and
// padded, chunks of every kind, refusals, and F's payloads. The gate compares them with the file stdout.
#![tactic(auto)]

use descriptors::STDOUT_FILENO;
use reading::{Applied, AudioChoice, PayloadMode};

// Stores bytes in a film from a place on, as far as it goes.
fn store(film: &mut [u8], place: usize, bytes: &[u8]) {
    for (stored, byte) in film.iter_mut().skip(place).zip(bytes) {
        *stored = *byte;
    }
}

// The first two blocks of a film, with empty tables: `CRID`, `@SFV`.
fn store_tables(film: &mut [u8]) {
    store(film, 0, b"CRID\0\0\0\x38");
    store(film, 32, b"@UTF\0\0\0\x18");
    store(film, 64, b"@SFV\0\0\0\x38");
    store(film, 96, b"@UTF\0\0\0\x18");
}

// F's header: its chunks begin at 320.
fn store_header(film: &mut [u8]) {
    store_tables(film);
    store(film, 128, b"@SFV\0\0\0\x38");
    store(film, 160, b"#HEADER END");
    store(film, 192, b"@SFV\0\0\0\x38");
    store(film, 224, b"@UTF\0\0\0\x18");
    store(film, 256, b"@SFV\0\0\0\x38");
    store(film, 288, b"#METADATA END");
}

// F's chunks: a payload of 32 bytes, and an end.
fn store_chunks(film: &mut [u8]) {
    store(film, 320, b"@SFV\0\0\0\x38\0\x18");
    store(film, 384, b"@SFV\0\0\0\x38\0\x18");
    store(film, 416, b"#CONTENTS END");
}

// Prints a title and the lines of the first bytes of a film.
fn case(title: &[u8], film: &[u8], size: usize) {
    if let Some(container) = film.get(..size) {
        io::write_all(STDOUT_FILENO, title);
        chunks_print::print(container);
    }
}

// F with zeros after it.
fn padded(film: &[u8]) {
    case(b"F\n", film, 448);
    case(b"F followed by zeros, 451 bytes\n", film, 451);
    case(b"452 bytes\n", film, 452);
    case(b"492 bytes\n", film, 492);
    case(b"493 bytes\n", film, 493);
}

// F cut.
fn cut(film: &[u8]) {
    case(b"F cut to 429 bytes\n", film, 429);
    case(b"428 bytes\n", film, 428);
    case(b"319 bytes\n", film, 319);
    case(b"301 bytes\n", film, 301);
    case(b"300 bytes\n", film, 300);
    case(b"3 bytes\n", film, 3);
}

// F at other lengths.
fn lengths() {
    let mut film = [0u8; 512];
    store_header(&mut film);
    store_chunks(&mut film);
    padded(&film);
    cut(&film);
}

// Chunks of every kind, with numbers above 3 in byte 15 and each with a channel of its own. The header has no audio, so `@SFA` is skipped.
fn kinds() {
    let mut film = [0u8; 640];
    store_header(&mut film);
    store(&mut film, 320, b"@SFV\0\0\0\x38\0\x10\0\x08\x01\0\0\x05");
    store(&mut film, 384, b"@SFA\0\0\0\x38\0\x18\0\0\x02\0\0\x06");
    store(&mut film, 448, b"@SBT\0\0\0\x38\xFF\xFF\0\0\xFF\0\0\xFF");
    store(&mut film, 512, b"@SFV\0\0\0\x38\xFF\xFF\0\0\x07\0\0\x04");
    store(&mut film, 544, b"#CONTENTS END");
    store(&mut film, 576, b"@SFA\0\0\0\x38\0\x18\0\0\x64\0\0\x0A");
    store(&mut film, 608, b"#CONTENTS END");
    case(b"every kind\n", &film, 640);
}

// A payload of 10,000 bytes.
fn long_payload() {
    let mut film = [0u8; 10416];
    store_header(&mut film);
    store(&mut film, 320, b"@SFV\0\0\x27\x28\0\x18");
    store(&mut film, 10352, b"@SFV\0\0\0\x38\0\x18");
    store(&mut film, 10384, b"#CONTENTS END");
    case(b"a payload of 10,000 bytes\n", &film, 10416);
}

// The blocks of a header with audio, before its metadata.
fn store_audio_tables(film: &mut [u8]) {
    store_tables(film);
    store(film, 128, b"@SFA\0\0\0\x38");
    store(film, 160, b"@UTF\0\0\0\x18");
    store(film, 192, b"@SFV\0\0\0\x38");
    store(film, 224, b"#HEADER END");
    store(film, 256, b"@SFA\0\0\0\x38");
    store(film, 288, b"#HEADER END");
}

// The tables of its metadata.
fn store_metadata(film: &mut [u8]) {
    store(film, 320, b"@SFV\0\0\0\x38");
    store(film, 352, b"@UTF\0\0\0\x18");
    store(film, 384, b"@SFA\0\0\0\x38");
    store(film, 416, b"@UTF\0\0\0\x18");
}

// A header with audio: its chunks begin at 576.
fn store_audio_header(film: &mut [u8]) {
    store_audio_tables(film);
    store_metadata(film);
    store(film, 448, b"@SFV\0\0\0\x38");
    store(film, 480, b"#METADATA END");
    store(film, 512, b"@SFA\0\0\0\x38");
    store(film, 544, b"#METADATA END");
}

// Audio that is taken, and that is expected and not there.
fn audio() {
    let mut film = [0u8; 704];
    store_audio_header(&mut film);
    store(&mut film, 576, b"@SFA\0\0\0\x38\0\x18\0\0\0\0\0\x01");
    store(&mut film, 640, b"@SFV\0\0\0\x38\0\x18\0\0\0\0\0\x02");
    case(b"audio\n", &film, 704);
    store(&mut film, 512, b"@SFV");
    case(b"no audio where it is expected\n", &film, 704);
}

// Prints a title and the lines of F with other bytes at a place.
fn altered(title: &[u8], place: usize, bytes: &[u8]) {
    let mut film = [0u8; 448];
    store_header(&mut film);
    store_chunks(&mut film);
    store(&mut film, place, bytes);
    case(title, &film, 448);
}

// Blocks that are not what is expected.
fn wrong_blocks() {
    altered(b"no CRID\n", 0, b"CRIB");
    altered(b"a block that leads past the end\n", 4, b"\xFF\xFF\xFF\xFF");
    altered(b"no @SFV\n", 64, b"@SFA");
    altered(b"no #HEADER END\n", 160, b"#HEADER AND");
    altered(b"no #METADATA END\n", 288, b"#METADATA AND");
}

// Tables that are refused. The last has one column: its byte 0x20 says a constant of type 7.
fn wrong_tables() {
    altered(b"no @UTF\n", 96, b"@UTE");
    altered(b"a table size of 23\n", 100, b"\0\0\0\x17");
    altered(b"65 columns\n", 120, b"\0\x41");
    altered(
        b"a column of type 7\n",
        96,
        b"@UTF\0\0\0\x20\0\0\0\0\0\0\0\x1D\0\0\0\0\0\0\0\0\0\x01\0\0\0\0\0\0\x37\0\0\0\0\0\0\0",
    );
}

// Chunks that are refused.
fn wrong_chunks() {
    altered(
        b"a block below header plus footer size\n",
        328,
        b"\0\x18\0\x21",
    );
    altered(b"a payload that leads past the end\n", 324, b"\0\0\x01\0");
}

// Prints a place and how many bytes the payload reader hands back there.
fn payload_at(film: &[u8], place: usize) {
    let reading = Applied {
        audio: AudioChoice::Chosen,
        payloads: PayloadMode::Original,
    };
    let payload = chunk::read_payload(film, place, reading);
    io::print_decimal(STDOUT_FILENO, place as u64);
    io::write_all(STDOUT_FILENO, b" ");
    io::print_decimal(STDOUT_FILENO, payload.len() as u64);
    io::write_all(STDOUT_FILENO, b"\n");
}

// The payloads of F: that of its video chunk, and none at its end chunk, past it, and as far past it as can be.
fn payloads() {
    let mut film = [0u8; 448];
    store_header(&mut film);
    store_chunks(&mut film);
    io::write_all(STDOUT_FILENO, b"payloads of F\n");
    payload_at(&film, 320);
    payload_at(&film, 384);
    payload_at(&film, 448);
    payload_at(&film, 0xFFFF_FFFF_FFFF_FFFF);
}

fn main() {
    lengths();
    kinds();
    long_payload();
    audio();
    wrong_blocks();
    wrong_tables();
    wrong_chunks();
    payloads();
}
