// A film: what its header says, and its chunks from where the header ends, measured.
// Rules R: 11 first, "then the walk's first refusal in reading order".
// From the Rust: `extract_usm_to_memory`, up to where it takes the bytes.
#![tactic(auto)]

ghost use Rattle.std.specs.Prelude.{◌≡◌};
ghost use Rattle.film.specs.Films.{survey_of, film_from, film_of};

use header::Header;
use reading::{Applied, Reading};
use refusal::Refusal;
use walk::Sizes;

// What is known of a film before a byte of its streams is taken, and how it is read.
#[derive(Clone, Copy)]
pub struct Surveyed {
    pub header: Header,
    pub reading: Applied,
    pub count: usize,
    pub video: usize,
    pub audio: usize,
}

// A film's chunks, measured from where its header ends.
fn measure_chunks(container: &[u8], header: Header, reading: Reading) -> Result<Surveyed, Refusal>
    ensures { result ≡ survey_of (film_from container.now reading header) }
{
    let applied = reading::applied_to(header.audio, reading);
    let Sizes {
        count,
        video,
        audio,
    } = walk::measure(container, header.start, applied)?;
    Ok(Surveyed {
        header,
        reading: applied,
        count,
        video,
        audio,
    })
}

// A film's header, the count of its chunks and both sizes, or why it is refused.
pub fn survey(container: &[u8], reading: Reading) -> Result<Surveyed, Refusal>
    ensures { result ≡ survey_of (film_of container.now reading) }
{
    let header = header::read_header(container, reading)?;
    measure_chunks(container, header, reading)
}
