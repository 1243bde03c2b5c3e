// What two keys make of one film, for C: why the streams are the same, or the first byte at which they differ. Rules D.
ghost use Rattle.std.specs.Prelude.{◌≡◌};
ghost use Rattle.reading.specs.Choices.{reading_by};
ghost use Rattle.film.specs.Films.{film_of};
ghost use Rattle.unmasking.specs.Unmasking.{mask_by};
ghost use Rattle.key_apart.specs.PayloadsApart.{apart_in};
ghost use Rattle.film_apart.specs.FilmsApart.{film_apart, apart_reply};
ghost use Rattle.film_apart.specs.Reasons.{why_same, why_number};

use film_apart::ApartReply;
use reading::ReadingBytes;

// Where the streams of a film first differ under two keys, or that they are the same, or why the film is refused.
#[unsafe(no_mangle)]
pub extern "C" fn usm_apart(
    container: &[u8],
    reading: ReadingBytes,
    key: u64,
    other: u64,
) -> ApartReply
    ensures { result ≡ apart_reply (film_apart key other (film_of container.now (reading_by reading))) }
{
    usm::partings::usm_apart(container, reading, key, other)
}

// The first byte of one payload that differs under two keys, or its length, by the number of its mask. `mask` is what its step gave.
#[unsafe(no_mangle)]
pub extern "C" fn usm_payload_apart(mask: u8, length: usize, key: u64, other: u64) -> usize
    ensures { result ≡ apart_in (mask_by mask) key other length }
{
    usm::partings::usm_payload_apart(mask, length, key, other)
}

// Why two keys give the same streams of a film that shows these bits of a key, or 0 where they do not.
#[unsafe(no_mangle)]
pub extern "C" fn usm_why(bits: u64, key: u64, other: u64) -> u8
    ensures { result ≡ why_number (why_same bits key other) }
{
    usm::partings::usm_why(bits, key, other)
}
