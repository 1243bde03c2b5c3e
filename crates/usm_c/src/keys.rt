// The bits of a key that a film shows, for C.
ghost use Rattle.std.specs.Prelude.{◌≡◌};
ghost use Rattle.reading.specs.Choices.{reading_by};
ghost use Rattle.film.specs.Films.{film_of};
ghost use Rattle.key_shown.specs.KeyBits.{key_bits_in, key_bits_reply};
ghost use Rattle.unmasking.specs.Unmasking.{mask_by};
ghost use Rattle.pieces_bits.specs.PayloadBits.{payload_bits};

use key_shown::KeyBitsReply;
use reading::ReadingBytes;

// The bits of a key that a film shows: its two streams are the same under two keys exactly when these agree in them.
#[unsafe(no_mangle)]
pub extern "C" fn usm_key_bits(container: &[u8], reading: ReadingBytes) -> KeyBitsReply
    ensures { result ≡ key_bits_reply (key_bits_in (film_of container.now (reading_by reading))) }
{
    usm::keys::usm_key_bits(container, reading)
}

// The bits of a key that one payload shows, by the number of its mask and its length: the largest number of a film's payloads
// is that of the film.
#[unsafe(no_mangle)]
pub extern "C" fn usm_payload_bits(mask: u8, length: usize) -> u64
    ensures { result ≡ payload_bits (mask_by mask) length }
{
    usm::keys::usm_payload_bits(mask, length)
}
