// Which payloads of a film are masked, and such a payload made clear in place.
// Rules C. From the Rust: the masks that `extract_usm_to_memory` chooses, and `read_usm_chunk_into`.
#![tactic(auto)]

ghost use Rattle.std.specs.Prelude.{◌≡◌};
ghost use Rattle.unmasking.specs.Unmasking.{key_by, is_adx, is_masked, unmasking_of, clear_video, clear_audio, video_mask, audio_mask, cleared_by, mask_number, mask_by};

use key::Keys;

// Which streams are masked, and with which tables.
#[derive(Clone, Copy)]
pub struct Unmasking {
    pub video: bool,
    pub audio: bool,
    pub keys: Keys,
}

// The mask that a payload has: none, or that of a stream.
#[derive(Clone, Copy, Debug, PartialEq, Eq)]
pub enum Mask {
    Clear,
    VideoMask,
    AudioMask,
}

// The codec of ADX audio, the only one that is masked.
const ADX: u32 = 2;

// The data type of a masked payload.
const MASKED: u8 = 0;

// The key by two numbers, as C gives it: with 0 for the first there is none. One function for this and `codec::codec_by` would be no
// plainer than one line of each.
pub fn key_by(given: u8, number: u64) -> Option<u64>
    ensures { result ≡ key_by given number }
{
    (given != 0).then_some(number)
}

// Whether audio of a codec is ADX, the only audio that is masked.
pub fn is_adx(codec: Option<u32>) -> bool
    ensures { result ≡ is_adx codec }
{
    match codec {
        Some(number) => number == ADX,
        None => false,
    }
}

// What a key unmasks in a film whose audio codec this is. Without a key nothing is, and no table is looked at.
pub fn unmasking_of(key: Option<u64>, codec: Option<u32>) -> Unmasking
    ensures { result ≡ unmasking_of key codec }
{
    match key {
        None => Unmasking {
            video: false,
            audio: false,
            keys: key::key_table(0),
        },
        Some(number) => Unmasking {
            video: true,
            audio: is_adx(codec),
            keys: key::key_table(number),
        },
    }
}

// Whether a payload of a data type is masked, in a stream that is masked or not.
fn is_masked(stream: bool, data_type: u8) -> bool
    ensures { result ≡ is_masked stream data_type }
{
    stream && data_type == MASKED
}

// Makes a video payload of a data type clear.
pub fn unmask_video(payload: &mut [u8], data_type: u8, unmasking: Unmasking)
    ensures { payload.new ≡ clear_video unmasking data_type payload.old }
{
    let keys = unmasking.keys;
    if is_masked(unmasking.video, data_type) {
        mask::unmask_video(payload, keys);
    }
}

// Makes an audio payload of a data type clear.
pub fn unmask_audio(payload: &mut [u8], data_type: u8, unmasking: Unmasking)
    ensures { payload.new ≡ clear_audio unmasking data_type payload.old }
{
    let keys = unmasking.keys;
    if is_masked(unmasking.audio, data_type) {
        mask::mask_audio(payload, keys);
    }
}

// The mask of a video payload of a data type.
pub fn video_mask(data_type: u8) -> Mask
    ensures { result ≡ video_mask data_type }
{
    if is_masked(true, data_type) {
        Mask::VideoMask
    } else {
        Mask::Clear
    }
}

// The mask of an audio payload of a data type, in a film whose audio codec this is.
pub fn audio_mask(codec: Option<u32>, data_type: u8) -> Mask
    ensures { result ≡ audio_mask codec data_type }
{
    if is_masked(is_adx(codec), data_type) {
        Mask::AudioMask
    } else {
        Mask::Clear
    }
}

// Makes a payload that has a mask clear under a key.
pub fn clear_by(payload: &mut [u8], number: u64, mask: Mask)
    ensures { payload.new ≡ cleared_by number mask payload.old }
{
    match mask {
        Mask::Clear => {}
        Mask::VideoMask => mask::unmask_video(payload, key::key_table(number)),
        Mask::AudioMask => mask::mask_audio(payload, key::key_table(number)),
    }
}

// The number of a mask, as C reads it.
pub fn mask_number(mask: Mask) -> u8
    ensures { result ≡ mask_number mask }
{
    match mask {
        Mask::Clear => 0,
        Mask::VideoMask => 1,
        Mask::AudioMask => 2,
    }
}

// The mask that a number stands for, as C gives it: each but 1 and 2 for none.
pub fn mask_by(number: u8) -> Mask
    ensures { result ≡ mask_by number }
{
    match number {
        1 => Mask::VideoMask,
        2 => Mask::AudioMask,
        _ => Mask::Clear,
    }
}
