// A film written for C. Rules W.
ghost use Rattle.std.specs.Prelude.{◌≡◌};
ghost use Rattle.usm.specs.Writes.{packing_by, WrittenFor};

use crate::KeyBytes;
use lent::SizeReply;
use write_plan::Packing;

// How a film is packed, as C gives it. What is had or given by 0 is not there, and by every other number it is.
#[repr(C)]
#[derive(Clone, Copy)]
pub struct PackingBytes {
    pub key: KeyBytes,
    pub video_codec: u32,
    pub audio_codec: u32,
    pub has_audio: u8,
    pub has_video_codec: u8,
    pub has_audio_codec: u8,
}

// What C asks for.
pub(crate) fn packing_by(asked: PackingBytes) -> Packing
    ensures { result ≡ packing_by asked }
{
    let key = asked.key;
    Packing {
        audio: asked.has_audio != 0,
        mpeg_codec: codec::codec_by(asked.has_video_codec, asked.video_codec),
        audio_codec: codec::codec_by(asked.has_audio_codec, asked.audio_codec),
        key: unmasking::key_by(key.given, key.number),
    }
}

// Writes a film into an output, and returns its size. Bytes past it stay; a refusal leaves the output as it was.
#[unsafe(no_mangle)]
pub extern "C" fn usm_write(
    name: &[u8],
    video: &[u8],
    audio: &[u8],
    packing: PackingBytes,
    out: &mut [u8],
) -> SizeReply
    ensures { WrittenFor name.now video.now audio.now (packing_by packing) out.old result out.new }
{
    let asked = packing_by(packing);
    lent::size_reply(write::write(name, video, audio, asked, out))
}
