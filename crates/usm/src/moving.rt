// A film moved for C between the old builder's container and request 1's. Rules O.
ghost use Rattle.usm.specs.Moves.{FromOldFor, ToOldFor};

use lent::SizeReply;

// The codecs of a film, as C gives them. What is given by 0 is not there, and by every other number it is.
#[repr(C)]
#[derive(Clone, Copy)]
pub struct CodecBytes {
    pub video_codec: u32,
    pub audio_codec: u32,
    pub has_video_codec: u8,
    pub has_audio_codec: u8,
}

// Moves a film of the old builder into an output, and returns its size. Bytes past it stay; a refusal leaves the output as it was.
#[unsafe(no_mangle)]
pub extern "C" fn usm_from_old(container: &[u8], codecs: CodecBytes, out: &mut [u8]) -> SizeReply
    ensures { FromOldFor container.now codecs out.old result out.new }
{
    let video = codec::codec_by(codecs.has_video_codec, codecs.video_codec);
    let audio = codec::codec_by(codecs.has_audio_codec, codecs.audio_codec);
    lent::size_reply(film_move::from_old(container, video, audio, out))
}

// Moves a film back to the old builder's container, and returns its size. Bytes past it stay; a refusal leaves the output as it was.
#[unsafe(no_mangle)]
pub extern "C" fn usm_to_old(container: &[u8], out: &mut [u8]) -> SizeReply
    ensures { ToOldFor container.now out.old result out.new }
{
    lent::size_reply(film_move::to_old(container, out))
}
