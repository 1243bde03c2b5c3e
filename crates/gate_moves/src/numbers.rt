// The numbers on a line that moves a film onward, one space after each.
use usm::moving::CodecBytes;

// The codecs of a line, the room that it gives an output, and where its hex digits start.
#[derive(Clone, Copy)]
pub(crate) struct Numbers {
    pub(crate) codecs: CodecBytes,
    pub(crate) room: usize,
    pub(crate) digits: usize,
}

// The number of a field that is a byte.
fn byte_in(line: &[u8], at: usize) -> Option<u8> {
    u8::try_from(gate_fields::number_in(line, at)?).ok()
}

// The number of a field that is a codec.
fn codec_in(line: &[u8], at: usize) -> Option<u32> {
    u32::try_from(gate_fields::number_in(line, at)?).ok()
}

// The numbers on a line, from its second byte on.
pub(crate) fn numbers_on(line: &[u8]) -> Option<Numbers> {
    let has_video = 2;
    let video = gate_fields::after_field(line, has_video);
    let has_audio = gate_fields::after_field(line, video);
    let audio = gate_fields::after_field(line, has_audio);
    let room = gate_fields::after_field(line, audio);
    Some(Numbers {
        codecs: CodecBytes {
            video_codec: codec_in(line, video)?,
            audio_codec: codec_in(line, audio)?,
            has_video_codec: byte_in(line, has_video)?,
            has_audio_codec: byte_in(line, has_audio)?,
        },
        room: gate_fields::number_in(line, room)?,
        digits: gate_fields::after_field(line, room),
    })
}
