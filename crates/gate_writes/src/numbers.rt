// The numbers on a line of the list, one space between each two.

// The numbers of a line.
#[derive(Clone, Copy)]
pub(crate) struct Numbers {
    pub(crate) name: usize,
    pub(crate) video: usize,
    pub(crate) has_audio: usize,
    pub(crate) audio: usize,
    pub(crate) has_video_codec: usize,
    pub(crate) video_codec: usize,
    pub(crate) has_audio_codec: usize,
    pub(crate) audio_codec: usize,
    pub(crate) has_key: usize,
    pub(crate) key_high: usize,
    pub(crate) key_low: usize,
    pub(crate) marker: usize,
    pub(crate) room: usize,
}

// How many numbers a line has.
const COUNT: usize = 13;

// The numbers on a line, if it has as many and nothing after them.
pub(crate) fn numbers_on(line: &[u8]) -> Option<Numbers> {
    let mut n = [0; COUNT];
    let mut from = 0;
    for number in n.iter_mut() {
        *number = gate_fields::number_in(line, from)?;
        from = gate_fields::after_field(line, from);
    }
    if from != line.len() {
        return None;
    }
    Some(Numbers {
        name: n[0],
        video: n[1],
        has_audio: n[2],
        audio: n[3],
        has_video_codec: n[4],
        video_codec: n[5],
        has_audio_codec: n[6],
        audio_codec: n[7],
        has_key: n[8],
        key_high: n[9],
        key_low: n[10],
        marker: n[11],
        room: n[12],
    })
}
