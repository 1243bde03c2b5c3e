// Why a table or a container is refused, or a film is not written, and where. Rules R.
#![tactic(auto)]

ghost use Rattle.std.specs.Prelude.{◌≡◌, Err};
ghost use Rattle.refusal.specs.Numbers.{number_of, beside_of};

// The longest container that is read or written: a longer one is `TooLong`.
pub const LONGEST: usize = 0x4000_0000;

// Why. The cases stand in the order of their numbers: 1 to 13 and 15 to 23. 14 is struck: it cannot occur, and no
// other cause has it.
#[derive(Clone, Copy, Debug, PartialEq, Eq)]
pub enum Cause {
    // Bytes run out.
    RanOut,
    // No `CRID` at 0.
    NoFilm,
    // No `@UTF` where a table begins.
    NoTable,
    // `@SFV` expected.
    NoVideo,
    // `@SFA` expected.
    NoAudio,
    // `#HEADER END` expected.
    NoHeaderEnd,
    // `#METADATA END` expected.
    NoMetadataEnd,
    // A column type that is none.
    UnknownType(u8),
    // A table size below 24, or a block size below header plus footer size.
    TooSmall,
    // Over 64 columns or 256 rows.
    TooMany,
    // The container is too long.
    TooLong,
    // The video or the audio output is too short for these sizes.
    ShortOutput { video: usize, audio: usize },
    // The chunk list is too short for this count.
    ShortList(usize),
    // A payload begins with the end marker.
    MarkedPayload,
    // The output is too short for this size.
    ShortRoom(usize),
    // A header size below 0x18, where payloads begin behind the header.
    ShortHeader,
    // A column whose values stand nowhere that is known.
    UnknownStorage,
    // A film that the old builder, or the move from it, does not write.
    Foreign,
    // A film of the old builder with more than one audio.
    ManyAudios,
    // No beginning of the container is accepted.
    NoBeginning,
    // No tenant, over 16 of them, or a number twice.
    BadTenants,
    // An audio codec is given, and no audio.
    CodecAlone,
}

// Why, and where.
#[derive(Clone, Copy, Debug, PartialEq, Eq)]
pub struct Refusal {
    pub cause: Cause,
    pub place: usize,
}

// A refusal, as the answer of a function that would have given a T.
pub fn refused<T>(cause: Cause, place: usize) -> Result<T, Refusal>
    ensures { result ≡ Err (record { cause = cause; place = place }) }
{
    Err(Refusal { cause, place })
}

// The paper's number of a cause. No `From` beside it: docs/CONTRACTS.md and the crates above have this name, and a second says no more.
pub fn number_of(cause: Cause) -> u8
    ensures { result ≡ number_of cause }
{
    match cause {
        Cause::RanOut => 1,
        Cause::NoFilm => 2,
        Cause::NoTable => 3,
        Cause::NoVideo => 4,
        Cause::NoAudio => 5,
        Cause::NoHeaderEnd => 6,
        Cause::NoMetadataEnd => 7,
        Cause::UnknownType(_) => 8,
        Cause::TooSmall => 9,
        Cause::TooMany => 10,
        Cause::TooLong => 11,
        Cause::ShortOutput { .. } => 12,
        Cause::ShortList(_) => 13,
        Cause::MarkedPayload => 15,
        Cause::ShortRoom(_) => 16,
        Cause::ShortHeader => 17,
        Cause::UnknownStorage => 18,
        Cause::Foreign => 19,
        Cause::ManyAudios => 20,
        Cause::NoBeginning => 21,
        Cause::BadTenants => 22,
        Cause::CodecAlone => 23,
    }
}

// What is returned beside a number: the type beside 8, both sizes needed beside 12, the chunk count beside 13, the size
// needed beside 16. All else is 0.
#[derive(Clone, Copy, Debug, Default, PartialEq, Eq)]
pub struct Beside {
    pub video_size: usize,
    pub audio_size: usize,
    pub count: usize,
    pub unknown_type: u8,
    pub size: usize,
}

// What is returned beside a cause's number.
pub fn beside_of(cause: Cause) -> Beside
    ensures { result ≡ beside_of cause }
{
    let nothing = Beside::default();
    match cause {
        Cause::UnknownType(kind) => Beside {
            unknown_type: kind,
            ..nothing
        },
        Cause::ShortOutput { video, audio } => Beside {
            video_size: video,
            audio_size: audio,
            ..nothing
        },
        Cause::ShortList(count) => Beside { count, ..nothing },
        Cause::ShortRoom(size) => Beside { size, ..nothing },
        _ => nothing,
    }
}
