// How a container is read: what a caller asks for, and what of it applies to one film. Both go by value.
// Rules C: audio is taken "if present and chosen". request 2: none, all, or one channel. request 4: where a payload
// starts. request 5: how a table's columns are read.
#![tactic(auto)]

ghost use Rattle.std.specs.Prelude.{◌≡◌};
ghost use Rattle.reading.specs.Choices.{takes_channel, as_original, choice_by, payloads_by, mode_by, reading_by, applied_to};

// Which audio payloads are asked for: none, those of every channel, or those of one.
#[derive(Clone, Copy, Debug, PartialEq, Eq)]
pub enum AudioChoice {
    NotChosen,
    Chosen,
    Channel(u8),
}

// How the columns of tables are read.
#[derive(Clone, Copy, Debug, PartialEq, Eq)]
pub enum TableMode {
    // As the Rust reads them: each that has no constant has a value in every row.
    Original,
    // One whose high nibble is 1 takes no room, and 1, 3, 5 and 7 are the only high nibbles.
    ZeroColumns,
}

// Where the payloads of chunks start.
#[derive(Clone, Copy, Debug, PartialEq, Eq)]
pub enum PayloadMode {
    // As the Rust reads them: 0x20 bytes into the chunk, whatever its header size says.
    Original,
    // Where the header ends, by its size.
    AfterHeader,
}

// How to read, as a caller asks.
#[derive(Clone, Copy, Debug, PartialEq, Eq)]
pub struct Reading {
    pub audio: AudioChoice,
    pub payloads: PayloadMode,
    pub tables: TableMode,
}

// How one film is read: what was asked, as far as the film has it.
#[derive(Clone, Copy, Debug, PartialEq, Eq)]
pub struct Applied {
    pub audio: AudioChoice,
    pub payloads: PayloadMode,
}

// How to read, as C asks. `channel` counts where `audio` asks for one.
#[repr(C)]
#[derive(Clone, Copy)]
pub struct ReadingBytes {
    pub audio: u8,
    pub channel: u8,
    pub payloads: u8,
    pub tables: u8,
}

// Whether audio of a channel is asked for.
pub fn takes_channel(choice: AudioChoice, channel: u8) -> bool
    ensures { result ≡ takes_channel choice channel }
{
    match choice {
        AudioChoice::NotChosen => false,
        AudioChoice::Chosen => true,
        AudioChoice::Channel(chosen) => channel == chosen,
    }
}

// As the Rust reads, with this audio.
pub fn as_original(audio: AudioChoice) -> Reading
    ensures { result ≡ as_original audio }
{
    Reading {
        audio,
        payloads: PayloadMode::Original,
        tables: TableMode::Original,
    }
}

// The audio choice by a number: none by 0, one channel by 2, all by every other number.
fn choice_by(number: u8, channel: u8) -> AudioChoice
    ensures { result ≡ choice_by number channel }
{
    match number {
        0 => AudioChoice::NotChosen,
        2 => AudioChoice::Channel(channel),
        _ => AudioChoice::Chosen,
    }
}

// After the header by 1, the Rust's mode by every other number.
impl From<u8> for PayloadMode {
    ghost from_gives = { λ number mode. mode ≡ payloads_by number };

    fn from(number: u8) -> Self {
        match number {
            1 => PayloadMode::AfterHeader,
            _ => PayloadMode::Original,
        }
    }
}

// Zero columns by 1, the Rust's mode by every other number.
impl From<u8> for TableMode {
    ghost from_gives = { λ number mode. mode ≡ mode_by number };

    fn from(number: u8) -> Self {
        match number {
            1 => TableMode::ZeroColumns,
            _ => TableMode::Original,
        }
    }
}

// What C asks for.
impl From<ReadingBytes> for Reading {
    ghost from_gives = { λ asked reading. reading ≡ reading_by asked };

    fn from(asked: ReadingBytes) -> Self {
        Reading {
            audio: choice_by(asked.audio, asked.channel),
            payloads: PayloadMode::from(asked.payloads),
            tables: TableMode::from(asked.tables),
        }
    }
}

// The table mode by a number. It stands beside `From`: docs/CONTRACTS.md and a wrong answer have this name.
pub fn mode_by(number: u8) -> TableMode
    ensures { result ≡ mode_by number }
{
    TableMode::from(number)
}

// What C asks for. It stands beside `From`: docs/CONTRACTS.md has this name.
pub fn reading_by(asked: ReadingBytes) -> Reading
    ensures { result ≡ reading_by asked }
{
    Reading::from(asked)
}

// What applies to a film: where it has no audio, none is taken.
pub fn applied_to(present: bool, reading: Reading) -> Applied
    ensures { result ≡ applied_to present reading }
{
    let audio = if present {
        reading.audio
    } else {
        AudioChoice::NotChosen
    };
    Applied {
        audio,
        payloads: reading.payloads,
    }
}
