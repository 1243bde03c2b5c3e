// A line of text that is made piece by piece and written at once. A piece that does not fit is left out.
// No rule of this crate comes from the Rust: it serves the programs that replay recorded answers.
#![tactic(auto)]

ghost use Rattle.std.specs.Prelude.{◌≡◌, replicate};
ghost use Rattle.text.specs.Numbers.{decimal, hex, hex_bytes};
ghost use Rattle.print_line.specs.Lines.{with_piece};

use descriptors::STDOUT_FILENO;

// A line so far: the first `len` of the bytes. It is no String, since `with_piece` says that a piece that does not fit is left out.
#[derive(Clone, Copy)]
pub struct Line {
    pub bytes: [u8; ROOM],
    pub len: usize,
}

// The longest line: a word of seven bytes, 4,096 bytes in hex, and LF.
const ROOM: usize = 8200;

// The line with nothing on it.
pub fn empty() -> Line
    ensures { result ≡ record { bytes = replicate 8200 0; len = 0 } }
{
    Line {
        bytes: [0u8; ROOM],
        len: 0,
    }
}

impl Line {
    // The line with a word after it.
    pub fn word(self, word: &[u8]) -> Line
        ensures { result ≡ with_piece self word.now }
    {
        let start = self.len;
        if ROOM.saturating_sub(start) < word.len() {
            return self;
        }
        let mut bytes = self.bytes;
        let count = text::put_bytes(&mut bytes, start, word);
        Line {
            bytes,
            len: start + count,
        }
    }

    // The line with two hex digits after it for each byte of a part.
    pub fn hex_bytes(self, part: &[u8]) -> Line
        ensures { result ≡ with_piece self (hex_bytes part.now) }
    {
        let start = self.len;
        if ROOM.saturating_sub(start) / 2 < part.len() {
            return self;
        }
        let mut bytes = self.bytes;
        let count = text::put_hex_bytes(&mut bytes, start, part);
        Line {
            bytes,
            len: start + count,
        }
    }

    // The line with a number's hex digits after it, and zeros before them up to `width` digits.
    pub fn hex(self, n: u64, width: usize) -> Line
        ensures { result ≡ with_piece self (hex width n) }
    {
        let mut digits = [0u8; 16];
        let count = io::hex(n, width, &mut digits);
        self.word(&digits[..count])
    }

    // The line with a number's decimal digits after it.
    pub fn decimal(self, n: u64) -> Line
        ensures { result ≡ with_piece self (decimal n) }
    {
        let mut digits = [0u8; 20];
        let count = io::decimal(n, &mut digits);
        self.word(&digits[..count])
    }

    // Writes the line and LF.
    pub fn end(self) {
        let line = self.word(b"\n");
        if let Some(text) = line.bytes.get(..line.len) {
            io::write_all(STDOUT_FILENO, text);
        }
    }
}
