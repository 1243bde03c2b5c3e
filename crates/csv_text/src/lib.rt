// Which fields of a CSV are written in quotes; and, in specs/, CSV by RFC 4180 as it is written and as it is read. Rules V.
// From the Rust: nothing. It writes no tables out.
#![tactic(auto)]

ghost use Rattle.std.specs.Prelude.{◌≡◌};
ghost use Rattle.csv_text.specs.Written.{is_mark, is_quoted};

// Whether a byte asks for quotes: a quote, a comma, CR or LF.
fn is_mark(byte: u8) -> bool
    ensures { result ≡ is_mark byte }
{
    matches!(byte, b'"' | b',' | b'\r' | b'\n')
}

// Whether a field is written in quotes.
pub fn is_quoted(field: &[u8]) -> bool
    ensures { result ≡ is_quoted field.now }
{
    field.iter().any(|byte| is_mark(*byte))
}
