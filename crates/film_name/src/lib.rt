// A film's name: a string or data of its header, or the fallback. Rules T and R.
// From the Rust: `extract_filename`.
#![tactic(auto)]

ghost use Rattle.std.specs.Prelude.{◌≡◌};
ghost use Rattle.film_name.specs.Names.{name_in, NameOf};

use cell::Cell;

// Where a film's name stands: a part of the container. Where there is none, the fallback serves.
#[derive(Clone, Copy, Debug, PartialEq, Eq)]
pub struct Name {
    pub start: usize,
    pub len: usize,
}

// The name that a cell gives: a string or data, an empty one too; else the fallback.
pub fn name_in(cell: Cell) -> Option<Name>
    ensures { result ≡ name_in cell }
{
    match cell {
        Cell::Text { start, len } | Cell::Data { start, len } => Some(Name { start, len }),
        _ => None,
    }
}

// The name's bytes: a part of the container, or the fallback.
pub fn name_of<'a>(container: &'a [u8], fallback: &'a [u8], name: Option<Name>) -> &'a [u8]
    ensures { NameOf container.entry fallback.entry name result }
{
    match name {
        Some(name) => part::part_at(container, name.start, name.len),
        None => fallback,
    }
}
