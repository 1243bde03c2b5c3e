// Replays recorded answers of the original Rust on @UTF tables: reads tables and queries from standard
// input and writes what `table::read_table` and `lookup::cell_of` answer. README.md beside this crate has
// the format.
#![tactic(auto)]

mod answers;

// The longest name of the list.
const MOST_NAME: usize = 256;

// Writes the answer on a query by its text: a name's hex digits, and a row. Answers whether it is one.
fn replay_query(query: &[u8], table: &[u8]) -> bool {
    let gap = gate_fields::gap_in(query);
    let mut space = [0u8; MOST_NAME];
    let name = gate_fields::bytes_of(&query[..gap], &mut space);
    let row = gate_fields::number_of(gate_fields::rest_from(query, gap + 1));
    let (Some(name), Some(row)) = (name, row) else {
        return false;
    };
    answers::write_cell(table, name, row);
    true
}

// Puts the table of some digits into a space, writes the answer on it, and tells its size, if they are a table's.
fn replay_table(digits: &[u8], space: &mut [u8]) -> Option<usize> {
    let table = gate_fields::bytes_of(digits, space)?;
    answers::write_table(table);
    Some(table.len())
}

// Writes the answer on the table of a line, or on its query of the table before it, which has so many bytes of a space, and
// answers whether it is one of these.
fn replay_line(line: &[u8], space: &mut [u8], table: &mut Option<usize>) -> bool {
    if gate_fields::is_marked(line, b't') {
        *table = replay_table(gate_fields::rest_from(line, 2), space);
        return table.is_some();
    }
    let Some(table) = table.and_then(|size| space.get(..size)) else {
        return false;
    };
    gate_fields::is_marked(line, b'c') && replay_query(gate_fields::rest_from(line, 2), table)
}

// Writes the answers on each table of the list and on its queries, up to the first line that is neither.
fn main() {
    let mut space = io::buffer();
    let mut table = None;
    gate_fields::replay_whole(b"stdin is not a list of tables\n", |line| {
        replay_line(line, &mut space, &mut table)
    });
}
