// The statement of a film for C: which tenants have one copy, and what each bears of it. Request 13.
ghost use Rattle.statement.specs.Statements.{Stated, StatedBy};

use list::ListReply;

// Fills a lent list with a line for each tenant, by rising tenant: its number, the lowest number of its group, and its share.
// Returns the tenants' count. A refusal leaves the list as it was.
#[unsafe(no_mangle)]
pub extern "C" fn usm_statement(
    container: &[u8],
    tenants: &[[u64; 2]],
    lines: &mut [[u64; 3]],
) -> ListReply
    ensures { Stated container.now tenants.now lines.old result lines.new }
{
    usm::stating::usm_statement(container, tenants, lines)
}

// The same of a film that is known by the bits of a key that it shows and by the size of a copy, both streams together.
#[unsafe(no_mangle)]
pub extern "C" fn usm_statement_by(
    bits: u64,
    size: usize,
    tenants: &[[u64; 2]],
    lines: &mut [[u64; 3]],
) -> ListReply
    ensures { StatedBy bits size tenants.now lines.old result lines.new }
{
    usm::stating::usm_statement_by(bits, size, tenants, lines)
}
