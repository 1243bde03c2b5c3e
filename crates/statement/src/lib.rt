// The statement of a film: for each tenant its group, all of whom have one copy, and its share of that. What a film shows of a
// key decides the groups, so no stream is unpacked.
// Request 13. Ours: the Rust has nothing of the kind.
#![tactic(auto)]

ghost use Rattle.std.specs.Prelude.{◌≡◌, ◌≤◌, length};
ghost use Rattle.std.proofs.lemmas.List.Edits.{sets};
ghost use Rattle.list.specs.Listing.{list_reply};
ghost use Rattle.tenants.specs.Shares.{line_at, lines_from};
ghost use Rattle.statement.specs.Statements.{refused_by, StatedBy, Stated};

use list::ListReply;
use reading::AudioChoice;
use refusal::{Cause, LONGEST, Refusal};

// The reply to a refusal of all that is asked, at place 0.
fn refused(cause: Cause) -> ListReply
    ensures { result ≡ list_reply (refused_by cause) }
{
    list::list_reply(Err(Refusal { cause, place: 0 }))
}

// Puts the lines of all tenants at the start of a list.
fn put_lines(tenants: &[[u64; 2]], bits: u64, size: usize, lines: &mut [[u64; 3]])
    requires { length tenants.now ≤ length lines.old }
    ensures { lines.new ≡ sets lines.old 0 (lines_from (line_at bits size tenants.now) 0 (length tenants.now)) }
{
    for rank in 0..tenants.len() {
        lines[rank] = tenants::line_at(tenants, bits, size, rank);
    }
}

// Fills a lent list with a line for each tenant, by rising tenant: its number, the lowest number of its group, and its share,
// of a film that shows these bits of a key and of which a copy has so many bytes. Returns the tenants' count. A refusal leaves the
// list as it was, and lines past the count stay.
pub fn state_by(bits: u64, size: usize, tenants: &[[u64; 2]], lines: &mut [[u64; 3]]) -> ListReply
    ensures { StatedBy bits size tenants.now lines.old result lines.new }
{
    if tenants::are_bad(tenants) {
        return refused(Cause::BadTenants);
    }
    let count = tenants.len();
    if lines.len() < count {
        return refused(Cause::ShortList(count));
    }
    put_lines(tenants, bits, size, lines);
    list::list_reply(Ok(count))
}

// The same of a container that is read whole, audio chosen.
pub fn state(container: &[u8], tenants: &[[u64; 2]], lines: &mut [[u64; 3]]) -> ListReply
    ensures { Stated container.now tenants.now lines.old result lines.new }
{
    if LONGEST < container.len() {
        return refused(Cause::TooLong);
    }
    if tenants::are_bad(tenants) {
        return refused(Cause::BadTenants);
    }
    let survey = match film::survey(container, reading::as_original(AudioChoice::Chosen)) {
        Ok(survey) => survey,
        Err(refusal) => return list::list_reply(Err(refusal)),
    };
    let adx = unmasking::is_adx(survey.header.audio_codec);
    let bits = key_shown::bits_from(container, survey.header.start, survey.reading, adx);
    state_by(bits, survey.video + survey.audio, tenants, lines)
}
