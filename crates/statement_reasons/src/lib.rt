// Why the tenants of a group have one copy of a film. Request 13: the reasons that a statement is printed with.
#![tactic(auto)]

ghost use Rattle.std.specs.Prelude.{◌≡◌};
ghost use Rattle.statement_reasons.specs.Reasons.{why_of};

// Why the tenants of a group have one copy.
#[derive(Clone, Copy)]
pub enum Why {
    // The group has no second tenant.
    Alone,
    // Their keys agree where it counts.
    KeysAgree,
    // Nothing in the film depends on a key: no payload is masked, or those that are masked are too short.
    NothingShown,
    // The film shows some of a key, and nothing of where these differ.
    NotShown,
}

// Why those have one copy who have it with a key, on a film that shows these bits of a key.
pub fn why_one(tenants: &[[u64; 2]], bits: u64, key: u64) -> Why
    ensures { result ≡ why_of bits tenants.now key }
{
    if tenants::members(tenants, bits, key) < 2 {
        return Why::Alone;
    }
    if tenants::differing(tenants, bits, key) == 0 {
        return Why::KeysAgree;
    }
    if bits == 0 {
        return Why::NothingShown;
    }
    Why::NotShown
}
