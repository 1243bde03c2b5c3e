// Tenants who share one copy of a film, and what each has to bear of it. A tenant is lent as its number and its key. `bits` are the
// bits of a key that the film shows: those whose keys agree in them have one copy.
// A tenant stays an array of two, which C sees as a struct: OneToSixteen and the promises of `statement` range over lists of such pairs.
// Request 13. Ours: the Rust has nothing of the kind.
#![tactic(auto)]

ghost use Rattle.std.specs.Prelude.{◌≡◌, filter, find, fold, map, min};
ghost use Rattle.std.specs.List.{list_any};
ghost use Rattle.tenants.specs.Tenants.{number_in, key_in, has_number, is_below, sharing, sharing_below, sharing_otherwise, counted, first_of, is_repeated, are_bad, has_rank};
ghost use Rattle.tenants.specs.Shares.{portion, share_of, line_at};

// So many tenants at most have a statement.
const MOST: usize = 16;

// Whether a tenant has one copy with a key.
fn shares(bits: u64, key: u64, tenant: [u64; 2]) -> bool
    ensures { result ≡ sharing bits key tenant }
{
    key & bits == tenant[1] & bits
}

// Whether a tenant of a lower number than this has one copy with a key.
fn shares_below(bits: u64, key: u64, number: u64, tenant: [u64; 2]) -> bool
    ensures { result ≡ sharing_below bits key number tenant }
{
    tenant[0] < number && shares(bits, key, tenant)
}

// Whether a tenant has one copy with a key with which its own does not agree where it counts.
fn shares_otherwise(bits: u64, key: u64, tenant: [u64; 2]) -> bool
    ensures { result ≡ sharing_otherwise bits key tenant }
{
    key::counting_bits(key) != key::counting_bits(tenant[1]) && shares(bits, key, tenant)
}

// How many tenants have one copy with a key. This and the counts below add a bit for each tenant: as `filter` and `count` they
// branch on it, and `usm_statement_by` takes 1.7 times the instructions (docs/LOOK-BACK.md).
pub fn members(tenants: &[[u64; 2]], bits: u64, key: u64) -> usize
    ensures { result ≡ counted (sharing bits key) tenants.now }
{
    let mut count = 0;
    for tenant in tenants {
        count += usize::from(shares(bits, key, *tenant));
    }
    count
}

// How many of them have a key that does not agree with it where it counts.
pub fn differing(tenants: &[[u64; 2]], bits: u64, key: u64) -> usize
    ensures { result ≡ counted (sharing_otherwise bits key) tenants.now }
{
    let mut count = 0;
    for tenant in tenants {
        count += usize::from(shares_otherwise(bits, key, *tenant));
    }
    count
}

// The lowest number among this one and those of the tenants who have one copy with a key.
fn lowest_of(tenants: &[[u64; 2]], bits: u64, key: u64, number: u64) -> u64
    ensures { result ≡ fold min number (map number_in (filter (sharing bits key) tenants.now)) }
{
    tenants
        .iter()
        .filter(|tenant| shares(bits, key, **tenant))
        .map(|tenant| tenant[0])
        .fold(number, |least, other| least.min(other))
}

// How many tenants have this number.
fn times(tenants: &[[u64; 2]], number: u64) -> usize
    ensures { result ≡ counted (has_number number) tenants.now }
{
    let mut count = 0;
    for tenant in tenants {
        count += usize::from(tenant[0] == number);
    }
    count
}

// Whether two tenants have one number.
fn is_repeated(tenants: &[[u64; 2]]) -> bool
    ensures { result ≡ list_any (is_repeated tenants.now) tenants.now }
{
    tenants.iter().any(|tenant| 1 < times(tenants, tenant[0]))
}

// Whether these tenants have no statement: there is none, there are over 16, or a number stands twice.
pub fn are_bad(tenants: &[[u64; 2]]) -> bool
    ensures { result ≡ are_bad tenants.now }
{
    tenants.is_empty() || MOST < tenants.len() || is_repeated(tenants)
}

// How many tenants have a lower number.
fn below(tenants: &[[u64; 2]], number: u64) -> usize
    ensures { result ≡ counted (is_below number) tenants.now }
{
    let mut count = 0;
    for tenant in tenants {
        count += usize::from(tenant[0] < number);
    }
    count
}

// The first tenant that has so many tenants below it, if there is one.
fn ranked_in(tenants: &[[u64; 2]], rank: usize) -> Option<[u64; 2]>
    ensures { result ≡ find (has_rank tenants.now rank) tenants.now }
{
    tenants
        .iter()
        .copied()
        .find(|tenant| below(tenants, tenant[0]) == rank)
}

// The first tenant of a number, if there is one.
fn numbered(tenants: &[[u64; 2]], number: u64) -> Option<[u64; 2]>
    ensures { result ≡ find (has_number number) tenants.now }
{
    tenants.iter().copied().find(|tenant| tenant[0] == number)
}

// The key of the first tenant of a number; key 0 where there is none.
pub fn key_of(tenants: &[[u64; 2]], number: u64) -> u64
    ensures { result ≡ key_in (first_of (has_number number) tenants.now) }
{
    let tenant = numbered(tenants, number).unwrap_or([0, 0]);
    tenant[1]
}

// What the member of a rank bears of a copy of so many bytes; nothing where there are no members.
fn portion_of(size: usize, members: usize, rank: usize) -> u64
    ensures { result ≡ portion size members rank }
{
    if members == 0 {
        return 0;
    }
    let more = u64::from(rank < size % members);
    (size / members) as u64 + more
}

// How many tenants of a lower number have one copy with a key.
fn members_below(tenants: &[[u64; 2]], bits: u64, key: u64, number: u64) -> usize
    ensures { result ≡ counted (sharing_below bits key number) tenants.now }
{
    let mut count = 0;
    for tenant in tenants {
        count += usize::from(shares_below(bits, key, number, *tenant));
    }
    count
}

// What a tenant bears of the copy of its group.
fn share_of(tenants: &[[u64; 2]], bits: u64, size: usize, tenant: [u64; 2]) -> u64
    ensures { result ≡ share_of bits size tenants.now tenant }
{
    let key = tenant[1];
    let number = tenant[0];
    let rank = members_below(tenants, bits, key, number);
    portion_of(size, members(tenants, bits, key), rank)
}

// The line at a rank: the tenant, the lowest tenant of its group, and its share; number 0 with key 0 stands for the tenant where no
// rank is as high. `size` is that of a copy.
pub fn line_at(tenants: &[[u64; 2]], bits: u64, size: usize, rank: usize) -> [u64; 3]
    ensures { result ≡ line_at bits size tenants.now rank }
{
    let tenant = ranked_in(tenants, rank).unwrap_or([0, 0]);
    let group = lowest_of(tenants, bits, tenant[1], tenant[0]);
    let share = share_of(tenants, bits, size, tenant);
    [tenant[0], group, share]
}
