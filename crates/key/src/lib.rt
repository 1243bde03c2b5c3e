// The key table: T, V and A of a 64-bit key, and the bits of a key that count.
// Rules K and M. From the Rust: `get_mask`.
#![tactic(auto)]

ghost use Rattle.std.specs.Prelude.{◌≡◌};
ghost use Rattle.key.specs.KeyTable.{plus, minus, table_t, keys_of};
ghost use Rattle.key.specs.CountingBits.{counting_bits};

// T, V and A, as one value. The Rust's `VideoMask` is the pair of t and v, its `AudioMask` is a.
#[derive(Clone, Copy)]
pub struct Keys {
    pub t: [u8; 32],
    pub v: [u8; 32],
    pub a: [u8; 32],
}

// a + b, modulo 256.
fn add(a: u8, b: u8) -> u8
    ensures { result ≡ plus a b }
{
    a.wrapping_add(b)
}

// a - b, modulo 256.
fn sub(a: u8, b: u8) -> u8
    ensures { result ≡ minus a b }
{
    a.wrapping_sub(b)
}

// T of a key: the list, line by line.
fn table_t(key: u64) -> [u8; 32]
    ensures { result ≡ table_t key }
{
    let [t0, t1, t2, k3, k4, k5, k6, _] = key.to_le_bytes();
    let t3 = sub(k3, 0x34);
    let t4 = add(k4 % 16, 0xF9);
    let t5 = k5 ^ 0x13;
    let t6 = add(k6, 0x61);
    let t7 = t0 ^ 0xFF;
    let t8 = add(t2, t1);
    let t9 = sub(t1, t7);
    let ta = t2 ^ 0xFF;
    let tb = t1 ^ 0xFF;
    let tc = add(tb, t9);
    let td = sub(t8, t3);
    let te = td ^ 0xFF;
    let tf = sub(ta, tb);
    let t10 = sub(t8, tf);
    let t11 = t10 ^ t7;
    let t12 = tf ^ 0xFF;
    let t13 = t3 ^ 0x10;
    let t14 = sub(t4, 0x32);
    let t15 = add(t5, 0xED);
    let t16 = t6 ^ 0xF3;
    let t17 = sub(t13, tf);
    let t18 = add(t15, t7);
    let t19 = sub(0x21, t13);
    let t1a = t14 ^ t17;
    let t1b = add(t16, t16);
    let t1c = add(t17, 0x44);
    let t1d = add(t3, t4);
    let t1e = sub(t5, t16);
    let t1f = t1d ^ t13;
    [
        t0, t1, t2, t3, t4, t5, t6, t7, t8, t9, ta, tb, tc, td, te, tf, t10, t11, t12, t13, t14,
        t15, t16, t17, t18, t19, t1a, t1b, t1c, t1d, t1e, t1f,
    ]
}

// A before V is put in: the letters U, R, U, C in turn at odd positions.
const LETTERS: [u8; 32] = *b"\0U\0R\0U\0C\0U\0R\0U\0C\0U\0R\0U\0C\0U\0R\0U\0C";

// T, V and A of a key. The Rust's `get_mask`.
// V and A stay in one loop with a branch, as they are in the Rust. With a loop for each and no branch, the compiler unrolls
// both and puts the table into its callers as single bytes, and the static library masks long video 30 times slower.
// With V by `t.map`, a payload of 600 bytes takes 3 to 4 times as long (measured).
pub fn key_table(key: u64) -> Keys
    ensures { result ≡ keys_of key }
{
    let t = table_t(key);
    let mut v = t;
    let mut a = LETTERS;
    for (i, byte) in t.iter().enumerate() {
        v[i] = *byte ^ 0xFF;
        if i % 2 == 0 {
            a[i] = *byte ^ 0xFF;
        }
    }
    Keys { t, v, a }
}

// What bit 36 stands for.
const BIT_36: u64 = 0x10_0000_0000;

// What bit 40 stands for.
const BIT_40: u64 = 0x100_0000_0000;

// How many values 16 bits have.
const SIXTEEN_BITS: u64 = 0x1_0000;

// The bits of a key that count: bits 36 to 39 and 56 to 63 are cleared.
pub fn counting_bits(key: u64) -> u64
    ensures { result ≡ counting_bits key }
{
    key % BIT_36 + key / BIT_40 % SIXTEEN_BITS * BIT_40
}
