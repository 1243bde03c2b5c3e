// Speed alone: a byte is touched some chunks ahead of a walk, so that the walk need not wait for the memory at each chunk.
// No answer depends on it.
ghost use Rattle.std.specs.Prelude.{◌≡◌, ◌≤◌};

// Twice a number, whatever it is.
fn doubled(n: usize) -> usize {
    std::num::wrapping_add_usize(n, n)
}

// A bit of the byte at which a chunk starts eight chunks after the next one, if all are as long as the one from `at` to
// `next`. Where a chunk stands is known only from the one before, so a walk waits for the memory at each of them, unless a
// byte there was touched in time. A place past the end, or a sum that wraps, touches nothing or another byte.
pub(crate) fn touched(container: &[u8], at: usize, next: usize) -> usize
    ensures { result ≤ 1 }
{
    let apart = std::num::wrapping_sub_usize(next, at);
    let eightfold = doubled(doubled(doubled(apart)));
    word::read8(container, std::num::wrapping_add_usize(next, eightfold)) / 128
}

// The count of the chunks, given the sum of the bits that were touched: at most one for each chunk. The test is never
// true; without it the compiler would drop the bytes that are touched, and all the time that they save.
pub(crate) fn kept(count: usize, bits: usize) -> usize
    requires { bits ≤ count }
    ensures { result ≡ count }
{
    if count < bits {
        return bits;
    }
    count
}
