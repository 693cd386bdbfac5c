// Bytes copied by blocks: a block is read whole and then laid, one wide load and one wide store, and nothing is called. Inner functions: each asks that the bytes
// fit, in a clause of its own. What a block is stands in specs/Blocks.antt.
#![tactic(auto)]

ghost use Rattle.std.specs.Prelude.{◌≡◌, ◌+◌, ◌≤◌, ◌<◌, length};
ghost use Rattle.words.specs.Bytes.{over};
ghost use Rattle.copies.specs.Blocks.{block};

use std::simd::Simd;

// Lays the N bytes from `at` on at their place, all read before one is written. `copy_from_slice` would test for overlap, and then copy byte by byte.
pub fn lay_block<const N: usize>(src: &[u8], dst: &mut [u8], at: usize)
    requires { (at + N ≤ length src.now) × (at + N ≤ length dst.old) }
    ensures { dst.new ≡ block N at src.now dst.old }
{
    Simd::<u8, N>::from_slice(&src[at..]).copy_to_slice(&mut dst[at..]);
}

// Lays bytes over the front of a buffer, N at a time; the last block may meet the one before.
fn lay_blocks<const N: usize>(src: &[u8], dst: &mut [u8])
    requires { (0 < N) × (N ≤ length src.now) × (length src.now ≤ length dst.old) }
    ensures { dst.new ≡ over src.now dst.old }
{
    // No `for` over `step_by(N)`: of one that counts its turns first the compiler makes 20 instructions and 24 bytes of stack more, for 255 bytes.
    let mut i = 0;
    while i + N < src.len() {
        lay_block::<N>(src, dst, i);
        i += N;
    }
    lay_block::<N>(src, dst, src.len() - N);
}

// Lays fewer than 16 bytes over the front of a buffer.
fn lay_short(src: &[u8], dst: &mut [u8])
    requires { (length src.now < 16) × (length src.now ≤ length dst.old) }
    ensures { dst.new ≡ over src.now dst.old }
{
    let n = src.len();
    if 8 <= n {
        lay_blocks::<8>(src, dst)
    } else if 4 <= n {
        lay_blocks::<4>(src, dst)
    } else if 2 <= n {
        lay_blocks::<2>(src, dst)
    } else if 0 < n {
        lay_blocks::<1>(src, dst)
    }
}

// Lays bytes over the front of a buffer, by the longest blocks of which there is one. No `match` on ranges, which tests from 0 up: a long copy would pay for it.
pub fn lay(src: &[u8], dst: &mut [u8])
    requires { length src.now ≤ length dst.old }
    ensures { dst.new ≡ over src.now dst.old }
{
    let n = src.len();
    if n < 16 {
        lay_short(src, dst)
    } else if 64 <= n {
        lay_blocks::<64>(src, dst)
    } else if 32 <= n {
        lay_blocks::<32>(src, dst)
    } else {
        lay_blocks::<16>(src, dst)
    }
}
