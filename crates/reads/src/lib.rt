// What is read of a lent image, over plain numbers: bytes, with the code blanked while the card is closed, and the counter.
// Inner functions: each asks that its range lies in the image and that what it writes fits the lent buffer.
// The rules are written in specs/Reads.antt. Address and length, code and digits stand apart, as the rules take them: a struct would be taken apart in each clause.
#![tactic(auto)]

ghost use Rattle.std.specs.Prelude.{◌≡◌, ◌+◌, ◌≤◌, ◌<◌, length, take, drop};
ghost use Rattle.words.specs.Bytes.{over};
ghost use Rattle.words.specs.Bounds.{largest};
ghost use Rattle.reads.specs.Reads.{bytes_read, counter_read};
ghost use Rattle.reads.specs.Inner.{blanked};

use copies::lay;

// The n bytes at `at`, as they stand.
fn read(image: &[u8], at: usize, n: usize, out: &mut [u8])
    requires { (at + n ≤ length image.now) × (n ≤ length out.old) }
    ensures { out.new ≡ over (take n (drop at image.now)) out.old }
{
    lay(&image[at..at + n], out);
}

// The n image bytes from `code` on read 00h in a buffer that holds the image from `at` up to `end`. Of a `fill` the compiler would make a call of memset.
fn blank(at: usize, end: usize, code: usize, n: usize, out: &mut [u8])
    requires { (end ≤ at + length out.old) × (code + n ≤ largest) }
    ensures { out.new ≡ blanked at end code n out.old }
{
    for k in code..code + n {
        if at <= k && k < end {
            out[k - at] = 0;
        }
    }
}

// The n bytes at `at` as the host may see them: while the card is closed its code, which stands at `code` and is `digits` long, reads 00h.
pub fn read_shown(
    image: &[u8],
    at: usize,
    n: usize,
    code: usize,
    digits: usize,
    open: bool,
    out: &mut [u8],
)
    requires { (at + n ≤ length image.now) × (n ≤ length out.old) × (code + digits ≤ largest) }
    ensures { out.new ≡ over (bytes_read code digits «open» image.now at n) out.old }
{
    read(image, at, n, out);
    if open {
        return;
    }
    blank(at, at + n, code, digits, out);
}

// The counter, then n - 1 bytes 00h: two, or three.
pub fn read_counter(image: &[u8], counter: usize, n: usize, out: &mut [u8])
    requires { (counter < length image.now) × (3 ≤ n) × (n ≤ 4) × (n ≤ length out.old) }
    ensures { out.new ≡ over (counter_read counter image.now n) out.old }
{
    // One by one: of a `fill` the compiler would make a call of memset.
    out[0] = image[counter];
    out[1] = 0;
    out[2] = 0;
    if 3 < n {
        out[3] = 0;
    }
}
