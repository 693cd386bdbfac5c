// Protection bits of a lent image, over plain numbers. Inner functions: each asks that the bits lie in the image and that what it writes fits
// the lent buffer.
// The rules are written in specs/Bits.antt.
#![tactic(auto)]

ghost use Rattle.std.specs.Prelude.{◌≡◌, ◌+◌, ◌*◌, ◌/◌, ◌%◌, ◌^◌, ◌≤◌, ◌<◌, length, IfSome};
ghost use Rattle.words.specs.Bounds.{addresses};
ghost use Rattle.words.specs.Bytes.{byte, over};
ghost use Rattle.bits.specs.Bits.{bit_of, cleared, protected_count, is_protected, first_protected, protecting, protect_equal, packed_bytes};
ghost use Rattle.bits.specs.Inner.{LiesIn, OnesFrom, FreeFrom};

use copies::lay;
use words::{eight_at, four_at, least, put_eight, wide};

// The byte with its bit i cleared.
fn clear(b: u8, i: usize) -> u8
    requires { i < 8 }
    ensures { result ≡ cleared b i }
{
    b & !(1u8 << i)
}

// How many bits from bit i on are 1, up to the first 0 or the byte's end: in a wider number a 0 stands behind it.
fn ones_from(b: u8, i: usize) -> usize
    requires { i < 8 }
    ensures { OnesFrom b i result }
{
    (b as u32 >> i).trailing_ones() as usize
}

// The lower eight of nine bytes, low first, once they are moved down by less than a byte: eight are `low`, the ninth is `high`.
fn shifted(low: usize, high: usize, shift: usize) -> usize
    requires { (0 < shift) × (shift < 8) }
    ensures { result ≡ (low + 256 ^ 8 * high) / 2 ^ shift % 256 ^ 8 }
{
    (low >> shift) + (high << (64 - shift))
}

// Where an image has its protection bits: the protection bytes start at `bits` and hold a bit for each of the first `covered` memory bytes.
#[derive(Clone, Copy)]
pub struct Protection {
    pub bits: usize,
    pub covered: usize,
}

impl Protection {
    // Whether byte k is protected.
    pub fn protects(self, image: &[u8], k: usize) -> bool
        requires { LiesIn self image.now }
        ensures { result ≡ is_protected self.bits self.covered image.now k }
    {
        if self.covered <= k {
            return false;
        }
        let b = image[self.bits + k / 8];
        let i = k % 8;
        (b >> i) % 2 == 0
    }

    // How many bytes from k on are not protected: up to the end of four protection bytes where these are FFh, else up to the first protected
    // one or the end of its protection byte.
    fn free_from(self, image: &[u8], k: usize) -> usize
        requires { LiesIn self image.now × (k < self.covered) × (k < addresses * addresses) }
        ensures { FreeFrom self.bits self.covered image.now k result }
    {
        let place = self.bits + k / 8;
        if k + 32 <= self.covered && four_at(image, place) == 0xFFFFFFFF {
            return 32 - k % 8;
        }
        ones_from(image[place], k % 8)
    }

    // The first protected one of the n bytes from `from` on. A step goes past all unprotected bytes of a protection byte, or of four, at once.
    // A loop that breaks with the place is the form that the paper names (docs/DECISIONS.md).
    pub fn first_protected(self, image: &[u8], from: usize, n: usize) -> Option<usize>
        requires { LiesIn self image.now × (from + n < addresses * addresses) }
        ensures first { result ≡ first_protected self.bits self.covered image.now from n }
        ensures within { IfSome result (λ k. (from ≤ k) × (k < from + n)) }
    {
        let to = least(self.covered, from + n);
        let mut k = from;
        loop {
            if to <= k {
                break None;
            }
            let free = self.free_from(image, k);
            if free == 0 {
                break Some(k);
            }
            k += free;
        }
    }

    // n bytes of protection bits from byte `at` on. Where `at` is the first byte of a protection byte they are the protection bytes
    // themselves; else each is made of two neighbours, eight at a time as one number.
    pub fn read_bits(self, image: &[u8], at: usize, n: usize, out: &mut [u8])
        requires { (at + 8 * n ≤ self.covered) × LiesIn self image.now × (n ≤ length out.old) }
        ensures { out.new ≡ over (packed_bytes self.bits self.covered image.now at n) out.old }
    {
        let from = self.bits + at / 8;
        let shift = at % 8;
        if shift == 0 {
            let end = from + n;
            lay(&image[from..end], out);
            return;
        }
        let whole = n / 8;
        for i in 0..whole {
            let j = 8 * i;
            let low = eight_at(image, from + j);
            let high = wide(image[from + j + 8]);
            put_eight(out, j, shifted(low, high, shift));
        }
        for j in 8 * whole..n {
            let low = wide(image[from + j]);
            let high = wide(image[from + j + 1]);
            out[j] = (((low + 256 * high) >> shift) % 256) as u8;
        }
    }

    // Byte k becomes protected. How many more are then: 1, or 0 where it was protected before.
    fn protect_one(self, image: &mut [u8], k: usize) -> usize
        requires { self.bits + k / 8 < length image.old }
        ensures image { image.new ≡ protecting self.bits self.covered image.old k }
        ensures more { result ≡ bit_of (byte image.old (self.bits + k / 8)) (k % 8) }
    {
        let place = self.bits + k / 8;
        let b = image[place];
        let i = k % 8;
        image[place] = clear(b, i);
        wide((b >> i) % 2)
    }

    // Each byte from `at` on that equals its data byte becomes protected. How many more are protected then.
    pub fn protect(self, image: &mut [u8], at: usize, data: &[u8]) -> usize
        requires { (at + length «data».now ≤ length image.old) × (at + length «data».now ≤ self.covered) × (self.covered % 8 ≡ 0) × LiesIn self image.old }
        ensures image { image.new ≡ protect_equal self.bits self.covered image.old at «data».now }
        ensures more { (protected_count self.bits self.covered image.new ≡ protected_count self.bits self.covered image.old + result) × (result ≤ length «data».now) }
    {
        let mut more = 0;
        for (i, b) in data.iter().enumerate() {
            let k = at + i;
            if image[k] == *b {
                more += self.protect_one(image, k);
            }
        }
        more
    }
}
