// Storing bytes into a lent image but where they are protected, with the report whether each byte of the range ended equal to the one sent.
// An inner function: it asks that its range lies before the protection bytes, and these in the image. The rules are written in
// specs/Stores.antt.
#![tactic(auto)]

ghost use Rattle.std.specs.Prelude.{◌≡◌, ◌+◌, ◌≤◌, length};
ghost use Rattle.words.specs.Bounds.{largest};
ghost use Rattle.bits.specs.Inner.{LiesIn};
ghost use Rattle.stores.specs.Stores.{storing, ends_equal};

use bits::Protection;
use pages::store;

// The data stored from `at` on but where a byte is protected. The search gives the next protected place: the run before it is stored whole,
// and that byte passed over. Whether each byte of the range ended equal to the one sent: one that was stored did.
pub fn store_unprotected(image: &mut [u8], protection: Protection, at: usize, data: &[u8]) -> bool
    requires { (at + length «data».now ≤ protection.bits) × LiesIn protection image.old × (protection.bits ≤ largest) }
    ensures stored { image.new ≡ storing protection.bits protection.covered image.old at «data».now }
    ensures report { result ≡ ends_equal image.new at «data».now }
{
    let mut equal = true;
    let mut i = 0;
    while let Some(k) = protection.first_protected(image, at + i, data.len() - i) {
        let end = k - at;
        store(image, at + i, &data[i..end]);
        if image[k] != data[end] {
            equal = false;
        }
        i = end + 1;
    }
    store(image, at + i, &data[i..]);
    equal
}
