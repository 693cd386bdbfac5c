// The orders that change the card: D0, D1, 20, D2. Inner functions: each asks that the image is as long as the card's, that the lent tail of
// the answer buffer is long enough, and that the order fits the card. The rules are those of `orders`; image and tail have their clauses as there.
#![tactic(auto, using(words::proofs::Lists::over_pair, words::proofs::Choices::choices), unfolding(orders::specs::Orders::performed, orders::specs::Orders::said_by, orders::specs::Orders::image_by, orders::specs::Orders::slot_by, orders::specs::Orders::written_word))]

ghost use Rattle.std.specs.Prelude.{◌≡◌, true, ◌+◌, ◌≤◌, ◌<◌, length, Ok};
ghost use Rattle.words.specs.Bounds.{least_tail};
ghost use Rattle.chips.specs.Kinds.{facts};
ghost use Rattle.counts.specs.Counts.{count_in};
ghost use Rattle.orders.specs.Orders.{Does, performed, reported, written};

use chips::Chip;
use orders::Told;
use slot::Slot;
use steps::Order;
use words::{put_two, wide};

// D0's bytes: an I2C card writes them by pages, any other stores those that are not protected. The report: on an I2C card always true, on any
// other whether each byte of the range ended equal to the one sent.
#[tactic(auto, using(words::proofs::Choices::choices), unfolding(orders::specs::Orders::written))]
fn write_bytes(chip: Chip, page: u8, image: &mut [u8], at: usize, data: &[u8]) -> bool
    requires { (length image.old ≡ (facts chip).size) × (at + length «data».now ≤ (facts chip).memory) × (0 < page) }
    ensures image { image.new ≡ written (facts chip) page image.old at «data».now }
    ensures report { result ≡ reported (facts chip) image.new at «data».now }
{
    if chip.facts().page != 0 {
        pages::write(image, at, data, wide(page), chip.facts().page);
        return true;
    }
    stores::store_unprotected(image, card::protection(chip), at, data)
}

// D0: the report says 90 00, or 65 81.
pub fn write(
    chip: Chip,
    slot: Slot,
    image: &mut [u8],
    at: usize,
    data: &[u8],
    out: &mut [u8],
) -> Told
    requires { (least_tail ≤ length out.old) × (length image.old ≡ (facts chip).size) × (at + length «data».now ≤ (facts chip).memory) × (0 < slot.page) }
    ensures { Does (performed (facts chip) slot image.old «data».now (Ok (Order.Write at))) result image.new out.old out.new }
{
    if write_bytes(chip, slot.page, image, at, data) {
        return Told::done(0, slot, out);
    }
    let len = put_two(out, 0, 0x65, 0x81);
    Told { len, slot }
}

// D1: each byte that is equal to the stored one is protected. Those that were not before are added to the number of protected bytes.
pub fn protect(
    chip: Chip,
    slot: Slot,
    image: &mut [u8],
    at: usize,
    data: &[u8],
    out: &mut [u8],
) -> Told
    requires { (least_tail ≤ length out.old) × (length image.old ≡ (facts chip).size) × (at + length «data».now ≤ (facts chip).reach)
        × (slot.protected ≡ count_in (facts chip) image.old) }
    ensures { Does (performed (facts chip) slot image.old «data».now (Ok (Order.Protect at))) result image.new out.old out.new }
{
    let more = card::protection(chip).protect(image, at, data);
    let next = slot.with_protected(slot.protected + more as u16);
    Told::done(0, next, out)
}

// 20: the code is presented, and 90 is told with the counter afterwards; tries left are the counter's. The right code opens, any other closes.
pub fn present(chip: Chip, slot: Slot, image: &mut [u8], guess: &[u8], out: &mut [u8]) -> Told
    requires { (least_tail ≤ length out.old) × (length image.old ≡ (facts chip).size) × ((facts chip).coded ≡ true) × (length guess.now ≡ (facts chip).digits) }
    ensures { Does (performed (facts chip) slot image.old guess.now (Ok Order.Present)) result image.new out.old out.new }
{
    let counter = chip.facts().counter;
    let opens = codes::present(image, counter, chip.facts().full, chip.facts().code, guess);
    let left = image[counter];
    let len = put_two(out, 0, 0x90, left);
    let counted = slot.with_tries(codes::tries_left(left));
    let slot = if opens {
        counted.open()
    } else {
        counted.close()
    };
    Told { len, slot }
}

// D2: the new code is stored, and the card stays open.
pub fn change(chip: Chip, slot: Slot, image: &mut [u8], code: &[u8], out: &mut [u8]) -> Told
    requires { (least_tail ≤ length out.old) × (length image.old ≡ (facts chip).size) × (length code.now ≡ (facts chip).digits) }
    ensures { Does (performed (facts chip) slot image.old code.now (Ok Order.Change)) result image.new out.old out.new }
{
    pages::store(image, chip.facts().code, code);
    Told::done(0, slot, out)
}
