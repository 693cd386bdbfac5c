// A card command: the pseudo-APDU is decided, and the order performed. Inner functions: they ask that the image is as long as the card's, and
// that the slot's number of protected bytes is the image's, and that the lent tail of the answer buffer is long enough. The rules are those of `steps` and `orders`.
// What the slot counts stays a clause, as in `dispatch`.
#![tactic(auto)]

ghost use Rattle.std.specs.Prelude.{◌≡◌, ◌≤◌, ◌<◌, length, Ok};
ghost use Rattle.words.specs.Bounds.{least_tail};
ghost use Rattle.chips.specs.Kinds.{facts};
ghost use Rattle.counts.specs.Counts.{count_in};
ghost use Rattle.steps.specs.Fits.{Fit, Short};
ghost use Rattle.orders.specs.Orders.{Does, performed, commanded};

use chips::Chip;
use orders::Told;
use slot::Slot;
use steps::{Order, Status};

// The handler of an order.
fn perform(
    order: Order,
    chip: Chip,
    slot: Slot,
    image: &mut [u8],
    data: &[u8],
    out: &mut [u8],
) -> Told
    requires { (least_tail ≤ length out.old) × (length image.old ≡ (facts chip).size) × (0 < slot.page)
        × Fit (facts chip) «data».now (Ok order) × Short (Ok order) × (slot.protected ≡ count_in (facts chip) image.old) }
    ensures { Does (performed (facts chip) slot image.old «data».now (Ok order)) result image.new out.old out.new }
{
    match order {
        Order::Select => orders::select(chip, slot, out),
        Order::Page(page) => orders::set_page(page, slot, out),
        Order::Read { at, count } => orders::read(chip, slot, image, at, count, out),
        Order::Counter(count) => orders::read_counter(chip, slot, image, count, out),
        Order::Bits { at, count } => orders::read_bits(chip, slot, image, at, count, out),
        Order::Write(at) => changes::write(chip, slot, image, at, data, out),
        Order::Protect(at) => changes::protect(chip, slot, image, at, data, out),
        Order::Present => changes::present(chip, slot, image, data, out),
        Order::Change => changes::change(chip, slot, image, data, out),
    }
}

// A command: the pseudo-APDU is decided and the order performed, its data from byte 5 on lent to the handler.
pub fn command(chip: Chip, slot: Slot, image: &mut [u8], apdu: &[u8], out: &mut [u8]) -> Told
    requires { (least_tail ≤ length out.old) × (length image.old ≡ (facts chip).size) × (0 < slot.page)
        × (slot.protected ≡ count_in (facts chip) image.old) }
    ensures does { Does (commanded (facts chip) slot image.old apdu.now) result image.new out.old out.new }
    ensures short { result.len ≤ 257 }
{
    if apdu.len() < 5 {
        return orders::refuse(Status::Length, slot, out);
    }
    match decide::decide(chip, slot, apdu) {
        Ok(order) => perform(order, chip, slot, image, &apdu[5..], out),
        Err(status) => orders::refuse(status, slot, out),
    }
}
