// What an order says and does, and the orders that leave the card as it is: data and status word go into the lent tail of the answer
// buffer. Inner functions: each asks that the tail is long enough and that the order fits the card.
// The rules of every order are written in specs/Orders.antt. Image and tail stay as they are, each with its clause: a struct that holds a `&mut` says nothing to its lender (`power`).
#![tactic(auto, using(words::proofs::Lists::over_pair), unfolding(crate::specs::Orders::performed, crate::specs::Orders::said_by, crate::specs::Orders::image_by, crate::specs::Orders::slot_by))]

ghost use Rattle.std.specs.Prelude.{◌≡◌, List, ℕ, ◌+◌, ◌*◌, ◌≤◌, ◌<◌, length, set, Ok, Err};
ghost use Rattle.words.specs.Bounds.{least_tail};
ghost use Rattle.chips.specs.declared.Facts.{Facts};
ghost use Rattle.chips.specs.Kinds.{facts};
ghost use Rattle.steps.specs.declared.Order.{Order};
ghost use Rattle.orders.specs.Orders.{Does, performed};

use chips::Chip;
use slot::Slot;
use steps::Status;
use words::put_two;

// What a handler tells: how many bytes it said, and the next slot record.
// A length and no slice: what is said stays in the lent tail of the answer buffer, fixed memory, which the header goes before.
#[derive(Clone, Copy)]
pub struct Told {
    pub len: usize,
    pub slot: Slot,
}

impl Told {
    // 90 00 behind n bytes of data, and the next slot record.
    pub fn done(n: usize, slot: Slot, out: &mut [u8]) -> Told
        requires { n + 2 ≤ length out.old }
        ensures { (result.len ≡ n + 2) × (result.slot ≡ slot) × (out.new ≡ set (set out.old n 0x90) (n + 1) 0x00) }
    {
        let len = put_two(out, n, 0x90, 0x00);
        Told { len, slot }
    }
}

// A command that is refused says its status word and changes nothing.
pub fn refuse(status: Status, slot: Slot, out: &mut [u8]) -> Told
    requires { least_tail ≤ length out.old }
    ensures { (f : Facts) (image b : List ℕ) → Does (performed f slot image b (Err status)) result image out.old out.new }
{
    let word = status.word();
    let len = put_two(out, 0, word[0], word[1]);
    Told { len, slot }
}

// A4: the card's type is selected, and the card closed.
pub fn select(chip: Chip, slot: Slot, out: &mut [u8]) -> Told
    requires { least_tail ≤ length out.old }
    ensures { (image b : List ℕ) → Does (performed (facts chip) slot image b (Ok Order.Select)) result image out.old out.new }
{
    Told::done(0, slot.select(chip.facts().selects), out)
}

// 01: the reader page.
pub fn set_page(page: u8, slot: Slot, out: &mut [u8]) -> Told
    requires { least_tail ≤ length out.old }
    ensures { (f : Facts) (image b : List ℕ) → Does (performed f slot image b (Ok (Order.Page page))) result image out.old out.new }
{
    Told::done(0, slot.set_page(page), out)
}

// B0: the bytes, a closed card's code as 00h.
pub fn read(chip: Chip, slot: Slot, image: &[u8], at: usize, n: usize, out: &mut [u8]) -> Told
    requires { (least_tail ≤ length out.old) × (at + n ≤ length image.now) × (n ≤ 255) }
    ensures { (b : List ℕ) → Does (performed (facts chip) slot image.now b (Ok (Order.Read at n))) result image.now out.old out.new }
{
    reads::read_shown(
        image,
        at,
        n,
        chip.facts().code,
        chip.facts().digits,
        slot.open,
        out,
    );
    Told::done(n, slot, out)
}

// B1: the counter, and 00h behind it.
pub fn read_counter(chip: Chip, slot: Slot, image: &[u8], n: usize, out: &mut [u8]) -> Told
    requires { (least_tail ≤ length out.old) × ((facts chip).counter < length image.now) × (3 ≤ n) × (n ≤ 4) }
    ensures { (b : List ℕ) → Does (performed (facts chip) slot image.now b (Ok (Order.Counter n))) result image.now out.old out.new }
{
    reads::read_counter(image, chip.facts().counter, n, out);
    Told::done(n, slot, out)
}

// B2: protection bits, packed.
pub fn read_bits(chip: Chip, slot: Slot, image: &[u8], at: usize, n: usize, out: &mut [u8]) -> Told
    requires { (least_tail ≤ length out.old) × (length image.now ≡ (facts chip).size) × (at + 8 * n ≤ (facts chip).covered) × (n ≤ 32) }
    ensures { (b : List ℕ) → Does (performed (facts chip) slot image.now b (Ok (Order.Bits at n))) result image.now out.old out.new }
{
    card::protection(chip).read_bits(image, at, n, out);
    Told::done(n, slot, out)
}
