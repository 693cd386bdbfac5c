// Power on, power off and slot status: 62h, 63h, 65h. Inner functions: they ask that the tests before them have passed.
// The rules are those of `frame`. The answer buffer's room stays a clause: a struct that holds a `&mut` tells its lender nothing of what is left there (tried).
#![tactic(auto)]

ghost use Rattle.std.specs.Prelude.{◌≡◌, true, List, ℕ, ◌≤◌, length};
ghost use Rattle.words.specs.Bytes.{over};
ghost use Rattle.words.specs.Bounds.{least_room};
ghost use Rattle.chips.specs.Kinds.{facts};
ghost use Rattle.sound.specs.Sound.{image_is_card};
ghost use Rattle.faults.specs.declared.Request.TheVariants.{PowerOn, PowerOff, SlotStatus};
ghost use Rattle.frame.specs.Answers.{answer_type};
ghost use Rattle.frame.specs.Exchange.{reset, idle, deed, reply, Gives};

use chips::Chip;
use faults::{Message, Request, fault_of};
use frame::{Reply, seal, seal_done};
use slot::Slot;
use words::put_two;

// The answer to reset, into the lent tail of the answer buffer.
fn answer_to_reset(chip: Chip, image: &[u8], out: &mut [u8]) -> usize
    requires { (length image.now ≡ (facts chip).size) × (6 ≤ length out.old) }
    ensures { (result ≡ length (reset (facts chip) image.now)) × (out.new ≡ over (reset (facts chip) image.now) out.old) × (result ≤ 6) }
{
    if chip.facts().page != 0 {
        return put_two(out, 0, 0x3B, 0x00);
    }
    out[0] = 0x3B;
    out[1] = 0x04;
    copies::lay_block::<4>(image, &mut out[2..], 0);
    6
}

// 62h.
pub fn power_on(slot: Slot, image: &[u8], msg: &Message, answer: &mut [u8]) -> Reply
    requires { (least_room ≤ length answer.old) × (image_is_card slot.holds image.now ≡ true) }
    ensures { Gives (reply PowerOn slot image.now msg.now) result image.now answer.old answer.new }
{
    let fault = fault_of(Request::PowerOn, slot, msg);
    if fault.is_some() {
        return seal(0x80, fault, 0, slot, msg, answer);
    }
    let Some(chip) = slot.holds else {
        return seal(0x80, fault, 0, slot, msg, answer);
    };
    let len = answer_to_reset(chip, image, &mut answer[10..]);
    let next = slot.power(true).reset_set();
    seal_done(0x80, len, next, msg, answer)
}

// The answer 81h of a request without data: failed, and the slot as it was; else the next slot. Inlined, so that the tests know the request:
// as a call of its own a slot status took half as many instructions again.
#[inline]
fn quiet(request: Request, slot: Slot, next: Slot, msg: &Message, answer: &mut [u8]) -> Reply
    requires { least_room ≤ length answer.old }
    ensures { (image : List ℕ) → answer_type request ≡ 0x81 → deed request slot.holds slot image msg.now ≡ idle next image
        → Gives (reply request slot image msg.now) result image answer.old answer.new }
{
    let fault = fault_of(request, slot, msg);
    if fault.is_some() {
        return seal(0x81, fault, 0, slot, msg, answer);
    }
    seal_done(0x81, 0, next, msg, answer)
}

// 63h.
pub fn power_off(slot: Slot, msg: &Message, answer: &mut [u8]) -> Reply
    requires { least_room ≤ length answer.old }
    ensures { (image : List ℕ) → Gives (reply PowerOff slot image msg.now) result image answer.old answer.new }
{
    quiet(Request::PowerOff, slot, slot.power(false), msg, answer)
}

// 65h.
pub fn slot_status(slot: Slot, msg: &Message, answer: &mut [u8]) -> Reply
    requires { least_room ≤ length answer.old }
    ensures { (image : List ℕ) → Gives (reply SlotStatus slot image msg.now) result image answer.old answer.new }
{
    quiet(Request::SlotStatus, slot, slot, msg, answer)
}
