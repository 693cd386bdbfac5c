// A message that passed the tests goes to the handler of its type: those of `power` and `params`, 6Fh's and that of the unsupported types.
// Inner functions: they ask that the tests before them have passed. The rules are those of `frame`. What a sound record has stays a clause: a
// `Slot` is any record, however made, and `served` says what comes of each.
#![tactic(auto)]

ghost use Rattle.std.specs.Prelude.{◌≡◌, true, List, ℕ, ◌≤◌, ◌<◌, length};
ghost use Rattle.words.specs.Bounds.{least_room};
ghost use Rattle.counts.specs.Counts.{protected_of};
ghost use Rattle.sound.specs.Sound.{image_is_card};
ghost use Rattle.faults.specs.declared.Request.TheVariants.{Transfer, Unsupported};
ghost use Rattle.faults.specs.Faults.{type_byte, request_of};
ghost use Rattle.frame.specs.Exchange.{reply, Gives};

use faults::{Fault, Message, Request, fault_of};
use frame::{Reply, seal, seal_done};
use slot::Slot;

// 6Fh: the pseudo-APDU goes to the card that is in.
fn transfer(slot: Slot, image: &mut [u8], msg: &Message, answer: &mut [u8]) -> Reply
    requires { (least_room ≤ length answer.old) × (image_is_card slot.holds image.old ≡ true) × (0 < slot.page)
        × (slot.protected ≡ protected_of slot.holds image.old) }
    ensures { Gives (reply Transfer slot image.old msg.now) result image.new answer.old answer.new }
{
    let fault = fault_of(Request::Transfer, slot, msg);
    if fault.is_some() {
        return seal(0x80, fault, 0, slot, msg, answer);
    }
    let Some(chip) = slot.holds else {
        return seal(0x80, fault, 0, slot, msg, answer);
    };
    let told = command::command(chip, slot, image, msg.data(), &mut answer[10..]);
    seal_done(0x80, told.len, told.slot, msg, answer)
}

// A type that is not supported.
fn unsupported(slot: Slot, msg: &Message, answer: &mut [u8]) -> Reply
    requires { least_room ≤ length answer.old }
    ensures { (image : List ℕ) → Gives (reply Unsupported slot image msg.now) result image answer.old answer.new }
{
    seal(0x81, Some(Fault::Unknown), 0, slot, msg, answer)
}

// The handler of what the message asks for.
pub fn handle(slot: Slot, image: &mut [u8], msg: &Message, answer: &mut [u8]) -> Reply
    requires { (least_room ≤ length answer.old) × (image_is_card slot.holds image.old ≡ true) × (0 < slot.page)
        × (slot.protected ≡ protected_of slot.holds image.old) }
    ensures { Gives (reply (request_of (type_byte msg.now)) slot image.old msg.now) result image.new
        answer.old answer.new }
{
    match msg.request() {
        Request::SetParameters => params::set_parameters(slot, msg, answer),
        Request::PowerOn => power::power_on(slot, image, msg, answer),
        Request::PowerOff => power::power_off(slot, msg, answer),
        Request::SlotStatus => power::slot_status(slot, msg, answer),
        Request::GetParameters => params::get_parameters(slot, msg, answer),
        Request::ResetParameters => params::reset_parameters(slot, msg, answer),
        Request::Transfer => transfer(slot, image, msg, answer),
        Request::Unsupported => unsupported(slot, msg, answer),
    }
}
