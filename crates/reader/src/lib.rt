// The reader: one host message, or one insertion or removal, from slot record and card image to the answer and what the card holds next.
// No offered function has a `requires`: any message, any image, any record and any answer buffer has its one outcome.
#![tactic(auto)]

ghost use Rattle.std.specs.Prelude.{◌≡◌, [], ◌≤◌, length, Err};
ghost use Rattle.words.specs.Bounds.{least_room};
ghost use Rattle.slot.specs.Slots.{removed};
ghost use Rattle.frame.specs.Exchange.{served, exchange, insertion, Gives};
ghost use Rattle.reader.specs.Fronts.{front_of};

use faults::Message;
use frame::{Refusal, Reply};
use slot::Slot;

// A message or insertion that is turned down keeps the slot as it is.
fn turn_down(refusal: Refusal, slot: Slot) -> Reply
    ensures { (result.verdict ≡ Err refusal) × (result.slot ≡ slot) }
{
    Reply {
        verdict: Err(refusal),
        slot,
    }
}

// Tests 1 and 2, which look at no slot, and the slot that bSlot names; room is the length of the answer buffer.
pub fn front(msg: &[u8], room: usize) -> Result<u8, Refusal>
    ensures { result ≡ front_of msg.now room }
{
    if room < words::ROOM {
        return Err(Refusal::Buffer);
    }
    if msg.len() < 10 {
        return Err(Refusal::Message);
    }
    Ok(msg[5])
}

// What the named slot does: tests 3 and 4, then the handler. A slice and no `Message`: `front` gives bSlot alone, and `reader_front_only` says it so.
pub fn serve(slot: Slot, image: &mut [u8], msg: &[u8], answer: &mut [u8]) -> Reply
    requires { (10 ≤ length msg.now) × (least_room ≤ length answer.old) }
    ensures { Gives (served slot image.old msg.now) result image.new answer.old answer.new }
{
    if !sound::fits(slot, image) {
        return turn_down(Refusal::Image, slot);
    }
    if !sound::stands(slot, image) {
        return turn_down(Refusal::Record, slot);
    }
    dispatch::handle(slot, image, &Message::of(msg), answer)
}

// One host message: the four tests in order, then the handler.
pub fn message(slot: Slot, image: &mut [u8], msg: &[u8], answer: &mut [u8]) -> Reply
    ensures { Gives (exchange slot image.old msg.now (length answer.old)) result image.new answer.old
        answer.new }
{
    match front(msg, answer.len()) {
        Err(refusal) => turn_down(refusal, slot),
        Ok(_) => serve(slot, image, msg, answer),
    }
}

// A card is put in: turned down where one is in, or where the image is no card of that kind. Tries left and protected bytes are the image's.
pub fn insert(slot: Slot, kind: u8, image: &[u8]) -> Reply
    ensures { Gives (insertion slot kind image.now) result image.now [] [] }
{
    if slot.has_card() {
        return turn_down(Refusal::Occupied, slot);
    }
    let Some(chip) = chips::chip_of(kind) else {
        return turn_down(Refusal::Image, slot);
    };
    if !card::is_card(chip, image) {
        return turn_down(Refusal::Image, slot);
    }
    let next = slot.insert(
        chip,
        counts::tries_in(chip, image),
        counts::count_in(chip, image),
    );
    Reply {
        verdict: Ok(0),
        slot: next,
    }
}

// The card is taken out: never turned down.
pub fn remove(slot: Slot) -> Slot
    ensures { result ≡ removed }
{
    slot.remove()
}
