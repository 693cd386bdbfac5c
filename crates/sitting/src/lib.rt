// A sitting at the reader: one record after another, each done to the slot record and the card image that the last one left.
// No offered function has a `requires`: any record, any body and whatever is held has its one outcome.
#![tactic(auto)]

ghost use Rattle.std.specs.Prelude.{◌≡◌, List, ℕ, ◌≤◌, length, take};
ghost use Rattle.words.specs.Bounds.{largest_held, least_room};
ghost use Rattle.slot.specs.Slots.{removed};
ghost use Rattle.frame.specs.Exchange.{exchange};
ghost use Rattle.sitting.specs.Sittings.{taken_for, inserting, outcome_of, Leaves};

use records::Mark;
use slot::Slot;
use words::{LARGEST_HELD, ROOM, least};

// What is held from record to record: the slot record, and how many bytes of the lent image are the card's.
// A size and no slice: the image stays in the lent buffer, fixed memory, which the next record writes.
#[derive(Clone, Copy)]
pub struct Held {
    pub slot: Slot,
    pub size: usize,
}

// A record that is done: its number, the length of its answer, and what is held now.
// A number and no Result: `sittings_go` (promise) makes one of any outcome, whose number need not be a refusal's.
#[derive(Clone, Copy)]
pub struct Done {
    pub number: u8,
    pub len: usize,
    pub held: Held,
}

// The empty sound slot, and no image.
pub fn start() -> Held
    ensures { (result.slot ≡ removed) × (result.size ≡ 0) }
{
    let slot = slot::empty();
    Held { slot, size: 0 }
}

// The kind that a kind byte is taken for: kinds 10 and 11 are unknown here, as 0 is. No record holds the image of one.
// A number and no Option: the rules (`taken_for`, `inserting`) go on with a kind byte, and an insertion of 0 is turned down by its rule.
#[tactic(auto, using(words::proofs::Choices::choices), unfolding(crate::specs::Sittings::taken_for))]
fn taken_for(kind: u8) -> u8
    ensures { result ≡ taken_for kind }
{
    if kind == 10 || kind == 11 { 0 } else { kind }
}

// A card of a kind is put in. Only where it is accepted are its bytes laid into the lent image.
// Slot and size apart, where `Held` has both: `perform` lessens the size first, and the rules take the two one by one. The verdict is asked by its number, which is told.
fn put_in(kind: u8, card: &[u8], slot: Slot, size: usize, image: &mut [u8]) -> Done
    requires { (length image.old ≡ largest_held) × (size ≤ largest_held) }
    ensures { (was : List ℕ) → Leaves (inserting slot kind card.now (take size image.old)) result image.old image.new was was }
{
    let reply = reader::insert(slot, taken_for(kind), card);
    let number = frame::number(reply.verdict);
    if number != 0 {
        return Done {
            number,
            len: 0,
            held: Held {
                slot: reply.slot,
                size,
            },
        };
    }
    copies::lay(card, image);
    Done {
        number,
        len: 0,
        held: Held {
            slot: reply.slot,
            size: card.len(),
        },
    }
}

// An insert's body is a kind byte and an image; an empty one counts as one of unknown kind, as 0 is.
fn insert(body: &[u8], slot: Slot, size: usize, image: &mut [u8]) -> Done
    requires { (length image.old ≡ largest_held) × (size ≤ largest_held) }
    ensures { (was : List ℕ) → Leaves (outcome_of Mark.Insert body.now slot (take size image.old) least_room) result image.old image.new was was }
{
    if body.len() == 0 {
        return put_in(0, body, slot, size, image);
    }
    put_in(body[0], &body[1..], slot, size, image)
}

// A removal: nothing is held any more.
fn remove(slot: Slot) -> Done
    ensures { (result.number ≡ 0) × (result.len ≡ 0) × (result.held.slot ≡ removed) × (result.held.size ≡ 0) }
{
    let next = reader::remove(slot);
    Done {
        number: 0,
        len: 0,
        held: Held {
            slot: next,
            size: 0,
        },
    }
}

// A message, on the slot and image that are held.
fn message(body: &[u8], slot: Slot, size: usize, image: &mut [u8], answer: &mut [u8]) -> Done
    requires { size ≤ length image.old }
    ensures { Leaves (exchange slot (take size image.old) body.now (length answer.old)) result image.old
        image.new answer.old answer.new }
{
    let reply = reader::message(slot, &mut image[..size], body, answer);
    let next = reply.slot;
    Done {
        number: frame::number(reply.verdict),
        len: frame::answer_length(reply.verdict),
        held: Held { slot: next, size },
    }
}

// One record: a match on its mark. The card's image is the front of the lent one, as long as `held` says.
pub fn perform(
    mark: Mark,
    body: &[u8],
    held: Held,
    image: &mut [u8; LARGEST_HELD],
    answer: &mut [u8; ROOM],
) -> Done
    ensures { Leaves (outcome_of mark body.now held.slot (take held.size image.old) least_room) result image.old
        image.new answer.old answer.new }
{
    let slot = held.slot;
    let size = least(held.size, LARGEST_HELD);
    match mark {
        Mark::Insert => insert(body, slot, size, image),
        Mark::Remove => remove(slot),
        Mark::Message => message(body, slot, size, image, answer),
    }
}
