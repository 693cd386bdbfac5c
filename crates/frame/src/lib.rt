// What frames an answer: its header, and why a call is turned down, by number.
// Inner functions ask that the answer's header has its room; the methods have no `requires`.
// The rules are written in specs/: Answers, and Exchange for what comes of a message, an insertion and a removal.
#![tactic(auto, using(words::proofs::Choices::choices), unfolding(crate::specs::Answers::card_state, crate::specs::Answers::b_status, crate::specs::Answers::byte9))]

ghost use Rattle.std.specs.Prelude.{◌≡◌, ◌≤◌, ◌<◌, None, length};
ghost use Rattle.words.specs.Choice.{◌⇒◌⁏◌};
ghost use Rattle.sets.specs.Sets.{protocol_of};
ghost use Rattle.faults.specs.Faults.{b_slot, is_clear};
ghost use Rattle.frame.specs.Answers.{b_error, card_state, b_status, byte9};
ghost use Rattle.frame.specs.Exchange.{number_of, number, answer_length, Sealed};

use faults::{Fault, Message};
use slot::Slot;

// Why a call is turned down: the numbers 1 to 5 of the rules.
#[derive(Clone, Copy)]
pub enum Refusal {
    Buffer = 1,
    Message = 2,
    Image = 3,
    Record = 4,
    Occupied = 5,
}

// What comes of a call: how long the answer is, or why there is none.
pub type Verdict = Result<usize, Refusal>;

#[derive(Clone, Copy)]
pub struct Reply {
    pub verdict: Verdict,
    pub slot: Slot,
}

impl Refusal {
    // Its number.
    pub fn number(self) -> u8
        ensures { (result ≡ number_of self) × (result ≤ 5) }
    {
        self as u8
    }
}

// The refusal's number, or 0.
pub fn number(verdict: Verdict) -> u8
    ensures { (result ≡ number verdict) × (result ≤ 5) }
{
    match verdict {
        Ok(_) => 0,
        Err(refusal) => refusal.number(),
    }
}

// The answer's length, 0 where there is none.
pub fn answer_length(verdict: Verdict) -> usize
    ensures { result ≡ answer_length verdict }
{
    verdict.unwrap_or(0)
}

// ---- the header

// bError. A function and no From: an impl of it for an Option of the library is not ours to write.
fn error_of(fault: Option<Fault>) -> u8
    ensures { result ≡ b_error fault }
{
    match fault {
        None | Some(Fault::Unknown) => 0x00,
        Some(Fault::Length) => 0x01,
        Some(Fault::OtherSlot) => 0x05,
        Some(Fault::Field(at)) => at,
        Some(Fault::Card) => 0xFE,
    }
}

// The card state, as bStatus gives it, of the slot that bSlot names.
fn state_of(bslot: u8, slot: Slot) -> u8
    ensures { (result ≡ card_state bslot slot) × (result < 3) }
{
    if bslot != 0 || !slot.has_card() {
        2
    } else if slot.active {
        0
    } else {
        1
    }
}

// bStatus: the card state, and 40h when failed.
fn status_of(fault: Option<Fault>, state: u8) -> u8
    requires { state < 3 }
    ensures { result ≡ b_status fault state }
{
    match fault {
        None => state,
        Some(_) => state + 0x40,
    }
}

// The protocol number that 82h tells: that of the slot after the call, 0 where the message failed.
fn protocol_of(fault: Option<Fault>, slot: Slot) -> u8
    ensures { result ≡ (is_clear fault ⇒ protocol_of slot.set ⁏ 0) }
{
    match fault {
        None => words::byte_of(slot.set, 0),
        Some(_) => 0,
    }
}

// Byte 9.
fn last_of(answer_type: u8, fault: Option<Fault>, state: u8, slot: Slot) -> u8
    ensures { result ≡ byte9 answer_type fault state slot }
{
    match answer_type {
        0x80 => 0,
        0x82 => protocol_of(fault, slot),
        _ => u8::from(state != 0),
    }
}

// Seals an answer to a message that names slot bslot: its header goes before the data that stand from byte 10 on, and the slot after the call is
// handed back. `answer_type` is no enum of 80h, 81h and 82h: it is the byte that stands first, and only byte 9 looks at which it is.
fn seal_for(
    bslot: u8,
    answer_type: u8,
    fault: Option<Fault>,
    len: usize,
    slot: Slot,
    msg: &Message,
    answer: &mut [u8],
) -> Reply
    requires fits { (10 ≤ length answer.old) × (len ≤ 257) }
    requires named { bslot ≡ b_slot msg.now }
    ensures { Sealed answer_type fault len slot msg.now result answer.old answer.new }
{
    let state = state_of(bslot, slot);
    answer[0] = answer_type;
    answer[1..5].copy_from_slice(&len.to_le_bytes()[..4]);
    answer[5] = bslot;
    answer[6] = msg.seq();
    answer[7] = status_of(fault, state);
    answer[8] = error_of(fault);
    answer[9] = last_of(answer_type, fault, state, slot);
    Reply {
        verdict: Ok(10 + len),
        slot,
    }
}

// The answer is sealed.
pub fn seal(
    answer_type: u8,
    fault: Option<Fault>,
    len: usize,
    slot: Slot,
    msg: &Message,
    answer: &mut [u8],
) -> Reply
    requires { (10 ≤ length answer.old) × (len ≤ 257) }
    ensures { Sealed answer_type fault len slot msg.now result answer.old answer.new }
{
    seal_for(msg.slot(), answer_type, fault, len, slot, msg, answer)
}

// The answer of a message without a fault, sealed likewise: it names slot 0. It is apart for the speed: as a call of `seal` it makes up to 170
// instructions more of a message about parameters, and 488 bytes of stack of 200.
pub fn seal_done(answer_type: u8, len: usize, slot: Slot, msg: &Message, answer: &mut [u8]) -> Reply
    requires fits { (10 ≤ length answer.old) × (len ≤ 257) }
    requires slot_0 { b_slot msg.now ≡ 0 }
    ensures { Sealed answer_type None len slot msg.now result answer.old answer.new }
{
    seal_for(0, answer_type, None, len, slot, msg, answer)
}
