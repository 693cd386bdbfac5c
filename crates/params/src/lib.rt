// Set, get and reset the parameters: 61h, 6Ch, 6Dh. Inner functions: they ask that the tests before them have passed.
// The rules are those of `frame` and `sets`.
#![tactic(auto)]

ghost use Rattle.std.specs.Prelude.{◌≡◌, List, ℕ, ◌≤◌, length};
ghost use Rattle.words.specs.Bounds.{least_room};
ghost use Rattle.faults.specs.declared.Request.TheVariants.{SetParameters, GetParameters, ResetParameters};
ghost use Rattle.frame.specs.Answers.{answer_type};
ghost use Rattle.frame.specs.Exchange.{told, deed, reply, Gives};

use faults::{Message, Request, fault_of};
use frame::{Reply, seal, seal_done};
use slot::Slot;

// The answer 82h of a request: failed, no data and the slot as it was; else the next slot, and its parameters told. Inlined, as `quiet` of `power`.
#[inline]
fn tell(request: Request, slot: Slot, next: Slot, msg: &Message, answer: &mut [u8]) -> Reply
    requires { least_room ≤ length answer.old }
    ensures { (image : List ℕ) → answer_type request ≡ 0x82 → deed request slot.holds slot image msg.now ≡ told next image
        → Gives (reply request slot image msg.now) result image answer.old answer.new }
{
    let fault = fault_of(request, slot, msg);
    if fault.is_some() {
        return seal(0x82, fault, 0, slot, msg, answer);
    }
    let len = sets::put_set(next.set, &mut answer[10..]);
    seal_done(0x82, len, next, msg, answer)
}

// 61h.
pub fn set_parameters(slot: Slot, msg: &Message, answer: &mut [u8]) -> Reply
    requires { least_room ≤ length answer.old }
    ensures { (image : List ℕ) → Gives (reply SetParameters slot image msg.now) result image answer.old answer.new }
{
    let next = slot.with_set(msg.set());
    tell(Request::SetParameters, slot, next, msg, answer)
}

// 6Ch.
pub fn get_parameters(slot: Slot, msg: &Message, answer: &mut [u8]) -> Reply
    requires { least_room ≤ length answer.old }
    ensures { (image : List ℕ) → Gives (reply GetParameters slot image msg.now) result image answer.old answer.new }
{
    tell(Request::GetParameters, slot, slot, msg, answer)
}

// 6Dh.
pub fn reset_parameters(slot: Slot, msg: &Message, answer: &mut [u8]) -> Reply
    requires { least_room ≤ length answer.old }
    ensures { (image : List ℕ) → Gives (reply ResetParameters slot image msg.now) result image answer.old answer.new }
{
    tell(
        Request::ResetParameters,
        slot,
        slot.reset_set(),
        msg,
        answer,
    )
}
