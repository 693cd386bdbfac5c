// What INS means on the card selects: from a pseudo-APDU that passed the first step to an order. An inner function: it asks that five bytes are there. The rules are
// those of `steps`.
#![tactic(auto, using(words::proofs::Choices::choices), unfolding(steps::specs::Steps::order))]

ghost use Rattle.std.specs.Prelude.{◌≡◌, ◌≤◌, length};
ghost use Rattle.chips.specs.Kinds.{facts};
ghost use Rattle.steps.specs.Steps.{order};

use chips::Chip;
use slot::Slot;
use steps::{Asked, Ins, Order, Status};
use words::{byte_at, wide};

// The nine steps, on a pseudo-APDU that passed the first. Each arm asks for the place by its own instruction, a constant, so that compiled it has
// the range test of that one alone. The byte after P3 is read for the two that look at it.
pub fn decide(chip: Chip, slot: Slot, apdu: &[u8]) -> Result<Order, Status>
    requires { 5 ≤ length apdu.now }
    ensures { result ≡ order (facts chip) slot apdu.now }
{
    Status::Class.unless(apdu[0] == 0xFF)?;
    let asked = Asked {
        chip,
        slot,
        n: apdu.len(),
        p: wide(apdu[4]),
    };
    let meaning = places::meant(chip, Ins::from(apdu[1]));
    let top = meaning.top;
    match meaning.ins {
        Ins::Select => {
            let v = byte_at(apdu, 5);
            steps::select_order(asked, v, places::place(chip, Ins::Select, top, apdu))
        }
        Ins::Page => {
            let v = byte_at(apdu, 5);
            steps::page_order(asked, v, places::place(chip, Ins::Page, top, apdu))
        }
        Ins::Read => steps::read_order(asked, places::place(chip, Ins::Read, top, apdu)),
        Ins::Counter => steps::counter_order(asked, places::place(chip, Ins::Counter, top, apdu)),
        Ins::Bits => steps::bits_order(asked, places::place(chip, Ins::Bits, top, apdu)),
        Ins::Write => guards::write_order(asked, places::place(chip, Ins::Write, top, apdu)),
        Ins::Protect => guards::protect_order(asked, places::place(chip, Ins::Protect, top, apdu)),
        Ins::Present => guards::present_order(asked, places::place(chip, Ins::Present, top, apdu)),
        Ins::Change => guards::change_order(asked, places::place(chip, Ins::Change, top, apdu)),
        Ins::Other => Err(Status::Instruction),
    }
}
