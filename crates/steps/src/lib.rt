// The nine steps: what they end in, and the steps of the commands that only look: A4, 01, B0, B1, B2. Inner functions: they ask that P3
// comes from a byte. The rules are written in specs/Steps.antt, one table for each step, and its chain `steps` in the paper's order. What step 7
// makes of INS, P1P2 and P3 is handed to them (crate places): no handler is given P1P2 itself.
#![tactic(auto, using(words::proofs::Choices::choices), unfolding(crate::specs::Steps::steps, crate::specs::Steps::reaching, crate::specs::Steps::ins_of))]

ghost use Rattle.std.specs.Prelude.{◌≡◌, ℕ, ◌<◌, true, false, MatchResult};
ghost use Rattle.chips.specs.Kinds.{facts};
ghost use Rattle.steps.specs.declared.Ins.TheVariants.{Select, Page, Read, Counter, Bits};
ghost use Rattle.steps.specs.Steps.{word_of, ins_of, length_fits, steps};

use chips::Chip;
use slot::Slot;

// The status words that refuse a command.
#[derive(Clone, Copy)]
pub enum Status {
    Length,
    Class,
    Instruction,
    Unselected,
    Place,
    Value,
    Denied,
}

impl Status {
    // A step: the command is refused unless it passes.
    pub fn unless(self, passes: bool) -> Result<(), Status>
        ensures { MatchResult result (λ _. passes ≡ true) (λ status. (status ≡ self) × (passes ≡ false)) }
    {
        if passes { Ok(()) } else { Err(self) }
    }

    // The two bytes of the status word.
    pub fn word(self) -> [u8; 2]
        ensures { result ≡ word_of self }
    {
        match self {
            Status::Length => [0x67u8, 0x00],
            Status::Class => [0x6Eu8, 0x00],
            Status::Instruction => [0x6Du8, 0x00],
            Status::Unselected => [0x69u8, 0x85],
            Status::Place => [0x6Bu8, 0x00],
            Status::Value => [0x6Au8, 0x80],
            Status::Denied => [0x69u8, 0x82],
        }
    }
}

// What INS means.
#[derive(Clone, Copy)]
pub enum Ins {
    Select,
    Page,
    Read,
    Counter,
    Bits,
    Write,
    Protect,
    Present,
    Change,
    Other,
}

impl From<u8> for Ins {
    ghost from_gives = { λ b i. i ≡ ins_of b };

    fn from(b: u8) -> Ins {
        match b {
            0xA4 => Ins::Select,
            0x01 => Ins::Page,
            0xB0 => Ins::Read,
            0xB1 => Ins::Counter,
            0xB2 => Ins::Bits,
            0xD0 => Ins::Write,
            0xD1 => Ins::Protect,
            0x20 => Ins::Present,
            0xD2 => Ins::Change,
            0x00 | 0x02..=0x1F | 0x21..=0xA3 | 0xA5..=0xAF | 0xB3..=0xCF | 0xD3..=0xFF =>
                Ins::Other,
        }
    }
}

// What the nine steps end in, where none of them refuses.
#[derive(Clone, Copy)]
pub enum Order {
    Select,
    // The reader page.
    Page(u8),
    Read { at: usize, count: usize },
    // How many bytes.
    Counter(usize),
    Bits { at: usize, count: usize },
    // Where.
    Write(usize),
    Protect(usize),
    Present,
    Change,
}

// What the steps look at: the card and its slot record, the data length and P3.
// That P3 comes from a byte stays a clause: `read_order`, `counter_order` and `bits_order` answer for any.
#[derive(Clone, Copy)]
pub struct Asked {
    pub chip: Chip,
    pub slot: Slot,
    pub n: usize,
    pub p: usize,
}

// A4.
pub fn select_order(asked: Asked, v: u8, ranged: Result<usize, Status>) -> Result<Order, Status>
    requires { asked.p < 256 }
    ensures { result ≡ steps (facts asked.chip) asked.slot asked.n asked.p v Select ranged }
{
    Status::Length.unless(asked.n == 5 + asked.p)?;
    Status::Length.unless(asked.p == 1)?;
    ranged?;
    Status::Value.unless(v == asked.chip.facts().selects)?;
    Ok(Order::Select)
}

// 01.
pub fn page_order(asked: Asked, v: u8, ranged: Result<usize, Status>) -> Result<Order, Status>
    requires { asked.p < 256 }
    ensures { result ≡ steps (facts asked.chip) asked.slot asked.n asked.p v Page ranged }
{
    Status::Unselected.unless(asked.slot.selected != 0)?;
    Status::Instruction.unless(asked.chip.facts().page != 0)?;
    Status::Length.unless(asked.n == 5 + asked.p)?;
    Status::Length.unless(asked.p == 1)?;
    ranged?;
    Status::Value.unless(0x03 <= v && v <= 0x07)?;
    Ok(Order::Page(1u8 << v))
}

// B0.
pub fn read_order(asked: Asked, ranged: Result<usize, Status>) -> Result<Order, Status>
    ensures { (v : ℕ) → result ≡ steps (facts asked.chip) asked.slot asked.n asked.p v Read ranged }
{
    Status::Unselected.unless(asked.slot.selected != 0)?;
    Status::Length.unless(asked.n == 5)?;
    Status::Length.unless(1 <= asked.p)?;
    let at = ranged?;
    Ok(Order::Read { at, count: asked.p })
}

// B1.
pub fn counter_order(asked: Asked, ranged: Result<usize, Status>) -> Result<Order, Status>
    ensures { (v : ℕ) → result ≡ steps (facts asked.chip) asked.slot asked.n asked.p v Counter ranged }
{
    let facts = asked.chip.facts();
    Status::Unselected.unless(asked.slot.selected != 0)?;
    Status::Instruction.unless(facts.coded)?;
    Status::Length.unless(asked.n == 5)?;
    Status::Length.unless(asked.p == facts.digits + 1)?;
    ranged?;
    Ok(Order::Counter(asked.p))
}

// 1 to 32 bytes of bits, or 4.
fn bits_length(chip: Chip, p: usize) -> bool
    ensures { result ≡ length_fits (facts chip) Bits p }
{
    if chip.facts().selects != 0x05 {
        return p == 4;
    }
    1 <= p && p <= 32
}

// B2.
pub fn bits_order(asked: Asked, ranged: Result<usize, Status>) -> Result<Order, Status>
    ensures { (v : ℕ) → result ≡ steps (facts asked.chip) asked.slot asked.n asked.p v Bits ranged }
{
    Status::Unselected.unless(asked.slot.selected != 0)?;
    Status::Instruction.unless(asked.chip.facts().covered != 0)?;
    Status::Length.unless(asked.n == 5)?;
    Status::Length.unless(bits_length(asked.chip, asked.p))?;
    let at = ranged?;
    Ok(Order::Bits { at, count: asked.p })
}
