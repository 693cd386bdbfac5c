// The steps of the commands that a closed card refuses, or that open it: D0, D1, 20, D2. Inner functions: they ask that P3 comes from a
// byte. The rules are those of `steps`.
#![tactic(auto, using(words::proofs::Choices::choices), unfolding(steps::specs::Steps::steps, steps::specs::Steps::reaching))]

ghost use Rattle.std.specs.Prelude.{◌≡◌, not, ℕ, ◌<◌};
ghost use Rattle.words.specs.Choice.{◌and◌};
ghost use Rattle.chips.specs.Kinds.{facts};
ghost use Rattle.steps.specs.declared.Ins.TheVariants.{Write, Protect, Present, Change};
ghost use Rattle.steps.specs.Steps.{has, steps};

use chips::Chip;
use steps::{Asked, Order, Status};

// A code card that is closed.
fn locked(asked: Asked) -> bool
    ensures { result ≡ ((facts asked.chip).coded and not asked.slot.«open») }
{
    asked.chip.facts().coded && !asked.slot.open
}

// D0. What is protected is not asked here: the storing passes over it.
pub fn write_order(asked: Asked, ranged: Result<usize, Status>) -> Result<Order, Status>
    requires { asked.p < 256 }
    ensures { (v : ℕ) → result ≡ steps (facts asked.chip) asked.slot asked.n asked.p v Write ranged }
{
    Status::Unselected.unless(asked.slot.selected != 0)?;
    Status::Length.unless(asked.n == 5 + asked.p)?;
    Status::Length.unless(1 <= asked.p)?;
    let at = ranged?;
    Status::Denied.unless(!locked(asked))?;
    Ok(Order::Write(at))
}

// D1.
pub fn protect_order(asked: Asked, ranged: Result<usize, Status>) -> Result<Order, Status>
    requires { asked.p < 256 }
    ensures { (v : ℕ) → result ≡ steps (facts asked.chip) asked.slot asked.n asked.p v Protect ranged }
{
    Status::Unselected.unless(asked.slot.selected != 0)?;
    Status::Instruction.unless(asked.chip.facts().covered != 0)?;
    Status::Length.unless(asked.n == 5 + asked.p)?;
    Status::Length.unless(1 <= asked.p)?;
    let at = ranged?;
    Status::Denied.unless(!locked(asked))?;
    Ok(Order::Protect(at))
}

// 20.
pub fn present_order(asked: Asked, ranged: Result<usize, Status>) -> Result<Order, Status>
    requires { asked.p < 256 }
    ensures { (v : ℕ) → result ≡ steps (facts asked.chip) asked.slot asked.n asked.p v Present ranged }
{
    let facts = asked.chip.facts();
    Status::Unselected.unless(asked.slot.selected != 0)?;
    Status::Instruction.unless(facts.coded)?;
    Status::Length.unless(asked.n == 5 + asked.p)?;
    Status::Length.unless(asked.p == facts.digits)?;
    ranged?;
    Ok(Order::Present)
}

// Whether the card has D2: 06h alone.
fn has_change(chip: Chip) -> bool
    ensures { result ≡ has (facts chip) Change }
{
    chip.facts().coded && chip.facts().selects == 0x06
}

// D2.
pub fn change_order(asked: Asked, ranged: Result<usize, Status>) -> Result<Order, Status>
    requires { asked.p < 256 }
    ensures { (v : ℕ) → result ≡ steps (facts asked.chip) asked.slot asked.n asked.p v Change ranged }
{
    Status::Unselected.unless(asked.slot.selected != 0)?;
    Status::Instruction.unless(has_change(asked.chip))?;
    Status::Length.unless(asked.n == 5 + asked.p)?;
    Status::Length.unless(asked.p == asked.chip.facts().digits)?;
    ranged?;
    Status::Denied.unless(!locked(asked))?;
    Ok(Order::Change)
}
