// Step 7: where a command is to act, from INS, P1P2 and P3 to an address or the refusal. Every command gets its place here, in two steps: `meant`, what INS means
// on a card and the top bit that it carries; then, of these, `place`, the only function that looks at P1P2: the range test of the 17 bits. Inner functions: they ask
// that five bytes are there, that an address has 17 bits and that P3 comes from a byte. The rules are those of `steps`.
#![tactic(auto, using(words::proofs::Choices::choices), unfolding(steps::specs::Steps::range_test))]

ghost use Rattle.std.specs.Prelude.{◌≡◌, ◌+◌, ◌≤◌, ◌<◌, length};
ghost use Rattle.words.specs.Bounds.{addresses};
ghost use Rattle.words.specs.Choice.{◌⇒◌⁏◌};
ghost use Rattle.chips.specs.Kinds.{facts};
ghost use Rattle.steps.specs.declared.Ins.TheVariants.{Write};
ghost use Rattle.steps.specs.Steps.{p1p2, p3, seventeen, meant, top, place_fits, range_test};

use chips::Chip;
use steps::{Ins, Status};
use words::{ADDRESSES, wide};

// What INS means on a card: the instruction, and the top bit of its address.
#[derive(Clone, Copy)]
pub struct Meaning {
    pub ins: Ins,
    pub top: usize,
}

// Another instruction with the top bit 1, on a card of 17 address bits; on any other card INS itself.
fn raised(chip: Chip, ins: Ins, other: Ins) -> Meaning
    ensures { (result.ins ≡ (seventeen (facts chip) ⇒ other ⁏ ins)) × (result.top ≡ (seventeen (facts chip) ⇒ addresses ⁏ 0)) × (result.top ≤ addresses) }
{
    if chip.facts().memory <= ADDRESSES {
        return Meaning { ins, top: 0 };
    }
    Meaning {
        ins: other,
        top: ADDRESSES,
    }
}

// B1 and D1 are B0 and D0 there.
pub fn meant(chip: Chip, ins: Ins) -> Meaning
    ensures { (result.ins ≡ meant (facts chip) ins) × (result.top ≡ top (facts chip) ins) × (result.top ≤ addresses) }
{
    match ins {
        Ins::Counter => raised(chip, ins, Ins::Read),
        Ins::Protect => raised(chip, ins, Ins::Write),
        _ => Meaning { ins, top: 0 },
    }
}

// Whether n bytes from the address on lie in the memory and none of them is the counter. A card without a code has none to ask for: its row has
// it past the memory, so the test of the code changes no answer and is there for the speed of a write.
fn writable(chip: Chip, at: usize, n: usize) -> bool
    requires { (at < addresses + addresses) × (n < 256) }
    ensures { result ≡ place_fits (facts chip) Write at n }
{
    at + n <= chip.facts().memory
        && (!chip.facts().coded || at + n <= chip.facts().counter || chip.facts().counter < at)
}

// Whether the address fits what INS means, and as many bytes from it on as P3 says.
fn fits(chip: Chip, ins: Ins, at: usize, p: usize) -> bool
    requires { (at < addresses + addresses) × (p < 256) }
    ensures { result ≡ place_fits (facts chip) ins at p }
{
    match ins {
        Ins::Read => at + p <= chip.facts().memory,
        Ins::Write => writable(chip, at, p),
        Ins::Protect => at + p <= chip.facts().reach,
        Ins::Bits => at + 8 * p <= chip.facts().covered,
        Ins::Select | Ins::Page | Ins::Counter | Ins::Present => at == 0,
        Ins::Change => at == 1,
        Ins::Other => false,
    }
}

// P1P2, P1 high, as the rule has it (`p1p2`). That five bytes are there stays a clause: `command` has looked, and a type for these three functions is no plainer.
fn p1p2(apdu: &[u8]) -> usize
    requires { 5 ≤ length apdu.now }
    ensures { (result ≡ p1p2 apdu.now) × (result < addresses) }
{
    256 * wide(apdu[2]) + wide(apdu[3])
}

// From the instruction that INS means, the top bit that it carries, P1P2 and P3 to the address, or the refusal.
pub fn place(chip: Chip, ins: Ins, top: usize, apdu: &[u8]) -> Result<usize, Status>
    requires { (top ≤ addresses) × (5 ≤ length apdu.now) }
    ensures { result ≡ range_test (facts chip) ins (top + p1p2 apdu.now) (p3 apdu.now) }
{
    let at = top + p1p2(apdu);
    Status::Place.unless(fits(chip, ins, at, wide(apdu[4])))?;
    Ok(at)
}
