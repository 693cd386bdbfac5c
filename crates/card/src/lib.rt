// Which images are a card of a kind: number 3 of what is turned down, and where such a card has its protection bits. No function has a `requires`.
// The rule is written in specs/Images.antt.
#![tactic(auto)]

ghost use Rattle.std.specs.Prelude.{◌≡◌};
ghost use Rattle.chips.specs.Kinds.{facts};
ghost use Rattle.card.specs.Images.{is_card};

use bits::Protection;
use chips::Chip;
use words::four_at;

// Where a card of this chip has its protection bits.
pub fn protection(chip: Chip) -> Protection
    ensures { (result.bits ≡ (facts chip).bits) × (result.covered ≡ (facts chip).covered) }
{
    Protection {
        bits: chip.facts().bits,
        covered: chip.facts().covered,
    }
}

// Whether an image is a card of this chip: its length is the chip's, its counter is at most full, the counter's own protection bit is
// not 0, and the bytes that have to be 00h are. A card without a code has no counter; one with a code has no such bytes. They are the
// last four.
#[tactic(auto, using(words::proofs::Tests::conditions, crate::proofs::ImageLaws::plain_or_coded), unfolding(crate::specs::Images::is_card))]
pub fn is_card(chip: Chip, image: &[u8]) -> bool
    ensures { result ≡ is_card (facts chip) image.now }
{
    if image.len() != chip.facts().size {
        return false;
    }
    if !chip.facts().coded {
        return chip.facts().zeros == chip.facts().size || four_at(image, chip.facts().zeros) == 0;
    }
    let at = chip.facts().counter;
    image[at] <= chip.facts().full && !protection(chip).protects(image, at)
}
