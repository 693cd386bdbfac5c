// What a status screen shows of the card that is in: tries left, and the number of protected bytes. No offered function has a `requires`: any
// image has its counts. The rules are written in specs/Counts.antt.
#![tactic(auto, using(words::proofs::Tests::chains))]

ghost use Rattle.std.specs.Prelude.{◌≡◌, ◌%◌, ◌≤◌, length, Some};
ghost use Rattle.words.specs.Bounds.{largest};
ghost use Rattle.chips.specs.Kinds.{facts};
ghost use Rattle.bits.specs.Bits.{zeros_of};
ghost use Rattle.counts.specs.Counts.{tries_of, protected_of};

use chips::Chip;
use words::{byte_at, eight_at, four_at};

// Tries left of the card that is in; 0 where it has no code, and with none.
pub fn tries_of(holds: Option<Chip>, image: &[u8]) -> u8
    ensures { result ≡ tries_of holds image.now }
{
    match holds {
        Some(chip) if chip.facts().coded => codes::tries_left(byte_at(image, chip.facts().counter)),
        _ => 0,
    }
}

// Tries left of a card, in an image of its length; 0 where it has no code.
// Not `tries_of`: that one promises of any image, and so tests where the image ends; here the counter stands in it.
pub fn tries_in(chip: Chip, image: &[u8]) -> u8
    requires { length image.now ≡ (facts chip).size }
    ensures { result ≡ tries_of (Some chip) image.now }
{
    if chip.facts().coded {
        codes::tries_left(image[chip.facts().counter])
    } else {
        0
    }
}

// How many bits of these bytes are 0: eight bytes at a time, and four where they are left.
#[tactic(auto, using(crate::proofs::ZeroLaws::front_taken, crate::proofs::ZeroLaws::zeros_four, crate::proofs::ZeroLaws::four_few, bits::proofs::CountLaws::zeros_few, bits::proofs::CountLaws::zeros_end))]
fn zeros_in(bytes: &[u8]) -> usize
    requires { (length bytes.now ≤ largest) × (length bytes.now % 4 ≡ 0) }
    ensures { result ≡ zeros_of bytes.now }
{
    let mut zeros = 0;
    for eight in bytes.chunks_exact(8) {
        zeros += 64 - usize::count_ones(eight_at(eight, 0)) as usize;
    }
    if bytes.len() % 8 != 0 {
        zeros += 32 - usize::count_ones(four_at(bytes, bytes.len() - 4)) as usize;
    }
    zeros
}

// The number of protected bytes of a card, in an image of its length: the zero bits of its protection bytes. An I2C card has none and is done at once.
#[tactic(auto, using(words::proofs::Tests::chains, chips::proofs::KindLaws::laid, bits::proofs::CountLaws::count_within, bits::proofs::CountLaws::zeros_few), unfolding(bits::specs::Bits::protected_count))]
pub fn count_in(chip: Chip, image: &[u8]) -> u16
    requires { length image.now ≡ (facts chip).size }
    ensures { result ≡ protected_of (Some chip) image.now }
{
    if chip.facts().covered == 0 {
        return 0;
    }
    let from = chip.facts().bits;
    let to = from + chip.facts().covered / 8;
    zeros_in(&image[from..to]) as u16
}

// The number of protected bytes of the card that is in: `count_in`'s, and 0 with none and in an image that has not the card's length.
pub fn protected_of(holds: Option<Chip>, image: &[u8]) -> u16
    ensures { result ≡ protected_of holds image.now }
{
    match holds {
        Some(chip) if image.len() == chip.facts().size => count_in(chip, image),
        _ => 0,
    }
}
