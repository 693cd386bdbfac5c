// Storing bytes into a lent image, and the page writes of an I2C card, over plain numbers.
// Inner functions: each asks that its range lies in the image. The rules are written in specs/Pages.antt.
// The two pages stand apart, as the rules take them, and address and data: a struct would be taken apart in each clause.
#![tactic(auto)]

ghost use Rattle.std.specs.Prelude.{◌≡◌, ◌+◌, ◌%◌, ◌≤◌, ◌<◌, length};
ghost use Rattle.std.proofs.lemmas.List.Edits.{sets};
ghost use Rattle.words.specs.Bounds.{largest};
ghost use Rattle.pages.specs.Pages.{cut_start, lands, page_write};
ghost use Rattle.pages.specs.Inner.{OnPages};

use copies::lay;

// The data stored from `at` on.
pub fn store(image: &mut [u8], at: usize, data: &[u8])
    requires { at + length «data».now ≤ length image.old }
    ensures { image.new ≡ sets image.old at «data».now }
{
    lay(data, &mut image[at..]);
}

// Where the cut starts that address a is in, the one before having started at c.
fn cut_start(reader: usize, c: usize, a: usize) -> usize
    requires { 0 < reader }
    ensures { result ≡ cut_start reader c a }
{
    if a % reader == 0 { a } else { c }
}

// Where the byte for address a lands, in a cut that starts at c.
#[tactic(auto, unfolding(crate::specs::Pages::lands))]
fn landing(chip: usize, c: usize, a: usize) -> usize
    requires { (0 < chip) × (chip ≤ largest) × (c ≤ a) × (a ≤ largest) }
    ensures { result ≡ lands chip c a }
{
    let low = c % chip;
    c - low + (low + (a - c)) % chip
}

// The data written from `at` on, run by run: cut at the reader page, each cut running round on the chip page. A run goes to the end of
// the reader page, of the chip page or of the data, whichever comes first.
fn write_round(image: &mut [u8], at: usize, data: &[u8], reader: usize, chip: usize)
    requires { (at + length «data».now ≤ length image.old) × (0 < reader) × (0 < chip) × OnPages chip (length image.old) }
    ensures { image.new ≡ page_write reader chip image.old at at «data».now }
{
    let mut start = at;
    let mut a = at;
    let mut left = data;
    while !left.is_empty() {
        start = cut_start(reader, start, a);
        let to = landing(chip, start, a);
        let page = (reader - a % reader).min(chip - to % chip);
        let (run, rest) = left.split_at(page.min(left.len()));
        store(image, to, run);
        a += run.len();
        left = rest;
    }
}

// The data written from `at` on in pages. Where the reader page divides the chip page nothing runs round, and they are stored.
pub fn write(image: &mut [u8], at: usize, data: &[u8], reader: usize, chip: usize)
    requires { (at + length «data».now ≤ length image.old) × (0 < reader) × (0 < chip) × OnPages chip (length image.old) }
    ensures { image.new ≡ page_write reader chip image.old at at «data».now }
{
    if chip % reader == 0 {
        store(image, at, data);
        return;
    }
    write_round(image, at, data, reader, chip);
}
