// The counter and the code of a lent image, over plain numbers: a try is spent, and then the codes are compared.
// Inner functions: those on an image ask that counter and code lie in it. The rules are written in specs/: Counters, Codes.
// Counter, full value and code stand apart, as the rules take them: a struct of the three would be taken apart in each clause.
#![tactic(auto)]

ghost use Rattle.std.specs.Prelude.{◌≡◌, ◌+◌, ◌≤◌, ◌<◌, length};
ghost use Rattle.words.specs.Bytes.{same};
ghost use Rattle.codes.specs.Counters.{tries, spent};
ghost use Rattle.codes.specs.Codes.{code_in, spending, judging, presenting, accepts};

use words::same_bytes;

// Tries left are the one bits of the counter.
pub fn tries_left(counter: u8) -> u8
    ensures { result ≡ tries counter }
{
    counter.count_ones() as u8
}

// The counter with one try spent: its lowest one bit is cleared. A counter of 0 stays.
fn spend(counter: u8) -> u8
    ensures { result ≡ spent counter }
{
    if counter == 0 {
        return 0;
    }
    counter - (1 << counter.trailing_zeros())
}

// A try is spent: the counter's lowest one bit is cleared.
#[tactic(auto, unfolding(crate::specs::Codes::spending))]
fn spend_try(image: &mut [u8], counter: usize)
    requires { counter < length image.old }
    ensures { image.new ≡ spending counter image.old }
{
    image[counter] = spend(image[counter]);
}

// The codes are compared: where they are equal the counter is full again. Whether they are.
fn judge(image: &mut [u8], counter: usize, full: u8, code: usize, guess: &[u8]) -> bool
    requires { (counter < length image.old) × (code + length guess.now ≤ length image.old) }
    ensures { (result ≡ same guess.now (code_in code (length guess.now) image.old))
        × (image.new ≡ judging counter full code (length guess.now) image.old guess.now) }
{
    if same_bytes(guess, &image[code..code + guess.len()]) {
        image[counter] = full;
        return true;
    }
    false
}

// A code is presented: with no try left nothing changes; else a try is spent, and only then the codes are compared. Whether it opens.
pub fn present(image: &mut [u8], counter: usize, full: u8, code: usize, guess: &[u8]) -> bool
    requires { (counter < length image.old) × (code + length guess.now ≤ length image.old) }
    ensures { (result ≡ accepts counter full code (length guess.now) image.old guess.now)
        × (image.new ≡ presenting counter full code (length guess.now) image.old guess.now) }
{
    if tries_left(image[counter]) == 0 {
        return false;
    }
    spend_try(image, counter);
    judge(image, counter, full, code, guess)
}
