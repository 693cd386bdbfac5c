// The input of a session: what a reader gives, as standard input, is brought into a buffer, no further than the record needs that stands first.
// Inner functions: each says every byte of the buffer that does not come from the reader, and asks that the places lie in it.
#![tactic(auto)]

ghost use Rattle.std.specs.Prelude.{◌≡◌, true, false, ◌+◌, ◌≤◌, ◌<◌, length, take, drop};
ghost use Rattle.words.specs.Bytes.{over};
ghost use Rattle.words.specs.Bounds.{longest_record};
ghost use Rattle.records.specs.Records.{record_at};
ghost use Rattle.input.specs.Input.{part, wants, behind, Brings};
ghost use Rattle.std.specs.Io.KnownBytes.{Consumes, IsAtEnd};

use records::{Record, Stop};
use std::io::Read;

// The record that stands first among the unused bytes of the buffer, and where these lie.
// Two places and no slice: the bytes stay in the lent buffer, fixed memory, which the next read is into; no Range, which is not Copy.
#[derive(Clone, Copy)]
pub struct Brought {
    pub found: Result<Record, Stop>,
    pub at: usize,
    pub end: usize,
}

// A reader, and whether a read of it failed. Its input counts as ended there.
// A flag and no Result: what came before a read that failed is used all the same, and told with it.
#[derive(Drop)]
pub struct Source<R> {
    pub reader: R,
    pub failed: bool,
}

// The unused bytes go to the front of the buffer.
fn slide(input: &mut [u8], at: usize, n: usize)
    requires { at + n ≤ length input.old }
    ensures { input.new ≡ over (take n (drop at input.old)) input.old }
{
    if at == 0 {
        return;
    }
    input.copy_within(at..at + n, 0);
}

// One read behind the bytes that stand there, which stay: how many came, 0 at the end of the input, and where the read failed. There is room
// for one byte at least, so that 0 is not what a full buffer gives. Where it is known what the reader has left, these are the next of that.
fn read_more<R: Read>(source: &mut Source<R>, input: &mut [u8], end: usize) -> usize
    requires { end < length input.old }
    ensures places { (end + result ≤ length input.old) × (take end input.new ≡ take end input.old) }
    ensures taken { Consumes (R.remaining source.old.reader) (R.remaining source.new.reader) (take result (drop end input.new)) }
    ensures ended { result ≡ 0 → source.new.failed ≡ false → IsAtEnd (R.remaining source.new.reader) }
{
    match source.reader.read(&mut input[end..]) {
        Ok(n) => n,
        Err(_) => {
            source.failed = true;
            0
        }
    }
}

// Whether more input can make another reading of it.
fn wants_more(found: Result<Record, Stop>) -> bool
    ensures { result ≡ wants found }
{
    matches!(found, Err(Stop::Cut | Stop::End))
}

// Reads on until the record at the front of the unused bytes is there whole, or is bad, or the input ends: no further than that record needs.
// What it takes from the reader stands behind the bytes that were unused before, and nothing else is taken.
// No `for`: it reads on until a reading wants no more, and counts nothing.
// Two places and no struct of them: a turn of the session moves the first alone, and each slice here takes them apart again.
pub fn bring<R: Read>(source: &mut Source<R>, input: &mut [u8], from: usize, to: usize) -> Brought
    requires { (longest_record ≤ length input.old) × (from ≤ to) × (to ≤ length input.old) }
    ensures brings { Brings input.old from to input.new result }
    ensures taken { Consumes (R.remaining source.old.reader) (R.remaining source.new.reader) (behind from to input.new result) }
    ensures no_further { wants (record_at (part input.old from to) 0) ≡ false → source.new ≡ source.old }
    ensures ended { wants result.found ≡ true → source.new.failed ≡ false → IsAtEnd (R.remaining source.new.reader) }
{
    let mut at = from;
    let mut end = to;
    loop {
        let found = records::read(&input[at..end], 0);
        if !wants_more(found) {
            return Brought { found, at, end };
        }
        slide(input, at, end - at);
        end -= at;
        at = 0;
        let got = read_more(source, input, end);
        if got == 0 {
            return Brought { found, at, end };
        }
        end += got;
    }
}
