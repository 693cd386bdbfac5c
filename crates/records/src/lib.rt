// The records of a session: a two-byte mark, a length (2 bytes, low first), a body. Each is read from a slice at a place, without a copy.
// No public function has a `requires`: any bytes and any place have their one reading.
#![tactic(auto)]

ghost use Rattle.std.specs.Prelude.{◌≡◌};
ghost use Rattle.records.specs.Records.{mark_of, most, record_at};

use words::{LARGEST_HELD, wide};

// What a record does.
#[derive(Clone, Copy, PartialEq)]
pub enum Mark {
    Insert,
    Remove,
    Message,
}

// A whole record: its body starts at start and ends before end, which is the place of the next one.
#[derive(Clone, Copy)]
pub struct Record {
    pub mark: Mark,
    pub start: usize,
    pub end: usize,
}

// Why no whole record stands at a place.
#[derive(Clone, Copy)]
pub enum Stop {
    // A header or a body that runs past the end of the slice.
    Cut,
    // Another mark, or a body that is too long for its mark.
    Bad,
    // Nothing left.
    End,
}

// The two bytes come as one number, the first one high, so that 43 49 is 0x4349.
// An Option and no TryFrom: what is no mark has no error of its own; `read` says by which `Stop` it stops.
pub fn mark_of(word: usize) -> Option<Mark>
    ensures { result ≡ mark_of word }
{
    match word {
        0x4349 => Some(Mark::Insert),
        0x434F => Some(Mark::Remove),
        0x4F4D => Some(Mark::Message),
        _ => None,
    }
}

impl Mark {
    // The longest body.
    pub fn most(self) -> usize
        ensures { result ≡ most self }
    {
        match self {
            Mark::Insert => 1 + LARGEST_HELD,
            Mark::Remove => 0,
            Mark::Message => 1 + LARGEST_HELD,
        }
    }
}

// The record at a place, its two numbers as the rules have them (`word_at`, `length_at`). A header that is there whole decides whether the record is bad; then the body is there whole or cut.
pub fn read(input: &[u8], at: usize) -> Result<Record, Stop>
    ensures { result ≡ record_at input.now at }
{
    if input.len() <= at {
        return Err(Stop::End);
    }
    if input.len() - at < 4 {
        return Err(Stop::Cut);
    }
    let mark = mark_of(256 * wide(input[at]) + wide(input[at + 1])).ok_or(Stop::Bad)?;
    let len = wide(input[at + 2]) + 256 * wide(input[at + 3]);
    if mark.most() < len {
        return Err(Stop::Bad);
    }
    let start = at + 4;
    if input.len() - start < len {
        return Err(Stop::Cut);
    }
    Ok(Record {
        mark,
        start,
        end: start + len,
    })
}
